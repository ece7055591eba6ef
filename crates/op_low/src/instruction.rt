//! Instructions of low code.

use crate::VirtualRegister;
use op_base::Sequence;
use op_rv::{AluOp, BlockId, BranchOp, ImmOp, LoadOp, RoutineId, ShiftOp, StoreOp, Symbol};

/// Where a write goes.
#[derive(Clone, Copy)]
pub enum Output {
    Console,
    Errors,
}

/// The operands of a call. Where the routine returns, its value is put in `to`, and the code goes on behind the call: the
/// normal successor. Where it raises, the code goes on at the block `landing`: the exceptional successor. With none the
/// caller raises in its turn.
#[derive(Drop)]
pub struct Call {
    pub arguments: Sequence<VirtualRegister>,
    pub to: VirtualRegister,
    pub landing: Option<BlockId>,
}

/// An instruction. A word is a number below 2^32, and arithmetic is that of the instruction table.
#[derive(Drop)]
pub enum Instruction {
    Const {
        to: VirtualRegister,
        value: u32,
    },
    Address {
        to: VirtualRegister,
        symbol: Symbol,
    },
    /// The address of a byte of the routine's locals, by its distance from their first byte.
    Local {
        to: VirtualRegister,
        offset: u32,
    },
    Move {
        to: VirtualRegister,
        from: VirtualRegister,
    },
    Alu {
        op: AluOp,
        to: VirtualRegister,
        left: VirtualRegister,
        right: VirtualRegister,
    },
    /// `imm` is -2,048 to 2,047.
    AluImm {
        op: ImmOp,
        to: VirtualRegister,
        left: VirtualRegister,
        imm: i32,
    },
    /// `amount` is 0 to 31.
    Shift {
        op: ShiftOp,
        to: VirtualRegister,
        left: VirtualRegister,
        amount: u8,
    },
    /// Of 1, 2 or 4 bytes, at an address that is a multiple of that. `offset` is -2,048 to 2,047.
    Load {
        op: LoadOp,
        to: VirtualRegister,
        base: VirtualRegister,
        offset: i32,
    },
    /// Of 1, 2 or 4 bytes, at an address that is a multiple of that. `offset` is -2,048 to 2,047.
    Store {
        op: StoreOp,
        value: VirtualRegister,
        base: VirtualRegister,
        offset: i32,
    },
    Call {
        routine: RoutineId,
        call: Call,
    },
    /// A call of the routine at an address.
    CallAt {
        address: VirtualRegister,
        call: Call,
    },
    /// To the block where the comparison holds, and on to the next instruction otherwise.
    Branch {
        op: BranchOp,
        left: VirtualRegister,
        right: VirtualRegister,
        block: BlockId,
    },
    Jump {
        block: BlockId,
    },
    /// Back to the normal successor of the caller's call.
    Return {
        value: VirtualRegister,
    },
    /// On to the exceptional successor of the caller's call.
    Raise,
    /// Takes at most `length` bytes of the input into memory at `buffer`; their number is put in `to`.
    Read {
        to: VirtualRegister,
        buffer: VirtualRegister,
        length: VirtualRegister,
    },
    /// Writes the `length` bytes of memory at `buffer`.
    Write {
        output: Output,
        buffer: VirtualRegister,
        length: VirtualRegister,
    },
    /// Ends the program with the low eight bits.
    Exit {
        status: VirtualRegister,
    },
}
