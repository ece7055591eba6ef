//! Single instructions. Each function appends one; after an error the code is of no use.
ghost use Rattle.op_rt_text.specs.Names.{call};
ghost use Rattle.std.specs.Prelude.{◌≡◌, ◌∷◌, ◌++◌, ◌<◌, ◌^◌, [], OnOk, pos};

use op_base::{NoMemory, Sequence};
use op_compute::push;
use op_low::{Call, Instruction, VirtualRegister};
use op_rv::{LoadOp, RoutineId, StoreOp, Symbol};

pub fn push_address(
    code: &mut Vec<Instruction>,
    to: VirtualRegister,
    symbol: Symbol,
) -> Result<(), NoMemory>
    ensures { OnOk result (code.new.items ≡ code.old.items ++ Instruction.Address to symbol ∷ []) }
{
    push(code, Instruction::Address { to, symbol })
}

/// `offset` is below 2,048.
pub fn push_load(
    code: &mut Vec<Instruction>,
    op: LoadOp,
    to: VirtualRegister,
    base: VirtualRegister,
    offset: u32,
) -> Result<(), NoMemory>
    requires { offset < 2 ^ 11 }
    ensures { OnOk result (code.new.items ≡ code.old.items ++ Instruction.Load op to base (pos offset) ∷ []) }
{
    let instruction = Instruction::Load {
        op,
        to,
        base,
        offset: offset as i32,
    };
    push(code, instruction)
}

/// `offset` is below 2,048.
pub fn push_store(
    code: &mut Vec<Instruction>,
    op: StoreOp,
    value: VirtualRegister,
    base: VirtualRegister,
    offset: u32,
) -> Result<(), NoMemory>
    requires { offset < 2 ^ 11 }
    ensures { OnOk result (code.new.items ≡ code.old.items ++ Instruction.Store op value base (pos offset) ∷ []) }
{
    let instruction = Instruction::Store {
        op,
        value,
        base,
        offset: offset as i32,
    };
    push(code, instruction)
}

/// A call that has no landing.
pub fn push_call(
    code: &mut Vec<Instruction>,
    routine: RoutineId,
    arguments: Vec<VirtualRegister>,
    to: VirtualRegister,
) -> Result<(), NoMemory>
    ensures { OnOk result (code.new.items ≡ code.old.items ++ call routine.0 arguments.items to ∷ []) }
{
    let call = Call {
        arguments: Sequence::from(arguments),
        to,
        landing: None,
    };
    push(code, Instruction::Call { routine, call })
}
