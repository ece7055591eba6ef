//! Where the registers of temporaries and the blocks of run-time errors stand.
ghost use Rattle.op_compute.specs.Bank.{error_block_of, operands_of, place_of_error, register_of, scratch_of, work_of};
ghost use Rattle.std.specs.Prelude.{◌≡◌, ◌+◌, IfOk};

use op_base::NoMemory;
use op_low::VirtualRegister;
use op_mir::TemporaryId;
use op_rv::BlockId;

/// The registers and the blocks of a routine by their numbers.
#[derive(Clone, Copy)]
pub struct Bank {
    /// The register of the first temporary. The others follow it.
    pub temporaries: u32,
    /// The first scratch register. The others follow it.
    pub scratch: u32,
    /// The block of the first run-time error. Those of the others follow it, in the order of `RuntimeError`.
    pub errors: u32,
}

/// An error that ends a program while it runs (Free Pascal User's Guide, "Run-time errors").
#[derive(Clone, Copy)]
pub enum RuntimeError {
    /// 200
    DivisionByZero,
    /// 201
    RangeCheck,
    /// 202
    StackOverflow,
    /// 215
    IntegerOverflow,
}

/// What computations work with: three scratch registers, and the blocks of errors 200, 201, 202 and 215.
#[derive(Clone, Copy)]
pub struct Work {
    pub first: VirtualRegister,
    pub second: VirtualRegister,
    pub third: VirtualRegister,
    pub division: BlockId,
    pub range: BlockId,
    pub stack: BlockId,
    pub overflow: BlockId,
}

/// The registers of a computation's operands and of its result. The two operands are one where there is only one.
#[derive(Clone, Copy)]
pub struct Operands {
    pub to: VirtualRegister,
    pub left: VirtualRegister,
    pub right: VirtualRegister,
}

/// A number so far behind another one.
fn numbered(first: u32, n: u32) -> Result<u32, NoMemory>
    ensures { IfOk result (λ number. number ≡ first + n) }
{
    first.checked_add(n).ok_or(NoMemory)
}

impl Bank {
    /// The register of a temporary.
    pub fn temporary(self, temporary: TemporaryId) -> Result<VirtualRegister, NoMemory>
        ensures { IfOk result (λ register. register ≡ register_of self temporary) }
    {
        Ok(VirtualRegister(numbered(self.temporaries, temporary.0)?))
    }

    /// A scratch register, counted from 0.
    pub fn scratch(self, n: u32) -> Result<VirtualRegister, NoMemory>
        ensures { IfOk result (λ register. register ≡ scratch_of self n) }
    {
        Ok(VirtualRegister(numbered(self.scratch, n)?))
    }

    /// The block that ends the program with an error.
    pub fn error_block(self, error: RuntimeError) -> Result<BlockId, NoMemory>
        ensures { IfOk result (λ block. block ≡ error_block_of self error) }
    {
        Ok(BlockId(numbered(self.errors, error.place())?))
    }

    /// The scratch registers and the blocks of errors.
    pub fn work(self) -> Result<Work, NoMemory>
        ensures { IfOk result (λ work. work ≡ work_of self) }
    {
        Ok(Work {
            first: self.scratch(0)?,
            second: self.scratch(1)?,
            third: self.scratch(2)?,
            division: self.error_block(RuntimeError::DivisionByZero)?,
            range: self.error_block(RuntimeError::RangeCheck)?,
            stack: self.error_block(RuntimeError::StackOverflow)?,
            overflow: self.error_block(RuntimeError::IntegerOverflow)?,
        })
    }

    /// The registers of three temporaries.
    pub fn operands(
        self,
        to: TemporaryId,
        left: TemporaryId,
        right: TemporaryId,
    ) -> Result<Operands, NoMemory>
        ensures { IfOk result (λ operands. operands ≡ operands_of self to left right) }
    {
        Ok(Operands {
            to: self.temporary(to)?,
            left: self.temporary(left)?,
            right: self.temporary(right)?,
        })
    }
}

impl RuntimeError {
    fn place(self) -> u32
        ensures { result ≡ place_of_error self }
    {
        match self {
            RuntimeError::DivisionByZero => 0,
            RuntimeError::RangeCheck => 1,
            RuntimeError::StackOverflow => 2,
            RuntimeError::IntegerOverflow => 3,
        }
    }
}
