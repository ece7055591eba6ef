//! How a call of the tool ends.
ghost use Rattle.std.specs.Prelude.{◌≡◌};
ghost use Rattle.op_tool.specs.Status.{status_of};

use op_base::{Place, Rule};
use op_emu::FaultKind;

/// How a call of the tool ended.
#[derive(Clone, Copy, Debug, PartialEq, Eq)]
pub enum Finish {
    /// The command did its work. The number is the program's status.
    Ended(u8),
    /// The words are no command.
    Usage,
    /// The program breaks this rule.
    Refused(Rule, Place),
    /// A file or the input could not be read.
    ReadFault,
    /// An output failed. Each output has got a front of what it would have got.
    WriteFault,
    /// The program had not ended after the steps that were allowed.
    Spent,
    /// The allocator had no room. It is the one answer that no contract rules out.
    NoMemory,
    /// The first condition on images that fails, 1 to 9.
    BadImage(u8),
    /// The next step has no row in the table of instructions. The number is the instruction's address.
    Faulted(FaultKind, u32),
    /// The image would be too large.
    Limit,
}

/// The status with which the program `opc` ends.
pub fn status(finish: &Finish) -> u8
    ensures { result ≡ status_of finish.now }
{
    match finish {
        Finish::Ended(status) => *status,
        Finish::Usage => 120,
        Finish::Refused(..) => 121,
        Finish::ReadFault => 122,
        Finish::WriteFault => 123,
        Finish::Spent => 124,
        Finish::NoMemory => 125,
        Finish::BadImage(_) | Finish::Faulted(..) | Finish::Limit => 126,
    }
}
