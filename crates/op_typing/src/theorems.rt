//! What is proved of the types in managed code, as the contract of a function without code.
ghost use Rattle.op_typing.specs.Claims.{CodeIsTyped, ItemsAreTyped, MirIsTyped};
ghost use Rattle.op_typing.specs.SimpleTests.{SimpleByTest};

/// The managed code of a sound program without strings and references has its operands at the types that they are used at: `items` says
/// it of the items of each routine, `code` of the instructions of its blocks and of the program's own code, and `made` of code that was
/// made. `test` says that a program is such a one where it passes a test.
pub fn code_is_typed()
    ensures items { ItemsAreTyped }
    ensures code { CodeIsTyped }
    ensures made { MirIsTyped }
    ensures test { SimpleByTest }
{}
