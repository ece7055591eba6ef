//! What is proved of programs that pass the test, as the contract of a function without code.
ghost use Rattle.op_plain.specs.Claims.{PlainByItems, PlainByTest};

/// A program that passes `is_plain` is of the class that the theorems of the compiler are about: `test` says all that they ask of the
/// typed program, and `items` that it is plain where the items of its bodies are.
pub fn program_is_plain()
    ensures test { PlainByTest }
    ensures items { PlainByItems }
{}
