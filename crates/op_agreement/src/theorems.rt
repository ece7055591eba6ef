//! What is proved of the low code of a program, as the contract of a function without code.
ghost use Rattle.op_agreement.specs.Claims.{AgreesForEver, LowCodeFollows, NeverBecomesBad, ProgramsStart, SameBytes};
ghost use Rattle.op_simulation.specs.Matching.{Joins};

/// Low code goes along with managed code. `follows` says it of each step, for every program that fits: from states that stand for one another one step
/// of managed code is one or more of low code, to such states, with the same bytes of each stream (`traces`) and at no more than 32 times its
/// cost; or both end, by the same error.
/// `starts` says how a program begins, and `agrees` and `fine` what that is for ever.
pub fn low_code_goes_along()
    ensures traces { Joins SameBytes }
    ensures follows { LowCodeFollows }
    ensures starts { ProgramsStart }
    ensures agrees { AgreesForEver }
    ensures fine { NeverBecomesBad }
{}
