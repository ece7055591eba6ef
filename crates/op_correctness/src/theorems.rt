//! What is proved of the image of a program, as the contract of a function without code.
ghost use Rattle.op_correctness.specs.Claims.{BetterCodeIsBuildable, CallsAreMeant, EndsAreMeant, FramesAreKept, ImageAgrees, ImageIsSmall, LimitIsPassed, LowCodeIsBuildable, ManagedCodeIsValid, NeverCalls};

/// The image of a sound program of the class that is compiled does what the program means: `agrees` says it of each step, over every input
/// and for ever, in so many steps for the work of the program's step, `ends` of where the image ends, and `calls` of where it calls for input;
/// `silent` says that it never does where the program never looks at its input, and `buildable` and `better` that low code may be built, as it
/// is and optimized. `sized` says that its code, its constants and its initial globals take together no more bytes
/// than the program's size, and `limited` that it is too large only where the program's size passes the limit too. `valid` says that the
/// managed code of which it is built is valid, and `kept` that each routine takes no more of the stack than that is said to need.
pub fn image_agrees()
    ensures agrees { ImageAgrees }
    ensures ends { EndsAreMeant }
    ensures calls { CallsAreMeant }
    ensures silent { NeverCalls }
    ensures buildable { LowCodeIsBuildable }
    ensures better { BetterCodeIsBuildable }
    ensures sized { ImageIsSmall }
    ensures limited { LimitIsPassed }
    ensures valid { ManagedCodeIsValid }
    ensures kept { FramesAreKept }
{}
