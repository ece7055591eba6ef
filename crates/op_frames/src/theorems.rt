//! What is proved of the low code of programs, as the contract of a function without code.
ghost use Rattle.op_frames.specs.Claims.{CodeIsBuildable, CodeIsMade, CodeIsValid, FramesAreCharged, FramesAreNeeded, GlobalsHaveRoom, LiteralsAreLaidOut, RegistersAreCharged, SizesAreSound, WholesAreListed};

/// The low code of a program whose managed code fits may be built. `valid` says that it names what is there and has its operands in
/// range, `laid_out` that its literals are in the constants, `buildable` both with the global variables, and `globals` for which
/// programs these have room. `made` says when the code of items fits, `registers` and `frames` how the charge of a routine bounds its
/// registers and its frame, `wholes` that temporaries of record and array types are counted once, `sizes` what soundness says of sizes, and
/// `needed` that a frame takes no more than valid managed code is said to need.
pub fn low_code_is_valid()
    ensures valid { CodeIsValid }
    ensures laid_out { LiteralsAreLaidOut }
    ensures buildable { CodeIsBuildable }
    ensures globals { GlobalsHaveRoom }
    ensures made { CodeIsMade }
    ensures registers { RegistersAreCharged }
    ensures frames { FramesAreCharged }
    ensures wholes { WholesAreListed }
    ensures sizes { SizesAreSound }
    ensures needed { FramesAreNeeded }
{}
