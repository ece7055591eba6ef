//! What is proved of the size of low code and of images, as the contract of a function without code.
ghost use Rattle.op_sizes.specs.Claims.{ImagesAreSmall, InstructionsAreSmall, ProgramIsSmall, RoutinesAreSmall, WeightsCoverLengths};

/// The low code of routines, each conversion of whose text stands behind what is written, and each label of which is a node. `lengths` says
/// that code has no more instructions than it counts for, `instructions` that one instruction of a routine's managed code gets no more than
/// three times what the routine is charged, `routines` that all blocks of the routine come to no more than the nodes of its body and its
/// variables allow, and `program` both of what stands below all routines. `images` says that the code, the constants and the initial globals
/// of the image of optimized code have together no more bytes than the size of the program.
pub fn low_code_is_small()
    ensures lengths { WeightsCoverLengths }
    ensures instructions { InstructionsAreSmall }
    ensures routines { RoutinesAreSmall }
    ensures program { ProgramIsSmall }
    ensures images { ImagesAreSmall }
{}
