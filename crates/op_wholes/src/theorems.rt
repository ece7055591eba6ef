//! What is proved of the frames of routines, as the contract of a function without code.
ghost use Rattle.op_wholes.specs.Claims.{FramesFitCharges, NeedsFitCharges, WholesAreCharged, WholesAreNamed};

/// The temporaries of record and array types that a sound program without strings and references names. `named` says that a list of the
/// body's nodes has them all, `charged` that those of the list take no more than the words of the body, `frames` that the frame of a
/// routine so takes no more than the routine is charged, and `needs` that what its managed code is said to need is no more either.
pub fn wholes_are_charged()
    ensures named { WholesAreNamed }
    ensures charged { WholesAreCharged }
    ensures frames { FramesFitCharges }
    ensures needs { NeedsFitCharges }
{}
