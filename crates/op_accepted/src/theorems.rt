//! What is proved of programs that break no rule, as the contract of a function without code.
ghost use Rattle.op_accepted.specs.Claims.{AcceptedIsFit, SmallIsShort};

/// A program that `check` of op_check_unit accepts, with at most 1,023 units, passes `is_plain` of op_plain: `accepted` says it but for the lengths of
/// its texts, and `short` that these are short where the program's size is no more than an image may take.
pub fn accepted_is_plain()
    ensures accepted { AcceptedIsFit }
    ensures short { SmallIsShort }
{}
