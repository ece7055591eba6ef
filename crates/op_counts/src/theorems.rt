//! What is proved of the number of holders, as the contract of a function without code.
ghost use Rattle.op_counts.specs.Claims.{HoldersAreCounted};

/// How many holders a name has, in every state of the source machine. `counted` says that the places which contain it are as many as the sum
/// over the values of all holders says.
pub fn holders_are_counted()
    ensures counted { HoldersAreCounted }
{}
