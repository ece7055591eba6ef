//! What is proved of parts that are checked, as the contract of a function without code.
ghost use Rattle.op_typed.specs.Claims.{ConstantsAreSound, ExpressionsAreTyped, StatementsAreTyped};

/// Where every name that is visible stands for what is in the program, a part breaks a rule or has its typed form: a constant expression a constant
/// that is one of its type, an expression a constant or a typed tree, and a statement one that is typed where it stands. They are so in this program
/// and in each one that it grows to, as declarations behind the part put rows into its tables.
pub fn parts_are_typed()
    ensures constants { ConstantsAreSound }
    ensures expressions { ExpressionsAreTyped }
    ensures statements { StatementsAreTyped }
{}
