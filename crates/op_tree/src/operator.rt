//! Operators, and how tightly they bind (Free Pascal Reference Guide, "Operators").
ghost use Rattle.std.specs.Prelude.{◌≡◌};
ghost use Rattle.op_tree.specs.Operator.{level_of, operator_of, prefix_operator_of};

use op_scan::TokenKind;

/// What stands between two operands.
#[derive(Clone, Copy)]
pub enum Operator {
    Equal,
    NotEqual,
    Less,
    Greater,
    LessEqual,
    GreaterEqual,
    In_,
    Is,
    Add,
    Subtract,
    Or,
    Xor,
    Multiply,
    Slash,
    Div,
    Mod_,
    And,
    Shl,
    Shr,
    As_,
}

/// What stands before an operand.
#[derive(Clone, Copy)]
pub enum PrefixOperator {
    Not,
    Plus,
    Minus,
}

/// How tightly an operator binds, the loosest first.
#[derive(Clone, Copy, PartialEq, Eq)]
pub enum Level {
    Relational,
    Additive,
    Multiplicative,
}

/// The operator that a token is between two operands.
pub fn operator_of(kind: &TokenKind) -> Option<Operator>
    ensures { result ≡ operator_of kind.now }
{
    match kind {
        TokenKind::Equal => Some(Operator::Equal),
        TokenKind::NotEqual => Some(Operator::NotEqual),
        TokenKind::Less => Some(Operator::Less),
        TokenKind::Greater => Some(Operator::Greater),
        TokenKind::LessEqual => Some(Operator::LessEqual),
        TokenKind::GreaterEqual => Some(Operator::GreaterEqual),
        TokenKind::In_ => Some(Operator::In_),
        TokenKind::Is => Some(Operator::Is),
        TokenKind::Plus => Some(Operator::Add),
        TokenKind::Minus => Some(Operator::Subtract),
        TokenKind::Or => Some(Operator::Or),
        TokenKind::Xor => Some(Operator::Xor),
        TokenKind::Star => Some(Operator::Multiply),
        TokenKind::Slash => Some(Operator::Slash),
        TokenKind::Div => Some(Operator::Div),
        TokenKind::Mod_ => Some(Operator::Mod_),
        TokenKind::And => Some(Operator::And),
        TokenKind::Shl => Some(Operator::Shl),
        TokenKind::Shr => Some(Operator::Shr),
        TokenKind::As_ => Some(Operator::As_),
        _ => None,
    }
}

/// The operator that a token is before an operand.
pub fn prefix_operator_of(kind: &TokenKind) -> Option<PrefixOperator>
    ensures { result ≡ prefix_operator_of kind.now }
{
    match kind {
        TokenKind::Not => Some(PrefixOperator::Not),
        TokenKind::Plus => Some(PrefixOperator::Plus),
        TokenKind::Minus => Some(PrefixOperator::Minus),
        _ => None,
    }
}

impl Operator {
    /// How tightly it binds.
    pub fn level(self) -> Level
        ensures { result ≡ level_of self }
    {
        match self {
            Operator::Equal
            | Operator::NotEqual
            | Operator::Less
            | Operator::Greater
            | Operator::LessEqual
            | Operator::GreaterEqual
            | Operator::In_
            | Operator::Is => Level::Relational,
            Operator::Add | Operator::Subtract | Operator::Or | Operator::Xor => Level::Additive,
            Operator::Multiply
            | Operator::Slash
            | Operator::Div
            | Operator::Mod_
            | Operator::And
            | Operator::Shl
            | Operator::Shr
            | Operator::As_ => Level::Multiplicative,
        }
    }
}
