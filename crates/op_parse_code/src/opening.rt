//! What the first token of a part tells.
ghost use Rattle.op_parse_code.specs.Opening.{OpensFactor, OpensRoot, OpensSelector, OpensStatement};

use op_scan::TokenKind;
use op_tree::{PrefixOperator, prefix_operator_of};

/// How a factor begins.
#[derive(Clone, Copy)]
pub enum FactorOpening {
    Number(u32),
    Nil,
    Set,
    Literal,
    Inherited,
    Prefix(PrefixOperator),
    Designator,
    /// No factor begins so.
    Nothing,
}

pub fn factor_opening(kind: &TokenKind) -> FactorOpening
    ensures { OpensFactor result kind.now }
{
    match kind {
        TokenKind::Number(value) => FactorOpening::Number(*value),
        TokenKind::Nil => FactorOpening::Nil,
        TokenKind::OpenBracket => FactorOpening::Set,
        TokenKind::CharacterString(_) => FactorOpening::Literal,
        TokenKind::Inherited => FactorOpening::Inherited,
        TokenKind::Not => FactorOpening::Prefix(PrefixOperator::Not),
        TokenKind::Plus => FactorOpening::Prefix(PrefixOperator::Plus),
        TokenKind::Minus => FactorOpening::Prefix(PrefixOperator::Minus),
        TokenKind::Identifier(_) => FactorOpening::Designator,
        TokenKind::String => FactorOpening::Designator,
        TokenKind::OpenParenthesis => FactorOpening::Designator,
        _ => FactorOpening::Nothing,
    }
}

/// How the root of a designator begins.
#[derive(Clone, Copy)]
pub enum RootOpening {
    Name,
    String,
    Bracket,
    /// No designator begins so.
    Nothing,
}

pub fn root_opening(kind: &TokenKind) -> RootOpening
    ensures { OpensRoot result kind.now }
{
    match kind {
        TokenKind::Identifier(_) => RootOpening::Name,
        TokenKind::String => RootOpening::String,
        TokenKind::OpenParenthesis => RootOpening::Bracket,
        _ => RootOpening::Nothing,
    }
}

/// How a selector begins.
#[derive(Clone, Copy)]
pub enum SelectorOpening {
    Member,
    Index,
    Call,
    /// No selector begins so.
    Nothing,
}

pub fn selector_opening(kind: &TokenKind) -> SelectorOpening
    ensures { OpensSelector result kind.now }
{
    match kind {
        TokenKind::Dot => SelectorOpening::Member,
        TokenKind::OpenBracket => SelectorOpening::Index,
        TokenKind::OpenParenthesis => SelectorOpening::Call,
        _ => SelectorOpening::Nothing,
    }
}

/// The words that begin a statement.
#[derive(Clone, Copy)]
pub enum Word {
    Begin,
    If_,
    Case,
    While_,
    Repeat,
    For_,
    Try_,
    Inherited,
}

/// How a statement begins.
#[derive(Clone, Copy)]
pub enum StatementOpening {
    Word(Word),
    Raise,
    Designator,
    /// No statement begins so, so an empty one stands there.
    Nothing,
}

pub fn statement_opening(kind: &TokenKind) -> StatementOpening
    ensures { OpensStatement result kind.now }
{
    match kind {
        TokenKind::Begin => StatementOpening::Word(Word::Begin),
        TokenKind::If_ => StatementOpening::Word(Word::If_),
        TokenKind::Case => StatementOpening::Word(Word::Case),
        TokenKind::While_ => StatementOpening::Word(Word::While_),
        TokenKind::Repeat => StatementOpening::Word(Word::Repeat),
        TokenKind::For_ => StatementOpening::Word(Word::For_),
        TokenKind::Try_ => StatementOpening::Word(Word::Try_),
        TokenKind::Raise => StatementOpening::Raise,
        TokenKind::Inherited => StatementOpening::Word(Word::Inherited),
        TokenKind::Identifier(_) => StatementOpening::Designator,
        TokenKind::String => StatementOpening::Designator,
        TokenKind::OpenParenthesis => StatementOpening::Designator,
        _ => StatementOpening::Nothing,
    }
}
