//! Tokens between the parts of a phrase.
ghost use Rattle.std.specs.Prelude.{◌≡◌, ℕ, ◌<◌, IfOk, IfErr, IfSome, MatchOption, length};
ghost use Rattle.op_parse_code.specs.Opening.{mark_of};
ghost use Rattle.op_parse_code.specs.Refusal.{Refuses};
ghost use Rattle.op_parse_code.specs.Whole.{Marked, NoMark};
ghost use Rattle.op_tree.specs.Terminal.{terminals};
ghost use Rattle.op_tree.specs.declared.position.Position.{Position};

use crate::ParseError;
use crate::error::syntax;
use op_base::Place;
use op_scan::{Token, TokenKind};

/// A word or symbol that stands between parts.
#[derive(Clone, Copy, PartialEq, Eq)]
pub enum Mark {
    Comma,
    Colon,
    Semicolon,
    DotDot,
    Dot,
    Assign,
    CloseParenthesis,
    CloseBracket,
    Then,
    Else_,
    Of,
    Do_,
    Until,
    In_,
    Except,
    Finally,
    End,
    Equal,
    OpenParenthesis,
    OpenBracket,
    Array,
    Record,
    Set,
    Case,
    Const_,
    Var,
    Inline,
    Begin,
    Interface,
    Implementation,
    Initialization,
    Finalization,
    Program,
    Uses,
    Class,
    Property,
    Unit,
    Type_,
}

fn mark_of(kind: &TokenKind) -> Option<Mark>
    ensures { result ≡ mark_of kind.now }
{
    match kind {
        TokenKind::Comma => Some(Mark::Comma),
        TokenKind::Colon => Some(Mark::Colon),
        TokenKind::Semicolon => Some(Mark::Semicolon),
        TokenKind::DotDot => Some(Mark::DotDot),
        TokenKind::Dot => Some(Mark::Dot),
        TokenKind::Assign => Some(Mark::Assign),
        TokenKind::CloseParenthesis => Some(Mark::CloseParenthesis),
        TokenKind::CloseBracket => Some(Mark::CloseBracket),
        TokenKind::Then => Some(Mark::Then),
        TokenKind::Else_ => Some(Mark::Else_),
        TokenKind::Of => Some(Mark::Of),
        TokenKind::Do_ => Some(Mark::Do_),
        TokenKind::Until => Some(Mark::Until),
        TokenKind::In_ => Some(Mark::In_),
        TokenKind::Except => Some(Mark::Except),
        TokenKind::Finally => Some(Mark::Finally),
        TokenKind::End => Some(Mark::End),
        TokenKind::Equal => Some(Mark::Equal),
        TokenKind::OpenParenthesis => Some(Mark::OpenParenthesis),
        TokenKind::OpenBracket => Some(Mark::OpenBracket),
        TokenKind::Array => Some(Mark::Array),
        TokenKind::Record => Some(Mark::Record),
        TokenKind::Set => Some(Mark::Set),
        TokenKind::Case => Some(Mark::Case),
        TokenKind::Const_ => Some(Mark::Const_),
        TokenKind::Var => Some(Mark::Var),
        TokenKind::Inline => Some(Mark::Inline),
        TokenKind::Begin => Some(Mark::Begin),
        TokenKind::Interface => Some(Mark::Interface),
        TokenKind::Implementation => Some(Mark::Implementation),
        TokenKind::Initialization => Some(Mark::Initialization),
        TokenKind::Finalization => Some(Mark::Finalization),
        TokenKind::Program => Some(Mark::Program),
        TokenKind::Uses => Some(Mark::Uses),
        TokenKind::Class => Some(Mark::Class),
        TokenKind::Property => Some(Mark::Property),
        TokenKind::Unit => Some(Mark::Unit),
        TokenKind::Type_ => Some(Mark::Type_),
        _ => None,
    }
}

/// The tokens behind a mark, where they begin with it.
pub fn behind_mark<'a>(mark: Mark, tokens: &'a [Token]) -> Option<&'a [Token]>
    ensures mark { MatchOption result (NoMark mark (terminals tokens.now)) (λ rest. (p : Position) × Marked mark 0 p (terminals tokens.now) (terminals rest.now)) }
    ensures shorter { IfSome result (λ rest. length rest.now < length tokens.now) }
{
    let (first, rest) = tokens.split_first()?;
    let found = mark_of(&first.kind)?;
    if found == mark { Some(rest) } else { None }
}

/// The tokens behind a mark, with which they must begin.
pub fn after_mark<'a>(
    mark: Mark,
    end: Place,
    tokens: &'a [Token],
) -> Result<&'a [Token], ParseError>
    ensures mark { IfOk result (λ rest. (p : Position) × Marked mark 0 p (terminals tokens.now) (terminals rest.now)) }
    ensures refused { IfErr result (λ e. (d : ℕ) → Refuses (Marked mark) d end (terminals tokens.now) e) }
    ensures shorter { IfOk result (λ rest. length rest.now < length tokens.now) }
{
    match behind_mark(mark, tokens) {
        Some(rest) => Ok(rest),
        None => Err(syntax(end, tokens)),
    }
}
