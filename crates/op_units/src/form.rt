//! The two forms that the grammar has and the profile leaves out, in the tokens of a text that a tree spells: `/` and the width of a fraction.
ghost use Rattle.std.specs.Prelude.{◌≡◌, ◌∷◌};
ghost use Rattle.std.specs.Option.{option_and_then, option_map};
ghost use Rattle.op_tree.specs.Terminal.{terminal_of, terminals};
ghost use Rattle.op_units.specs.Forms.{FirstForm, colon_behind, form_at, share_of};
ghost use Rattle.op_units.specs.Unbuilt.{named};

use crate::unbuilt::told;
use op_base::Refusal;
use op_scan::{Token, TokenKind};
use op_tree::{operator_of, prefix_operator_of};

const FLOATING_POINT: u8 = 1;

const FRACTION_WIDTH: u8 = 35;

/// What a token is to an expression in which it stands.
pub enum Share {
    Opens,
    Closes,
    Comma,
    Colon,
    Part,
    /// No expression has it.
    Nothing,
}

/// The first of these forms, as the refusal of it: rule 13 with its feature, at the token that tells it. None where the tokens have neither.
pub fn first_form(tokens: &[Token]) -> Option<Refusal>
    ensures { FirstForm (terminals tokens.now) result }
{
    let mut rest = tokens;
    while let Some((_, behind)) = rest.split_first() {
        if let Some(refusal) = form_at(rest) {
            return Some(refusal);
        }
        rest = behind;
    }
    None
}

/// The form that begins at the front of the tokens.
fn form_at(tokens: &[Token]) -> Option<Refusal>
    ensures { result ≡ option_and_then named (form_at (terminals tokens.now)) }
{
    let (first, rest) = tokens.split_first()?;
    match &first.kind {
        TokenKind::Slash => Some(told(FLOATING_POINT, first)),
        TokenKind::Colon => fraction_width(rest),
        _ => None,
    }
}

/// The next colon outside of brackets, if nothing but an expression stands in front of it.
fn fraction_width(tokens: &[Token]) -> Option<Refusal>
    ensures { result ≡ option_and_then named (option_map (λ q. (35, q)) (colon_behind 0 (terminals tokens.now))) }
{
    let mut open: usize = 0;
    let mut rest = tokens;
    while let Some((first, behind)) = rest.split_first() {
        match share_of(&first.kind) {
            Share::Opens => open += 1,
            Share::Closes => {
                if open == 0 {
                    return None;
                }
                open -= 1;
            }
            Share::Comma => {
                if open == 0 {
                    return None;
                }
            }
            Share::Colon => {
                if open == 0 {
                    return Some(told(FRACTION_WIDTH, first));
                }
            }
            Share::Part => {}
            Share::Nothing => return None,
        }
        rest = behind;
    }
    None
}

fn share_of(kind: &TokenKind) -> Share
    ensures { result ≡ share_of kind.now }
{
    match kind {
        TokenKind::OpenParenthesis | TokenKind::OpenBracket => Share::Opens,
        TokenKind::CloseParenthesis | TokenKind::CloseBracket => Share::Closes,
        TokenKind::Comma => Share::Comma,
        TokenKind::Colon => Share::Colon,
        TokenKind::Identifier(_)
        | TokenKind::Number(_)
        | TokenKind::CharacterString(_)
        | TokenKind::String
        | TokenKind::Nil
        | TokenKind::Inherited
        | TokenKind::Dot
        | TokenKind::DotDot => Share::Part,
        other => {
            if operator_of(other).is_some() || prefix_operator_of(other).is_some() {
                Share::Part
            } else {
                Share::Nothing
            }
        }
    }
}
