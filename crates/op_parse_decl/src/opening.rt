//! What the first token of a type tells.
ghost use Rattle.std.specs.Prelude.{◌≡◌};
ghost use Rattle.op_parse_decl.specs.Opening.{OpensDenoter};
ghost use Rattle.op_tree.specs.Ends.{begins_expression};

use op_scan::TokenKind;

/// How a type begins.
#[derive(Clone, Copy)]
pub enum DenoterOpening {
    /// As a bound of a subrange does, or a name.
    Bound,
    Set,
    Array,
    Record,
    Packed,
    /// As a procedural type does.
    Procedural,
    /// A form with this feature begins so.
    LeftOut(u8),
    /// No type begins so.
    Nothing,
}

/// Features that the profile leaves out.
const OBJECT_TYPE: u8 = 8;

const FILE_TYPE: u8 = 11;

pub fn denoter_opening(kind: &TokenKind) -> DenoterOpening
    ensures { OpensDenoter result kind.now }
{
    match kind {
        TokenKind::Set => DenoterOpening::Set,
        TokenKind::Array => DenoterOpening::Array,
        TokenKind::Record => DenoterOpening::Record,
        TokenKind::Packed => DenoterOpening::Packed,
        TokenKind::Procedure => DenoterOpening::Procedural,
        TokenKind::Function => DenoterOpening::Procedural,
        TokenKind::Object => DenoterOpening::LeftOut(OBJECT_TYPE),
        TokenKind::File => DenoterOpening::LeftOut(FILE_TYPE),
        other => if begins_expression(other) {
            DenoterOpening::Bound
        } else {
            DenoterOpening::Nothing
        },
    }
}

pub fn begins_expression(kind: &TokenKind) -> bool
    ensures { result ≡ begins_expression kind.now }
{
    matches!(
        kind,
        TokenKind::Identifier(_)
            | TokenKind::String
            | TokenKind::OpenParenthesis
            | TokenKind::Number(_)
            | TokenKind::Nil
            | TokenKind::OpenBracket
            | TokenKind::CharacterString(_)
            | TokenKind::Inherited
            | TokenKind::Not
            | TokenKind::Plus
            | TokenKind::Minus
    )
}
