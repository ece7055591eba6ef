//! Primitives: what a run-time routine does in one step of a program. `specs/Primitives.antt` has what each means.
ghost use Rattle.op_meaning.specs.Primitives.{gives, signature};
ghost use Rattle.std.specs.Prelude.{◌≡◌};

#[derive(Clone, Copy)]
pub enum Primitive {
    WriteNumber,
    WriteTruth,
    WriteChar,
    WriteText,
    /// The text itself.
    Same,
    /// `+`.
    Concatenate,
    /// A number below, at or above zero.
    CompareTexts,
    /// `Length`.
    TextLength,
    /// A Char by its index from 1.
    CharAt,
    /// `Copy`: an index from 1, and how many Chars.
    PieceOfText,
    /// A Char as a text.
    TextOfChar,
    /// `Str`: a value and a width.
    StrNumber,
    StrTruth,
    StrChar,
    StrText,
    /// `Val`: the number.
    ValNumber,
    /// `Val`: 0, or the place of the first wrong character.
    ValCode,
    /// The text with another Char at an index.
    PutChar,
    /// `SetLength`.
    ResizeText,
}

/// Of an operand: a number, or a text.
#[derive(Clone, Copy)]
pub enum Sort {
    Numeric,
    Textual,
}

impl Primitive {
    /// The sorts of its operands.
    pub fn signature(self) -> &'static [Sort]
        ensures { result.now ≡ signature self }
    {
        match self {
            Primitive::WriteNumber => &[Sort::Numeric, Sort::Numeric],
            Primitive::WriteTruth => &[Sort::Numeric, Sort::Numeric],
            Primitive::WriteChar => &[Sort::Numeric, Sort::Numeric],
            Primitive::WriteText => &[Sort::Textual, Sort::Numeric],
            Primitive::Same => &[Sort::Textual],
            Primitive::Concatenate => &[Sort::Textual, Sort::Textual],
            Primitive::CompareTexts => &[Sort::Textual, Sort::Textual],
            Primitive::TextLength => &[Sort::Textual],
            Primitive::CharAt => &[Sort::Textual, Sort::Numeric],
            Primitive::PieceOfText => &[Sort::Textual, Sort::Numeric, Sort::Numeric],
            Primitive::TextOfChar => &[Sort::Numeric],
            Primitive::StrNumber => &[Sort::Numeric, Sort::Numeric],
            Primitive::StrTruth => &[Sort::Numeric, Sort::Numeric],
            Primitive::StrChar => &[Sort::Numeric, Sort::Numeric],
            Primitive::StrText => &[Sort::Textual, Sort::Numeric],
            Primitive::ValNumber => &[Sort::Textual],
            Primitive::ValCode => &[Sort::Textual],
            Primitive::PutChar => &[Sort::Textual, Sort::Numeric, Sort::Numeric],
            Primitive::ResizeText => &[Sort::Textual, Sort::Numeric],
        }
    }

    /// The sort of what it gives; none where that is nothing.
    pub fn gives(self) -> Option<Sort>
        ensures { result ≡ gives self }
    {
        match self {
            Primitive::WriteNumber => None,
            Primitive::WriteTruth => None,
            Primitive::WriteChar => None,
            Primitive::WriteText => None,
            Primitive::Same => Some(Sort::Textual),
            Primitive::Concatenate => Some(Sort::Textual),
            Primitive::CompareTexts => Some(Sort::Numeric),
            Primitive::TextLength => Some(Sort::Numeric),
            Primitive::CharAt => Some(Sort::Numeric),
            Primitive::PieceOfText => Some(Sort::Textual),
            Primitive::TextOfChar => Some(Sort::Textual),
            Primitive::StrNumber => Some(Sort::Textual),
            Primitive::StrTruth => Some(Sort::Textual),
            Primitive::StrChar => Some(Sort::Textual),
            Primitive::StrText => Some(Sort::Textual),
            Primitive::ValNumber => Some(Sort::Numeric),
            Primitive::ValCode => Some(Sort::Numeric),
            Primitive::PutChar => Some(Sort::Textual),
            Primitive::ResizeText => Some(Sort::Textual),
        }
    }
}
