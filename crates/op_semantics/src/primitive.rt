//! Primitives: what a run-time routine does in one step of a program. `specs/Primitives.antt` has what each means.
ghost use Rattle.op_semantics.specs.Primitives.{gives, signature};
ghost use Rattle.std.specs.Prelude.{◌≡◌};

#[derive(Clone, Copy)]
pub enum Primitive {
    WriteNumber,
    WriteTruth,
    WriteChar,
    WriteText,
    /// The value itself.
    Same,
    /// `+`.
    Concatenate,
    /// A number below, at or above zero.
    CompareTexts,
    /// `Length`.
    TextLength,
    /// A Char by its index from 1.
    CharAt,
    /// `Copy`: an index from 1, and how many Chars.
    PieceOfText,
    /// A Char as a text.
    TextOfChar,
    /// `Str`: a value and a width.
    StrNumber,
    StrTruth,
    StrChar,
    StrText,
    /// `Val`: the number.
    ValNumber,
    /// `Val`: 0, or the place of the first wrong character.
    ValCode,
    /// The text with another Char at an index.
    PutChar,
    /// `SetLength`.
    ResizeText,
    /// A line that is being read: with room for 64 bytes, with a byte more, whether it is full, one with twice the room, and its text.
    NewLine,
    LongerLine,
    IsFull,
    WiderLine,
    TextOfLine,
    /// The number that was read.
    ReadNumber,
    /// How many elements an array has, or are at a place.
    ArrayLength,
    /// `SetLength`: the type of the elements, the array, and how many.
    ResizeArray,
    /// `Copy`: the type of the elements, the array, an index from 0, and how many.
    PieceOfArray,
    /// The elements at a place, of the type, as a dynamic array.
    CopyElements,
    /// A list of so many values of the type, which are given to it then.
    NewList,
    /// Whether two references are the same, and whether one is not nil.
    SameName,
    IsSome,
    /// An instance as one of an interface or a class: as it is, and by `as`; `is`; and the name of its class.
    AsInterface,
    AsInstance,
    IsInstance,
    NameOfClass,
}

/// Of an operand: a number, a value, a type, or the bytes of the number that is being read.
#[derive(Clone, Copy)]
pub enum Sort {
    Numeric,
    Valued,
    Typed,
    Noted,
}

impl Primitive {
    /// The sorts of its operands.
    pub fn signature(self) -> &'static [Sort]
        ensures { result.now ≡ signature self }
    {
        match self {
            Primitive::WriteNumber => &[Sort::Numeric, Sort::Numeric],
            Primitive::WriteTruth => &[Sort::Numeric, Sort::Numeric],
            Primitive::WriteChar => &[Sort::Numeric, Sort::Numeric],
            Primitive::WriteText => &[Sort::Valued, Sort::Numeric],
            Primitive::Same => &[Sort::Valued],
            Primitive::Concatenate => &[Sort::Valued, Sort::Valued],
            Primitive::CompareTexts => &[Sort::Valued, Sort::Valued],
            Primitive::TextLength => &[Sort::Valued],
            Primitive::CharAt => &[Sort::Valued, Sort::Numeric],
            Primitive::PieceOfText => &[Sort::Valued, Sort::Numeric, Sort::Numeric],
            Primitive::TextOfChar => &[Sort::Numeric],
            Primitive::StrNumber => &[Sort::Numeric, Sort::Numeric],
            Primitive::StrTruth => &[Sort::Numeric, Sort::Numeric],
            Primitive::StrChar => &[Sort::Numeric, Sort::Numeric],
            Primitive::StrText => &[Sort::Valued, Sort::Numeric],
            Primitive::ValNumber => &[Sort::Valued],
            Primitive::ValCode => &[Sort::Valued],
            Primitive::PutChar => &[Sort::Valued, Sort::Numeric, Sort::Numeric],
            Primitive::ResizeText => &[Sort::Valued, Sort::Numeric],
            Primitive::NewLine => &[],
            Primitive::LongerLine => &[Sort::Valued, Sort::Numeric],
            Primitive::IsFull => &[Sort::Valued],
            Primitive::WiderLine => &[Sort::Valued],
            Primitive::TextOfLine => &[Sort::Valued],
            Primitive::ReadNumber => &[Sort::Noted],
            Primitive::ArrayLength => &[Sort::Valued],
            Primitive::ResizeArray => &[Sort::Typed, Sort::Valued, Sort::Numeric],
            Primitive::PieceOfArray => &[Sort::Typed, Sort::Valued, Sort::Numeric, Sort::Numeric],
            Primitive::CopyElements => &[Sort::Typed, Sort::Valued],
            Primitive::NewList => &[Sort::Typed, Sort::Numeric],
            Primitive::SameName => &[Sort::Valued, Sort::Valued],
            Primitive::IsSome => &[Sort::Valued],
            Primitive::AsInterface => &[Sort::Typed, Sort::Valued],
            Primitive::AsInstance => &[Sort::Typed, Sort::Valued],
            Primitive::IsInstance => &[Sort::Typed, Sort::Valued],
            Primitive::NameOfClass => &[Sort::Valued],
        }
    }

    /// The sort of what it gives; none where that is nothing.
    pub fn gives(self) -> Option<Sort>
        ensures { result ≡ gives self }
    {
        match self {
            Primitive::WriteNumber => None,
            Primitive::WriteTruth => None,
            Primitive::WriteChar => None,
            Primitive::WriteText => None,
            Primitive::Same => Some(Sort::Valued),
            Primitive::Concatenate => Some(Sort::Valued),
            Primitive::CompareTexts => Some(Sort::Numeric),
            Primitive::TextLength => Some(Sort::Numeric),
            Primitive::CharAt => Some(Sort::Numeric),
            Primitive::PieceOfText => Some(Sort::Valued),
            Primitive::TextOfChar => Some(Sort::Valued),
            Primitive::StrNumber => Some(Sort::Valued),
            Primitive::StrTruth => Some(Sort::Valued),
            Primitive::StrChar => Some(Sort::Valued),
            Primitive::StrText => Some(Sort::Valued),
            Primitive::ValNumber => Some(Sort::Numeric),
            Primitive::ValCode => Some(Sort::Numeric),
            Primitive::PutChar => Some(Sort::Valued),
            Primitive::ResizeText => Some(Sort::Valued),
            Primitive::NewLine => Some(Sort::Valued),
            Primitive::LongerLine => Some(Sort::Valued),
            Primitive::IsFull => Some(Sort::Numeric),
            Primitive::WiderLine => Some(Sort::Valued),
            Primitive::TextOfLine => Some(Sort::Valued),
            Primitive::ReadNumber => Some(Sort::Numeric),
            Primitive::ArrayLength => Some(Sort::Numeric),
            Primitive::ResizeArray => Some(Sort::Valued),
            Primitive::PieceOfArray => Some(Sort::Valued),
            Primitive::CopyElements => Some(Sort::Valued),
            Primitive::NewList => Some(Sort::Valued),
            Primitive::SameName => Some(Sort::Numeric),
            Primitive::IsSome => Some(Sort::Numeric),
            Primitive::AsInterface => Some(Sort::Valued),
            Primitive::AsInstance => Some(Sort::Valued),
            Primitive::IsInstance => Some(Sort::Numeric),
            Primitive::NameOfClass => Some(Sort::Valued),
        }
    }
}
