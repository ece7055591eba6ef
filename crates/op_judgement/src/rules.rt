//! The rules by which the checker refuses, and what the profile leaves out.
ghost use Rattle.std.specs.Prelude.{◌≡◌};
ghost use Rattle.op_judgement.specs.Rules.{number_of, number_of_feature, rule_of};

use op_base::Rule;

/// What the profile leaves out, as far as the checker tells it.
#[derive(Clone, Copy)]
pub enum Feature {
    /// Floating point.
    FloatingPoint,
    /// Other integer types.
    OtherIntegers,
    /// The short string.
    ShortStrings,
    /// Other string types.
    OtherStrings,
    /// Pointers.
    Pointers,
    /// Procedural types.
    ProceduralTypes,
    /// Types of classes.
    Metaclasses,
    /// File types.
    Files,
    /// A routine under the name of another one.
    Overloads,
    /// A case on strings.
    CaseOnStrings,
    /// A routine in a routine.
    NestedRoutines,
    /// The width of a fraction.
    FractionWidth,
    /// Strings at run time.
    Strings,
    /// Dynamic and open arrays, `for in`.
    DynamicArrays,
    /// Classes.
    Classes,
    /// Interfaces.
    Interfaces,
    /// Exceptions.
    Exceptions,
}

/// A rule of the language by which the checker refuses.
#[derive(Clone, Copy)]
pub enum LanguageRule {
    /// No phrase of the grammar.
    Syntax,
    /// A file that is missing.
    MissingFile,
    /// A file that is another one than its name tells.
    OtherFile,
    /// What the profile leaves out.
    NotInProfile(Feature),
    /// A name is declared twice in one scope.
    DeclaredTwice,
    /// A name that is not declared.
    UnknownName,
    /// A name of the wrong kind.
    WrongKindOfName,
    /// A routine without a body.
    NoBody,
    /// A heading that differs from the one that was declared.
    HeadingDiffers,
    /// A value that is not assignable to the type.
    NotAssignable,
    /// An operator that is not defined on these types.
    NoOperator,
    /// A condition that is no Boolean.
    NotBoolean,
    /// A type that has to be ordinal.
    NotOrdinal,
    /// What cannot be indexed so.
    NotIndexed,
    /// A member that is not there.
    NoMember,
    /// A wrong number of arguments.
    WrongArguments,
    /// What has to be a variable.
    NoVariable,
    /// A variable that has to be of another type.
    VariableOfAnotherType,
    /// What cannot be assigned.
    NotWritable,
    /// What has to be constant.
    NoConstant,
    /// A range that ends before it begins.
    EmptyRange,
    /// A case label with a value of an earlier one.
    LabelTwice,
    /// A constant that is out of range.
    OutOfRange,
    /// An element of a set that is not from 0 to 31.
    NoSetElement,
    /// An expression that is no statement.
    NoStatement,
    /// A number of more than 32 bits.
    NumberTooLarge,
    /// A character of a string as a variable.
    CharacterOfString,
    /// A type that contains itself.
    ContainsItself,
    /// A cast that is not allowed.
    NoCast,
    /// What leaves a loop where there is none.
    NoLoop,
    /// What leaves a finally part.
    LeavesFinally,
    /// What cannot be written or read.
    NotWritten,
    /// Too many declarations or values.
    TooManyNames,
    /// A type that is too large.
    TypeTooLarge,
    /// More than 64 parameters.
    TooManyParameters,
    /// Locals that are too large.
    LocalsTooLarge,
    /// Globals that are too large.
    GlobalsTooLarge,
}

impl Feature {
    /// The number by which it is told.
    fn number(self) -> u8
        ensures { result ≡ number_of_feature self }
    {
        match self {
            Feature::FloatingPoint => 1,
            Feature::OtherIntegers => 2,
            Feature::ShortStrings => 3,
            Feature::OtherStrings => 4,
            Feature::Pointers => 5,
            Feature::ProceduralTypes => 6,
            Feature::Metaclasses => 7,
            Feature::Files => 11,
            Feature::Overloads => 12,
            Feature::CaseOnStrings => 25,
            Feature::NestedRoutines => 28,
            Feature::FractionWidth => 35,
            Feature::Strings => 40,
            Feature::DynamicArrays => 41,
            Feature::Classes => 42,
            Feature::Interfaces => 43,
            Feature::Exceptions => 44,
        }
    }
}

impl LanguageRule {
    /// The rule as it is told, by its number and its feature.
    pub fn rule(self) -> Rule
        ensures { result ≡ rule_of self }
    {
        match self {
            LanguageRule::NotInProfile(feature) => Rule {
                number: 13,
                feature: feature.number(),
            },
            _ => Rule {
                number: self.number(),
                feature: 0,
            },
        }
    }

    fn number(self) -> u8
        ensures { result ≡ number_of self }
    {
        match self {
            LanguageRule::Syntax => 9,
            LanguageRule::MissingFile => 10,
            LanguageRule::OtherFile => 12,
            LanguageRule::NotInProfile(_) => 13,
            LanguageRule::DeclaredTwice => 14,
            LanguageRule::UnknownName => 15,
            LanguageRule::WrongKindOfName => 16,
            LanguageRule::NoBody => 18,
            LanguageRule::HeadingDiffers => 19,
            LanguageRule::NotAssignable => 20,
            LanguageRule::NoOperator => 21,
            LanguageRule::NotBoolean => 22,
            LanguageRule::NotOrdinal => 23,
            LanguageRule::NotIndexed => 24,
            LanguageRule::NoMember => 25,
            LanguageRule::WrongArguments => 26,
            LanguageRule::NoVariable => 27,
            LanguageRule::VariableOfAnotherType => 28,
            LanguageRule::NotWritable => 29,
            LanguageRule::NoConstant => 30,
            LanguageRule::EmptyRange => 31,
            LanguageRule::LabelTwice => 32,
            LanguageRule::OutOfRange => 33,
            LanguageRule::NoSetElement => 34,
            LanguageRule::NoStatement => 35,
            LanguageRule::NumberTooLarge => 36,
            LanguageRule::CharacterOfString => 37,
            LanguageRule::ContainsItself => 38,
            LanguageRule::NoCast => 39,
            LanguageRule::NoLoop => 58,
            LanguageRule::LeavesFinally => 59,
            LanguageRule::NotWritten => 60,
            LanguageRule::TooManyNames => 64,
            LanguageRule::TypeTooLarge => 67,
            LanguageRule::TooManyParameters => 68,
            LanguageRule::LocalsTooLarge => 69,
            LanguageRule::GlobalsTooLarge => 72,
        }
    }
}
