//! Parameters of routines (Free Pascal Reference Guide, "Parameter lists").
ghost use Rattle.std.specs.Prelude.{IfSome, List, MatchOption, length, ◌≡◌, ◌≤◌};
ghost use Rattle.op_parse_decl.specs.Begun.{Anything, Opens};
ghost use Rattle.op_parse_decl.specs.Combined.{Both, both};
ghost use Rattle.op_parse_decl.specs.HeadingKnown.{known_moded, known_parameter_type};
ghost use Rattle.op_parse_decl.specs.HeadingParts.{known_part, made_parameter, made_part};
ghost use Rattle.op_parse_decl.specs.Headings.{NoOut, SomeMode, SomeModed, SomeParameter, SomeParameterPart, SomeParameterType, is_string};
ghost use Rattle.op_parse_decl.specs.Refusal.{Never};
ghost use Rattle.op_tree.specs.Terminal.{terminals};
ghost use Rattle.op_tree.specs.declared.heading.Parameter.{Parameter};
ghost use Rattle.op_tree.specs.declared.heading.ParameterMode.{ParameterMode};
ghost use Rattle.op_tree.specs.declared.heading.ParameterMode.TheVariants as mode;
ghost use Rattle.op_tree.specs.declared.heading.ParameterType.{ParameterType};
ghost use Rattle.op_tree.specs.declared.position.Name.{Name};

use crate::choice::{Ahead, Empty, Form, FormBehind, Nested, Unbroken, Unless};
use crate::form::{ARRAY_OF_CONST, DEFAULT_PARAMETER};
use crate::names::{names, qualified};
use crate::part::{Answer, Behind, Made, Part, Separated, Setting, Stands};
use crate::sign;
use crate::stops::no_dot;
use op_parse_code::shared::{
    Mark, after_mark, behind_mark, is_identifier, is_word, position_of, syntax,
};
use op_scan::{Token, TokenKind};
use op_tree::{Names, Parameter, ParameterMode, ParameterType, Parameters};
use std::alloc::Global;

/// How parameters are passed, their names, and the colon behind them.
#[derive(Drop)]
pub struct Moded {
    pub mode: ParameterMode,
    pub names: Names,
}

impl Part for Moded {
    ghost Said = { Both ParameterMode (List Name) };

    ghost says = { λ x. both x.mode x.names };

    ghost phrase = { SomeModed };

    ghost begun = { Never };

    fn read<'a>(setting: Setting, tokens: &'a [Token]) -> Answer<'a, Moded> {
        let (mode, rest) = parameter_mode(tokens);
        let (names, rest) = names(setting, rest)?;
        let rest = after_mark(Mark::Colon, setting.end, rest)?;
        Ok((Moded { mode, names }, rest))
    }

    ghost known = { known_moded };
}

/// How parameters are passed. The word `out` is a name where no name follows.
fn parameter_mode(tokens: &[Token]) -> (ParameterMode, &[Token])
    ensures whole { SomeMode result.0 (terminals tokens.now) (terminals result.1.now) }
    ensures shorter { length result.1.now ≤ length tokens.now }
{
    if let Some(rest) = behind_mark(Mark::Var, tokens) {
        return (ParameterMode::Var, rest);
    }
    if let Some(rest) = behind_mark(Mark::Const_, tokens) {
        return (ParameterMode::Const_, rest);
    }
    match behind_out(tokens) {
        Some(rest) => (ParameterMode::Out, rest),
        None => (ParameterMode::Value, tokens),
    }
}

/// The tokens behind the word `out`, where they begin with it and a name.
fn behind_out(tokens: &[Token]) -> Option<&[Token]>
    ensures out { MatchOption result (NoOut (terminals tokens.now)) (λ rest. SomeMode mode.Out (terminals tokens.now) (terminals rest.now)) }
    ensures shorter { IfSome result (λ rest. length rest.now ≤ length tokens.now) }
{
    let (first, rest) = tokens.split_first()?;
    if !is_word(b"out", &first.kind) {
        return None;
    }
    let (second, _) = rest.split_first()?;
    if !is_identifier(&second.kind) {
        return None;
    }
    Some(rest)
}

/// `array of const`
pub struct ArrayOfConst;

impl Form for ArrayOfConst {
    fn feature(tokens: &[Token]) -> Option<(u8, &[Token])> {
        let rest = behind_mark(Mark::Array, tokens)?;
        let rest = behind_mark(Mark::Of, rest)?;
        match behind_mark(Mark::Const_, rest) {
            Some(_) => Some((ARRAY_OF_CONST, rest)),
            None => None,
        }
    }
}

/// A name, or the word `string`.
impl Part for ParameterType {
    ghost Said = { ParameterType };

    ghost says = { λ x. x };

    ghost phrase = { SomeParameterType };

    ghost begun = { Never };

    fn read<'a>(setting: Setting, tokens: &'a [Token]) -> Answer<'a, ParameterType> {
        let Some((first, rest)) = tokens.split_first() else {
            return Err(syntax(setting.end, tokens));
        };
        if is_string(&first.kind) {
            no_dot(setting.end, rest)?;
            let position = position_of(first);
            return Ok((ParameterType::String { position }, rest));
        }
        let (name, rest) = qualified(setting, tokens)?;
        Ok((ParameterType::Named(name), rest))
    }

    ghost known = { known_parameter_type };
}

fn is_string(kind: &TokenKind) -> bool
    ensures { result ≡ is_string kind.now }
{
    matches!(kind, TokenKind::String)
}

/// Parameters of one mode and type.
impl Made for Parameter {
    type Parts = (
        Moded,
        Unless<ArrayOfConst, (Behind<sign::Array, Stands<sign::Of>>, ParameterType)>,
    );

    ghost Said = { Parameter };

    ghost says = { λ x. x };

    ghost phrase = { SomeParameter };

    #[tactic(auto, using(crate::specs::HeadingParts::closed_of_parts, crate::specs::HeadingParts::open_of_parts))]
    fn of(_alloc: Global, (moded, typed): Self::Parts) -> Parameter {
        let Moded { mode, names } = moded;
        let (array, of) = typed.part;
        match array.part {
            None => Parameter {
                mode,
                names,
                open_array: false,
                of,
            },
            Some(_) => Parameter {
                mode,
                names,
                open_array: true,
                of,
            },
        }
    }

    ghost made = { made_parameter };
}

/// The value that a parameter has where none is given for it.
pub struct DefaultParameter;

impl FormBehind for DefaultParameter {
    type Front = (
        Stands<sign::OpenParenthesis>,
        Ahead<sign::CloseParenthesis, Empty, Separated<sign::Semicolon, Parameter>>,
    );

    fn feature(tokens: &[Token]) -> Option<u8> {
        match behind_mark(Mark::Equal, tokens) {
            Some(_) => Some(DEFAULT_PARAMETER),
            None => None,
        }
    }
}

/// The parameters of a routine in their brackets, if there are brackets.
#[derive(Drop)]
struct ParameterPart {
    pub parameters: Parameters,
}

impl Made for ParameterPart {
    type Parts = Ahead<
        sign::OpenParenthesis,
        Nested<Unbroken<DefaultParameter, Stands<sign::CloseParenthesis>>>,
        Empty,
    >;

    ghost Said = { List Parameter };

    ghost says = { λ x. x.parameters };

    ghost phrase = { SomeParameterPart };

    #[tactic(auto, using(crate::specs::HeadingParts::missing_of_parts, crate::specs::HeadingParts::empty_of_parts))]
    fn of(alloc: Global, parts: Self::Parts) -> ParameterPart {
        match parts {
            Ahead::Unmarked(_) => ParameterPart {
                parameters: Parameters::from(Vec::new(alloc)),
            },
            Ahead::Marked(inside, _) => match inside.part.front.1 {
                Ahead::Marked(_, _) => ParameterPart {
                    parameters: Parameters::from(Vec::new(alloc)),
                },
                Ahead::Unmarked(list) => ParameterPart {
                    parameters: Parameters::from(list.items),
                },
            },
        }
    }

    ghost made = { made_part };
}

impl Part for Parameters {
    ghost Said = { List Parameter };

    ghost says = { λ x. x };

    ghost phrase = { SomeParameterPart };

    ghost begun = { Opens Anything SomeParameterPart };

    ghost least = { 0 };

    fn read<'a>(setting: Setting, tokens: &'a [Token]) -> Answer<'a, Parameters> {
        let (part, rest) = ParameterPart::read(setting, tokens)?;
        Ok((part.parameters, rest))
    }

    ghost known = { known_part };
}
