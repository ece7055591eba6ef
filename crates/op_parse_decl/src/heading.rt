//! Headings of routines (Free Pascal Reference Guide, "Using functions and procedures").
ghost use Rattle.std.specs.Prelude.{IfErr, IfOk, IfSome, MatchOption, Option, length, ℕ, ◌<◌, ◌≡◌, ◌≤◌};
ghost use Rattle.op_parse_decl.specs.Begun.{Anything, Opens};
ghost use Rattle.op_parse_decl.specs.Combined.{Both, both};
ghost use Rattle.op_parse_decl.specs.HeadingKnown.{known_routine_kind};
ghost use Rattle.op_parse_decl.specs.HeadingParts.{known_heading, made_heading, made_name};
ghost use Rattle.op_parse_decl.specs.Headings.{IsDirective, IsRoutineKind, SomeDirectives, SomeHeading, SomeMethod, SomeRoutineName};
ghost use Rattle.op_parse_decl.specs.Refusal.{Never, RefusesParts};
ghost use Rattle.op_tree.specs.Declaration.{Heading, heading_of, method_of};
ghost use Rattle.op_tree.specs.Ends.{NoDirective};
ghost use Rattle.op_tree.specs.HeadingGrammar.{directive_of, routine_kind_of};
ghost use Rattle.op_tree.specs.Terminal.{terminals};
ghost use Rattle.op_tree.specs.declared.heading.RoutineKind.{RoutineKind};
ghost use Rattle.op_tree.specs.declared.position.Name.{Name};

use crate::part::{Answer, Behind, Made, Part, Setting, Stands};
use crate::sign;
use op_parse_code::shared::{Mark, behind_mark, syntax};
use op_scan::{Token, TokenKind};
use op_tree::{Directive, Directives, Heading, Method, Name, Parameters, RoutineKind, TypeDenoter};
use std::alloc::Global;

/// The word with which a heading begins.
impl Part for RoutineKind {
    ghost Said = { RoutineKind };

    ghost says = { λ x. x };

    ghost phrase = { IsRoutineKind };

    ghost begun = { Never };

    fn read<'a>(setting: Setting, tokens: &'a [Token]) -> Answer<'a, RoutineKind> {
        let Some((first, rest)) = tokens.split_first() else {
            return Err(syntax(setting.end, tokens));
        };
        match routine_kind(&first.kind) {
            Some(kind) => Ok((kind, rest)),
            None => Err(syntax(setting.end, tokens)),
        }
    }

    ghost known = { known_routine_kind };
}

/// The name of a routine, and that of its class if it stands before it.
#[derive(Drop)]
pub struct RoutineName {
    pub class: Option<Name>,
    pub name: Name,
}

impl Made for RoutineName {
    type Parts = (Name, Behind<sign::Dot, Name>);

    ghost Said = { Both (Option Name) Name };

    ghost says = { λ x. both x.class x.name };

    ghost phrase = { SomeRoutineName };

    #[tactic(auto, using(crate::specs::HeadingParts::alone_of_parts, crate::specs::HeadingParts::class_of_parts))]
    fn of(_alloc: Global, (first, second): Self::Parts) -> RoutineName {
        match second.part {
            None => RoutineName {
                class: None,
                name: first,
            },
            Some(name) => RoutineName {
                class: Some(first),
                name,
            },
        }
    }

    ghost made = { made_name };
}

/// A heading, made of its parts.
#[derive(Drop)]
struct WholeHeading {
    pub heading: Heading,
}

impl Made for WholeHeading {
    type Parts = (
        RoutineKind,
        (
            RoutineName,
            (
                Parameters,
                (Behind<sign::Colon, TypeDenoter>, Stands<sign::Semicolon>),
            ),
        ),
    );

    ghost Said = { Heading };

    ghost says = { λ x. heading_of x.heading };

    ghost phrase = { SomeHeading };

    #[tactic(auto, using(crate::specs::HeadingParts::heading_of_parts))]
    fn of(
        _alloc: Global,
        (kind, (routine, (parameters, (denoter, _)))): Self::Parts,
    ) -> WholeHeading {
        WholeHeading {
            heading: Heading {
                kind,
                class: routine.class,
                name: routine.name,
                parameters,
                result: denoter.part,
            },
        }
    }

    ghost made = { made_heading };
}

/// A heading, and the semicolon behind it.
impl Part for Heading {
    ghost Said = { Heading };

    ghost says = { heading_of };

    ghost phrase = { SomeHeading };

    ghost begun = { Opens Anything SomeHeading };

    fn read<'a>(setting: Setting, tokens: &'a [Token]) -> Answer<'a, Heading> {
        let (whole, rest) = WholeHeading::read(setting, tokens)?;
        Ok((whole.heading, rest))
    }

    ghost known = { known_heading };
}

/// A heading, a semicolon, and the directives behind it.
pub fn method<'a>(setting: Setting, tokens: &'a [Token]) -> Answer<'a, Method>
    ensures whole { IfOk result (λ f. SomeMethod setting.left (method_of f.0) (terminals tokens.now) (terminals f.1.now)) }
    ensures refused { IfErr result (RefusesParts (Opens NoDirective SomeMethod) SomeMethod setting.left setting.end (terminals tokens.now)) }
    ensures shorter { IfOk result (λ f. length f.1.now < length tokens.now) }
{
    let (heading, rest) = Heading::read(setting, tokens)?;
    let (directives, rest) = directives(setting, rest)?;
    Ok((
        Method {
            heading,
            directives,
        },
        rest,
    ))
}

/// All directives at the front.
pub fn directives<'a>(setting: Setting, tokens: &'a [Token]) -> Answer<'a, Directives>
    ensures whole { IfOk result (λ f. (d : ℕ) → SomeDirectives d f.0 (terminals tokens.now) (terminals f.1.now)) }
    ensures refused { IfErr result (λ e. (d : ℕ) → RefusesParts Never SomeDirectives d setting.end (terminals tokens.now) e) }
    ensures shorter { IfOk result (λ f. length f.1.now ≤ length tokens.now) }
{
    let mut directives = Vec::new(setting.alloc);
    let mut rest = tokens;
    while let Some((directive, behind)) = directive_at(rest) {
        directives.push(directive)?;
        rest = behind;
    }
    Ok((Directives::from(directives), rest))
}

/// The directive at the front, and what stands behind its semicolon.
fn directive_at(tokens: &[Token]) -> Option<(Directive, &[Token])>
    ensures stands { MatchOption result (NoDirective (terminals tokens.now)) (λ f. IsDirective f.0 (terminals tokens.now) (terminals f.1.now)) }
    ensures shorter { IfSome result (λ f. length f.1.now < length tokens.now) }
{
    let (first, rest) = tokens.split_first()?;
    let TokenKind::Identifier(word) = &first.kind else {
        return None;
    };
    let directive = directive_of(word.as_slice())?;
    let rest = behind_mark(Mark::Semicolon, rest)?;
    Some((directive, rest))
}

/// The directive that a word is, in any case of letters.
#[tactic(auto, unfolding(op_tree::specs::HeadingGrammar::directive_of))]
pub fn directive_of(word: &[u8]) -> Option<Directive>
    ensures { result ≡ directive_of word.now }
{
    if word.eq_ignore_ascii_case(b"virtual") {
        return Some(Directive::Virtual_);
    }
    if word.eq_ignore_ascii_case(b"override") {
        return Some(Directive::Override_);
    }
    if word.eq_ignore_ascii_case(b"abstract") {
        return Some(Directive::Abstract_);
    }
    if word.eq_ignore_ascii_case(b"reintroduce") {
        return Some(Directive::Reintroduce);
    }
    if word.eq_ignore_ascii_case(b"overload") {
        return Some(Directive::Overload);
    }
    if word.eq_ignore_ascii_case(b"cdecl") {
        return Some(Directive::Cdecl);
    }
    if word.eq_ignore_ascii_case(b"stdcall") {
        return Some(Directive::Stdcall);
    }
    if word.eq_ignore_ascii_case(b"register") {
        return Some(Directive::Register);
    }
    None
}

fn routine_kind(kind: &TokenKind) -> Option<RoutineKind>
    ensures { result ≡ routine_kind_of kind.now }
{
    match kind {
        TokenKind::Procedure => Some(RoutineKind::Procedure),
        TokenKind::Function => Some(RoutineKind::Function),
        TokenKind::Constructor => Some(RoutineKind::Constructor),
        TokenKind::Destructor => Some(RoutineKind::Destructor),
        _ => None,
    }
}
