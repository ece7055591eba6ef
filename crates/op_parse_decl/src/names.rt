//! Lists of names.
ghost use Rattle.std.specs.Prelude.{ℕ, ◌<◌, IfOk, IfErr, length};
ghost use Rattle.op_parse_decl.specs.Refusal.{RefusesHere, RefusesPart};
ghost use Rattle.op_parse_decl.specs.Types.{SomeBracketedNames, SomeNames, SomeQualified};
ghost use Rattle.op_tree.specs.Terminal.{terminals};

use crate::part::{Answer, Setting};
use crate::stops::no_dot;
use op_parse_code::shared::{Mark, after_mark, behind_mark, enter, fitted, name};
use op_scan::Token;
use op_tree::{Names, QualifiedName};

/// Names with commas between them.
pub fn names<'a>(setting: Setting, tokens: &'a [Token]) -> Answer<'a, Names>
    ensures whole { IfOk result (λ f. (d : ℕ) → SomeNames d f.0 (terminals tokens.now) (terminals f.1.now)) }
    ensures refused { IfErr result (λ e. (d : ℕ) → RefusesHere SomeNames d setting.end (terminals tokens.now) e) }
    ensures shorter { IfOk result (λ f. length f.1.now < length tokens.now) }
{
    let mut names = Vec::new(setting.alloc);
    let mut rest = tokens;
    loop {
        let (name, behind) = name(setting.alloc, setting.end, rest)?;
        names.push(name)?;
        match behind_mark(Mark::Comma, behind) {
            Some(after) => rest = after,
            None => return Ok((Names::from(fitted(names)), behind)),
        }
    }
}

/// Names in brackets, at least one.
pub fn bracketed_names<'a>(setting: Setting, tokens: &'a [Token]) -> Answer<'a, Names>
    ensures whole { IfOk result (λ f. SomeBracketedNames setting.left f.0 (terminals tokens.now) (terminals f.1.now)) }
    ensures refused { IfErr result (RefusesPart SomeBracketedNames setting.left setting.end (terminals tokens.now)) }
    ensures shorter { IfOk result (λ f. length f.1.now < length tokens.now) }
{
    let rest = after_mark(Mark::OpenParenthesis, setting.end, tokens)?;
    enter(setting.left, setting.end, tokens)?;
    let (names, rest) = names(setting, rest)?;
    let rest = after_mark(Mark::CloseParenthesis, setting.end, rest)?;
    Ok((names, rest))
}

/// A name, or a unit's name, a dot and a name.
pub fn qualified<'a>(setting: Setting, tokens: &'a [Token]) -> Answer<'a, QualifiedName>
    ensures whole { IfOk result (λ f. (d : ℕ) → SomeQualified d f.0 (terminals tokens.now) (terminals f.1.now)) }
    ensures refused { IfErr result (λ e. (d : ℕ) → RefusesHere SomeQualified d setting.end (terminals tokens.now) e) }
    ensures shorter { IfOk result (λ f. length f.1.now < length tokens.now) }
{
    let (first, rest) = name(setting.alloc, setting.end, tokens)?;
    let Some(after) = behind_mark(Mark::Dot, rest) else {
        return Ok((
            QualifiedName {
                unit: None,
                name: first,
            },
            rest,
        ));
    };
    let (second, rest) = name(setting.alloc, setting.end, after)?;
    no_dot(setting.end, rest)?;
    Ok((
        QualifiedName {
            unit: Some(first),
            name: second,
        },
        rest,
    ))
}
