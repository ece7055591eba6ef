//! Properties of classes (Free Pascal Reference Guide, "Properties (Classes)").
ghost use Rattle.std.specs.Prelude.{IfErr, IfOk, Option, codes, length, ℕ, ◌≤◌};
ghost use Rattle.op_parse_decl.specs.Combined.{Both, both};
ghost use Rattle.op_parse_decl.specs.Properties.{SomeAccessor, SomeAccessors, known_accessors, made_property};
ghost use Rattle.op_parse_decl.specs.Refusal.{Never, RefusesParts};
ghost use Rattle.op_tree.specs.Declaration.{Property, property_of};
ghost use Rattle.op_tree.specs.HeadingGrammar.{IsProperty};
ghost use Rattle.op_tree.specs.Terminal.{terminals};
ghost use Rattle.op_tree.specs.declared.position.Name.{Name};

use crate::choice::{FormBehind, Unbroken};
use crate::declared_form::PROPERTY;
use crate::part::{Answer, Made, Part, Setting, Stands};
use crate::sign;
use op_parse_code::shared::{Mark, behind_mark, is_word, name};
use op_scan::Token;
use op_tree::{Name, Property, TypeDenoter};
use std::alloc::Global;

/// Parameters of a property, behind its name.
pub struct ArrayProperty;

impl FormBehind for ArrayProperty {
    type Front = (Stands<sign::Property>, Name);

    fn feature(tokens: &[Token]) -> Option<u8> {
        match behind_mark(Mark::OpenBracket, tokens) {
            Some(_) => Some(PROPERTY),
            None => None,
        }
    }
}

/// An index of a property, behind its type.
pub struct IndexedProperty;

impl FormBehind for IndexedProperty {
    type Front = (Unbroken<ArrayProperty, Stands<sign::Colon>>, TypeDenoter);

    fn feature(tokens: &[Token]) -> Option<u8> {
        let (first, _) = tokens.split_first()?;
        if is_word(b"index", &first.kind) {
            Some(PROPERTY)
        } else {
            None
        }
    }
}

/// What a property reads and writes.
#[derive(Drop)]
pub struct Accessors {
    pub read: Option<Name>,
    pub write: Option<Name>,
}

impl Part for Accessors {
    ghost Said = { Both (Option Name) (Option Name) };

    ghost says = { λ x. both x.read x.write };

    ghost phrase = { SomeAccessors };

    ghost begun = { Never };

    ghost least = { 0 };

    fn read<'a>(setting: Setting, tokens: &'a [Token]) -> Answer<'a, Accessors> {
        let (read, rest) = accessor(setting, b"read", tokens)?;
        let (write, rest) = accessor(setting, b"write", rest)?;
        Ok((Accessors { read, write }, rest))
    }

    ghost known = { known_accessors };
}

/// The name behind a word, if the word stands there.
fn accessor<'a>(setting: Setting, word: &[u8], tokens: &'a [Token]) -> Answer<'a, Option<Name>>
    ensures whole { IfOk result (λ f. (d : ℕ) → SomeAccessor word.now d f.0 (terminals tokens.now) (terminals f.1.now)) }
    ensures refused { IfErr result (λ e. (d : ℕ) → RefusesParts Never (SomeAccessor word.now) d setting.end (terminals tokens.now) e) }
    ensures shorter { IfOk result (λ f. length f.1.now ≤ length tokens.now) }
{
    let Some((first, rest)) = tokens.split_first() else {
        return Ok((None, tokens));
    };
    if !is_word(word, &first.kind) {
        return Ok((None, tokens));
    }
    let (name, rest) = name(setting.alloc, setting.end, rest)?;
    Ok((Some(name), rest))
}

/// A property, and the semicolon behind it.
impl Made for Property {
    type Parts = Unbroken<IndexedProperty, (Accessors, Stands<sign::Semicolon>)>;

    ghost Said = { Property };

    ghost says = { property_of };

    ghost phrase = { IsProperty };

    #[tactic(auto, using(crate::specs::Properties::property_of_parts))]
    fn of(_alloc: Global, parts: Self::Parts) -> Property {
        let (named, denoter) = parts.front;
        let (_, name) = named.front;
        let (accessors, _) = parts.part;
        let Accessors { read, write } = accessors;
        Property {
            name,
            denoter,
            read,
            write,
        }
    }

    ghost made = { made_property };
}
