//! Classes (Free Pascal Reference Guide, "Classes").
ghost use Rattle.std.specs.Prelude.{IfErr, IfOk, IfSome, List, MatchOption, [], length, map, ◌++◌, ◌<◌, ◌≡◌};
ghost use Rattle.op_parse_code.specs.Opening.{is_identifier};
ghost use Rattle.op_parse_code.specs.Whole.{NoMark};
ghost use Rattle.op_parse_code.specs.WholeStatement.{front_is};
ghost use Rattle.op_parse_code.specs.declared.mark.Mark.TheVariants as mark;
ghost use Rattle.op_parse_decl.specs.Begun.{Anything, Opens};
ghost use Rattle.op_parse_decl.specs.ClassKnown.{known_class, known_sections};
ghost use Rattle.op_parse_decl.specs.Classes.{Adds, IsVisibility, NoVisibility, RefusesRest, SectionsBefore, SomeEntry, SomeMember, entry_of, goes_on_as_field, sections_before};
ghost use Rattle.op_parse_decl.specs.Declarations.{DefinitionBehind};
ghost use Rattle.op_scan.specs.declared.token.TokenKind.TheVariants as kind;
ghost use Rattle.op_tree.proofs.ExpressionUnique.{Begins};
ghost use Rattle.op_tree.specs.Declaration.{Section, TypeDefinition, class, definition_of, member_of, section_of};
ghost use Rattle.op_tree.specs.HeadingGrammar.{IsMember, visibility_of};
ghost use Rattle.op_tree.specs.Terminal.{terminals};
ghost use Rattle.op_tree.specs.declared.class.Member.TheVariants as members;

use crate::choice::{Either, Empty, Fork};
use crate::declared_form::{form_behind_property, form_of_member};
use crate::form::told_at;
use crate::heading::method;
use crate::leaf::BracketedNames;
use crate::names::names;
use crate::part::{Answer, Part, Setting, Stands};
use crate::sign;
use op_base::NoMemory;
use op_parse_code::shared::{Mark, after_mark, behind_mark, is_identifier, left_out};
use op_scan::{Token, TokenKind};
use op_tree::{
    Class, Fields, Member, Names, Property, Section, TypeDefinition, TypeDenoter, Visibility,
};
use std::alloc::Global;

/// What stands behind `class`, and the semicolon behind it.
#[derive(Drop)]
pub struct ClassBehind {
    pub definition: TypeDefinition,
}

/// Names in brackets if there are any, and a semicolon or sections.
type ClassParts = (
    Either<BracketedNames, Empty>,
    Fork<sign::Semicolon, Empty, Sections>,
);

impl Part for ClassBehind {
    ghost Said = { TypeDefinition };

    ghost says = { λ x. definition_of x.definition };

    ghost phrase = { DefinitionBehind kind.Class };

    ghost begun = { Opens Anything (DefinitionBehind kind.Class) };

    ghost least = { 0 };

    fn read<'a>(setting: Setting, tokens: &'a [Token]) -> Answer<'a, ClassBehind> {
        let ((list, body), rest) = ClassParts::read(setting, tokens)?;
        match list {
            Either::Second(_) => match body {
                Fork::Marked(_, _) => {
                    let definition = TypeDefinition::ForwardClass;
                    Ok((ClassBehind { definition }, rest))
                }
                Fork::Unmarked(body) => {
                    let none = Names::from(Vec::new(setting.alloc));
                    Ok((class(none, body.sections), rest))
                }
            },
            Either::First(list) => match body {
                Fork::Marked(_, _) => Ok((class(list.names, Vec::new(setting.alloc)), rest)),
                Fork::Unmarked(body) => Ok((class(list.names, body.sections), rest)),
            },
        }
    }

    ghost known = { known_class };
}

/// The sections of a class, and the `end` and the semicolon behind them.
#[derive(Drop)]
pub struct Sections {
    pub sections: Vec<Section>,
}

/// What is read of a class: the sections before the last one, and what the last one has so far.
#[derive(Drop)]
struct Body {
    sections: Vec<Section>,
    visibility: Option<Visibility>,
    members: Vec<Member>,
}

/// What a class goes on with.
#[derive(Drop)]
enum Entry {
    Member(Member),
    Visibility(Visibility),
}

impl Part for Sections {
    ghost Said = { List Section };

    ghost says = { λ x. map section_of x.sections.items };

    ghost phrase = { SectionsBefore };

    ghost begun = { Opens Anything SectionsBefore };

    fn read<'a>(setting: Setting, tokens: &'a [Token]) -> Answer<'a, Sections> {
        let mut body = Body {
            sections: Vec::new(setting.alloc),
            visibility: None,
            members: Vec::new(setting.alloc),
        };
        let mut rest = tokens;
        loop {
            if let Some(after) = behind_mark(Mark::End, rest) {
                let rest = after_mark(Mark::Semicolon, setting.end, after)?;
                let sections = closed(body.sections, body.visibility, body.members)?;
                return Ok((Sections { sections }, rest));
            }
            let (entry, behind) = next_entry(setting, rest)?;
            body = added(setting.alloc, body, entry)?;
            rest = behind;
        }
    }

    ghost known = { known_sections };
}

/// The sections with the last one, but for one of no members where no visibility is written.
fn closed(
    sections: Vec<Section>,
    visibility: Option<Visibility>,
    members: Vec<Member>,
) -> Result<Vec<Section>, NoMemory>
    ensures { IfOk result (λ all. map section_of all.items ≡ map section_of sections.items ++ sections_before visibility (map member_of members.items) []) }
{
    if visibility.is_none() && members.is_empty() {
        return Ok(sections);
    }
    let mut sections = sections;
    sections.push(Section {
        visibility,
        members,
    })?;
    Ok(sections)
}

/// What is read with one entry more.
fn added(alloc: Global, body: Body, entry: Entry) -> Result<Body, NoMemory>
    ensures { IfOk result (Adds (entry_of entry) body) }
{
    let Body {
        sections,
        visibility,
        members,
    } = body;
    match entry {
        Entry::Member(member) => {
            let mut members = members;
            members.push(member)?;
            Ok(Body {
                sections,
                visibility,
                members,
            })
        }
        Entry::Visibility(word) => Ok(Body {
            sections: closed(sections, visibility, members)?,
            visibility: Some(word),
            members: Vec::new(alloc),
        }),
    }
}

/// A member, or the word of a visibility.
fn next_entry<'a>(setting: Setting, tokens: &'a [Token]) -> Answer<'a, Entry>
    requires { NoMark mark.End (terminals tokens.now) }
    ensures whole { IfOk result (λ f. SomeEntry setting.left (entry_of f.0) (terminals tokens.now) (terminals f.1.now)) }
    ensures refused { IfErr result (RefusesRest setting.left setting.end (terminals tokens.now)) }
    ensures shorter { IfOk result (λ f. length f.1.now < length tokens.now) }
{
    if let Some((word, rest)) = visibility(tokens) {
        return Ok((Entry::Visibility(word), rest));
    }
    match member(setting, tokens) {
        Ok((member, rest)) => Ok((Entry::Member(member), rest)),
        Err(error) => match form_of_member(tokens) {
            Some((feature, form, last)) => Err(told_at(feature, setting.end, form, last, error)),
            None => Err(error),
        },
    }
}

/// The visibility whose word stands at the front. Where a comma or a colon follows, the word is a field's name.
fn visibility(tokens: &[Token]) -> Option<(Visibility, &[Token])>
    ensures stands { MatchOption result (NoVisibility (terminals tokens.now)) (λ f. IsVisibility f.0 (terminals tokens.now) (terminals f.1.now)) }
    ensures shorter { IfSome result (λ f. length f.1.now < length tokens.now) }
{
    let (first, rest) = tokens.split_first()?;
    let TokenKind::Identifier(word) = &first.kind else {
        return None;
    };
    let visibility = visibility_of(word.as_slice())?;
    if goes_on_as_field(rest) {
        return None;
    }
    Some((visibility, rest))
}

/// The visibility that a word is, in any case of letters.
#[tactic(auto, unfolding(op_tree::specs::HeadingGrammar::visibility_of))]
fn visibility_of(word: &[u8]) -> Option<Visibility>
    ensures { result ≡ visibility_of word.now }
{
    if word.eq_ignore_ascii_case(b"private") {
        return Some(Visibility::Private);
    }
    if word.eq_ignore_ascii_case(b"protected") {
        return Some(Visibility::Protected);
    }
    if word.eq_ignore_ascii_case(b"public") {
        return Some(Visibility::Public);
    }
    if word.eq_ignore_ascii_case(b"published") {
        return Some(Visibility::Published);
    }
    None
}

fn goes_on_as_field(tokens: &[Token]) -> bool
    ensures { result ≡ front_is goes_on_as_field (terminals tokens.now) }
{
    match tokens.split_first() {
        None => false,
        Some((first, _)) => matches!(&first.kind, TokenKind::Comma | TokenKind::Colon),
    }
}

fn begins_name(tokens: &[Token]) -> bool
    ensures { result ≡ front_is is_identifier (terminals tokens.now) }
{
    match tokens.split_first() {
        None => false,
        Some((first, _)) => is_identifier(&first.kind),
    }
}

/// Fields of one type, a method or a property.
fn member<'a>(setting: Setting, tokens: &'a [Token]) -> Answer<'a, Member>
    requires no_end { NoMark mark.End (terminals tokens.now) }
    requires no_visibility { NoVisibility (terminals tokens.now) }
    ensures whole { IfOk result (λ f. SomeMember setting.left (member_of f.0) (terminals tokens.now) (terminals f.1.now)) }
    ensures refused { IfErr result (RefusesRest setting.left setting.end (terminals tokens.now)) }
    ensures shorter { IfOk result (λ f. length f.1.now < length tokens.now) }
{
    if let Some(_) = behind_mark(Mark::Property, tokens) {
        let (property, rest) = Property::read(setting, tokens)?;
        if let Some(feature) = form_behind_property(rest) {
            return Err(left_out(feature, setting.end, rest));
        }
        return Ok((Member::Property(property), rest));
    }
    if begins_name(tokens) {
        let (fields, rest) = fields(setting, tokens)?;
        return Ok((Member::Fields(fields), rest));
    }
    let (method, rest) = method(setting, tokens)?;
    Ok((Member::Method(method), rest))
}

/// Fields of one type, and the semicolon behind them.
fn fields<'a>(setting: Setting, tokens: &'a [Token]) -> Answer<'a, Fields>
    requires name { Begins is_identifier (terminals tokens.now) }
    requires no_visibility { NoVisibility (terminals tokens.now) }
    ensures whole { IfOk result (λ f. IsMember setting.left (member_of (members.Fields f.0)) (terminals tokens.now) (terminals f.1.now)) }
    ensures refused { IfErr result (RefusesRest setting.left setting.end (terminals tokens.now)) }
    ensures shorter { IfOk result (λ f. length f.1.now < length tokens.now) }
{
    let (names, rest) = names(setting, tokens)?;
    let ((_, (denoter, _)), rest) = FieldsEnd::read(setting, rest)?;
    Ok((Fields { names, denoter }, rest))
}

/// What stands behind the names of fields.
type FieldsEnd = (Stands<sign::Colon>, (TypeDenoter, Stands<sign::Semicolon>));

fn class(ancestors: Names, sections: Vec<Section>) -> ClassBehind
    ensures { definition_of result.definition ≡ class (record { ancestors = ancestors; sections = map section_of sections.items }) }
{
    let class = Class {
        ancestors,
        sections,
    };
    ClassBehind {
        definition: TypeDefinition::Class(class),
    }
}
