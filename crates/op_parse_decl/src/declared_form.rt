//! Forms that are left out and show among declarations, classes and files.
ghost use Rattle.std.specs.Prelude.{◌≡◌, ℕ, ◌∷◌, IfSome};
ghost use Rattle.op_parse_decl.specs.Form.{HasForm, begins_class_member, begins_generic};
ghost use Rattle.op_parse_decl.specs.Classes.{IsFormBehindProperty, Resolves, begins_resolution};
ghost use Rattle.op_scan.specs.declared.token.TokenKind.TheVariants as kind;
ghost use Rattle.op_tree.specs.Terminal.{◌at◌, terminals};
ghost use Rattle.op_tree.specs.declared.position.Position.{Position};

use op_parse_code::shared::{Mark, behind_mark, is_identifier, is_word};
use op_scan::{Token, TokenKind};

const METACLASS: u8 = 7;

const OPERATOR: u8 = 13;

pub const GOTO_OR_LABEL: u8 = 16;

pub const ASSEMBLY: u8 = 17;

const CLASS_MEMBER: u8 = 19;

pub const PROPERTY: u8 = 20;

const STRICT_VISIBILITY: u8 = 21;

const METHOD_RESOLUTION: u8 = 22;

const RESOURCE_STRING: u8 = 26;

const THREAD_VARIABLE: u8 = 27;

pub const GENERIC: u8 = 29;

const LIBRARY_OR_EXPORTS: u8 = 30;

pub const INTERFACE_PROPERTY: u8 = 36;

/// The feature of a declaration that stands at the front.
pub fn form_of_part(tokens: &[Token]) -> Option<u8>
    ensures { IfSome result (λ feature. HasForm feature (terminals tokens.now) (terminals tokens.now) (terminals tokens.now)) }
{
    let (first, rest) = tokens.split_first()?;
    match &first.kind {
        TokenKind::Operator => Some(OPERATOR),
        TokenKind::Label => Some(GOTO_OR_LABEL),
        TokenKind::Asm => Some(ASSEMBLY),
        TokenKind::Inline => Some(ASSEMBLY),
        TokenKind::Resourcestring => Some(RESOURCE_STRING),
        TokenKind::Threadvar => Some(THREAD_VARIABLE),
        TokenKind::Exports => Some(LIBRARY_OR_EXPORTS),
        TokenKind::Class => class_member(rest),
        kind => generic(kind, rest),
    }
}

/// The word `class` before that of a member.
fn class_member(rest: &[Token]) -> Option<u8>
    ensures { (p : Position) → IfSome result (λ feature. HasForm feature (kind.Class at p ∷ terminals rest.now) (kind.Class at p ∷ terminals rest.now) (kind.Class at p ∷ terminals rest.now)) }
{
    let (second, _) = rest.split_first()?;
    if let TokenKind::Operator = &second.kind {
        return Some(OPERATOR);
    }
    if begins_class_member(&second.kind) {
        return Some(CLASS_MEMBER);
    }
    None
}

fn begins_class_member(kind: &TokenKind) -> bool
    ensures { result ≡ begins_class_member kind.now }
{
    matches!(
        kind,
        TokenKind::Procedure
            | TokenKind::Function
            | TokenKind::Constructor
            | TokenKind::Destructor
            | TokenKind::Property
            | TokenKind::Var
    )
}

/// The word `generic` before a name or the word of a routine.
fn generic(first: &TokenKind, rest: &[Token]) -> Option<u8>
    ensures first { (p : Position) → IfSome result (λ feature. HasForm feature (first.now at p ∷ terminals rest.now) (first.now at p ∷ terminals rest.now) (first.now at p ∷ terminals rest.now)) }
    // Also where it is taken for a name.
    ensures second { (p : Position) → IfSome result (λ feature. HasForm feature (first.now at p ∷ terminals rest.now) (first.now at p ∷ terminals rest.now) (terminals rest.now)) }
{
    let (second, _) = rest.split_first()?;
    if !is_word(b"generic", first) {
        return None;
    }
    if begins_generic(&second.kind) {
        return Some(GENERIC);
    }
    None
}

fn begins_generic(kind: &TokenKind) -> bool
    ensures { result ≡ begins_generic kind.now }
{
    matches!(
        kind,
        TokenKind::Identifier(_) | TokenKind::Procedure | TokenKind::Function | TokenKind::Class
    )
}

/// The feature of the word `generic` at the front, where it is taken for a name, and the tokens behind it.
pub fn form_of_type(tokens: &[Token]) -> Option<(u8, &[Token])>
    ensures { IfSome result (λ f. HasForm f.0 (terminals tokens.now) (terminals tokens.now) (terminals f.1.now)) }
{
    let (first, rest) = tokens.split_first()?;
    let feature = generic(&first.kind, rest)?;
    Some((feature, rest))
}

/// The feature of a class of classes, and the tokens from `of` on.
pub fn form_of_definition(tokens: &[Token]) -> Option<(u8, &[Token])>
    ensures { IfSome result (λ f. HasForm f.0 (terminals tokens.now) (terminals tokens.now) (terminals f.1.now)) }
{
    let rest = behind_mark(Mark::Class, tokens)?;
    match behind_mark(Mark::Of, rest) {
        Some(_) => Some((METACLASS, rest)),
        None => None,
    }
}

/// The feature of what stands in place of a member, the tokens from the one on that tells it, and those from the one on with which no class
/// goes on.
pub fn form_of_member(tokens: &[Token]) -> Option<(u8, &[Token], &[Token])>
    ensures { IfSome result (λ f. HasForm f.0 (terminals tokens.now) (terminals f.1.now) (terminals f.2.now)) }
{
    if let Some((feature, last)) = form_of_type(tokens) {
        return Some((feature, tokens, last));
    }
    if let Some(feature) = form_of_part(tokens) {
        return Some((feature, tokens, tokens));
    }
    let (first, rest) = tokens.split_first()?;
    let (second, behind) = rest.split_first()?;
    if !is_identifier(&second.kind) {
        return None;
    }
    if is_word(b"strict", &first.kind) {
        return Some((STRICT_VISIBILITY, tokens, rest));
    }
    if !begins_resolution(&first.kind) {
        return None;
    }
    let form = resolution(behind)?;
    Some((METHOD_RESOLUTION, form, form))
}

fn begins_resolution(kind: &TokenKind) -> bool
    ensures { result ≡ begins_resolution kind.now }
{
    matches!(kind, TokenKind::Procedure | TokenKind::Function)
}

/// Behind the word of a routine and a name: a dot, another name and `=`.
fn resolution(tokens: &[Token]) -> Option<&[Token]>
    ensures { IfSome result (λ form. Resolves (terminals tokens.now) (terminals form.now)) }
{
    let rest = behind_mark(Mark::Dot, tokens)?;
    let (second, rest) = rest.split_first()?;
    if !is_identifier(&second.kind) {
        return None;
    }
    behind_mark(Mark::Equal, rest)?;
    Some(rest)
}

/// The feature of the word `default` and a semicolon at the front, where they stand behind a property.
pub fn form_behind_property(tokens: &[Token]) -> Option<u8>
    ensures { IfSome result (λ feature. IsFormBehindProperty feature (terminals tokens.now)) }
{
    let (first, rest) = tokens.split_first()?;
    if !is_word(b"default", &first.kind) {
        return None;
    }
    behind_mark(Mark::Semicolon, rest)?;
    Some(PROPERTY)
}

/// The feature of a file that begins so.
pub fn form_of_file(tokens: &[Token]) -> Option<u8>
    ensures { IfSome result (λ feature. HasForm feature (terminals tokens.now) (terminals tokens.now) (terminals tokens.now)) }
{
    let (first, _) = tokens.split_first()?;
    match &first.kind {
        TokenKind::Library => Some(LIBRARY_OR_EXPORTS),
        _ => None,
    }
}
