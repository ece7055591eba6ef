//! Directives: comments that begin with `$` (Free Pascal Programmer's Guide, "Compiler directives").
ghost use Rattle.std.specs.Prelude.{◌≡◌, length, map, codes};
ghost use Rattle.std.specs.List.{take_while};
ghost use Rattle.op_scan.specs.Directive.{argument_of, effect_of_comment, effect_of_directive, effect_of_interfaces, effect_of_letter, effect_of_mode, effect_of_name, effect_of_named, effect_of_state, is_conditional, is_switch, switched, with_switch};

use crate::Switches;
use crate::byte::{ByteKind, begins_with, run_length};
use crate::effect::{BAD_DIRECTIVE, CONDITIONAL_DIRECTIVE, CORBA_INTERFACES, Effect, OTHER_MODE};
use crate::keyword::is_same_word;

/// What a comment with this inside does.
#[tactic(auto, unfolding(crate::specs::Directive::effect_of_comment))]
pub fn effect_of_comment(switches: Switches, inside: &[u8]) -> Effect
    ensures { result ≡ effect_of_comment switches inside.now }
{
    match inside.split_first() {
        Some((b'$', text)) => effect_of_directive(switches, text),
        _ => Effect::Passes(switches),
    }
}

/// What the directive with this text behind the `$` does.
#[tactic(auto, unfolding(crate::specs::Directive::effect_of_directive))]
fn effect_of_directive(switches: Switches, text: &[u8]) -> Effect
    ensures { result ≡ effect_of_directive switches text.now }
{
    let (name, rest) = text.split_at(run_length(ByteKind::NameByte, text));
    effect_of_named(switches, name, rest, text)
}

#[tactic(auto, unfolding(crate::specs::Directive::effect_of_named))]
fn effect_of_named(switches: Switches, name: &[u8], rest: &[u8], text: &[u8]) -> Effect
    ensures { result ≡ effect_of_named switches name.now rest.now text.now }
{
    if is_conditional(name) {
        Effect::Breaks(CONDITIONAL_DIRECTIVE)
    } else if name.len() == 1 {
        effect_of_letter(switches, name, rest, text)
    } else {
        effect_of_name(switches, name, argument(rest))
    }
}

/// The first word of these bytes, without the blanks round it.
#[tactic(auto, unfolding(crate::specs::Directive::argument_of))]
fn argument(bytes: &[u8]) -> &[u8]
    ensures { result.now ≡ argument_of bytes.now }
{
    let word = &bytes[run_length(ByteKind::Blank, bytes)..];
    &word[..run_length(ByteKind::NotBlank, word)]
}

/// The name is that of a directive that leaves out or takes in parts of a text.
#[tactic(auto, unfolding(crate::specs::Directive::is_conditional))]
fn is_conditional(name: &[u8]) -> bool
    ensures { result ≡ is_conditional name.now }
{
    is_same_word(name, b"if")
        || is_same_word(name, b"ifdef")
        || is_same_word(name, b"ifndef")
        || is_same_word(name, b"ifopt")
        || is_same_word(name, b"else")
        || is_same_word(name, b"elseif")
        || is_same_word(name, b"endif")
        || is_same_word(name, b"define")
        || is_same_word(name, b"undef")
        || is_same_word(name, b"include")
}

/// What a directive with a long name does.
#[tactic(auto, unfolding(crate::specs::Directive::effect_of_name))]
fn effect_of_name(switches: Switches, name: &[u8], argument: &[u8]) -> Effect
    ensures { result ≡ effect_of_name switches name.now argument.now }
{
    if is_same_word(name, b"mode") {
        effect_of_mode(switches, argument)
    } else if is_same_word(name, b"interfaces") {
        effect_of_interfaces(switches, argument)
    } else if is_same_word(name, b"longstrings") {
        effect_of_state(switches, b'h', argument)
    } else if is_same_word(name, b"overflowchecks") {
        effect_of_state(switches, b'q', argument)
    } else if is_same_word(name, b"rangechecks") {
        effect_of_state(switches, b'r', argument)
    } else {
        Effect::Passes(switches)
    }
}

#[tactic(auto, unfolding(crate::specs::Directive::effect_of_mode))]
fn effect_of_mode(switches: Switches, mode: &[u8]) -> Effect
    ensures { result ≡ effect_of_mode switches mode.now }
{
    if is_same_word(mode, b"objfpc") {
        Effect::Passes(switches)
    } else if mode.is_empty() {
        Effect::Breaks(BAD_DIRECTIVE)
    } else {
        Effect::Breaks(OTHER_MODE)
    }
}

#[tactic(auto, unfolding(crate::specs::Directive::effect_of_interfaces))]
fn effect_of_interfaces(switches: Switches, kind: &[u8]) -> Effect
    ensures { result ≡ effect_of_interfaces switches kind.now }
{
    if is_same_word(kind, b"com") {
        Effect::Passes(switches)
    } else if is_same_word(kind, b"corba") {
        Effect::Breaks(CORBA_INTERFACES)
    } else {
        Effect::Breaks(BAD_DIRECTIVE)
    }
}

#[tactic(auto, unfolding(crate::specs::Directive::effect_of_state))]
fn effect_of_state(switches: Switches, letter: u8, state: &[u8]) -> Effect
    ensures { result ≡ effect_of_state switches letter state.now }
{
    if is_same_word(state, b"on") {
        Effect::Passes(with_switch(switches, letter, true))
    } else if is_same_word(state, b"off") {
        Effect::Passes(with_switch(switches, letter, false))
    } else {
        Effect::Breaks(BAD_DIRECTIVE)
    }
}

/// What a directive whose name is one letter does: switches, or another directive.
#[tactic(auto, unfolding(crate::specs::Directive::effect_of_letter))]
fn effect_of_letter(switches: Switches, name: &[u8], rest: &[u8], text: &[u8]) -> Effect
    ensures { result ≡ effect_of_letter switches name.now rest.now text.now }
{
    if begins_with(rest, b'+') || begins_with(rest, b'-') {
        match switched(switches, &text[..run_length(ByteKind::NotBlank, text)]) {
            Some(after) => Effect::Passes(after),
            None => Effect::Breaks(BAD_DIRECTIVE),
        }
    } else if is_same_word(name, b"i") {
        Effect::Breaks(CONDITIONAL_DIRECTIVE)
    } else if is_same_word(name, b"h")
        || is_same_word(name, b"q")
        || is_same_word(name, b"r") && argument(rest).is_empty()
    {
        Effect::Breaks(BAD_DIRECTIVE)
    } else {
        Effect::Passes(switches)
    }
}

/// The switches after one of them is set. Other letters set none.
#[tactic(auto, unfolding(crate::specs::Directive::with_switch))]
fn with_switch(switches: Switches, letter: u8, on: bool) -> Switches
    ensures { result ≡ with_switch switches letter on }
{
    match letter {
        b'h' | b'H' => Switches { h: on, ..switches },
        b'q' | b'Q' => Switches { q: on, ..switches },
        b'r' | b'R' => Switches { r: on, ..switches },
        _ => switches,
    }
}

/// A letter with `+` or `-`.
fn is_switch(letter: u8, sign: u8) -> bool
    ensures { result ≡ is_switch letter sign }
{
    letter.is_ascii_alphabetic() && (sign == b'+' || sign == b'-')
}

/// The switches after those of a list such as `H+,Q-`, if it is one.
#[tactic(auto, unfolding(crate::specs::Directive::switched))]
fn switched(switches: Switches, list: &[u8]) -> Option<Switches>
    ensures { result ≡ switched switches list.now }
{
    let mut after = switches;
    let mut rest = list;
    while let Some((letter, signed)) = rest.split_first() {
        let Some((sign, others)) = signed.split_first() else {
            return None;
        };
        if !is_switch(*letter, *sign) {
            return None;
        }
        after = with_switch(after, *letter, *sign == b'+');
        let Some((comma, next)) = others.split_first() else {
            return Some(after);
        };
        if *comma != b',' {
            return None;
        }
        rest = next;
    }
    None
}
