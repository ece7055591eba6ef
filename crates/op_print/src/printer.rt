//! The page that a print is put on: words with blanks and line ends between them.
ghost use Rattle.std.specs.Prelude.{◌≡◌, true, false, decimal, IfOk};
ghost use Rattle.op_print.specs.Page.{◌&◌, after, broken, directive_of, empty_page, first_byte, hugs, indent, last_byte, line, outdent, parted, put, runs_together, same_state, same_switches, sign_of, switched_to, wants_gap, word, written};
ghost use Rattle.op_print.specs.Spelling.{quoted};
ghost use Rattle.op_scan.specs.Byte.{is_name_byte};
ghost use Rattle.op_scan.specs.declared.token.TokenKind.TheVariants as kind;

use crate::string::quoted;
use itoa::Buffer;
use op_base::{NoMemory, Text};
use op_scan::Switches;
use std::alloc::Global;
use std::marker::Model;

/// How many bytes may stand on a line before it is broken.
const LINE_LENGTH: usize = 100;

/// What was printed so far, the blanks with which a line begins, how many bytes more fit on this one, and the switches there.
#[derive(Drop)]
pub struct Printer {
    alloc: Global,
    text: Vec<u8>,
    margin: Vec<u8>,
    room: usize,
    switches: Switches,
}

impl Model for Printer {
    ghost use Rattle.op_print.specs.Page.{Page};

    ghost Value = { Page };

    ghost view = { λ p. record { text = p.text.items; margin = p.margin.items; room = p.room; switches = p.switches } };
}

#[tactic(auto, unfolding(op_scan::specs::Byte::is_name_byte))]
fn is_name_byte(byte: u8) -> bool
    ensures { result ≡ is_name_byte byte }
{
    byte.is_ascii_alphanumeric() || byte == b'_'
}

/// Words that begin and end with these bytes would be one word, or another symbol, or a comment.
#[tactic(auto, unfolding(crate::specs::Page::runs_together))]
fn runs_together(last: u8, first: u8) -> bool
    ensures { result ≡ runs_together last first }
{
    (is_name_byte(last) && is_name_byte(first))
        || (last == b'\'' && (first == b'\'' || first == b'#'))
        || (last == b'(' && first == b'*')
        || (last == b'/' && first == b'/')
        || (last == b'.' && first == b'.')
        || (last == b':' && first == b'=')
        || (last == b'<' && (first == b'=' || first == b'>'))
        || (last == b'>' && first == b'=')
}

/// A blank, a line feed and an opening bracket have no blank behind them.
fn hugs(last: u8) -> bool
    ensures { result ≡ hugs last }
{
    last == b' ' || last == b'\n' || last == b'(' || last == b'['
}

fn last_byte(text: &[u8]) -> u8
    ensures { result ≡ last_byte text.now }
{
    match text.last() {
        Some(byte) => *byte,
        None => b'\n',
    }
}

fn first_byte(word: &[u8]) -> u8
    ensures { result ≡ first_byte word.now }
{
    match word.first() {
        Some(byte) => *byte,
        None => b' ',
    }
}

#[tactic(auto, unfolding(crate::specs::Page::wants_gap))]
fn wants_gap(tight: bool, text: &[u8], word: &[u8]) -> bool
    ensures { result ≡ wants_gap tight text.now word.now }
{
    let last = last_byte(text);
    runs_together(last, first_byte(word)) || !(tight || hugs(last))
}

impl Printer {
    /// A page with nothing on it.
    pub fn new(alloc: Global) -> Printer
        ensures { result ≡ empty_page }
    {
        Printer {
            alloc,
            text: Vec::new(alloc),
            margin: Vec::new(alloc),
            room: LINE_LENGTH,
            switches: Switches::OFF,
        }
    }

    /// What was printed.
    pub fn into_text(self) -> Text
        ensures { result ≡ self.text }
    {
        Text::from(self.text)
    }
}

fn break_line(page: &mut Printer) -> Result<(), NoMemory>
    ensures { IfOk result (λ _. page.new ≡ broken page.old) }
{
    page.text.push(b'\n')?;
    page.text.extend_from_slice(page.margin.as_slice())?;
    page.room = LINE_LENGTH;
    Ok(())
}

/// What follows begins a line. At the beginning of the page one has begun.
#[tactic(auto, unfolding(crate::specs::Page::start_line))]
pub fn line(page: &mut Printer) -> Result<(), NoMemory>
    ensures { IfOk result (λ _. page.new ≡ after page.old line) }
{
    if page.text.is_empty() {
        return Ok(());
    }
    break_line(page)
}

/// A blank, or a line's end where nothing more fits.
#[tactic(auto, unfolding(crate::specs::Page::parted))]
fn part(page: &mut Printer) -> Result<(), NoMemory>
    ensures { IfOk result (λ _. page.new ≡ parted page.old) }
{
    if page.room == 0 {
        return break_line(page);
    }
    page.text.push(b' ')?;
    Ok(())
}

fn write(page: &mut Printer, bytes: &[u8]) -> Result<(), NoMemory>
    ensures { IfOk result (λ _. page.new ≡ written bytes.now page.old) }
{
    page.text.extend_from_slice(bytes)?;
    page.room = page.room.saturating_sub(bytes.len());
    Ok(())
}

#[tactic(auto, unfolding(crate::specs::Page::put))]
fn put(page: &mut Printer, tight: bool, bytes: &[u8]) -> Result<(), NoMemory>
    ensures { IfOk result (λ _. page.new ≡ put tight bytes.now page.old) }
{
    if wants_gap(tight, page.text.as_slice(), bytes) {
        part(page)?;
        return write(page, bytes);
    }
    write(page, bytes)
}

/// A word with a blank before it.
pub fn word(page: &mut Printer, bytes: &[u8]) -> Result<(), NoMemory>
    ensures { IfOk result (λ _. page.new ≡ put false bytes.now page.old) }
{
    put(page, false, bytes)
}

/// A word with a blank before it only where it would run into what stands there.
pub fn tight(page: &mut Printer, bytes: &[u8]) -> Result<(), NoMemory>
    ensures { IfOk result (λ _. page.new ≡ put true bytes.now page.old) }
{
    put(page, true, bytes)
}

fn same_state(one: bool, other: bool) -> bool
    ensures { result ≡ same_state one other }
{
    if one { other } else { !other }
}

#[tactic(auto, unfolding(crate::specs::Page::same_switches))]
fn same_switches(one: Switches, other: Switches) -> bool
    ensures { result ≡ same_switches one other }
{
    same_state(one.h, other.h) && same_state(one.q, other.q) && same_state(one.r, other.r)
}

fn sign_of(on: bool) -> u8
    ensures { result ≡ sign_of on }
{
    if on { b'+' } else { b'-' }
}

/// The directive with these states.
fn directive(page: &mut Printer, switches: Switches) -> Result<(), NoMemory>
    ensures { IfOk result (λ _. page.new ≡ put false (directive_of switches) page.old) }
{
    let bytes = [
        b'{',
        b'$',
        b'H',
        sign_of(switches.h),
        b',',
        b'Q',
        sign_of(switches.q),
        b',',
        b'R',
        sign_of(switches.r),
        b'}',
    ];
    word(page, &bytes)
}

/// A directive, where other switches hold.
#[tactic(auto, unfolding(crate::specs::Page::switched_to))]
pub fn switch(page: &mut Printer, switches: Switches) -> Result<(), NoMemory>
    ensures { IfOk result (λ _. page.new ≡ switched_to switches page.old) }
{
    if same_switches(switches, page.switches) {
        return Ok(());
    }
    directive(page, switches)?;
    page.switches = switches;
    Ok(())
}

/// A word whose token has these switches, with a blank before it.
pub fn word_at(page: &mut Printer, switches: Switches, bytes: &[u8]) -> Result<(), NoMemory>
    ensures { IfOk result (λ _. page.new ≡ put false bytes.now (switched_to switches page.old)) }
{
    switch(page, switches)?;
    word(page, bytes)
}

/// The same, with a blank before it only where it would run into what stands there.
pub fn tight_at(page: &mut Printer, switches: Switches, bytes: &[u8]) -> Result<(), NoMemory>
    ensures { IfOk result (λ _. page.new ≡ put true bytes.now (switched_to switches page.old)) }
{
    switch(page, switches)?;
    tight(page, bytes)
}

/// A number, in decimal.
pub fn number(page: &mut Printer, switches: Switches, value: u32) -> Result<(), NoMemory>
    ensures { IfOk result (λ _. page.new ≡ put false (decimal value) (switched_to switches page.old)) }
{
    let mut buffer = Buffer::new();
    word_at(page, switches, buffer.format(value).as_bytes())
}

/// A string with these bytes.
pub fn string(page: &mut Printer, text: &[u8]) -> Result<(), NoMemory>
    ensures { IfOk result (λ _. page.new ≡ put false (quoted text.now) page.old) }
{
    let spelled = quoted(page.alloc, text)?;
    word(page, spelled.as_slice())
}

/// The same, where its token has these switches.
pub fn string_at(page: &mut Printer, switches: Switches, text: &[u8]) -> Result<(), NoMemory>
    ensures { IfOk result (λ _. page.new ≡ put false (quoted text.now) (switched_to switches page.old)) }
{
    let spelled = quoted(page.alloc, text)?;
    word_at(page, switches, spelled.as_slice())
}

/// From now on lines begin two columns further in.
#[tactic(auto, unfolding(crate::specs::Page::further_in))]
pub fn indent(page: &mut Printer) -> Result<(), NoMemory>
    ensures { IfOk result (λ _. page.new ≡ after page.old indent) }
{
    page.margin.extend_from_slice(b"  ")?;
    Ok(())
}

/// From now on lines begin two columns less far in.
#[tactic(auto, unfolding(crate::specs::Page::less_far_in))]
pub fn outdent(page: &mut Printer) -> Result<(), NoMemory>
    ensures { IfOk result (λ _. page.new ≡ after page.old outdent) }
{
    let shorter = page.margin.len().saturating_sub(2);
    page.margin.truncate(shorter);
    Ok(())
}

/// `end`, on a line that begins two columns less far in.
pub fn end(page: &mut Printer) -> Result<(), NoMemory>
    ensures { IfOk result (λ _. page.new ≡ after page.old (outdent & line & word kind.End)) }
{
    print_all!(page: outdent(), line(), word(b"end"))
}
