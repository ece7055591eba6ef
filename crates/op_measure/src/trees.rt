//! The tree of a text.
ghost use Rattle.std.specs.Prelude.{◌≤◌, length};

use crate::say;
use op_base::Refusal;
use op_parse_code::ParseError;
use op_parse_decl::parse;
use op_print::print;
use op_scan::{ScanError, scan};
use op_tree::Tree;
use std::io;

fn tell_refusal(rt: &HostRuntime, name: &str, refusal: Refusal) -> io::Result<()> {
    let Refusal { rule, place } = refusal;
    match rule.number {
        13 => println!(rt; "{name}:{}:{}: V13 {}", place.line, place.col, rule.feature),
        number => println!(rt; "{name}:{}:{}: V{number}", place.line, place.col),
    }
}

fn print_tree(rt: &HostRuntime, tree: &Tree) -> io::Result<()> {
    match print(rt.alloc(), tree) {
        Ok(text) => rt.stdout().write_all(text.as_slice()),
        Err(_) => say(rt, "out of memory"),
    }
}

fn tell_tree(rt: &HostRuntime, name: &str, tree: &Tree, prints: bool) -> io::Result<()> {
    if prints {
        return print_tree(rt, tree);
    }
    match tree {
        Tree::Program(_) => println!(rt; "{name}: program"),
        Tree::Unit(_) => println!(rt; "{name}: unit"),
    }
}

fn tell_parsed(
    rt: &HostRuntime,
    name: &str,
    parsed: Result<Tree, ParseError>,
    prints: bool,
) -> io::Result<()> {
    match parsed {
        Ok(tree) => tell_tree(rt, name, &tree, prints),
        Err(ParseError::Refused(refusal)) => tell_refusal(rt, name, refusal),
        Err(ParseError::NoMemory) => say(rt, "out of memory"),
    }
}

/// Parses a text, and prints its tree or tells what it is. A text that is refused gives its place and the rule.
pub fn tell(rt: &HostRuntime, name: &str, text: &[u8], prints: bool) -> io::Result<()>
    requires { length text.now ≤ 2147483648 }
{
    match scan(rt.alloc(), text, 0) {
        Ok(tokens) => tell_parsed(rt, name, parse(rt.alloc(), &tokens), prints),
        Err(ScanError::Refused(refusal)) => tell_refusal(rt, name, refusal),
        Err(ScanError::NoMemory) => say(rt, "out of memory"),
    }
}
