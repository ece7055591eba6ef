//! What the scripts in `bench/` and `tests/` ask of parts of the compiler.
//!
//! A word that is a command says what is told of the files behind it. `count` tells how many tokens a file has, and `list` each token
//! with its place. `parse` tells what a file is, and `print` prints its tree. `typed` prints the typed program of a file and its units,
//! `items` the items of its routines, and `managed` its managed code. `words` decodes the words of code, and `listing` lists an
//! image. `make` reads low code, and `build` writes its image. The others tell of each case of a file (`cases`): `decode` of a word,
//! `header`, `lines` and `run` of an image, `valid`, `select`, `frame` and `execute` of low code, and `linkable`, `link` and `segments`
//! of objects.
#![tactic(auto)]

ghost use Rattle.std.specs.Prelude.{◌≤◌, length};

mod answers;
mod cases;
mod images;
mod items;
mod low_text;
mod object_text;
mod operands;
mod parts;
mod tokens;
mod trees;
mod views;
mod words;

use crate::answers::built;
use op_base::{FileAnswer, Files, StdFiles};
use op_listing::listing;
use std::io::{self, Write};

const COMMANDS: [&str; 22] = [
    "count", "list", "parse", "print", "typed", "items", "managed", "words", "listing", "make",
    "build", "decode", "header", "lines", "run", "valid", "select", "frame", "execute", "linkable",
    "link", "segments",
];

/// The most bytes that are read.
const MOST_BYTES: usize = 1 << 26;

fn say(rt: &HostRuntime, line: &str) -> io::Result<()> {
    println!(rt; "{line}")
}

fn tell_file(rt: &HostRuntime, command: &str, name: &str) -> io::Result<()> {
    if matches!(command, "typed" | "items" | "managed") {
        return views::tell(rt, command, name);
    }
    let mut files = StdFiles::new(rt);
    match files.read(rt.alloc(), name, MOST_BYTES) {
        Ok(FileAnswer::Found(text)) => tell_bytes(rt, command, name, text.as_slice()),
        _ => say(rt, "not read"),
    }
}

fn tell_bytes(rt: &HostRuntime, command: &str, name: &str, text: &[u8]) -> io::Result<()>
    requires { length text.now ≤ 2147483648 }
{
    match command {
        "words" => words::tell(rt, text),
        "listing" => tell_listing(rt, text),
        "parse" | "print" => trees::tell(rt, name, text, command == "print"),
        "count" | "list" => tokens::tell(rt, name, text, command == "list"),
        _ => match str::from_utf8(text) {
            Ok(text) => tell_text(rt, command, text),
            Err(_) => say(rt, "no text"),
        },
    }
}

fn tell_listing(rt: &HostRuntime, image: &[u8]) -> io::Result<()> {
    match listing(rt.alloc(), image) {
        Ok(listing) => rt.stdout().write_all(listing.as_slice()),
        Err(_) => say(rt, "out of memory"),
    }
}

fn tell_text(rt: &HostRuntime, command: &str, text: &str) -> io::Result<()> {
    match command {
        "make" | "build" => match built(rt.alloc(), text, command == "build") {
            Ok(image) => rt.stdout().write_all(image.as_slice()),
            Err(_) => say(rt, "out of memory"),
        },
        _ => cases::tell(rt, command, text),
    }
}

/// Whether a word is a command, so that the words behind it are told by it.
fn is_command(word: &str) -> bool {
    COMMANDS.iter().any(|command| *command == word)
}

fn main(rt: HostRuntime) -> io::Result<()> {
    let words: Vec<String> = std::env::args(&rt)?.collect(rt.alloc())?;
    let mut command = "";
    for word in words.as_slice().iter().skip(1) {
        let word = word.as_str();
        if is_command(word) {
            command = word;
        } else {
            tell_file(&rt, command, word)?;
        }
    }
    Ok(())
}
