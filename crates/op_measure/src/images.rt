//! Images as text, what their headers say, and how they run.

use crate::operands::{Operands, first_word};
use crate::tokens::characters;
use crate::words::word_of;
use op_base::{MemSink, MemSource, NoMemory};
use op_emu::{Machine, Stop, load};
use op_link::{read_header, segment};
use op_listing::listing;
use std::alloc::{AllocError, Global};

/// The most steps that an image runs, and the most bytes that it writes.
const STEPS: u64 = 1_000_000;

const ROOM: usize = 64;

/// The bytes of a text of words in hexadecimal digits. `times N` stands before a word that is meant so often; behind `at` stand
/// the place of a word and what it is changed to; and `cut` tells how many bytes are kept.
pub fn image(alloc: Global, text: &str) -> Result<Vec<u8>, AllocError> {
    let mut bytes = Vec::new(alloc);
    for line in text.lines() {
        take(&mut bytes, line)?;
    }
    Ok(bytes)
}

/// Takes one line more.
fn take(bytes: &mut Vec<u8>, line: &str) -> Result<(), AllocError> {
    let (word, rest) = first_word(line);
    let operands = Operands(rest);
    let number = operands.natural(0);
    match word {
        "cut" => {
            bytes.truncate(number as usize);
            Ok(())
        }
        "at" => {
            change_word(bytes, number as usize, operands.word(1));
            Ok(())
        }
        "times" => push_times(bytes, number, operands.word(1)),
        _ => push_all(bytes, line),
    }
}

fn change_word(bytes: &mut Vec<u8>, place: usize, digits: &str) {
    let word = u32::from_str_radix(digits, 16).unwrap_or(0).to_le_bytes();
    for (byte, new) in bytes.iter_mut().skip(place).zip(word.iter()) {
        *byte = *new;
    }
}

fn push_times(bytes: &mut Vec<u8>, number: u32, digits: &str) -> Result<(), AllocError> {
    for _turn in 0..number {
        push_word(bytes, digits)?;
    }
    Ok(())
}

fn push_all(bytes: &mut Vec<u8>, line: &str) -> Result<(), AllocError> {
    for digits in line.split_ascii_whitespace() {
        push_word(bytes, digits)?;
    }
    Ok(())
}

fn push_word(bytes: &mut Vec<u8>, digits: &str) -> Result<(), AllocError> {
    let word = u32::from_str_radix(digits, 16).unwrap_or(0);
    bytes.extend_from_slice(&word.to_le_bytes())
}

/// The entry of an image, and of each segment the address, its place and its bytes in the file, its bytes in memory, and its
/// rights; or the first condition that the image does not meet.
pub fn header(alloc: Global, image: &[u8]) -> Result<String, AllocError> {
    match read_header(image) {
        Err(condition) => format!(in alloc; "condition {condition}"),
        Ok(header) => {
            let mut told = format!(in alloc; "entry {:08x}", header.entry)?;
            for k in 0..header.number {
                let s = segment(image, &header, k);
                write!(
                    told,
                    ", {:08x} {} {} {} {}",
                    s.address, s.offset, s.file_size, s.memory_size, s.flags
                )?;
            }
            Ok(told)
        }
    }
}

/// Writes a word behind others, and how often it stands there if that is more than once.
fn push_row(told: &mut String, word: u32, count: u32) -> Result<(), AllocError> {
    match count {
        0 => Ok(()),
        1 => write!(told, " {word:08x}"),
        _ => write!(told, " {word:08x}*{count}"),
    }
}

fn push_words(told: &mut String, bytes: &[u8]) -> Result<(), AllocError> {
    let mut last = 0;
    let mut count = 0u32;
    for piece in bytes.chunks(4) {
        let word = word_of(piece);
        if word != last {
            push_row(told, last, count)?;
            count = 0;
        }
        last = word;
        count = count.saturating_add(1);
    }
    push_row(told, last, count)
}

/// The bytes that an image has for a segment.
fn bytes_of<'a>(image: &'a [u8], place: u32, size: u32) -> &'a [u8] {
    let behind = image.get(place as usize..).unwrap_or(&[]);
    behind.get(..size as usize).unwrap_or(&[])
}

/// Writes the address of a segment and its words, behind those of others, if there are any.
fn push_contents(told: &mut String, address: u32, bytes: &[u8]) -> Result<(), AllocError> {
    if bytes.is_empty() {
        return Ok(());
    }
    if !told.is_empty() {
        told.push_str("; ")?;
    }
    write!(told, "{address:08x}:")?;
    push_words(told, bytes)
}

/// The words that an image has for each segment.
pub fn contents(alloc: Global, image: &[u8]) -> Result<String, AllocError> {
    let mut told = String::new(alloc);
    if let Ok(header) = read_header(image) {
        for k in 0..header.number {
            let s = segment(image, &header, k);
            let bytes = bytes_of(image, s.offset, s.file_size);
            push_contents(&mut told, s.address, bytes)?;
        }
    }
    Ok(told)
}

/// The lines of a text in one line.
fn joined(alloc: Global, text: &str) -> Result<String, AllocError> {
    let mut told = String::new(alloc);
    for line in text.lines() {
        if !told.is_empty() {
            told.push_str("; ")?;
        }
        told.push_str(line)?;
    }
    Ok(told)
}

/// The lines of an image's listing.
pub fn listed(alloc: Global, image: &[u8]) -> Result<String, NoMemory> {
    let listing = listing(alloc, image)?;
    match str::from_utf8(listing.as_slice()).unwrap_or("no text") {
        "" => Ok("no lines".to_string(alloc)?),
        text => Ok(joined(alloc, text)?),
    }
}

/// Runs a machine over the input `abcdef`, and keeps what it writes to the output.
fn stop_of(alloc: Global, machine: &mut Machine, out: &mut MemSink) -> Result<Stop, NoMemory> {
    let mut input = MemSource::new(b"abcdef".to_vec(alloc)?, Vec::new(alloc));
    let mut err = MemSink::new(alloc, ROOM, Vec::new(alloc))?;
    Ok(machine.run(STEPS, &mut input, out, &mut err))
}

fn stop_text(alloc: Global, stop: Stop) -> Result<String, AllocError> {
    match stop {
        Stop::Fault(kind, pc) => format!(in alloc; "{kind:?} at {pc:08x}"),
        stop => format!(in alloc; "{stop:?}"),
    }
}

fn push_written(told: &mut String, alloc: Global, bytes: &[u8]) -> Result<(), AllocError> {
    let written = characters(alloc, bytes)?;
    write!(told, ", {written:?}")
}

/// How a machine stops, and the text that it writes, or its steps.
fn run_of(alloc: Global, machine: &mut Machine, counts: bool) -> Result<String, NoMemory> {
    let mut out = MemSink::new(alloc, ROOM, Vec::new(alloc))?;
    let stop = stop_of(alloc, machine, &mut out)?;
    let mut told = stop_text(alloc, stop)?;
    if counts {
        write!(told, ", steps: {}", machine.steps())?;
    } else {
        push_written(&mut told, alloc, out.bytes())?;
    }
    Ok(told)
}

/// How the image stops that runs over the input `abcdef`, after how many steps if that is asked, and else what it writes.
pub fn run(alloc: Global, image: &[u8], counts: bool) -> Result<String, NoMemory> {
    match load(alloc, image) {
        Ok(mut machine) => run_of(alloc, &mut machine, counts),
        Err(error) => Ok(format!(in alloc; "{error}")?),
    }
}
