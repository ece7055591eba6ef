//! The lines of a listing.
ghost use Rattle.std.specs.Prelude.{◌≡◌, ◌++◌, IfOk, IfSome, IsTrue, OnOk, codes};
ghost use Rattle.op_link.specs.Image.{has_file_bytes};
ghost use Rattle.op_listing.specs.Linked.{ListsLinked};
ghost use Rattle.op_listing.specs.Listing.{code_segment_of, line_of, lines_of, listing_of, segment_lines, word_text, words_in};

use crate::digits::eight_digits;
use crate::instruction::push_instruction;
use byteorder::{ByteOrder, LittleEndian};
use op_base::{NoMemory, Text};
use op_link::{Segment, read_header, segment};
use op_rv::decode;
use std::alloc::{AllocError, Global};

/// Appends the instruction that a word at an address is, or the word itself where the table has no row for it.
#[tactic(auto, unfolding(crate::specs::Listing::word_text))]
fn push_word(text: &mut Vec<u8>, at: u32, word: u32) -> Result<(), AllocError>
    ensures { OnOk result (text.new.items ≡ text.old.items ++ word_text at word) }
{
    match decode(word) {
        Some(instruction) => push_instruction(text, at, instruction),
        None => {
            text.extend_from_slice(b".word 0x")?;
            text.extend_from_slice(&eight_digits(word))
        }
    }
}

/// Appends the line of a word at an address.
fn push_line(text: &mut Vec<u8>, at: u32, word: u32) -> Result<(), AllocError>
    ensures { OnOk result (text.new.items ≡ text.old.items ++ line_of at word) }
{
    text.extend_from_slice(&eight_digits(at))?;
    text.extend_from_slice(b" ")?;
    text.extend_from_slice(&eight_digits(word))?;
    text.extend_from_slice(b" ")?;
    push_word(text, at, word)?;
    text.extend_from_slice(b"\n")
}

/// Appends the lines of the words of these bytes, which stand from an address on. Fewer than four bytes at the end are no word.
fn push_lines(text: &mut Vec<u8>, at: u32, bytes: &[u8]) -> Result<(), AllocError>
    ensures { OnOk result (text.new.items ≡ text.old.items ++ lines_of at (words_in bytes.now)) }
{
    let mut at = at;
    let mut rest = bytes;
    for _turn in 0..bytes.len() / 4 {
        push_line(text, at, LittleEndian::read_u32(rest))?;
        at = at.wrapping_add(4);
        rest = rest.split_at(4).1;
    }
    Ok(())
}

/// Appends the lines of the words that an image has for a segment.
fn push_segment(text: &mut Vec<u8>, image: &[u8], segment: &Segment) -> Result<(), AllocError>
    requires { IsTrue (has_file_bytes image.now segment.now) }
    ensures { OnOk result (text.new.items ≡ text.old.items ++ segment_lines image.now segment.now) }
{
    let rest = image.split_at(segment.offset as usize).1;
    let bytes = rest.split_at(segment.file_size as usize).0;
    push_lines(text, segment.address, bytes)
}

/// The first segment of an image that may be executed; none where the bytes are no image.
fn code_segment(image: &[u8]) -> Option<Segment>
    ensures is { result ≡ code_segment_of image.now }
    ensures whole { IfSome result (λ s. IsTrue (has_file_bytes image.now s)) }
{
    match read_header(image) {
        Ok(header) => {
            for k in 0..header.number {
                let segment = segment(image, &header, k);
                if segment.flags % 2 == 1 {
                    return Some(segment);
                }
            }
            None
        }
        Err(_) => None,
    }
}

/// The bytes of the listing of an image.
#[tactic(auto, unfolding(crate::specs::Listing::listing_of))]
fn listed(alloc: Global, image: &[u8]) -> Result<Vec<u8>, AllocError>
    ensures { IfOk result (λ text. text.items ≡ listing_of image.now) }
{
    let mut text = Vec::new(alloc);
    if let Some(segment) = code_segment(image) {
        push_segment(&mut text, image, &segment)?;
    }
    Ok(text)
}

/// The listing of an image: a line for each word that it has for its code, in order of address.
///
/// The code is the first segment that may be executed; of an image of the linker it is the first segment, at 0x00010000. A
/// line has the address and the word, in eight lower-case hexadecimal digits each, and the instruction, parted by one blank,
/// and ends with a line feed, as in `00010008 fe000ee3 beq x0, x0, 00010004`. A word that is no instruction is written as data,
/// as in `0001000c 00000000 .word 0x00000000`. Bytes that do not meet the conditions on images have the empty listing.
pub fn listing(alloc: Global, image: &[u8]) -> Result<Text, NoMemory>
    ensures is { IfOk result (λ text. text ≡ listing_of image.now) }

    // Of a linked image these are the lines of the instructions that objects became.
    ensures linked { IfOk result (λ text. ListsLinked image.now text) }
{
    Ok(Text::from(listed(alloc, image)?))
}
