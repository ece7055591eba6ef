//! The headers of an image that is written.
ghost use Rattle.std.specs.Prelude.{◌≡◌, ◌++◌, OnOk};
ghost use Rattle.byteorder.specs.Endian.{little_bytes};
ghost use Rattle.op_link.specs.Linking.{file_header, halves, program_header, program_headers, words};

use crate::memory_map::CODE_ADDRESS;
use crate::table::Segment;
use byteorder::{ByteOrder, LittleEndian};
use std::alloc::AllocError;

/// Appends a field of two bytes.
fn push_half(image: &mut Vec<u8>, field: u16) -> Result<(), AllocError>
    ensures { OnOk result (image.new.items ≡ image.old.items ++ little_bytes 2 field) }
{
    let mut bytes = [0; 2];
    LittleEndian::write_u16(&mut bytes, field);
    image.extend_from_slice(&bytes)
}

/// Appends a field of four bytes.
pub(crate) fn push_word(image: &mut Vec<u8>, field: u32) -> Result<(), AllocError>
    ensures { OnOk result (image.new.items ≡ image.old.items ++ little_bytes 4 field) }
{
    let mut bytes = [0; 4];
    LittleEndian::write_u32(&mut bytes, field);
    image.extend_from_slice(&bytes)
}

/// Appends fields of two bytes.
fn push_halves(image: &mut Vec<u8>, fields: &[u16]) -> Result<(), AllocError>
    ensures { OnOk result (image.new.items ≡ image.old.items ++ halves fields.now) }
{
    for field in fields {
        push_half(image, *field)?;
    }
    Ok(())
}

/// Appends fields of four bytes.
fn push_words(image: &mut Vec<u8>, fields: &[u32]) -> Result<(), AllocError>
    ensures { OnOk result (image.new.items ≡ image.old.items ++ words fields.now) }
{
    for field in fields {
        push_word(image, *field)?;
    }
    Ok(())
}

#[tactic(auto, unfolding(crate::specs::Linking::file_header))]
pub(crate) fn push_file_header(image: &mut Vec<u8>) -> Result<(), AllocError>
    ensures { OnOk result (image.new.items ≡ image.old.items ++ file_header) }
{
    image.extend_from_slice(b"\x7fELF\x01\x01\x01\0\0\0\0\0\0\0\0\0")?;
    push_halves(image, &[2, 243])?;
    push_words(image, &[1, CODE_ADDRESS, 52, 0, 0])?;
    push_halves(image, &[52, 32, 6, 0, 0, 0])
}

#[tactic(auto, unfolding(crate::specs::Linking::program_header))]
fn push_program_header(image: &mut Vec<u8>, segment: &Segment) -> Result<(), AllocError>
    ensures { OnOk result (image.new.items ≡ image.old.items ++ program_header segment.now) }
{
    push_words(
        image,
        &[
            1,
            segment.offset,
            segment.address,
            segment.address,
            segment.file_size,
            segment.memory_size,
            segment.flags,
            4096,
        ],
    )
}

pub(crate) fn push_program_headers(
    image: &mut Vec<u8>,
    segments: &[Segment],
) -> Result<(), AllocError>
    ensures { OnOk result (image.new.items ≡ image.old.items ++ program_headers segments.now) }
{
    for segment in segments {
        push_program_header(image, segment)?;
    }
    Ok(())
}
