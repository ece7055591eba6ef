//! What is told of a case.
ghost use Rattle.std.specs.Prelude.{IsTrue};
ghost use Rattle.op_low.specs.Valid.{is_valid};
ghost use Rattle.op_link.specs.Linking.{is_linkable};

use crate::images::{contents, header, image, listed, run};
use crate::items::lines_of;
use crate::low_text::low_code;
use crate::object_text::objects;
use crate::parts::Parts;
use crate::words::{row, word_of};
use op_base::NoMemory;
use op_image::{build, buildable};
use op_layout::Layout;
use op_link::{LinkError, Settings, link, linkable};
use op_low::{Low, valid};
use op_rv::{Item, ObjectRoutine, Objects};
use op_select::select;
use std::alloc::{AllocError, Global};

/// What low code gets to run.
const FOR_LOW_CODE: Settings = Settings {
    heap: 64,
    stack: 64,
};

/// What objects get to run.
const FOR_OBJECTS: Settings = Settings {
    heap: 64,
    stack: 16,
};

/// The answer that a command asks for.
pub fn answer(alloc: Global, command: &str, text: &str) -> Result<String, NoMemory> {
    match command {
        "decode" | "header" | "lines" | "run" => of_image(alloc, command, text),
        "linkable" | "link" | "segments" => of_objects(alloc, command, text),
        _ => of_low_code(alloc, command, text),
    }
}

fn of_image(alloc: Global, command: &str, text: &str) -> Result<String, NoMemory> {
    let image = image(alloc, text)?;
    of_bytes(alloc, command, image.as_slice())
}

fn of_bytes(alloc: Global, command: &str, bytes: &[u8]) -> Result<String, NoMemory> {
    match command {
        "decode" => Ok(row(alloc, word_of(bytes))?),
        "header" => Ok(header(alloc, bytes)?),
        "lines" => listed(alloc, bytes),
        _ => run(alloc, bytes, true),
    }
}

fn said(alloc: Global, text: &str) -> Result<String, NoMemory> {
    Ok(text.to_string(alloc)?)
}

fn of_low_code(alloc: Global, command: &str, text: &str) -> Result<String, NoMemory> {
    let mut parts = Parts::read(alloc, text)?;
    match low_code(alloc, &mut parts)? {
        Some(low) => of_low(alloc, command, low, &parts),
        None => said(alloc, "no low code"),
    }
}

fn of_low(alloc: Global, command: &str, low: Low, parts: &Parts<'_>) -> Result<String, NoMemory> {
    if !valid(&low) {
        return said(alloc, "not valid");
    }
    match command {
        "execute" => executed(alloc, low, parts),
        "select" | "frame" => selected(alloc, low, command == "frame"),
        _ => said(alloc, "valid"),
    }
}

/// How the image of low code ends, and what it writes.
fn executed(alloc: Global, low: Low, parts: &Parts<'_>) -> Result<String, NoMemory> {
    let layout = parts.layout(alloc)?;
    if !buildable(&low, &layout) {
        return said(alloc, "not buildable");
    }
    ran(alloc, build(alloc, low, &layout, &FOR_LOW_CODE))
}

fn ran(alloc: Global, image: Result<Vec<u8>, LinkError>) -> Result<String, NoMemory> {
    match image {
        Ok(image) => run(alloc, image.as_slice(), false),
        Err(error) => Ok(format!(in alloc; "{error:?}")?),
    }
}

/// The image of low code, which is a text of its own. It is empty where it is not asked for, and where there is none.
pub fn built(alloc: Global, text: &str, builds: bool) -> Result<Vec<u8>, NoMemory> {
    let mut parts = Parts::read(alloc, text)?;
    match low_code(alloc, &mut parts)? {
        Some(low) => image_of(alloc, low, &parts, builds),
        None => Ok(Vec::new(alloc)),
    }
}

fn image_of(alloc: Global, low: Low, parts: &Parts<'_>, builds: bool) -> Result<Vec<u8>, NoMemory> {
    let layout = parts.layout(alloc)?;
    if !buildable(&low, &layout) || !builds {
        return Ok(Vec::new(alloc));
    }
    Ok(build(alloc, low, &layout, &FOR_LOW_CODE).unwrap_or(Vec::new(alloc)))
}

/// The items of the last routine: those of its first block, or its head and its last block.
fn selected(alloc: Global, low: Low, frame: bool) -> Result<String, NoMemory>
    requires { IsTrue (is_valid low) }
{
    let objects = select(alloc, low)?;
    match objects.routines.as_slice().last() {
        Some(routine) => Ok(routine_lines(alloc, routine, frame)?),
        None => said(alloc, "no routine"),
    }
}

fn routine_lines(
    alloc: Global,
    routine: &ObjectRoutine,
    frame: bool,
) -> Result<String, AllocError> {
    let blocks = routine.blocks.as_slice();
    match (blocks.first(), blocks.last()) {
        (Some(_), Some(raising)) if frame => {
            frame_lines(alloc, routine.head.as_slice(), raising.items.as_slice())
        }
        (Some(first), _) => lines_of(alloc, first.items.as_slice()),
        _ => Ok("no block".to_string(alloc)?),
    }
}

fn frame_lines(alloc: Global, head: &[Item], raising: &[Item]) -> Result<String, AllocError> {
    let head = lines_of(alloc, head)?;
    let raising = lines_of(alloc, raising)?;
    format!(in alloc; "{head} | {raising}")
}

fn of_objects(alloc: Global, command: &str, text: &str) -> Result<String, NoMemory> {
    let mut parts = Parts::read(alloc, text)?;
    match objects(alloc, &mut parts)? {
        Some(objects) => laid_out(alloc, command, &objects, &parts),
        None => said(alloc, "no objects"),
    }
}

fn laid_out(
    alloc: Global,
    command: &str,
    objects: &Objects,
    parts: &Parts<'_>,
) -> Result<String, NoMemory> {
    let layout = parts.layout(alloc)?;
    if !linkable(objects, &layout) {
        return said(alloc, "not linkable");
    }
    match command {
        "link" | "segments" => linked(alloc, objects, &layout, command == "segments"),
        _ => said(alloc, "linkable"),
    }
}

/// The header of the image of objects, or the words that it has for the segments.
fn linked(
    alloc: Global,
    objects: &Objects,
    layout: &Layout,
    heads: bool,
) -> Result<String, NoMemory>
    requires { IsTrue (is_linkable objects.now layout.now) }
{
    match link(alloc, objects, layout, &FOR_OBJECTS) {
        Ok(image) if heads => Ok(header(alloc, image.as_slice())?),
        Ok(image) => Ok(contents(alloc, image.as_slice())?),
        Err(error) => Ok(format!(in alloc; "{error:?}")?),
    }
}
