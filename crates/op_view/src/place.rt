//! Places, by the way to them.
use crate::names::{temporary, type_named, variable};
use crate::writer::{Word, Writer};
use op_base::NoMemory;
use op_core::Core;
use op_mir::{Path, Root, Step, Temporary};

pub fn path(out: &mut Writer, core: &Core, path: &Path) -> Result<(), NoMemory> {
    root(out, core, path.root)?;
    for each in path.steps.as_slice() {
        out.words(&step(*each))?;
    }
    Ok(())
}

pub fn root(out: &mut Writer, core: &Core, of: Root) -> Result<(), NoMemory> {
    match of {
        Root::Global { variable: id } => {
            out.words(&[Word::Plain("global")])?;
            out.words(&[variable(core, id)])
        }
        Root::Local { variable: id } => out.words(&[Word::Numbered("local-", id.0)]),
        Root::Through { variable: id } => {
            out.words(&[Word::Plain("through"), Word::Numbered("local-", id.0)])
        }
        Root::Temporary { of, number } => {
            out.words(&[type_named(of), Word::Numbered("w", number)])
        }
    }
}

/// A temporary that is no number.
pub fn held(out: &mut Writer, core: &Core, one: Temporary) -> Result<(), NoMemory> {
    let Temporary { of, number } = one;
    root(out, core, Root::Temporary { of, number })
}

pub fn all_held(out: &mut Writer, core: &Core, all: &[Temporary]) -> Result<(), NoMemory> {
    for each in all {
        held(out, core, *each)?;
    }
    Ok(())
}

fn step(of: Step) -> [Word<'static>; 5] {
    let none = Word::Nothing;
    match of {
        Step::Field { number, .. } => [Word::Numbered(".field-", number), none, none, none, none],
        Step::Element {
            low,
            high,
            index,
            ..
        } => [
            Word::Plain(".element"),
            temporary(index),
            Word::Number(low),
            Word::Plain("to"),
            Word::Number(high),
        ],
    }
}
