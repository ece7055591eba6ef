//! What calls are given and where their results go.
use crate::names::{integer, temporary, type_named};
use crate::place::path;
use crate::writer::{Word, Writer};
use op_base::NoMemory;
use op_core::Core;
use op_mir::{Given, Receiver};

pub fn all_given(out: &mut Writer, core: &Core, all: &[Given]) -> Result<(), NoMemory> {
    out.words(&[Word::Plain("(")])?;
    for each in all {
        given(out, core, each)?;
    }
    out.words(&[Word::Plain(")")])
}

fn given(out: &mut Writer, core: &Core, of: &Given) -> Result<(), NoMemory> {
    match of {
        Given::ByValue {
            kind,
            temporary: from,
        } => out.words(&[Word::Plain("value"), integer(*kind), temporary(*from)]),
        Given::ByPlace { path: at } => {
            out.words(&[Word::Plain("place")])?;
            path(out, core, at)
        }
        Given::ByCopy { of, path: at } => {
            out.words(&[Word::Plain("copy"), type_named(*of)])?;
            path(out, core, at)
        }
    }
}

pub fn receiver(out: &mut Writer, core: &Core, of: &Receiver) -> Result<(), NoMemory> {
    match of {
        Receiver::Nowhere => Ok(()),
        Receiver::Temporary { temporary: to } => out.words(&[Word::Plain("to"), temporary(*to)]),
        Receiver::Place { of, to } => {
            out.words(&[Word::Plain("to"), type_named(*of)])?;
            path(out, core, to)
        }
    }
}
