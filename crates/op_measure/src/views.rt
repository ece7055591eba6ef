//! What is between the text of a program and its low code.
use crate::say;
use op_base::{NoMemory, StdFiles};
use op_check_unit::check;
use op_core::{CheckError, Core};
use op_lower::lower;
use op_units::load;
use op_view::{items, managed_code, typed_program};
use std::alloc::Global;
use std::io::{self, Write};

/// The typed program of a file, or a word that says why it has none.
fn typed(rt: &HostRuntime, name: &str) -> Result<Core, &'static str> {
    let mut files = StdFiles::new(rt);
    let Ok(forest) = load(rt.alloc(), &mut files, name) else {
        return Err("not loaded");
    };
    match check(rt.alloc(), forest.trees.as_slice(), forest.order.as_slice()) {
        Ok(core) => Ok(core),
        Err(CheckError::Refused(_)) => Err("refused"),
        Err(CheckError::NoMemory) => Err("out of memory"),
    }
}

fn managed(alloc: Global, core: &Core) -> Result<Vec<u8>, NoMemory> {
    let mir = lower(alloc, core)?;
    managed_code(alloc, core, &mir)
}

fn view(alloc: Global, command: &str, core: &Core) -> Result<Vec<u8>, NoMemory> {
    match command {
        "typed" => typed_program(alloc, core),
        "items" => items(alloc, core),
        _ => managed(alloc, core),
    }
}

/// Prints the typed program of a file, the items of its routines, or its managed code.
pub fn tell(rt: &HostRuntime, command: &str, name: &str) -> io::Result<()> {
    match typed(rt, name) {
        Ok(core) => match view(rt.alloc(), command, &core) {
            Ok(text) => rt.stdout().write_all(text.as_slice()),
            Err(_) => say(rt, "out of memory"),
        },
        Err(why) => say(rt, why),
    }
}
