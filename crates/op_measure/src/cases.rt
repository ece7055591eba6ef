//! Files of cases.
//!
//! In front of a line `----` stands a frame, and behind it stand the cases. A line that begins with a blank goes on with the case of
//! the line above. Of a case that begins with a name and a colon the other lines alone are its text. What is asked is the
//! frame with a case in place of its line `...`. Lines that begin with `#` and empty lines are left out.

use crate::answers::answer;
use op_base::NoMemory;
use std::alloc::{AllocError, Global};
use std::io;

fn push_line(text: &mut String, line: &str) -> Result<(), AllocError> {
    text.push_str(line.trim())?;
    text.push('\n')
}

/// Puts the lines of a case behind a text, but for its name.
fn push_case(text: &mut String, case: &[&str]) -> Result<(), AllocError> {
    for line in case {
        if !line.ends_with(':') {
            push_line(text, *line)?;
        }
    }
    Ok(())
}

fn is_left_out(line: &str) -> bool {
    line.is_empty() || line.starts_with('#')
}

/// The frame with a case in it.
fn framed(alloc: Global, frame: &str, case: &[&str]) -> Result<String, AllocError> {
    let mut text = String::new(alloc);
    for line in frame.lines() {
        if line == "..." {
            push_case(&mut text, case)?;
        } else if !is_left_out(line) {
            push_line(&mut text, line)?;
        }
    }
    Ok(text)
}

fn told(alloc: Global, command: &str, frame: &str, case: &[&str]) -> Result<String, NoMemory> {
    let text = framed(alloc, frame, case)?;
    answer(alloc, command, text.as_str())
}

/// Writes the first line of a case, and behind it the answer.
fn tell_case(rt: &HostRuntime, command: &str, frame: &str, case: &[&str]) -> io::Result<()> {
    let Some(name) = case.first() else {
        return Ok(());
    };
    let name = name.trim_end_matches(':');
    match told(rt.alloc(), command, frame, case) {
        Ok(told) => println!(rt; "{name}: {told}"),
        Err(error) => println!(rt; "{name}: {error}"),
    }
}

/// Tells the answer to each case.
pub fn tell(rt: &HostRuntime, command: &str, text: &str) -> io::Result<()> {
    let (frame, cases) = text.split_once("----\n").unwrap_or(("...\n", text));
    let mut case = Vec::new(rt.alloc());
    for line in cases.lines() {
        if is_left_out(line) {
            continue;
        }
        if !line.starts_with(' ') {
            tell_case(rt, command, frame, case.as_slice())?;
            case.clear();
        }
        case.push(line)?;
    }
    tell_case(rt, command, frame, case.as_slice())
}
