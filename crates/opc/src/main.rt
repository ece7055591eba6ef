//! The program `opc`: it gives the words of its command line, the system's files and its three streams to `tool`, and
//! ends with the status of what that answers.
#![tactic(auto)]

use op_base::{NoMemory, StdFiles, StdSink, StdSource};
use op_tool::{report_no_memory, status, tool};
use std::env;
use std::io::ErrorKind;
use std::process::ExitCode;

/// The words after the program's name. Where one of them is no text there are none, since then the words are no command.
fn words(rt: &HostRuntime) -> Result<Vec<String>, NoMemory> {
    let mut words = Vec::new(rt.alloc());
    match env::args(rt) {
        Ok(args) => {
            for word in args.skip(1) {
                words.push(word)?;
            }
            Ok(words)
        }
        Err(error) => match error.kind() {
            ErrorKind::OutOfMemory => Err(NoMemory),
            _ => Ok(words),
        },
    }
}

fn main(rt: HostRuntime) -> ExitCode {
    let mut files = StdFiles::new(&rt);
    let mut input = StdSource::new(rt.stdin());
    let mut out = StdSink::new(rt.stdout());
    let mut err = StdSink::new(rt.stderr());
    let mut image = Vec::new(rt.alloc());
    let finish = match words(&rt) {
        Ok(words) => tool(
            rt.alloc(),
            words.as_slice(),
            &mut files,
            &mut input,
            &mut out,
            &mut err,
            &mut image,
        ),
        Err(NoMemory) => report_no_memory(&mut err),
    };
    ExitCode::from(status(&finish))
}
