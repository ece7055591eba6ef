//! The call that the program `opc` makes.
ghost use Rattle.std.specs.Prelude.{◌≡◌, ◌≤◌, IsTrue, List, Option, ℕ, [], map, string_bytes};
ghost use Rattle.op_emu.specs.Acts.{streams, faults, Rises};
ghost use Rattle.op_link.specs.Memory.{are_in_range};
ghost use Rattle.op_command.specs.Command.{IsNoCommand};
ghost use Rattle.op_tool.specs.Effects.{Says};
ghost use Rattle.op_tool.specs.Leaves.{LeavesErrors, LeavesInput, LeavesOutput, RunsNothing, only_reports};
ghost use Rattle.op_tool.specs.Owes.{call, Owes, OwesBuild, OwesCheck, OwesExec, OwesList, OwesRun};
ghost use Rattle.op_command.specs.Reading.{asked_of};
ghost use Rattle.op_tool.specs.declared.finish.Finish.{Finish};

use crate::compiler::{MAIN_START, checked};
use crate::image_run::run_image;
use crate::report::{report, report_bad_image, report_error, report_no_memory, report_refusal};
use crate::{Finish, compile};
use op_base::{FILE_MISSING, FileAnswer, Files, NoMemory, Put, Refusal, Sink, Source};
use op_command::{Command, Verb, command_of};
use op_listing::listing;
use std::alloc::Global;

/// The most bytes that an image may have.
const MOST_IMAGE_BYTES: usize = 100_663_296;

/// Compiles a file and runs its image.
fn exec<F: Files, R: Source, W: Sink, E: Sink>(
    alloc: Global,
    command: &Command<'_>,
    files: &mut F,
    input: &mut R,
    out: &mut W,
    err: &mut E,
    image: &mut Vec<u8>,
) -> Finish
    requires empty { image.old.items ≡ [] }
    requires settings { IsTrue (are_in_range command.now.settings) }
    ensures says { (words : List (List ℕ)) →
        Says (OwesExec (call words (F.stored files.old) (F.faults files.old) (F.faults files.new) (R.faults input.old) (R.faults input.new) image.new.items) (asked_of command.now)) result
        (streams (R.left input.old) (R.left input.new) (W.written out.old) (W.written out.new) (E.written err.old) (E.written err.new))
        (faults (R.faults input.old) (R.faults input.new) (W.faults out.old) (W.faults out.new) (E.faults err.old) (E.faults err.new)) }
    ensures counts { Rises (faults (R.faults input.old) (R.faults input.new) (W.faults out.old) (W.faults out.new) (E.faults err.old) (E.faults err.new)) }
    ensures leaves_input { RunsNothing result (R.faults input.old) (R.faults input.new) → input.new ≡ input.old }
    ensures leaves_output { RunsNothing result (R.faults input.old) (R.faults input.new) → out.new ≡ out.old }
    ensures file_counts { F.faults files.old ≤ F.faults files.new }
    ensures unchanged { F.stored files.new ≡ F.stored files.old }
{
    match compile(alloc, files, command.operand, &command.settings) {
        Ok(made) => {
            *image = made;
            run_image(alloc, image.as_slice(), command.steps, input, out, err)
        }
        Err(error) => report_error(alloc, error, err),
    }
}

/// Compiles a file and writes its image.
fn build<F: Files, W: Sink, E: Sink>(
    alloc: Global,
    command: &Command<'_>,
    files: &mut F,
    out: &mut W,
    err: &mut E,
    image: &mut Vec<u8>,
) -> Finish
    requires empty { image.old.items ≡ [] }
    requires settings { IsTrue (are_in_range command.now.settings) }
    ensures says { (words : List (List ℕ)) (left : Option (List ℕ)) (count : ℕ) →
        Says (OwesBuild (call words (F.stored files.old) (F.faults files.old) (F.faults files.new) count count image.new.items) (asked_of command.now)) result
        (streams left left (W.written out.old) (W.written out.new) (E.written err.old) (E.written err.new))
        (faults count count (W.faults out.old) (W.faults out.new) (E.faults err.old) (E.faults err.new)) }
    ensures counts { (W.faults out.old ≤ W.faults out.new) × (E.faults err.old ≤ E.faults err.new) }
    ensures leaves_output { IsTrue (only_reports result) → out.new ≡ out.old }
    ensures leaves_errors { (status : ℕ) → result ≡ Finish.Ended status → err.new ≡ err.old }
    ensures file_counts { F.faults files.old ≤ F.faults files.new }
    ensures unchanged { F.stored files.new ≡ F.stored files.old }
{
    match compile(alloc, files, command.operand, &command.settings) {
        Ok(made) => {
            *image = made;
            match out.put(image.as_slice()) {
                Put::Done => Finish::Ended(0),
                Put::Failed => Finish::WriteFault,
            }
        }
        Err(error) => report_error(alloc, error, err),
    }
}

/// Checks a file.
fn check<F: Files, W: Sink, E: Sink>(
    alloc: Global,
    file: &str,
    files: &mut F,
    out: &mut W,
    err: &mut E,
) -> Finish
    ensures says { (words : List (List ℕ)) (left : Option (List ℕ)) (count : ℕ) →
        Says (OwesCheck (call words (F.stored files.old) (F.faults files.old) (F.faults files.new) count count []) file.now) result
        (streams left left (W.written out.old) (W.written out.new) (E.written err.old) (E.written err.new))
        (faults count count (W.faults out.old) (W.faults out.new) (E.faults err.old) (E.faults err.new)) }
    ensures counts { (W.faults out.old ≤ W.faults out.new) × (E.faults err.old ≤ E.faults err.new) }
    ensures leaves_output { IsTrue (only_reports result) → out.new ≡ out.old }
    ensures leaves_errors { (status : ℕ) → result ≡ Finish.Ended status → err.new ≡ err.old }
    ensures file_counts { F.faults files.old ≤ F.faults files.new }
    ensures unchanged { F.stored files.new ≡ F.stored files.old }
{
    match checked(alloc, files, file) {
        Ok(_) => match out.put(b"ok\n") {
            Put::Done => Finish::Ended(0),
            Put::Failed => Finish::WriteFault,
        },
        Err(error) => report_error(alloc, error, err),
    }
}

/// Compiles a file and writes the listing of its image.
fn list<F: Files, W: Sink, E: Sink>(
    alloc: Global,
    command: &Command<'_>,
    files: &mut F,
    out: &mut W,
    err: &mut E,
    image: &mut Vec<u8>,
) -> Finish
    requires empty { image.old.items ≡ [] }
    requires settings { IsTrue (are_in_range command.now.settings) }
    ensures says { (words : List (List ℕ)) (left : Option (List ℕ)) (count : ℕ) →
        Says (OwesList (call words (F.stored files.old) (F.faults files.old) (F.faults files.new) count count image.new.items) (asked_of command.now)) result
        (streams left left (W.written out.old) (W.written out.new) (E.written err.old) (E.written err.new))
        (faults count count (W.faults out.old) (W.faults out.new) (E.faults err.old) (E.faults err.new)) }
    ensures counts { (W.faults out.old ≤ W.faults out.new) × (E.faults err.old ≤ E.faults err.new) }
    ensures leaves_output { IsTrue (only_reports result) → out.new ≡ out.old }
    ensures leaves_errors { (status : ℕ) → result ≡ Finish.Ended status → err.new ≡ err.old }
    ensures file_counts { F.faults files.old ≤ F.faults files.new }
    ensures unchanged { F.stored files.new ≡ F.stored files.old }
{
    match compile(alloc, files, command.operand, &command.settings) {
        Ok(made) => {
            *image = made;
            match listing(alloc, image.as_slice()) {
                Ok(text) => match out.put(text.as_slice()) {
                    Put::Done => Finish::Ended(0),
                    Put::Failed => Finish::WriteFault,
                },
                Err(NoMemory) => report_no_memory(err),
            }
        }
        Err(error) => report_error(alloc, error, err),
    }
}

/// Runs the image in a file, for at most so many steps.
fn run<F: Files, R: Source, W: Sink, E: Sink>(
    alloc: Global,
    command: &Command<'_>,
    files: &mut F,
    input: &mut R,
    out: &mut W,
    err: &mut E,
    image: &mut Vec<u8>,
) -> Finish
    requires { image.old.items ≡ [] }
    ensures says { (words : List (List ℕ)) →
        Says (OwesRun (call words (F.stored files.old) (F.faults files.old) (F.faults files.new) (R.faults input.old) (R.faults input.new) image.new.items) command.now.operand.now command.now.steps) result
        (streams (R.left input.old) (R.left input.new) (W.written out.old) (W.written out.new) (E.written err.old) (E.written err.new))
        (faults (R.faults input.old) (R.faults input.new) (W.faults out.old) (W.faults out.new) (E.faults err.old) (E.faults err.new)) }
    ensures counts { Rises (faults (R.faults input.old) (R.faults input.new) (W.faults out.old) (W.faults out.new) (E.faults err.old) (E.faults err.new)) }
    ensures leaves_input { RunsNothing result (R.faults input.old) (R.faults input.new) → input.new ≡ input.old }
    ensures leaves_output { RunsNothing result (R.faults input.old) (R.faults input.new) → out.new ≡ out.old }
    ensures file_counts { F.faults files.old ≤ F.faults files.new }
    ensures unchanged { F.stored files.new ≡ F.stored files.old }
{
    match files.read(alloc, command.operand, MOST_IMAGE_BYTES) {
        Ok(FileAnswer::Found(bytes)) => {
            *image = bytes.into_vec();
            run_image(alloc, image.as_slice(), command.steps, input, out, err)
        }
        Ok(FileAnswer::Long) => report_bad_image(alloc, 1, err),
        Ok(FileAnswer::Missing) => report_refusal(
            alloc,
            command.operand.as_bytes(),
            Refusal {
                rule: FILE_MISSING,
                place: MAIN_START,
            },
            err,
        ),
        Ok(FileAnswer::Failed) => report(err, b"opc: read fault\n", Finish::ReadFault),
        Err(NoMemory) => report_no_memory(err),
    }
}

/// Does what the words after the program's name say. `exec FILE` compiles the program in the file, whose name ends in
/// `.pas`, and runs it; `build FILE` compiles it and writes the image to `out`; `check FILE` writes `ok` to `out` if the
/// program breaks no rule; `list FILE` compiles it and writes the listing of the image to `out`; `run IMAGE` runs the image in the
/// file. What the program writes goes to `out` and `err`, and it reads from `input`.
///
/// Before or behind the file there may be, each once, `--steps N` for `exec` and `run`, which lets the image do 1 to 1,000,000,000,000 steps
/// (4,000,000,000 where it does not stand), and for `exec`, `build` and `list` `--heap N` and `--stack N`, which give the program 64 to 262,144
/// KiB of heap (8,192) and 16 to 65,536 KiB of stack (1,024). All other words are `Usage`.
///
/// An answer but `Ended` and `WriteFault` writes one line to `err` as its last act. `image` gets the image that was made
/// or found, and is empty where none was made. What a command does not touch stays as it was.
pub fn tool<F: Files, R: Source, W: Sink, E: Sink>(
    alloc: Global,
    words: &[String],
    files: &mut F,
    input: &mut R,
    out: &mut W,
    err: &mut E,
    image: &mut Vec<u8>,
) -> Finish
    ensures says { Says (Owes (call (map string_bytes words.now) (F.stored files.old) (F.faults files.old) (F.faults files.new) (R.faults input.old) (R.faults input.new) image.new.items)) result
        (streams (R.left input.old) (R.left input.new) (W.written out.old) (W.written out.new) (E.written err.old) (E.written err.new))
        (faults (R.faults input.old) (R.faults input.new) (W.faults out.old) (W.faults out.new) (E.faults err.old) (E.faults err.new)) }
    ensures counts { Rises (faults (R.faults input.old) (R.faults input.new) (W.faults out.old) (W.faults out.new) (E.faults err.old) (E.faults err.new)) }
    ensures leaves_input { LeavesInput (map string_bytes words.now) result (R.faults input.old) (R.faults input.new) → input.new ≡ input.old }
    ensures leaves_output { LeavesOutput (map string_bytes words.now) result (R.faults input.old) (R.faults input.new) → out.new ≡ out.old }
    ensures leaves_errors { LeavesErrors (map string_bytes words.now) result → err.new ≡ err.old }
    ensures leaves_files { IsNoCommand (map string_bytes words.now) → files.new ≡ files.old }
    ensures file_counts { F.faults files.old ≤ F.faults files.new }
    ensures unchanged { F.stored files.new ≡ F.stored files.old }
{
    image.clear();
    match command_of(alloc, words) {
        Ok(Some(command)) => match command.verb {
            Verb::Exec => exec(alloc, &command, files, input, out, err, image),
            Verb::Build => build(alloc, &command, files, out, err, image),
            Verb::Check => check(alloc, command.operand, files, out, err),
            Verb::List => list(alloc, &command, files, out, err, image),
            Verb::Run => run(alloc, &command, files, input, out, err, image),
        },
        Ok(None) => report(err, b"opc: bad command line\n", Finish::Usage),
        Err(NoMemory) => report_no_memory(err),
    }
}
