//! From a source file to its image.
ghost use Rattle.std.specs.Prelude.{◌≡◌, ◌<◌, ◌≤◌, IfErr, IfOk, IsTrue, false, true};
ghost use Rattle.op_accepted.specs.Fit.{any_text};
ghost use Rattle.op_core.specs.Sound.{IsSound, IsSoundNesting};
ghost use Rattle.op_link.specs.Memory.{are_in_range, most_linked};
ghost use Rattle.op_plain.specs.Plain.{is_plain_by, is_plain_program};
ghost use Rattle.op_sizes.specs.ProgramSize.{program_size};
ghost use Rattle.op_tool.specs.Compiles.{FailsAs, FailsToCheck, HasNoImage, IsImage, RefusalHasText, IsTypedProgram, Made, RefusesBy, name_at};

use op_base::{Files, NoMemory, Place, Refusal, Text};
use op_build::{BuildError, build};
use op_core::{CheckError, Core};
use op_link::Settings;
use op_managed::middle;
use op_plain::is_plain;
use op_sound::check;
use op_units::{Forest, LoadError, load};
use std::alloc::Global;

/// The beginning of the file that a command names.
pub(crate) const MAIN_START: Place = Place {
    file: 0,
    line: 1,
    col: 1,
};

/// Why a file was not compiled.
#[derive(Debug, Drop)]
pub enum CompileError {
    /// The program breaks a rule. The text is the name of the file where it does.
    Refused(Refusal, Text),
    /// A file could not be read.
    ReadFault,
    /// The image would be too large.
    Limit,
    NoMemory,
}

impl From<NoMemory> for CompileError {
    ghost use Rattle.op_tool.specs.declared.compiler.CompileError.{CompileError};

    ghost from_gives = { λ _ error. error ≡ CompileError.NoMemory };

    fn from(_error: NoMemory) -> CompileError {
        CompileError::NoMemory
    }
}

impl From<LoadError> for CompileError {
    ghost use Rattle.op_tool.specs.Compiles.{error_of};

    ghost from_gives = { λ load error. error ≡ error_of load };

    fn from(error: LoadError) -> CompileError {
        match error {
            LoadError::Refused(refusal, file) => CompileError::Refused(refusal, file),
            LoadError::ReadFault => CompileError::ReadFault,
            LoadError::NoMemory => CompileError::NoMemory,
        }
    }
}

/// The image of the program in this file, which does what the program means with these sizes of heap and stack.
///
/// `Refused` tells the first rule that the program breaks, as `load` and then `check` have them. `Limit` comes where code, constants and initial
/// globals would take more than 67,108,864 bytes, so only where the program's size does too.
pub fn compile<F: Files>(
    alloc: Global,
    files: &mut F,
    main: &str,
    settings: &Settings,
) -> Result<Vec<u8>, CompileError>
    requires settings { IsTrue (are_in_range settings.now) }
    ensures made { IfOk result (λ image. Made (F.stored files.old) main.now settings.now image.items) }
    ensures failed { IfErr result (FailsAs (F.stored files.old) main.now settings.now (F.faults files.old) (F.faults files.new)) }
    ensures told { IfErr result RefusalHasText }
    ensures counts { F.faults files.old ≤ F.faults files.new }
    ensures unchanged { F.stored files.new ≡ F.stored files.old }
{
    let core = checked(alloc, files, main)?;
    image_of(alloc, core, settings)
}

/// The typed form of the program in this file, or the first rule that it breaks, as `load` and then `check` have them.
pub(crate) fn checked<F: Files>(
    alloc: Global,
    files: &mut F,
    main: &str,
) -> Result<Core, CompileError>
    ensures made { IfOk result (IsTypedProgram (F.stored files.old) main.now) }
    ensures failed { IfErr result (FailsToCheck (F.stored files.old) main.now (F.faults files.old) (F.faults files.new)) }
    ensures counts { F.faults files.old ≤ F.faults files.new }
    ensures unchanged { F.stored files.new ≡ F.stored files.old }
{
    let forest = load(alloc, files, main)?;
    let trees = forest.trees.as_slice();
    let order = forest.order.as_slice();
    match check(alloc, trees, order) {
        Ok(core) => Ok(core),
        Err(CheckError::Refused(refusal)) => {
            let file = name_at(&forest, main.as_bytes(), refusal.place);
            Err(refused_in(alloc, file, refusal))
        }
        Err(CheckError::NoMemory) => Err(CompileError::NoMemory),
    }
}

/// Whether each text of a program that breaks no rule has less than 2^31 bytes, so that a number of 32 bits counts them. A literal has at most 65,535,
/// and so has what is made of literals; where a program had a longer text, its size would pass 67,108,864 bytes.
fn has_short_texts(core: &Core) -> bool
    requires { is_plain_by any_text core.now ≡ true }
    ensures short { result ≡ is_plain_program core.now }
    ensures long { result ≡ false → most_linked < program_size core.now }
{
    is_plain(core)
}

/// The image of a typed program. What it has of numbers beyond 32 bits is want of memory.
fn image_of(alloc: Global, core: Core, settings: &Settings) -> Result<Vec<u8>, CompileError>
    requires sound { IsSound core × IsSoundNesting core }
    requires fit { is_plain_by any_text core ≡ true }
    requires settings { IsTrue (are_in_range settings.now) }
    ensures made { IfOk result (λ image. IsImage core settings.now image.items) }
    ensures failed { IfErr result (HasNoImage core settings.now) }
{
    if !has_short_texts(&core) {
        return Err(CompileError::NoMemory);
    }
    let mir = middle(alloc, &core)?;
    match build(alloc, core, mir, settings) {
        Ok(image) => Ok(image),
        Err(BuildError::Limit) => Err(CompileError::Limit),
        Err(BuildError::Unbuildable) => unreachable!(),
        Err(BuildError::NoMemory) => Err(CompileError::NoMemory),
    }
}

/// The name of the file where a place is.
fn name_at<'a>(forest: &'a Forest, main: &'a [u8], place: Place) -> &'a [u8]
    ensures { result.now ≡ name_at forest.now main.now place }
{
    match forest.names.as_slice().get(place.file as usize) {
        Some(name) => name.as_slice(),
        None => main,
    }
}

/// The refusal of a file.
fn refused_in(alloc: Global, file: &[u8], refusal: Refusal) -> CompileError
    ensures { RefusesBy file.now refusal result }
{
    match Text::copy_of(alloc, file) {
        Ok(file) => CompileError::Refused(refusal, file),
        Err(NoMemory) => CompileError::NoMemory,
    }
}
