//! The image of a program in managed code.
ghost use Rattle.std.specs.Prelude.{◌≡◌, IfErr, IfOk, IsTrue};
ghost use Rattle.op_build.specs.Built.{IsBuilt, IsLowCode, IsNotBuilt};
ghost use Rattle.op_constants.specs.Literals.{literals_of};
ghost use Rattle.op_core.specs.declared.program.Core.{Core};
ghost use Rattle.op_mir.specs.declared.code.Mir.{Mir};
ghost use Rattle.op_link.specs.Memory.{are_in_range};

use op_base::NoMemory;
use op_constants::{Texts, literals_of};
use op_core::Core;
use op_expand::expand;
use op_image::buildable;
use op_layout::Layout;
use op_link::{LinkError, Settings};
use op_low::Low;
use op_mir::Mir;
use op_optimize::optimize;
use std::alloc::Global;

/// The most bytes that code, constants and initial globals may take.
const MOST_LINKED: usize = 67_108_864;

/// Why managed code has no image.
#[derive(Drop)]
pub enum BuildError {
    /// Code, constants and initial globals would take more than 67,108,864 bytes.
    Limit,
    /// The low code of the program names what does not exist, or its globals take too much room: of what comes from a sound program none does.
    Unbuildable,
    NoMemory,
}

impl From<NoMemory> for BuildError {
    ghost use Rattle.op_build.specs.declared.building.BuildError.{BuildError};

    ghost from_gives = { λ _ error. error ≡ BuildError.NoMemory };

    fn from(_error: NoMemory) -> BuildError {
        BuildError::NoMemory
    }
}

/// What the optimizer makes of the low code of a program, and its constants.
#[derive(Drop)]
struct LowCode {
    low: Low,
    layout: Layout,
}

/// Constants and low code are made of managed code with its literals, which is freed routine by routine, and of its tables, which are freed then.
/// The low code is used up as better low code is made of it.
fn low_code_of(
    alloc: Global,
    core: Core,
    mir: Mir,
    literals: Texts,
    settings: &Settings,
) -> Result<LowCode, NoMemory>
    requires literals { literals ≡ literals_of core mir }
    requires settings { IsTrue (are_in_range settings.now) }
    ensures { IfOk result (λ code. IsLowCode core mir settings.now code.low code.layout) }
{
    let expanded = expand(alloc, &core, mir, 1024 * settings.stack, &literals)?;
    let low = optimize(alloc, expanded)?;
    let layout = literals.layout(alloc)?;
    Ok(LowCode { low, layout })
}

/// The image of low code with its constants, which is that of the programs that they are made of.
fn image_of(alloc: Global, code: LowCode, settings: &Settings) -> Result<Vec<u8>, BuildError>
    requires settings { IsTrue (are_in_range settings.now) }
    ensures made { (core : Core) (mir : Mir) → IsLowCode core mir settings.now code.low code.layout → IfOk result (λ image. IsBuilt core mir settings.now image.items) }
    ensures failed { (core : Core) (mir : Mir) → IsLowCode core mir settings.now code.low code.layout → IfErr result (IsNotBuilt core mir settings.now) }
{
    if !buildable(&code.low, &code.layout) {
        return Err(BuildError::Unbuildable);
    }
    match op_image::build(alloc, code.low, &code.layout, settings) {
        Ok(image) => Ok(image),
        Err(LinkError::Limit) => Err(BuildError::Limit),
        Err(LinkError::NoMemory) => Err(BuildError::NoMemory),
    }
}

/// The image of a program in managed code, beside its tables, with a heap and a stack as the settings say.
///
/// `Limit` comes only where code, constants and initial globals take more than 67,108,864 bytes, and comes before any code is made where the
/// constants alone do. `Unbuildable` comes only where the better low code of the program names what does not exist or its globals take too much
/// room, and `NoMemory` only where the allocator has no room.
pub fn build(
    alloc: Global,
    core: Core,
    mir: Mir,
    settings: &Settings,
) -> Result<Vec<u8>, BuildError>
    requires settings { IsTrue (are_in_range settings.now) }
    ensures made { IfOk result (λ image. IsBuilt core mir settings.now image.items) }
    ensures failed { IfErr result (IsNotBuilt core mir settings.now) }
{
    let literals = literals_of(alloc, &core, &mir)?;
    if !literals.is_within(MOST_LINKED) {
        return Err(BuildError::Limit);
    }
    let code = low_code_of(alloc, core, mir, literals, settings)?;
    image_of(alloc, code, settings)
}
