//! The literals of a program in managed code.
ghost use Rattle.std.specs.Prelude.{◌≡◌, [], IfOk, OnOk, ◌+◌, slice_get};
ghost use Rattle.std.specs.Option.{option_copied};
ghost use Rattle.op_meaning.specs.Shapes.{type_of_local, variables_of};
ghost use Rattle.op_mir.specs.declared.action.Action.TheVariants.{BeginWith};
ghost use Rattle.op_constants.specs.FirstBytes.{first_bytes};
ghost use Rattle.op_constants.specs.Keeping.{with_block, with_instruction, with_routine, with_text, with_texts};
ghost use Rattle.op_constants.specs.Literals.{action_literals, first_of_row, literals_of, operands_literals};

use crate::first_value::{are_zeros, first_bytes, zeros};
use crate::fixed::fixed_literals;
use crate::texts::Texts;
use op_base::{NoMemory, Text};
use op_core::{Core, RoutineId, TypeId, Variable};
use op_mir::{Action, Block, Instruction, LocalId, Mir, Operand, Routine, is_composite};
use std::alloc::Global;

/// The literals of a program: those that every program has, and the different texts that its code takes besides.
pub fn literals_of(alloc: Global, core: &Core, mir: &Mir) -> Result<Texts, NoMemory>
    ensures { IfOk result (λ texts. texts ≡ literals_of core.now mir.now) }
{
    let mut texts = Texts::new(alloc);
    keep_all(&mut texts, fixed_literals(alloc)?)?;
    let mut routine = RoutineId(0);
    for code in mir.routines.as_slice() {
        keep_routine(alloc, core, routine, code, &mut texts)?;
        routine = RoutineId(routine.0.checked_add(1).ok_or(NoMemory)?);
    }
    keep_routine(alloc, core, routine, &mir.program, &mut texts)?;
    Ok(texts)
}

fn keep_all(texts: &mut Texts, literals: Vec<Text>) -> Result<(), NoMemory>
    ensures { OnOk result (texts.new ≡ with_texts texts.old literals.items) }
{
    for literal in literals.as_slice() {
        texts.keep(literal.as_slice())?;
    }
    Ok(())
}

/// What the code of a routine takes. The number of the program's own code is the one behind those of all routines.
fn keep_routine(
    alloc: Global,
    core: &Core,
    routine: RoutineId,
    code: &Routine,
    texts: &mut Texts,
) -> Result<(), NoMemory>
    ensures { OnOk result (texts.new ≡ with_routine core.now routine.0 texts.old code.now) }
{
    for block in code.blocks.as_slice() {
        keep_block(alloc, core, routine, block, texts)?;
    }
    Ok(())
}

fn keep_block(
    alloc: Global,
    core: &Core,
    routine: RoutineId,
    block: &Block,
    texts: &mut Texts,
) -> Result<(), NoMemory>
    ensures { OnOk result (texts.new ≡ with_block core.now routine.0 texts.old block.now) }
{
    for instruction in block.code.as_slice() {
        keep_instruction(alloc, core, routine, instruction, texts)?;
    }
    Ok(())
}

fn keep_instruction(
    alloc: Global,
    core: &Core,
    routine: RoutineId,
    instruction: &Instruction,
    texts: &mut Texts,
) -> Result<(), NoMemory>
    ensures { OnOk result (texts.new ≡ with_instruction core.now routine.0 texts.old instruction.now) }
{
    match instruction {
        Instruction::Act { action, .. } => keep_action(alloc, core, routine, action, texts),
        _ => Ok(()),
    }
}

fn keep_action(
    alloc: Global,
    core: &Core,
    routine: RoutineId,
    action: &Action,
    texts: &mut Texts,
) -> Result<(), NoMemory>
    ensures { OnOk result (texts.new ≡ with_texts texts.old (action_literals core.now routine.0 action.now)) }
{
    match action {
        Action::Do { operands, .. } => keep_operands(operands.as_slice(), texts),
        Action::Pick { text, .. } => texts.keep(text.as_slice()),
        Action::BeginWith { variable } => keep_first_value(alloc, core, routine, *variable, texts),
        _ => Ok(()),
    }
}

/// The literals among operands.
fn keep_operands(operands: &[Operand], texts: &mut Texts) -> Result<(), NoMemory>
    ensures { OnOk result (texts.new ≡ with_texts texts.old (operands_literals operands.now)) }
{
    for operand in operands {
        if let Operand::Literal(text) = operand {
            texts.keep(text.as_slice())?;
        }
    }
    Ok(())
}

/// What a variable begins with, where it has parts and does not begin as zero.
fn keep_first_value(
    alloc: Global,
    core: &Core,
    routine: RoutineId,
    variable: LocalId,
    texts: &mut Texts,
) -> Result<(), NoMemory>
    ensures { OnOk result (texts.new ≡ with_texts texts.old (action_literals core.now routine.0 (BeginWith variable))) }
{
    let of = type_of_local(core, routine, variable);
    if !is_composite(core, of) {
        return Ok(());
    }
    let bytes = bytes_of_row(alloc, core, of, row_of_local(core, routine, variable))?;
    if are_zeros(&bytes) {
        return Ok(());
    }
    texts.keep(&bytes)
}

/// The bytes with which a variable of the type begins; zeros where its row has no first value.
pub fn bytes_of_row(
    alloc: Global,
    core: &Core,
    of: TypeId,
    row: Option<&Variable>,
) -> Result<Vec<u8>, NoMemory>
    ensures { IfOk result (λ bytes. bytes.items ≡ first_bytes core.now of (first_of_row (option_copied row.entry))) }
{
    let Some(row) = row else {
        return zeros(alloc, core, of);
    };
    match &row.first_value {
        None => zeros(alloc, core, of),
        Some(initial) => first_bytes(alloc, core, of, initial),
    }
}

fn type_of_local(core: &Core, routine: RoutineId, variable: LocalId) -> TypeId
    ensures { result ≡ type_of_local core.now routine.0 variable.0 }
{
    match row_of_local(core, routine, variable) {
        None => TypeId(0),
        Some(row) => row.of,
    }
}

/// The row of a variable of a routine. What is no routine begins with the first row.
fn row_of_local(core: &Core, routine: RoutineId, variable: LocalId) -> Option<&Variable>
    ensures { option_copied result ≡ slice_get core.now.variables ((variables_of core.now routine.0).first + variable.0) }
{
    let first = match core.routines.as_slice().get(routine.0 as usize) {
        None => 0,
        Some(routine) => routine.variables.first as usize,
    };
    core.variables.as_slice().get(first + variable.0 as usize)
}
