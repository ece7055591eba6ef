//! Managed code: routines of blocks, with an instruction a line.
use crate::action::action;
use crate::call::{all_given, receiver};
use crate::names::{routine, temporary};
use crate::place::{all_held, held};
use crate::writer::{Word, Writer};
use op_base::NoMemory;
use op_core::{Core, Label, RoutineId};
use op_mir::{Arm, Block, BlockId, Call, Instruction, Mir, Routine};
use std::alloc::Global;

/// The managed code of a program: its routines in the order of their rows, and what stands below all activations.
pub fn managed_code(alloc: Global, core: &Core, mir: &Mir) -> Result<Vec<u8>, NoMemory> {
    let mut out = Writer::new(alloc);
    let mut id = RoutineId(0);
    for each in mir.routines.as_slice() {
        routine_code(&mut out, core, routine(core, id), each)?;
        id.0 = id.0.saturating_add(1);
    }
    routine_code(&mut out, core, Word::Plain("program"), &mir.program)?;
    Ok(out.into_vec())
}

fn routine_code(out: &mut Writer, core: &Core, name: Word, of: &Routine) -> Result<(), NoMemory> {
    out.line(&[
        name,
        Word::Numbered("variables: ", of.locals),
        Word::Numbered("temporaries: ", of.temporaries),
        Word::Bytes("charge: ", of.charge),
    ])?;
    out.enter();
    let mut number = 0u32;
    for each in of.blocks.as_slice() {
        out.line(&[Word::Numbered("block-", number)])?;
        block_code(out, core, each)?;
        number = number.saturating_add(1);
    }
    out.leave();
    Ok(())
}

fn block_code(out: &mut Writer, core: &Core, of: &Block) -> Result<(), NoMemory> {
    out.enter();
    for each in of.code.as_slice() {
        out.begin()?;
        instruction(out, core, each)?;
        out.end()?;
    }
    out.leave();
    Ok(())
}

fn block(of: BlockId) -> Word<'static> {
    Word::Numbered("block-", of.0)
}

fn instruction(out: &mut Writer, core: &Core, of: &Instruction) -> Result<(), NoMemory> {
    match of {
        Instruction::Act {
            action: done,
            landing,
        } => {
            action(out, core, done)?;
            out.words(&landing_words(*landing))
        }
        Instruction::Call { routine: id, call } => call_words(out, core, *id, call),
        Instruction::Jump { block: to } => out.words(&[Word::Plain("jump"), block(*to)]),
        Instruction::When {
            temporary: by,
            block: to,
        } => out.words(&[Word::Plain("when"), temporary(*by), block(*to)]),
        Instruction::Unless {
            temporary: by,
            block: to,
        } => out.words(&[Word::Plain("unless"), temporary(*by), block(*to)]),
        Instruction::Switch {
            temporary: by,
            arms,
        } => {
            out.words(&[Word::Plain("switch"), temporary(*by)])?;
            all_arms(out, arms.as_slice())
        }
        Instruction::Dispatch {
            temporary: by,
            block: to,
        } => out.words(&[Word::Plain("dispatch"), temporary(*by), block(*to)]),
        Instruction::MakeDue { finalization } => {
            out.words(&[Word::Plain("due"), routine(core, *finalization)])
        }
        Instruction::OpenTemporaries { temporaries } => {
            out.words(&[Word::Plain("open")])?;
            all_held(out, core, temporaries.as_slice())
        }
        Instruction::EndTemporary { temporary: one } => {
            out.words(&[Word::Plain("end")])?;
            held(out, core, *one)
        }
        Instruction::Stop { status } => out.words(&[Word::Plain("stop"), temporary(*status)]),
        Instruction::Return => out.words(&[Word::Plain("return")]),
    }
}

/// Where an exception goes.
fn landing_words(landing: Option<BlockId>) -> [Word<'static>; 2] {
    match landing {
        Some(to) => [Word::Plain("landing"), block(to)],
        None => [Word::Nothing, Word::Nothing],
    }
}

fn call_words(out: &mut Writer, core: &Core, id: RoutineId, call: &Call) -> Result<(), NoMemory> {
    out.words(&[Word::Plain("call"), routine(core, id)])?;
    all_given(out, core, call.given.as_slice())?;
    receiver(out, core, &call.receiver)?;
    out.words(&landing_words(call.landing))
}

fn all_arms(out: &mut Writer, arms: &[Arm]) -> Result<(), NoMemory> {
    for arm in arms {
        labels(out, arm.labels.as_slice())?;
        out.words(&[block(arm.block)])?;
    }
    Ok(())
}

pub fn labels(out: &mut Writer, all: &[Label]) -> Result<(), NoMemory> {
    for each in all {
        out.words(&[
            Word::Number(each.first),
            Word::Plain("to"),
            Word::Number(each.last),
        ])?;
    }
    Ok(())
}
