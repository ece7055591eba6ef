//! The roots that the code of a routine needs an address of.
ghost use Rattle.op_places.specs.Homes.{is_one_root, roots_of, with_action, with_block, with_call, with_given, with_instruction, with_place, with_receiver, with_root, with_temporary};
ghost use Rattle.std.specs.List.{fold, list_any};
ghost use Rattle.std.specs.Prelude.{◌≡◌, IfOk, OnOk};

use op_base::NoMemory;
use op_mir::{Action, Block, Call, Given, Instruction, Receiver, Root, Routine, one_root};
use std::alloc::Global;

pub fn has_root(roots: &[Root], root: Root) -> bool
    ensures { result ≡ list_any (is_one_root root) roots.now }
{
    roots.iter().any(|each| one_root(root, *each))
}

/// The roots of a routine's code, each once, in the order in which it names them.
pub fn roots(alloc: Global, routine: &Routine) -> Result<Vec<Root>, NoMemory>
    ensures { IfOk result (λ roots. roots.items ≡ roots_of routine.now) }
{
    let mut roots = Vec::new(alloc);
    for block in routine.blocks.as_slice() {
        add_block(&mut roots, block)?;
    }
    Ok(roots)
}

fn add_block(roots: &mut Vec<Root>, block: &Block) -> Result<(), NoMemory>
    ensures { OnOk result (roots.new.items ≡ with_block roots.old.items block.now) }
{
    for instruction in block.code.as_slice() {
        add_instruction(roots, instruction)?;
    }
    Ok(())
}

fn add_instruction(roots: &mut Vec<Root>, instruction: &Instruction) -> Result<(), NoMemory>
    ensures { OnOk result (roots.new.items ≡ with_instruction roots.old.items instruction.now) }
{
    match instruction {
        Instruction::Act { action, .. } => add_action(roots, action),
        Instruction::Call { call, .. } => add_call(roots, call),
        _ => Ok(()),
    }
}

fn add_action(roots: &mut Vec<Root>, action: &Action) -> Result<(), NoMemory>
    ensures { OnOk result (roots.new.items ≡ with_action roots.old.items action.now) }
{
    match action {
        Action::Load { from, .. } => add_temporary(roots, from.root),
        Action::Store { to, .. } => add_temporary(roots, to.root),
        Action::Copy { to, from, .. } => {
            add_temporary(roots, from.root)?;
            add_temporary(roots, to.root)
        }
        Action::Look { at } => add_temporary(roots, at.root),
        _ => Ok(()),
    }
}

fn add_call(roots: &mut Vec<Root>, call: &Call) -> Result<(), NoMemory>
    ensures { OnOk result (roots.new.items ≡ with_call roots.old.items call.now) }
{
    for given in call.given.as_slice() {
        add_given(roots, given)?;
    }
    add_receiver(roots, &call.receiver)
}

fn add_given(roots: &mut Vec<Root>, given: &Given) -> Result<(), NoMemory>
    ensures { OnOk result (roots.new.items ≡ with_given roots.old.items given.now) }
{
    match given {
        Given::ByPlace { path } => add_place(roots, path.root),
        Given::ByCopy { path, .. } => add_temporary(roots, path.root),
        _ => Ok(()),
    }
}

fn add_receiver(roots: &mut Vec<Root>, receiver: &Receiver) -> Result<(), NoMemory>
    ensures { OnOk result (roots.new.items ≡ with_receiver roots.old.items receiver.now) }
{
    match receiver {
        Receiver::Place { to, .. } => add_temporary(roots, to.root),
        _ => Ok(()),
    }
}

/// What is given by place needs an address, a variable that is a number too.
fn add_place(roots: &mut Vec<Root>, root: Root) -> Result<(), NoMemory>
    ensures { OnOk result (roots.new.items ≡ with_place roots.old.items root) }
{
    match root {
        Root::Local { .. } => add_root(roots, root),
        _ => add_temporary(roots, root),
    }
}

fn add_temporary(roots: &mut Vec<Root>, root: Root) -> Result<(), NoMemory>
    ensures { OnOk result (roots.new.items ≡ with_temporary roots.old.items root) }
{
    match root {
        Root::Temporary { .. } => add_root(roots, root),
        _ => Ok(()),
    }
}

fn add_root(roots: &mut Vec<Root>, root: Root) -> Result<(), NoMemory>
    ensures { OnOk result (roots.new.items ≡ with_root roots.old.items root) }
{
    if has_root(roots, root) {
        return Ok(());
    }
    roots.push(root)?;
    Ok(())
}
