//! Which temporaries items may make that have to be ended, the last one first.
ghost use Rattle.std.specs.Prelude.{◌≡◌, ◌++◌, ◌∷◌, [], ℕ, IfOk, map};
ghost use Rattle.op_core.specs.declared.program.Core.{Core};
ghost use Rattle.op_semantics.specs.Candidates.{held_by, made_at, made_by, made_by_action, made_for, made_in, made_with, made_with_all};
ghost use Rattle.op_values.specs.View.{item_view, items_view, view_action, view_destination, view_given, view_hold, view_receiver, view_temporary};

use op_base::NoMemory;
use op_core::TypeId;
use op_values::{Action, Destination, Given, Item, Receiver, Temporary};
use std::alloc::Global;

/// The temporaries that items of one evaluation may make.
pub fn made_by(alloc: Global, items: &[Item]) -> Result<Vec<Temporary>, NoMemory>
    ensures { IfOk result (λ ts. (core : Core) (r : ℕ) → map view_temporary ts.items ≡ made_by (items_view core r items.now)) }
{
    let mut made = Vec::new(alloc);
    add_all(items, &mut made)?;
    Ok(made)
}

/// Puts those that the items may make behind the others.
#[cycle(made)]
fn add_all(items: &[Item], made: &mut Vec<Temporary>) -> Result<(), NoMemory>
    ensures { IfOk result (λ _. (core : Core) (r : ℕ) → map view_temporary made.new.items ≡ map view_temporary made.old.items ++ made_by (items_view core r items.now)) }
{
    let mut rest = items;
    while let Some((last, front)) = rest.split_last() {
        add(last, made)?;
        rest = front;
    }
    Ok(())
}

#[cycle(made)]
fn add(item: &Item, made: &mut Vec<Temporary>) -> Result<(), NoMemory>
    ensures { IfOk result (λ _. (core : Core) (r : ℕ) → map view_temporary made.new.items ≡ map view_temporary made.old.items ++ made_at (item_view core r item.now)) }
{
    match item {
        Item::Act(action) => add_action(action, made),
        Item::Also { items, .. } => add_all(items, made),
        Item::Choose { .. } => Ok(()),
        Item::Select { .. } => Ok(()),
        Item::Loop(_) => Ok(()),
        Item::BodyFirst(_) => Ok(()),
        Item::Protect { .. } => Ok(()),
        Item::Leave(_) => Ok(()),
        Item::Enter {
            given,
            receiver,
            ..
        } => add_call(given.as_slice(), receiver, made),
        Item::Scoped { .. } => Ok(()),
        Item::Attempt { .. } => Ok(()),
        Item::AttemptAll { .. } => Ok(()),
        Item::Throw { .. } => Ok(()),
        Item::Rethrow => Ok(()),
        Item::Halt { .. } => Ok(()),
        Item::Construct {
            given,
            receiver,
            ..
        } => add_call(given.as_slice(), receiver, made),
        Item::Invoke {
            given,
            receiver,
            ..
        } => add_call(given.as_slice(), receiver, made),
        Item::Free { .. } => Ok(()),
    }
}

fn add_action(action: &Action, made: &mut Vec<Temporary>) -> Result<(), NoMemory>
    ensures { IfOk result (λ _. (core : Core) (r : ℕ) → map view_temporary made.new.items ≡ map view_temporary made.old.items ++ made_by_action (view_action core r action.now)) }
{
    match action {
        Action::Constant { .. } => Ok(()),
        Action::Load { .. } => Ok(()),
        Action::Store { .. } => Ok(()),
        Action::Copy { .. } => Ok(()),
        Action::BeginWith { .. } => Ok(()),
        Action::Pick { .. } => Ok(()),
        Action::Compute(_) => Ok(()),
        Action::Peek { .. } => Ok(()),
        Action::Take => Ok(()),
        Action::Forget => Ok(()),
        Action::Note { .. } => Ok(()),
        Action::Do { to, .. } => add_destination(to, made),
    }
}

fn add_destination(to: &Destination, made: &mut Vec<Temporary>) -> Result<(), NoMemory>
    ensures { IfOk result (λ _. map view_temporary made.new.items ≡ map view_temporary made.old.items ++ made_in (view_destination to.now)) }
{
    match to {
        Destination::Unused => Ok(()),
        Destination::InTemporary(_) => Ok(()),
        Destination::InNew { of, number } => add_one(*of, *number, made),
        Destination::IntoPlace { of, old, .. } => add_one(*of, *old, made),
        Destination::OverPlace { .. } => Ok(()),
    }
}

// ---- calls

/// A call makes what is held for it, and then the result.
fn add_call(given: &[Given], receiver: &Receiver, made: &mut Vec<Temporary>) -> Result<(), NoMemory>
    ensures { IfOk result (λ _. map view_temporary made.new.items ≡ map view_temporary made.old.items ++ (made_for (view_receiver receiver.now) ++ made_with_all (map view_given given.now))) }
{
    add_receiver(receiver, made)?;
    add_given(given, made)
}

fn add_receiver(receiver: &Receiver, made: &mut Vec<Temporary>) -> Result<(), NoMemory>
    ensures { IfOk result (λ _. map view_temporary made.new.items ≡ map view_temporary made.old.items ++ made_for (view_receiver receiver.now)) }
{
    match receiver {
        Receiver::Nowhere => Ok(()),
        Receiver::Temporary { .. } => Ok(()),
        Receiver::Place { .. } => Ok(()),
        Receiver::New { of, number } => add_one(*of, *number, made),
    }
}

fn add_given(given: &[Given], made: &mut Vec<Temporary>) -> Result<(), NoMemory>
    ensures { IfOk result (λ _. map view_temporary made.new.items ≡ map view_temporary made.old.items ++ made_with_all (map view_given given.now)) }
{
    let mut rest = given;
    while let Some((last, front)) = rest.split_last() {
        add_with(last, made)?;
        rest = front;
    }
    Ok(())
}

fn add_with(given: &Given, made: &mut Vec<Temporary>) -> Result<(), NoMemory>
    ensures { IfOk result (λ _. map view_temporary made.new.items ≡ map view_temporary made.old.items ++ made_with (view_given given.now)) }
{
    match given {
        Given::ByValue { .. } => Ok(()),
        Given::ByPlace { hold, .. } => add_hold(*hold, made),
        Given::ByElements { hold, .. } => add_hold(*hold, made),
        Given::ByCopy { .. } => Ok(()),
        Given::ByOperand(_) => Ok(()),
    }
}

fn add_hold(hold: Option<Temporary>, made: &mut Vec<Temporary>) -> Result<(), NoMemory>
    ensures { IfOk result (λ _. map view_temporary made.new.items ≡ map view_temporary made.old.items ++ held_by (view_hold hold)) }
{
    match hold {
        None => Ok(()),
        Some(temporary) => add_one(temporary.of, temporary.number, made),
    }
}

fn add_one(of: TypeId, number: u32, made: &mut Vec<Temporary>) -> Result<(), NoMemory>
    ensures { IfOk result (λ _. map view_temporary made.new.items ≡ map view_temporary made.old.items ++ record { of = of; n = number } ∷ []) }
{
    made.push(Temporary { of, number })?;
    Ok(())
}
