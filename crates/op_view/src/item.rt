//! Items: what is done in order, with what is within an item further in.
use crate::action::action;
use crate::call::{all_given, receiver};
use crate::code::labels;
use crate::names::{class, routine, temporary, truth};
use crate::place::{all_held, held, path, root};
use crate::writer::{Word, Writer};
use op_base::NoMemory;
use op_core::{ClassId, Core, RoutineId};
use op_items::{Case, Clause, Item, Turns, Way, routine_items};
use op_mir::{Action, Given, Path, Receiver, Temporary, TemporaryId};
use std::alloc::Global;

/// The items of each routine of a program that has a body, in the order of their rows.
pub fn items(alloc: Global, core: &Core) -> Result<Vec<u8>, NoMemory> {
    let mut out = Writer::new(alloc);
    let mut id = RoutineId(0);
    for each in core.routines.as_slice() {
        if each.body.is_some() {
            items_of(&mut out, alloc, core, id)?;
        }
        id.0 = id.0.saturating_add(1);
    }
    Ok(out.into_vec())
}

fn items_of(out: &mut Writer, alloc: Global, core: &Core, id: RoutineId) -> Result<(), NoMemory> {
    let list = routine_items(alloc, core, id)?;
    out.line(&[routine(core, id)])?;
    within(out, core, list.as_slice())
}

/// Items further in.
#[cycle(item)]
fn within(out: &mut Writer, core: &Core, list: &[Item]) -> Result<(), NoMemory> {
    out.enter();
    for each in list {
        item(out, core, each)?;
    }
    out.leave();
    Ok(())
}

/// Items further in, behind a line that says why.
#[cycle(item)]
fn part(out: &mut Writer, core: &Core, name: &str, list: &[Item]) -> Result<(), NoMemory> {
    out.line(&[Word::Plain(name)])?;
    within(out, core, list)
}

#[cycle(item)]
fn item(out: &mut Writer, core: &Core, of: &Item) -> Result<(), NoMemory> {
    match of {
        Item::Act(done) => action_line(out, core, done),
        Item::Also {
            truth: wanted,
            temporary: by,
            items,
        } => also(out, core, (*by, *wanted), items),
        Item::Choose {
            temporary: by,
            first,
            otherwise,
        } => {
            headed(out, core, &[Word::Plain("where"), temporary(*by)], first)?;
            part(out, core, "otherwise", otherwise)
        }
        Item::Select {
            temporary: by,
            cases,
            otherwise,
        } => {
            out.line(&[Word::Plain("select by"), temporary(*by)])?;
            all_cases(out, core, cases)?;
            part(out, core, "otherwise", otherwise)
        }
        Item::Loop(of) => turns(out, core, "loop", of),
        Item::BodyFirst(of) => turns(out, core, "loop from its body on", of),
        Item::Protect {
            temporary: by,
            items,
            finalization,
        } => {
            headed(out, core, &protect_words(*by), items)?;
            part(out, core, "finally", finalization)
        }
        Item::Leave(way) => out.line(&[Word::Plain("leave by"), way_word(*way)]),
        Item::Enter {
            routine: id,
            given,
            receiver: to,
        } => enter(out, core, *id, given.as_slice(), to),
        Item::Scoped {
            first,
            others,
            items,
        } => scoped(out, core, *first, others.as_slice(), items),
        Item::Attempt { items, clauses } => {
            headed(out, core, &[Word::Plain("attempt")], items)?;
            all_clauses(out, core, clauses)
        }
        Item::AttemptAll {
            items,
            clauses,
            others,
        } => {
            headed(out, core, &[Word::Plain("attempt")], items)?;
            all_clauses(out, core, clauses)?;
            part(out, core, "on all others", others)
        }
        Item::Throw { at } => placed(out, core, "throw", at),
        Item::Rethrow => out.line(&[Word::Plain("throw again")]),
        Item::Halt { status } => out.line(&[Word::Plain("halt"), temporary(*status)]),
        Item::Construct {
            class: of,
            routine: id,
            given,
            receiver: to,
        } => construct(out, core, (*of, *id), given.as_slice(), to),
        Item::Free { takes_nil, at } => placed(out, core, free_name(*takes_nil), at),
    }
}

/// Items further in, behind a line of these words.
#[cycle(item)]
fn headed(out: &mut Writer, core: &Core, words: &[Word], list: &[Item]) -> Result<(), NoMemory> {
    out.line(words)?;
    within(out, core, list)
}

#[cycle(item)]
fn also(
    out: &mut Writer,
    core: &Core,
    by: (TemporaryId, bool),
    list: &[Item],
) -> Result<(), NoMemory> {
    let words = [
        Word::Plain("where"),
        temporary(by.0),
        Word::Plain("is"),
        truth(by.1),
    ];
    headed(out, core, &words, list)
}

/// Items that may make temporaries, behind a line with these in the order in which they end.
#[cycle(item)]
fn scoped(
    out: &mut Writer,
    core: &Core,
    first: Temporary,
    others: &[Temporary],
    list: &[Item],
) -> Result<(), NoMemory> {
    out.begin()?;
    out.words(&[Word::Plain("scope of")])?;
    held(out, core, first)?;
    all_held(out, core, others)?;
    out.end()?;
    within(out, core, list)
}

fn protect_words(by: TemporaryId) -> [Word<'static>; 2] {
    [Word::Plain("protect"), temporary(by)]
}

fn free_name(takes_nil: bool) -> &'static str {
    if takes_nil { "free" } else { "destroy" }
}

/// What is done with the instance at a place.
fn placed(out: &mut Writer, core: &Core, name: &str, at: &Path) -> Result<(), NoMemory> {
    out.begin()?;
    out.words(&[Word::Plain(name)])?;
    path(out, core, at)?;
    out.end()
}

fn enter(
    out: &mut Writer,
    core: &Core,
    id: RoutineId,
    given: &[Given],
    to: &Receiver,
) -> Result<(), NoMemory> {
    out.begin()?;
    out.words(&[Word::Plain("call"), routine(core, id)])?;
    all_given(out, core, given)?;
    receiver(out, core, to)?;
    out.end()
}

fn construct(
    out: &mut Writer,
    core: &Core,
    of: (ClassId, RoutineId),
    given: &[Given],
    to: &Receiver,
) -> Result<(), NoMemory> {
    out.begin()?;
    out.words(&[Word::Plain("construct"), class(of.0)])?;
    out.words(&[routine(core, of.1)])?;
    all_given(out, core, given)?;
    receiver(out, core, to)?;
    out.end()
}

fn action_line(out: &mut Writer, core: &Core, done: &Action) -> Result<(), NoMemory> {
    out.begin()?;
    action(out, core, done)?;
    out.end()
}

fn way_word(way: Way) -> Word<'static> {
    Word::Plain(match way {
        Way::Exit => "exit",
        Way::Break => "break",
        Way::Continue => "continue",
    })
}

/// What is done in the turns of a loop, in the order of a turn.
#[cycle(item)]
fn turns(out: &mut Writer, core: &Core, name: &str, of: &Turns) -> Result<(), NoMemory> {
    part(out, core, name, &of.head)?;
    out.line(&[
        Word::Plain("over where"),
        temporary(of.temporary),
        Word::Plain("is"),
        truth(of.ends),
    ])?;
    within(out, core, &of.between)?;
    part(out, core, "body", &of.body)
}

#[cycle(item)]
fn all_cases(out: &mut Writer, core: &Core, cases: &[Case]) -> Result<(), NoMemory> {
    for each in cases {
        case(out, core, each)?;
    }
    Ok(())
}

#[cycle(item)]
fn case(out: &mut Writer, core: &Core, of: &Case) -> Result<(), NoMemory> {
    out.begin()?;
    out.words(&[Word::Plain("at")])?;
    labels(out, of.labels.as_slice())?;
    out.end()?;
    within(out, core, &of.items)
}

#[cycle(item)]
fn all_clauses(out: &mut Writer, core: &Core, clauses: &[Clause]) -> Result<(), NoMemory> {
    for each in clauses {
        clause(out, core, each)?;
    }
    Ok(())
}

#[cycle(item)]
fn clause(out: &mut Writer, core: &Core, of: &Clause) -> Result<(), NoMemory> {
    out.begin()?;
    out.words(&[Word::Plain("on"), class(of.class)])?;
    if let Some(variable) = of.variable {
        root(out, core, variable)?;
    }
    out.end()?;
    within(out, core, &of.items)
}
