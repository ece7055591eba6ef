//! Typed statements: a line each, with what is within it further in.
use crate::code::labels;
use crate::expression::expression;
use crate::names::{checked, class, conversion, variable};
use crate::writer::{Word, Writer};
use op_base::NoMemory;
use op_core::{
    Conversion, Core, CoreAction, CoreBranch, CoreExpr, CoreHandler, CoreItem, CoreStmt, CoreTarget,
};
use op_tree::Direction;

/// Statements further in.
#[cycle(statement)]
pub fn statements(out: &mut Writer, core: &Core, list: &[CoreStmt]) -> Result<(), NoMemory> {
    out.enter();
    for each in list {
        statement(out, core, each)?;
    }
    out.leave();
    Ok(())
}

/// A statement further in.
#[cycle(statement)]
fn within(out: &mut Writer, core: &Core, of: &CoreStmt) -> Result<(), NoMemory> {
    out.enter();
    statement(out, core, of)?;
    out.leave();
    Ok(())
}

/// A line of words and an expression.
fn headed(out: &mut Writer, core: &Core, words: &[Word], of: &CoreExpr) -> Result<(), NoMemory> {
    out.begin()?;
    out.words(words)?;
    expression(out, core, of)?;
    out.end()
}

/// A line of a word and an expression.
fn named(out: &mut Writer, core: &Core, name: &str, of: &CoreExpr) -> Result<(), NoMemory> {
    headed(out, core, &[Word::Plain(name)], of)
}

/// Statements further in, behind a line that says why.
#[cycle(statement)]
fn part(out: &mut Writer, core: &Core, list: &[CoreStmt], name: &str) -> Result<(), NoMemory> {
    out.line(&[Word::Plain(name)])?;
    statements(out, core, list)
}

/// A statement further in, behind a line that says why.
#[cycle(statement)]
fn one_part(out: &mut Writer, core: &Core, of: &CoreStmt, name: &str) -> Result<(), NoMemory> {
    out.line(&[Word::Plain(name)])?;
    within(out, core, of)
}

/// A statement further in, behind a line of words and an expression.
#[cycle(statement)]
fn under(
    out: &mut Writer,
    core: &Core,
    of: &CoreStmt,
    words: &[Word],
    value: &CoreExpr,
) -> Result<(), NoMemory> {
    headed(out, core, words, value)?;
    within(out, core, of)
}

#[cycle(statement)]
fn statement(out: &mut Writer, core: &Core, of: &CoreStmt) -> Result<(), NoMemory> {
    match of {
        CoreStmt::Empty => out.line(&[Word::Plain("empty")]),
        CoreStmt::Block(body) => part(out, core, body, "block"),
        CoreStmt::If { condition, then } => {
            under(out, core, then, &[Word::Plain("if")], condition)
        }
        CoreStmt::IfElse {
            condition,
            then,
            otherwise,
        } => {
            under(out, core, then, &[Word::Plain("if")], condition)?;
            one_part(out, core, otherwise, "else")
        }
        CoreStmt::Case {
            selector,
            branches,
            otherwise,
        } => {
            named(out, core, "case", selector)?;
            all_branches(out, core, branches)?;
            part(out, core, otherwise, "else")
        }
        CoreStmt::While { condition, body } => {
            under(out, core, body, &[Word::Plain("while")], condition)
        }
        CoreStmt::Repeat { body, condition } => {
            part(out, core, body, "repeat")?;
            named(out, core, "until", condition)
        }
        CoreStmt::For {
            variable: id,
            first,
            direction,
            last,
            body,
        } => {
            headed(out, core, &for_words(variable(core, *id)), first)?;
            let name = direction_name(*direction);
            under(out, core, body, &[Word::Plain(name)], last)
        }
        CoreStmt::ForIn {
            variable: id,
            store,
            collection,
            body,
        } => {
            let words = in_words(variable(core, *id), *store);
            under(out, core, body, &words, collection)
        }
        CoreStmt::TryFinally { body, finalization } => {
            part(out, core, body, "try")?;
            part(out, core, finalization, "finally")
        }
        CoreStmt::TryOn { body, handlers } => {
            part(out, core, body, "try")?;
            all_handlers(out, core, handlers)
        }
        CoreStmt::TryOnElse {
            body,
            handlers,
            otherwise,
        } => {
            part(out, core, body, "try")?;
            all_handlers(out, core, handlers)?;
            part(out, core, otherwise, "on all others")
        }
        CoreStmt::Raise(instance) => named(out, core, "raise", instance),
        CoreStmt::Reraise => out.line(&[Word::Plain("raise again")]),
        CoreStmt::Call(call) => named(out, core, "do", call),
        CoreStmt::Assign { target, value } => {
            named(out, core, "assign to", target)?;
            named(out, core, "  the value", value)
        }
        CoreStmt::Exit => out.line(&[Word::Plain("exit")]),
        CoreStmt::ExitWith(value) => named(out, core, "exit with", value),
        CoreStmt::Break => out.line(&[Word::Plain("break")]),
        CoreStmt::Continue => out.line(&[Word::Plain("continue")]),
        CoreStmt::Halt(status) => named(out, core, "halt", status),
        CoreStmt::Do(of) => action(out, core, of),
    }
}

fn for_words(variable: Word<'_>) -> [Word<'_>; 3] {
    [Word::Plain("for"), variable, Word::Plain("from")]
}

fn in_words(variable: Word<'_>, store: Conversion) -> [Word<'_>; 4] {
    [
        Word::Plain("for"),
        variable,
        conversion(store),
        Word::Plain("in"),
    ]
}

fn direction_name(of: Direction) -> &'static str {
    match of {
        Direction::To => "  up to",
        Direction::Downto => "  down to",
    }
}

#[cycle(statement)]
fn all_branches(out: &mut Writer, core: &Core, branches: &[CoreBranch]) -> Result<(), NoMemory> {
    for each in branches {
        branch(out, core, each)?;
    }
    Ok(())
}

#[cycle(statement)]
fn branch(out: &mut Writer, core: &Core, of: &CoreBranch) -> Result<(), NoMemory> {
    out.begin()?;
    out.words(&[Word::Plain("at")])?;
    labels(out, of.labels.as_slice())?;
    out.end()?;
    within(out, core, &of.body)
}

#[cycle(statement)]
fn all_handlers(out: &mut Writer, core: &Core, handlers: &[CoreHandler]) -> Result<(), NoMemory> {
    for each in handlers {
        handler(out, core, each)?;
    }
    Ok(())
}

#[cycle(statement)]
fn handler(out: &mut Writer, core: &Core, of: &CoreHandler) -> Result<(), NoMemory> {
    let name = match of.variable {
        Some(id) => variable(core, id),
        None => Word::Nothing,
    };
    out.line(&[Word::Plain("on"), name, class(of.class)])?;
    within(out, core, &of.body)
}

/// A call of a built-in procedure, with an operand a line behind the first one.
fn action(out: &mut Writer, core: &Core, of: &CoreAction) -> Result<(), NoMemory> {
    match of {
        CoreAction::Write { items, ends_line } => {
            out.line(&[Word::Plain(if *ends_line { "WriteLn" } else { "Write" })])?;
            all_items(out, core, items)
        }
        CoreAction::Read { targets, ends_line } => {
            out.line(&[Word::Plain(if *ends_line { "ReadLn" } else { "Read" })])?;
            all_targets(out, core, targets)
        }
        CoreAction::Count {
            direction,
            target: of,
            amount,
            checked: is_checked,
        } => {
            let name = match direction {
                Direction::To => "Inc",
                Direction::Downto => "Dec",
            };
            out.line(&[Word::Plain(name), checked(*is_checked)])?;
            target(out, core, of)?;
            named(out, core, "  by", amount)
        }
        CoreAction::SetLength { target, length } => two(out, core, "SetLength", target, length),
        CoreAction::Include { set, element } => two(out, core, "Include", set, element),
        CoreAction::Exclude { set, element } => two(out, core, "Exclude", set, element),
        CoreAction::Val { text, value, code } => {
            named(out, core, "Val", text)?;
            target(out, core, value)?;
            target(out, core, code)
        }
        CoreAction::Str {
            value,
            target: place,
        } => {
            out.line(&[Word::Plain("Str")])?;
            item(out, core, value)?;
            named(out, core, "  to", place)
        }
        CoreAction::Free { object, empties } => {
            let name = if *empties { "FreeAndNil" } else { "Free" };
            named(out, core, name, object)
        }
        CoreAction::Destroy(object) => named(out, core, "Destroy", object),
    }
}

/// A call with two operands.
fn two(
    out: &mut Writer,
    core: &Core,
    name: &str,
    first: &CoreExpr,
    second: &CoreExpr,
) -> Result<(), NoMemory> {
    named(out, core, name, first)?;
    named(out, core, "  and", second)
}

fn all_items(out: &mut Writer, core: &Core, items: &[CoreItem]) -> Result<(), NoMemory> {
    for each in items {
        item(out, core, each)?;
    }
    Ok(())
}

fn item(out: &mut Writer, core: &Core, of: &CoreItem) -> Result<(), NoMemory> {
    match of {
        CoreItem::Plain(value) => named(out, core, "  item", value),
        CoreItem::Padded(value, width) => {
            named(out, core, "  item", value)?;
            named(out, core, "  width", width)
        }
    }
}

fn all_targets(out: &mut Writer, core: &Core, targets: &[CoreTarget]) -> Result<(), NoMemory> {
    for each in targets {
        target(out, core, each)?;
    }
    Ok(())
}

fn target(out: &mut Writer, core: &Core, of: &CoreTarget) -> Result<(), NoMemory> {
    headed(
        out,
        core,
        &[Word::Plain("  place"), conversion(of.store)],
        &of.place,
    )
}
