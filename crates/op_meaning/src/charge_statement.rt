//! What statements count for in the charge of their routine, in bytes.
ghost use Rattle.std.specs.Prelude.{◌≡◌, slice_get};
ghost use Rattle.op_core.specs.Nodes.{branches_of, handlers_of};
ghost use Rattle.op_core.specs.Statement.{built_in_of, item_of, stmt_of, stmts_of};
ghost use Rattle.op_meaning.specs.Charge.{branches_weight, built_in_weight, charged, counter_weight, handlers_weight, item_weight, labels_weight, statement_weight, statements_weight};

use crate::charge_expression::{NODE, WORD, expression, valued};
use op_core::{Core, CoreAction, CoreBranch, CoreHandler, CoreItem, CoreStmt, Label, VariableId};

#[cycle(statement)]
pub fn statements(core: &Core, list: &[CoreStmt]) -> u64
    ensures { result ≡ charged (statements_weight core.now (stmts_of list.now)) }
{
    let mut sum = 0u64;
    for each in list {
        sum = sum.saturating_add(statement(core, each));
    }
    sum
}

#[cycle(statement)]
fn statement(core: &Core, stmt: &CoreStmt) -> u64
    ensures { result ≡ charged (statement_weight core.now (stmt_of stmt.now)) }
{
    match stmt {
        CoreStmt::Empty => 0,
        CoreStmt::Block(body) => sum!(core: NODE, statements(body)),
        CoreStmt::If { condition, then } =>
            sum!(core: NODE, expression(condition), statement(then)),
        CoreStmt::IfElse {
            condition,
            then,
            otherwise,
        } => sum!(core: NODE, expression(condition), statement(then), statement(otherwise)),
        CoreStmt::Case {
            selector,
            branches: list,
            otherwise,
        } => sum!(core: NODE, expression(selector), branches(list), statements(otherwise)),
        CoreStmt::While { condition, body } =>
            sum!(core: NODE, expression(condition), statement(body)),
        CoreStmt::Repeat { body, condition } =>
            sum!(core: NODE, statements(body), expression(condition)),
        CoreStmt::For {
            variable,
            first,
            last,
            body,
            ..
        } =>
            sum!(core: NODE, counter(*variable), expression(first), expression(last), statement(body)),
        CoreStmt::ForIn {
            variable,
            collection,
            body,
            ..
        } => sum!(core: NODE, counter(*variable), expression(collection), statement(body)),
        CoreStmt::TryFinally { body, finalization } =>
            sum!(core: NODE, statements(body), statements(finalization)),
        CoreStmt::TryOn {
            body,
            handlers: list,
        } => sum!(core: NODE, statements(body), handlers(list)),
        CoreStmt::TryOnElse {
            body,
            handlers: list,
            otherwise,
        } => sum!(core: NODE, statements(body), handlers(list), statements(otherwise)),
        CoreStmt::Raise(exception) => sum!(core: NODE, expression(exception)),
        CoreStmt::Reraise => NODE,
        CoreStmt::Call(call) => expression(core, call),
        CoreStmt::Assign { target, value } =>
            sum!(core: NODE, expression(target), expression(value)),
        CoreStmt::Exit => NODE,
        CoreStmt::ExitWith(value) => sum!(core: NODE, expression(value)),
        CoreStmt::Break => NODE,
        CoreStmt::Continue => NODE,
        CoreStmt::Halt(status) => sum!(core: NODE, expression(status)),
        CoreStmt::Do(action) => built_in(core, action),
    }
}

#[cycle(statement)]
fn branches(core: &Core, list: &[CoreBranch]) -> u64
    ensures { result ≡ charged (branches_weight core.now (branches_of list.now)) }
{
    let mut sum = 0u64;
    for each in list {
        sum = sum
            .saturating_add(labels(each.labels.as_slice()))
            .saturating_add(statement(core, &each.body));
    }
    sum
}

/// Each clause is a node.
#[cycle(statement)]
fn handlers(core: &Core, list: &[CoreHandler]) -> u64
    ensures { result ≡ charged (handlers_weight core.now (handlers_of list.now)) }
{
    let mut sum = 0u64;
    for each in list {
        sum = sum
            .saturating_add(NODE)
            .saturating_add(statement(core, &each.body));
    }
    sum
}

fn labels(list: &[Label]) -> u64
    ensures { result ≡ charged (labels_weight list.now) }
{
    let mut sum = 0u64;
    for each in list {
        sum = sum.saturating_add(NODE * each.nodes as u64 + WORD * each.words as u64);
    }
    sum
}

/// The variable of a `for`, which counts as a name.
fn counter(core: &Core, variable: VariableId) -> u64
    ensures { result ≡ charged (counter_weight core.now (slice_get core.now.variables variable.0)) }
{
    match core.variables.as_slice().get(variable.0 as usize) {
        None => NODE,
        Some(variable) => valued(core, variable.of),
    }
}

fn built_in(core: &Core, action: &CoreAction) -> u64
    ensures { result ≡ charged (built_in_weight core.now (built_in_of action.now)) }
{
    match action {
        CoreAction::Write { items, .. } => {
            let mut sum = NODE;
            for each in items {
                sum = sum.saturating_add(item(core, each));
            }
            sum
        }
        CoreAction::Read { targets, .. } => {
            let mut sum = NODE;
            for each in targets {
                sum = sum.saturating_add(expression(core, &each.place));
            }
            sum
        }
        CoreAction::Count { target, amount, .. } =>
            sum!(core: NODE, expression(&target.place), expression(amount)),
        CoreAction::SetLength { target, length } =>
            sum!(core: NODE, expression(target), expression(length)),
        CoreAction::Include { set, element } =>
            sum!(core: NODE, expression(set), expression(element)),
        CoreAction::Exclude { set, element } =>
            sum!(core: NODE, expression(set), expression(element)),
        CoreAction::Val { text, value, code } =>
            sum!(core: NODE, expression(text), expression(&value.place), expression(&code.place)),
        CoreAction::Str { value, target } => sum!(core: NODE, item(value), expression(target)),
        CoreAction::Free { object, .. } => sum!(core: NODE, expression(object)),
        CoreAction::Destroy(object) => sum!(core: NODE, expression(object)),
    }
}

fn item(core: &Core, item: &CoreItem) -> u64
    ensures { result ≡ charged (item_weight core.now (item_of item.now)) }
{
    match item {
        CoreItem::Plain(value) => expression(core, value),
        CoreItem::Padded(value, width) => { sum!(core: expression(value), expression(width)) }
    }
}
