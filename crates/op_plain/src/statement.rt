//! The test of statements.
ghost use Rattle.std.specs.Prelude.{◌≡◌, map};
ghost use Rattle.std.specs.List.{list_all};
ghost use Rattle.op_core.specs.Expression.{expr_of, root_of};
ghost use Rattle.op_core.specs.Nodes.{branches_of};
ghost use Rattle.op_core.specs.Statement.{built_in_of, item_of, stmt_of, stmts_of};
ghost use Rattle.op_plain.specs.Plain.{are_nodes, are_plain_branches, are_plain_labels, are_plain_statements, is_plain_amount, is_plain_bare, is_plain_built_in, is_plain_item, is_plain_statement, is_short};
ghost use Rattle.op_typing.specs.SimpleTests.{is_short_text};

use crate::expression::{is_plain_expression, is_plain_root};
use crate::types::is_plain_constant;
use op_core::{Core, CoreAction, CoreBranch, CoreExpr, CoreItem, CoreStmt, Label, Root, TypeId};

#[cycle(statement)]
pub fn are_plain_statements(core: &Core, list: &[CoreStmt]) -> bool
    ensures texts { result ≡ are_plain_statements is_short_text core.now (stmts_of list.now) }
    ensures lengths { result ≡ are_plain_statements is_short core.now (stmts_of list.now) }
{
    for each in list {
        if !is_plain_statement(core, each) {
            return false;
        }
    }
    true
}

#[cycle(statement)]
fn is_plain_statement(core: &Core, stmt: &CoreStmt) -> bool
    ensures texts { result ≡ is_plain_statement is_short_text core.now (stmt_of stmt.now) }
    ensures lengths { result ≡ is_plain_statement is_short core.now (stmt_of stmt.now) }
{
    match stmt {
        CoreStmt::Empty => true,
        CoreStmt::Block(body) => are_plain_statements(core, body),
        CoreStmt::If { condition, then } => {
            is_plain_expression(core, condition) && is_plain_statement(core, then)
        }
        CoreStmt::IfElse {
            condition,
            then,
            otherwise,
        } => {
            is_plain_expression(core, condition)
                && is_plain_statement(core, then)
                && is_plain_statement(core, otherwise)
        }
        CoreStmt::Case {
            selector,
            branches,
            otherwise,
        } => {
            is_plain_expression(core, selector)
                && are_plain_branches(core, branches)
                && are_plain_statements(core, otherwise)
        }
        CoreStmt::While { condition, body } => {
            is_plain_expression(core, condition) && is_plain_statement(core, body)
        }
        CoreStmt::Repeat { body, condition } => {
            is_plain_expression(core, condition) && are_plain_statements(core, body)
        }
        CoreStmt::For {
            first,
            last,
            body,
            ..
        } => {
            is_plain_expression(core, first)
                && is_plain_expression(core, last)
                && is_plain_statement(core, body)
        }
        CoreStmt::ForIn {
            collection,
            body,
            ..
        } => is_plain_expression(core, collection) && is_plain_statement(core, body),
        CoreStmt::TryFinally { body, finalization } => {
            are_plain_statements(core, body) && are_plain_statements(core, finalization)
        }
        CoreStmt::TryOn { .. } => false,
        CoreStmt::TryOnElse { .. } => false,
        CoreStmt::Raise(_) => false,
        CoreStmt::Reraise => false,
        CoreStmt::Call(call) => is_plain_expression(core, call),
        CoreStmt::Assign { target, value } => {
            is_plain_expression(core, target) && is_plain_expression(core, value)
        }
        CoreStmt::Exit => true,
        CoreStmt::ExitWith(value) => is_plain_expression(core, value),
        CoreStmt::Break => true,
        CoreStmt::Continue => true,
        CoreStmt::Halt(status) => is_plain_amount(core, status),
        CoreStmt::Do(action) => is_plain_built_in(core, action),
    }
}

#[cycle(statement)]
fn are_plain_branches(core: &Core, list: &[CoreBranch]) -> bool
    ensures texts { result ≡ are_plain_branches is_short_text core.now (branches_of list.now) }
    ensures lengths { result ≡ are_plain_branches is_short core.now (branches_of list.now) }
{
    for each in list {
        if !are_plain_labels(each.labels.as_slice()) {
            return false;
        }
        if !is_plain_statement(core, &each.body) {
            return false;
        }
    }
    true
}

fn are_plain_labels(labels: &[Label]) -> bool
    ensures { result ≡ are_plain_labels labels.now }
{
    0 < labels.len() && are_nodes(labels)
}

/// Whether each label stands for a node of the text at least.
fn are_nodes(labels: &[Label]) -> bool
    ensures { result ≡ are_nodes labels.now }
{
    labels.iter().all(|label| 0 < label.nodes)
}

fn is_plain_built_in(core: &Core, action: &CoreAction) -> bool
    ensures texts { result ≡ is_plain_built_in is_short_text core.now (built_in_of action.now) }
    ensures lengths { result ≡ is_plain_built_in is_short core.now (built_in_of action.now) }
{
    match action {
        CoreAction::Write { items, .. } => are_plain_items(core, items),
        CoreAction::Count { target, amount, .. } => {
            is_plain_expression(core, &target.place) && is_plain_amount(core, amount)
        }
        CoreAction::Include { set, element } => {
            is_plain_expression(core, set) && is_plain_expression(core, element)
        }
        CoreAction::Exclude { set, element } => {
            is_plain_expression(core, set) && is_plain_expression(core, element)
        }
        _ => false,
    }
}

fn are_plain_items(core: &Core, list: &[CoreItem]) -> bool
    ensures texts { result ≡ list_all (is_plain_item is_short_text core.now) (map item_of list.now) }
    ensures lengths { result ≡ list_all (is_plain_item is_short core.now) (map item_of list.now) }
{
    for each in list {
        if !is_plain_item(core, each) {
            return false;
        }
    }
    true
}

fn is_plain_item(core: &Core, item: &CoreItem) -> bool
    ensures texts { result ≡ is_plain_item is_short_text core.now (item_of item.now) }
    ensures lengths { result ≡ is_plain_item is_short core.now (item_of item.now) }
{
    match item {
        CoreItem::Plain(value) => is_plain_expression(core, value),
        CoreItem::Padded(value, width) => {
            is_plain_expression(core, value) && is_plain_expression(core, width)
        }
    }
}

fn is_plain_amount(core: &Core, amount: &CoreExpr) -> bool
    ensures texts { result ≡ is_plain_amount is_short_text core.now (expr_of amount.now) }
    ensures lengths { result ≡ is_plain_amount is_short core.now (expr_of amount.now) }
{
    match amount.steps.split_first() {
        None => is_plain_bare(core, &amount.root, amount.of),
        Some(_) => is_plain_expression(core, amount),
    }
}

/// An amount or a status that is not written is a constant that stands for no node.
fn is_plain_bare(core: &Core, root: &Root, of: TypeId) -> bool
    ensures texts { result ≡ is_plain_bare is_short_text core.now (root_of root.now) of }
    ensures lengths { result ≡ is_plain_bare is_short core.now (root_of root.now) of }
{
    match root {
        Root::Constant { value, .. } => is_plain_constant(core, value, of),
        _ => is_plain_root(core, root, of),
    }
}
