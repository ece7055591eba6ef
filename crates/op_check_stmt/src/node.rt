//! Typed statements, made of parts that may have no type.
ghost use Rattle.std.specs.Prelude.{◌≡◌, IfOk, Some};
ghost use Rattle.std.specs.Option.{option_map};
ghost use Rattle.op_check_expr.specs.Parts.{Behind, OfOk};
ghost use Rattle.op_check_stmt.specs.Parts.{bounds_of, boxed_of, branch_of, front_of, head_of, items_of, statements_in, three_typed};
ghost use Rattle.op_check_stmt.specs.Statement.{case_statement, for_statement};
ghost use Rattle.op_core.specs.Expression.{Expression, expr_of};
ghost use Rattle.op_core.specs.Nodes.{branches_of};
ghost use Rattle.op_core.specs.Statement.{Statement, assign, block, case_of, empty, for_to, if_else, if_then, repeat_until, stmt_of, stmts_of, try_finally, while_do};
ghost use Rattle.op_judgement.specs.Judgement.{both_typed};

use crate::variable::Counter;
use op_base::{NoMemory, Sequence};
use op_check_expr::{Done, put};
use op_core::{CoreBranch, CoreExpr, CoreStmt, Label, VariableId};
use op_tree::Direction;
use std::alloc::Global;

// A node is put in a place of the caller; its parts come with the answers that they stand behind.

/// A typed statement; None where a rule is broken in it.
pub type Typed = Result<Option<CoreStmt>, NoMemory>;

#[inline(never)]
pub fn empty(out: &mut Option<CoreStmt>)
    ensures { option_map stmt_of out.new ≡ Some empty }
{
    put(out, Some(CoreStmt::Empty));
}

#[inline(never)]
pub fn block(done: Done, statements: Option<Vec<CoreStmt>>, out: &mut Option<CoreStmt>) -> Done
    ensures { IfOk result (λ _. Behind done (option_map stmt_of out.new ≡ option_map block (statements_in statements))) }
{
    done?;
    put(out, block_with(statements));
    Ok(())
}

fn block_with(statements: Option<Vec<CoreStmt>>) -> Option<CoreStmt>
    ensures { option_map stmt_of result ≡ option_map block (statements_in statements) }
{
    match statements {
        None => None,
        Some(statements) => Some(block_of(statements)),
    }
}

/// Both parts, where both are typed.
#[inline(never)]
pub fn pair<A: Drop, B: Drop>(a: Option<A>, b: Option<B>) -> Option<(A, B)>
    ensures { result ≡ both_typed (λ a b. (a, b)) a b }
{
    let (Some(a), Some(b)) = (a, b) else {
        return None;
    };
    Some((a, b))
}

/// Both parts, where both are typed, behind an answer.
fn paired<A: Drop, B: Drop>(
    done: Done,
    a: Option<A>,
    b: Result<Option<B>, NoMemory>,
) -> Result<Option<(A, B)>, NoMemory>
    ensures { IfOk result (λ p. Behind done (OfOk b (λ b. p ≡ both_typed (λ a b. (a, b)) a b))) }
{
    done?;
    Ok(pair(a, b?))
}

/// The same behind two answers.
pub fn paired_behind<A: Drop, B: Drop>(
    done: (Done, Done),
    a: Option<A>,
    b: Option<B>,
) -> Result<Option<(A, B)>, NoMemory>
    ensures { IfOk result (λ p. Behind done.0 (Behind done.1 (p ≡ both_typed (λ a b. (a, b)) a b))) }
{
    done.0?;
    done.1?;
    Ok(pair(a, b))
}

/// The same of two answers.
fn paired_answers<A: Drop, B: Drop>(
    a: Result<Option<A>, NoMemory>,
    b: Result<Option<B>, NoMemory>,
) -> Result<Option<(A, B)>, NoMemory>
    ensures { IfOk result (λ p. OfOk a (λ a. OfOk b (λ b. p ≡ both_typed (λ a b. (a, b)) a b))) }
{
    let a = a?;
    Ok(pair(a, b?))
}

/// The same of an answer and what stands behind another one.
fn paired_in_front<A: Drop, B: Drop>(
    a: Result<Option<A>, NoMemory>,
    done: Done,
    b: Option<B>,
) -> Result<Option<(A, B)>, NoMemory>
    ensures { IfOk result (λ p. OfOk a (λ a. Behind done (p ≡ both_typed (λ a b. (a, b)) a b))) }
{
    let a = a?;
    done?;
    Ok(pair(a, b))
}

/// What stands in front of an `else`.
#[inline(never)]
pub fn front(
    done: Done,
    condition: Option<CoreExpr>,
    then: Result<Option<Box<CoreStmt>>, NoMemory>,
    out: &mut Option<(CoreExpr, Box<CoreStmt>)>,
) -> Done
    ensures { IfOk result (λ _. Behind done (OfOk then (λ then. out.new ≡ both_typed (λ a b. (a, b)) condition then))) }
{
    let parts = paired(done, condition, then)?;
    put(out, parts);
    Ok(())
}

/// A part in memory of its own.
#[inline(never)]
pub fn boxed(
    alloc: Global,
    done: Done,
    statement: Option<CoreStmt>,
) -> Result<Option<Box<CoreStmt>>, NoMemory>
    ensures { IfOk result (λ s. Behind done (option_map boxed_of s ≡ option_map stmt_of statement)) }
{
    done?;
    match statement {
        None => Ok(None),
        Some(statement) => Ok(Some(Box::new(alloc, statement)?)),
    }
}

#[inline(never)]
pub fn if_then(
    done: Done,
    condition: Option<CoreExpr>,
    then: Result<Option<Box<CoreStmt>>, NoMemory>,
    out: &mut Option<CoreStmt>,
) -> Done
    ensures { IfOk result (λ _. Behind done (OfOk then (λ then. option_map stmt_of out.new ≡ both_typed if_then (option_map expr_of condition) (option_map boxed_of then)))) }
{
    let parts = paired(done, condition, then)?;
    put(out, if_with(parts));
    Ok(())
}

fn if_with(parts: Option<(CoreExpr, Box<CoreStmt>)>) -> Option<CoreStmt>
    ensures { option_map stmt_of result ≡ option_map (λ p. if_then (expr_of p.0) (boxed_of p.1)) parts }
{
    match parts {
        None => None,
        Some((condition, then)) => Some(CoreStmt::If { condition, then }),
    }
}

#[inline(never)]
pub fn if_else(
    done: Done,
    front: Option<(CoreExpr, Box<CoreStmt>)>,
    otherwise: Result<Option<Box<CoreStmt>>, NoMemory>,
    out: &mut Option<CoreStmt>,
) -> Done
    ensures { IfOk result (λ _. Behind done (OfOk otherwise (λ otherwise. option_map stmt_of out.new ≡ both_typed (λ (f : Expression × Statement) s. if_else f.0 f.1 s) (option_map front_of front) (option_map boxed_of otherwise)))) }
{
    let parts = paired(done, front, otherwise)?;
    put(out, if_else_with(parts));
    Ok(())
}

fn if_else_with(parts: Option<((CoreExpr, Box<CoreStmt>), Box<CoreStmt>)>) -> Option<CoreStmt>
    ensures { option_map stmt_of result ≡ option_map (λ p. if_else (expr_of p.0.0) (boxed_of p.0.1) (boxed_of p.1)) parts }
{
    match parts {
        None => None,
        Some(((condition, then), otherwise)) => Some(CoreStmt::IfElse {
            condition,
            then,
            otherwise,
        }),
    }
}

#[inline(never)]
pub fn while_do(
    done: Done,
    condition: Option<CoreExpr>,
    body: Result<Option<Box<CoreStmt>>, NoMemory>,
    out: &mut Option<CoreStmt>,
) -> Done
    ensures { IfOk result (λ _. Behind done (OfOk body (λ body. option_map stmt_of out.new ≡ both_typed while_do (option_map expr_of condition) (option_map boxed_of body)))) }
{
    let parts = paired(done, condition, body)?;
    put(out, while_with(parts));
    Ok(())
}

fn while_with(parts: Option<(CoreExpr, Box<CoreStmt>)>) -> Option<CoreStmt>
    ensures { option_map stmt_of result ≡ option_map (λ p. while_do (expr_of p.0) (boxed_of p.1)) parts }
{
    match parts {
        None => None,
        Some((condition, body)) => Some(CoreStmt::While { condition, body }),
    }
}

#[inline(never)]
pub fn for_to(
    alloc: Global,
    direction: Direction,
    counter: Option<Counter>,
    bounds: Result<Option<(CoreExpr, CoreExpr)>, NoMemory>,
    body: Result<Option<Box<CoreStmt>>, NoMemory>,
    out: &mut Option<CoreStmt>,
) -> Done
    ensures { IfOk result (λ _. OfOk bounds (λ bounds. OfOk body (λ body. option_map stmt_of out.new ≡ three_typed (for_statement direction) counter (option_map bounds_of bounds) (option_map boxed_of body)))) }
{
    let parts = paired_answers(bounds, body)?;
    let made = for_from(alloc, direction, counter, parts)?;
    put(out, made);
    Ok(())
}

fn for_from(
    alloc: Global,
    direction: Direction,
    counter: Option<Counter>,
    parts: Option<((CoreExpr, CoreExpr), Box<CoreStmt>)>,
) -> Typed
    ensures { IfOk result (λ s. option_map stmt_of s ≡ both_typed (λ c p. for_statement direction c (bounds_of p.0) (boxed_of p.1)) counter parts) }
{
    let (Some(counter), Some(((first, last), body))) = (counter, parts) else {
        return Ok(None);
    };
    let first = Box::new(alloc, first)?;
    for_with_first(alloc, counter.variable, first, direction, last, body)
}

fn for_with_first(
    alloc: Global,
    variable: VariableId,
    first: Box<CoreExpr>,
    direction: Direction,
    last: CoreExpr,
    body: Box<CoreStmt>,
) -> Typed
    ensures { IfOk result (λ s. option_map stmt_of s ≡ Some (for_to variable (expr_of first.value) direction (expr_of last) (stmt_of body.value))) }
{
    let last = Box::new(alloc, last)?;
    Ok(Some(CoreStmt::For {
        variable,
        first,
        direction,
        last,
        body,
    }))
}

#[inline(never)]
pub fn repeat_until(
    alloc: Global,
    done: (Done, Done),
    body: Option<Vec<CoreStmt>>,
    condition: Option<CoreExpr>,
    out: &mut Option<CoreStmt>,
) -> Done
    ensures { IfOk result (λ _. Behind done.0 (Behind done.1 (option_map stmt_of out.new ≡ both_typed repeat_until (statements_in body) (option_map expr_of condition)))) }
{
    let parts = paired_behind(done, body, condition)?;
    let made = repeat_with(alloc, parts)?;
    put(out, made);
    Ok(())
}

fn repeat_with(alloc: Global, parts: Option<(Vec<CoreStmt>, CoreExpr)>) -> Typed
    ensures { IfOk result (λ s. option_map stmt_of s ≡ option_map (λ p. repeat_until (stmts_of p.0.items) (expr_of p.1)) parts) }
{
    match parts {
        None => Ok(None),
        Some((body, condition)) => {
            let condition = Box::new(alloc, condition)?;
            Ok(Some(repeat_of(body, condition)))
        }
    }
}

#[inline(never)]
pub fn try_finally(
    done: (Done, Done),
    body: Option<Vec<CoreStmt>>,
    finalization: Option<Vec<CoreStmt>>,
    out: &mut Option<CoreStmt>,
) -> Done
    ensures { IfOk result (λ _. Behind done.0 (Behind done.1 (option_map stmt_of out.new ≡ both_typed try_finally (statements_in body) (statements_in finalization)))) }
{
    let parts = paired_behind(done, body, finalization)?;
    put(out, finally_with(parts));
    Ok(())
}

fn finally_with(parts: Option<(Vec<CoreStmt>, Vec<CoreStmt>)>) -> Option<CoreStmt>
    ensures { option_map stmt_of result ≡ option_map (λ p. try_finally (stmts_of p.0.items) (stmts_of p.1.items)) parts }
{
    match parts {
        None => None,
        Some((body, finalization)) => Some(finally_of(body, finalization)),
    }
}

#[inline(never)]
pub fn case_of(
    alloc: Global,
    done: (Done, Done),
    head: Option<(CoreExpr, Vec<CoreBranch>)>,
    otherwise: Option<Vec<CoreStmt>>,
    out: &mut Option<CoreStmt>,
) -> Done
    ensures { IfOk result (λ _. Behind done.0 (Behind done.1 (option_map stmt_of out.new ≡ both_typed case_statement (option_map head_of head) (statements_in otherwise)))) }
{
    let parts = paired_behind(done, head, otherwise)?;
    let made = case_from(alloc, parts)?;
    put(out, made);
    Ok(())
}

fn case_from(alloc: Global, parts: Option<((CoreExpr, Vec<CoreBranch>), Vec<CoreStmt>)>) -> Typed
    ensures { IfOk result (λ s. option_map stmt_of s ≡ option_map (λ p. case_of (expr_of p.0.0) (branches_of p.0.1.items) (stmts_of p.1.items)) parts) }
{
    match parts {
        None => Ok(None),
        Some(((selector, branches), otherwise)) => {
            let selector = Box::new(alloc, selector)?;
            Ok(Some(case_with(selector, branches, otherwise)))
        }
    }
}

#[inline(never)]
pub fn branch(
    labels: Result<Option<Vec<Label>>, NoMemory>,
    done: Done,
    body: Option<CoreStmt>,
    out: &mut Option<CoreBranch>,
) -> Done
    ensures { IfOk result (λ _. OfOk labels (λ labels. Behind done (option_map branch_of out.new ≡ both_typed (λ l s. (l, s)) (items_of labels) (option_map stmt_of body)))) }
{
    let parts = paired_in_front(labels, done, body)?;
    put(out, branch_with(parts));
    Ok(())
}

fn branch_with(parts: Option<(Vec<Label>, CoreStmt)>) -> Option<CoreBranch>
    ensures { option_map branch_of result ≡ option_map (λ p. (p.0.items, stmt_of p.1)) parts }
{
    match parts {
        None => None,
        Some((labels, body)) => {
            let labels = Sequence::from(labels);
            Some(CoreBranch { labels, body })
        }
    }
}

pub fn assign(alloc: Global, parts: Option<(CoreExpr, CoreExpr)>) -> Typed
    ensures { IfOk result (λ s. option_map stmt_of s ≡ option_map (λ p. assign (expr_of p.0) (expr_of p.1)) parts) }
{
    match parts {
        None => Ok(None),
        Some((target, value)) => {
            let value = Box::new(alloc, value)?;
            Ok(Some(CoreStmt::Assign { target, value }))
        }
    }
}

// Each node with a list alone, whose clause is a law of the typed tree.

fn block_of(statements: Vec<CoreStmt>) -> CoreStmt
    ensures { stmt_of result ≡ block (stmts_of statements.items) }
{
    CoreStmt::Block(statements)
}

fn repeat_of(body: Vec<CoreStmt>, condition: Box<CoreExpr>) -> CoreStmt
    ensures { stmt_of result ≡ repeat_until (stmts_of body.items) (expr_of condition.value) }
{
    CoreStmt::Repeat { body, condition }
}

fn finally_of(body: Vec<CoreStmt>, finalization: Vec<CoreStmt>) -> CoreStmt
    ensures { stmt_of result ≡ try_finally (stmts_of body.items) (stmts_of finalization.items) }
{
    CoreStmt::TryFinally { body, finalization }
}

fn case_with(
    selector: Box<CoreExpr>,
    branches: Vec<CoreBranch>,
    otherwise: Vec<CoreStmt>,
) -> CoreStmt
    ensures { stmt_of result ≡ case_of (expr_of selector.value) (branches_of branches.items) (stmts_of otherwise.items) }
{
    CoreStmt::Case {
        selector,
        branches,
        otherwise,
    }
}
