//! The nodes of statements, from their parts.
ghost use Rattle.std.specs.Prelude.{◌≡◌, IfOk};
ghost use Rattle.op_parse_code.specs.WholeStatement.{rest_of, try_of};
ghost use Rattle.op_tree.specs.Expression.{expr_of};
ghost use Rattle.op_tree.specs.Lists.{branches_of};
ghost use Rattle.op_tree.specs.Statement.{assign, block, call, case_else, case_of, designator_of, for_in, for_to, if_else, if_then, inherited_call, repeat_until, stmt_of, stmts_of, while_do};

use crate::handler::TryRest;
use op_base::NoMemory;
use op_tree::{Branch, Designator, Direction, Expr, Name, Position, Stmt};
use std::alloc::Global;

pub fn block_node(statements: Vec<Stmt>) -> Stmt
    ensures { stmt_of result ≡ block (stmts_of statements.items) }
{
    Stmt::Block(statements)
}

/// The statement in a box.
#[inline(never)]
pub fn boxed_node(alloc: Global, statement: Stmt) -> Result<Box<Stmt>, NoMemory>
    ensures { IfOk result (λ s. stmt_of s.value ≡ stmt_of statement) }
{
    let boxed = Box::new(alloc, statement)?;
    Ok(boxed)
}

pub fn if_node(condition: Expr, then: Box<Stmt>) -> Stmt
    ensures { stmt_of result ≡ if_then (expr_of condition) (stmt_of then.value) }
{
    Stmt::If { condition, then }
}

pub fn if_else_node(condition: Expr, then: Box<Stmt>, otherwise: Box<Stmt>) -> Stmt
    ensures { stmt_of result ≡ if_else (expr_of condition) (stmt_of then.value) (stmt_of otherwise.value) }
{
    Stmt::IfElse {
        condition,
        then,
        otherwise,
    }
}

pub fn while_node(condition: Expr, body: Box<Stmt>) -> Stmt
    ensures { stmt_of result ≡ while_do (expr_of condition) (stmt_of body.value) }
{
    Stmt::While { condition, body }
}

pub fn repeat_node(body: Vec<Stmt>, condition: Box<Expr>) -> Stmt
    ensures { stmt_of result ≡ repeat_until (stmts_of body.items) (expr_of condition.value) }
{
    Stmt::Repeat { body, condition }
}

pub fn for_node(
    variable: Name,
    first: Box<Expr>,
    direction: Direction,
    last: Box<Expr>,
    body: Box<Stmt>,
) -> Stmt
    ensures { stmt_of result ≡ for_to variable (expr_of first.value) direction (expr_of last.value) (stmt_of body.value) }
{
    Stmt::For {
        variable,
        first,
        direction,
        last,
        body,
    }
}

pub fn for_in_node(variable: Name, collection: Box<Expr>, body: Box<Stmt>) -> Stmt
    ensures { stmt_of result ≡ for_in variable (expr_of collection.value) (stmt_of body.value) }
{
    Stmt::ForIn {
        variable,
        collection,
        body,
    }
}

pub fn case_node(selector: Box<Expr>, branches: Vec<Branch>) -> Stmt
    ensures { stmt_of result ≡ case_of (expr_of selector.value) (branches_of branches.items) }
{
    Stmt::Case { selector, branches }
}

pub fn case_else_node(selector: Box<Expr>, branches: Vec<Branch>, otherwise: Vec<Stmt>) -> Stmt
    ensures { stmt_of result ≡ case_else (expr_of selector.value) (branches_of branches.items) (stmts_of otherwise.items) }
{
    Stmt::CaseElse {
        selector,
        branches,
        otherwise,
    }
}

pub fn try_node(body: Vec<Stmt>, rest: TryRest) -> Stmt
    ensures { stmt_of result ≡ try_of (stmts_of body.items) (rest_of rest) }
{
    match rest {
        TryRest::Finally(finalization) => Stmt::TryFinally { body, finalization },
        TryRest::Except(handler) => Stmt::TryExcept { body, handler },
        TryRest::On(handlers) => Stmt::TryOn { body, handlers },
        TryRest::OnElse(handlers, otherwise) => Stmt::TryOnElse {
            body,
            handlers,
            otherwise,
        },
    }
}

pub fn call_statement_node(callee: Designator) -> Stmt
    ensures { stmt_of result ≡ call (designator_of callee) }
{
    Stmt::Call(callee)
}

pub fn inherited_call_node(position: Position, callee: Designator) -> Stmt
    ensures { stmt_of result ≡ inherited_call position (designator_of callee) }
{
    Stmt::InheritedCall {
        position,
        call: callee,
    }
}

pub fn assign_node(target: Designator, position: Position, value: Box<Expr>) -> Stmt
    ensures { stmt_of result ≡ assign (designator_of target) position (expr_of value.value) }
{
    Stmt::Assign {
        target,
        position,
        value,
    }
}
