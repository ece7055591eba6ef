//! The statement `case` and its branches.
ghost use Rattle.std.specs.Prelude.{◌≡◌, ◌≤◌, IfOk, IfErr, length};
ghost use Rattle.op_parse_code.specs.Refusal.{Refuses};
ghost use Rattle.op_parse_code.specs.WholeStatement.{Behind, SomeBranches, front_is};
ghost use Rattle.op_scan.specs.declared.token.TokenKind.TheVariants.{Case};
ghost use Rattle.op_tree.proofs.StatementUnique.{ends_list};
ghost use Rattle.op_tree.specs.Lists.{branches_of};
ghost use Rattle.op_tree.specs.Statement.{stmt_of};
ghost use Rattle.op_tree.specs.Terminal.{terminals};

use crate::ParseError;
use crate::chain::boxed_expression;
use crate::compound::{statement_at, statements};
use crate::error::syntax;
use crate::list::elements;
use crate::mark::{Mark, after_mark, behind_mark};
use crate::nodes::fitted;
use crate::statement_nodes::{case_else_node, case_node};
use op_base::Place;
use op_scan::{Token, TokenKind};
use op_tree::{Branch, Position, Stmt};
use std::alloc::Global;

/// What stands behind `case`.
#[cycle(statement)]
#[inline(never)]
pub fn case_statement<'a>(
    alloc: Global,
    position: Position,
    left: u32,
    end: Place,
    tokens: &'a [Token],
) -> Result<(Stmt, &'a [Token]), ParseError>
    ensures whole { IfOk result (λ f. Behind Case position left (stmt_of f.0) (terminals tokens.now) (terminals f.1.now)) }
    ensures refused { IfErr result (Refuses (Behind Case position) left end (terminals tokens.now)) }
    ensures shorter { IfOk result (λ f. length f.1.now ≤ length tokens.now) }
{
    let (selector, rest) = boxed_expression(alloc, left, end, tokens)?;
    let rest = after_mark(Mark::Of, end, rest)?;
    let (branches, rest) = branches(alloc, left, end, rest)?;
    match behind_mark(Mark::Else_, rest) {
        None => {
            let rest = after_mark(Mark::End, end, rest)?;
            Ok((case_node(selector, branches), rest))
        }
        Some(after) => {
            let (otherwise, rest) = statements(alloc, left, end, after)?;
            let rest = after_mark(Mark::End, end, rest)?;
            Ok((case_else_node(selector, branches, otherwise), rest))
        }
    }
}

/// Branches, up to `end` or `else`. The last semicolon may be missing.
#[cycle(statement)]
#[inline(never)]
fn branches<'a>(
    alloc: Global,
    left: u32,
    end: Place,
    tokens: &'a [Token],
) -> Result<(Vec<Branch>, &'a [Token]), ParseError>
    ensures whole { IfOk result (λ f. SomeBranches left (branches_of f.0.items) (terminals tokens.now) (terminals f.1.now)) }
    ensures refused { IfErr result (Refuses SomeBranches left end (terminals tokens.now)) }
    ensures shorter { IfOk result (λ f. length f.1.now ≤ length tokens.now) }
{
    let mut branches = Vec::new(alloc);
    let mut rest = tokens;
    loop {
        if ends_list(rest) {
            return Ok((fitted(branches), rest));
        }
        let mut labels = Vec::new(alloc);
        let after = elements(alloc, Mark::Colon, left, end, &mut labels, rest)?;
        let (body, behind) = statement_at(alloc, left, end, after)?;
        let labels = fitted(labels);
        branches.push(Branch { labels, body })?;
        match behind_mark(Mark::Semicolon, behind) {
            Some(after) => rest = after,
            None => {
                if ends_list(behind) {
                    return Ok((fitted(branches), behind));
                }
                return Err(syntax(end, behind));
            }
        }
    }
}

/// The tokens begin with `end` or `else`.
pub fn ends_list(tokens: &[Token]) -> bool
    ensures { result ≡ front_is ends_list (terminals tokens.now) }
{
    match tokens.split_first() {
        Some((first, _)) => matches!(first.kind, TokenKind::End | TokenKind::Else_),
        None => false,
    }
}
