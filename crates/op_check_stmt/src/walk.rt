//! Statements, part by part.
ghost use Rattle.std.specs.Prelude.{◌≡◌, [], ◌∷◌, ◌++◌, IfErr, IfOk};
ghost use Rattle.std.specs.Option.{option_map};
ghost use Rattle.op_check_expr.specs.Scopes.{here_of};
ghost use Rattle.op_check_expr.specs.Values.{value_of};
ghost use Rattle.op_check_expr.specs.declared.scope.Around.TheVariants.{Finally};
ghost use Rattle.op_judgement.specs.Judgement.{RefusalHasText, Reports, both_typed, refused};
ghost use Rattle.op_judgement.specs.declared.rules.Feature.TheVariants.{Exceptions};
ghost use Rattle.op_judgement.specs.declared.rules.LanguageRule.TheVariants.{NotInProfile};
ghost use Rattle.op_check_expr.specs.Parts.{Behind};
ghost use Rattle.op_check_stmt.specs.Case.{distinct};
ghost use Rattle.op_check_stmt.specs.Parts.{bounds_of, boxed_of, branches_in, front_of, head_of, statements_in};
ghost use Rattle.op_check_stmt.specs.Statement.{StmtIs, StmtMeans, all_spots, assign_means, bound_of, branches, case_head, condition, condition_means, excepted, first_class, looped, paired, place_of_handlers, statement, statements, stored, type_in, within as surrounded};
ghost use Rattle.op_core.specs.Expression.{expr_of as typed_of};
ghost use Rattle.op_core.specs.Statement.{stmt_of as typed_statement};
ghost use Rattle.op_tree.specs.Expression.{expr_of};
ghost use Rattle.op_tree.specs.Lists.{branches_of, handlers_of};
ghost use Rattle.op_tree.specs.Statement.{block, case_of, designator_of, for_to, if_then, repeat_until, stmt_of, stmts_of, while_do};

use crate::case::{Spot, branch_labels, check_selector, distinct};
use crate::leaving::within;
use crate::list::{begin, collect, fit};
use crate::node::{self, pair, paired_behind};
use crate::procedure::call;
use crate::unplaced::place_of_body;
use crate::variable::{Counter, check_counter};
use op_base::{NoMemory, Place};
use op_check_expr::{Around, Checker, Done, Scope, Value, as_type, put, type_of};
use op_core::{CheckError, CoreBranch, CoreExpr, CoreStmt, FirstRefusal, TypeId, VariableId};
use op_judgement::{Feature, LanguageRule, refuse};
use op_tree::{Branch, Designator, Direction, Expr, Handler, Name, Position, Stmt};
use op_types::{assignable, start_of};
use std::alloc::Global;

/// The typed statement, or the first rule that it breaks. A statement without a type in which no rule is broken names what another
/// rule was broken for: its answer is want of memory, which a checker of whole units never passes on.
pub fn stmt(alloc: Global, scope: &Scope, s: &Stmt) -> Result<CoreStmt, CheckError>
    ensures exact { StmtIs (statement (here_of scope.now) (stmt_of s.now)) result }
    ensures law { StmtMeans (statement (here_of scope.now) (stmt_of s.now)) result }
    ensures told { IfErr result RefusalHasText }
{
    let mut sink = FirstRefusal::new();
    let here = Checker {
        alloc,
        scope: *scope,
    };
    let mut typed = None;
    statement(&here, &mut sink, s, &mut typed)?;
    match typed {
        Some(typed) => sink.or_typed(typed),
        None => match sink.kept {
            Some(refusal) => Err(CheckError::Refused(refusal)),
            None => Err(CheckError::NoMemory),
        },
    }
}

/// Checks a statement and puts it there; the rules that it breaks go into the sink. What has parts is checked by a function of its own, and
/// what has a size is put in a place of the caller, so that a statement within others takes little of the stack.
#[inline(never)]
#[cycle(statements)]
pub fn statement(
    here: &Checker,
    sink: &mut FirstRefusal,
    s: &Stmt,
    out: &mut Option<CoreStmt>,
) -> Done
    ensures { IfOk result (λ _. Reports (statement (here_of here.now.scope) (stmt_of s.now)) sink.old sink.new (option_map typed_statement out.new)) }
{
    match s {
        Stmt::Empty => {
            node::empty(out);
            Ok(())
        }
        Stmt::Block(list) => block(here, sink, list, out),
        Stmt::If { condition, then } => if_then(here, sink, then, condition, out),
        Stmt::IfElse {
            condition,
            then,
            otherwise,
        } => {
            let mut front = None;
            let done = if_front(here, sink, then, condition, &mut front);
            let otherwise = boxed(here, sink, otherwise);
            node::if_else(done, front, otherwise, out)
        }
        Stmt::Case { selector, branches } => case_of(here, sink, branches, selector, out),
        Stmt::CaseElse {
            selector,
            branches,
            otherwise,
        } => {
            let (mut head, mut last) = (None, None);
            let done = case_head(here, sink, branches, selector, &mut head);
            let otherwise = statements(here, sink, otherwise, &mut last);
            node::case_of(here.alloc, (done, otherwise), head, last, out)
        }
        Stmt::While { condition, body } => while_do(here, sink, body, condition, out),
        Stmt::Repeat { body, condition } => repeat_until(here, sink, body, condition, out),
        Stmt::For {
            variable,
            first,
            direction,
            last,
            body,
        } => for_to(here, sink, body, variable, first, *direction, last, out),
        Stmt::ForIn { variable, .. } => {
            left_out(sink, Feature::DynamicArrays, variable.position.place, out);
            Ok(())
        }
        Stmt::TryFinally { body, finalization } => {
            let (mut first, mut last) = (None, None);
            let done = statements(here, sink, body, &mut first);
            let finally = finally_part(here, sink, finalization, &mut last);
            node::try_finally((done, finally), first, last, out)
        }
        Stmt::TryExcept { body, .. } => excepted(here, sink, body, None, out),
        Stmt::TryOn { body, handlers } => match first_class(handlers) {
            None => block(here, sink, body, out),
            Some(place) => excepted(here, sink, body, Some(place), out),
        },
        Stmt::TryOnElse { body, handlers, .. } => {
            excepted(here, sink, body, first_class(handlers), out)
        }
        Stmt::Raise { position, .. } | Stmt::Reraise { position } => {
            left_out(sink, Feature::Exceptions, position.place, out);
            Ok(())
        }
        Stmt::Inherited { position } | Stmt::InheritedCall { position, .. } => {
            left_out(sink, Feature::Classes, position.place, out);
            Ok(())
        }
        Stmt::Call(called) => call(here, sink, called, out),
        Stmt::Assign {
            target,
            position,
            value,
        } => assignment(here, sink, target, *position, value, out),
    }
}

/// Checks statements, one after the other, and puts them there.
#[inline(never)]
#[cycle(statements)]
pub fn statements(
    here: &Checker,
    sink: &mut FirstRefusal,
    list: &[Stmt],
    out: &mut Option<Vec<CoreStmt>>,
) -> Done
    ensures { IfOk result (λ _. Reports (statements (here_of here.now.scope) (stmts_of list.now)) sink.old sink.new (statements_in out.new)) }
{
    begin(here.alloc, out);
    for s in list {
        let mut part = None;
        let done = statement(here, sink, s, &mut part);
        collect(out, done, part)?;
    }
    fit(out);
    Ok(())
}

/// Handlers that are left out, at a place behind a body.
#[inline(never)]
fn handlers_left_out(
    sink: &mut FirstRefusal,
    place: Place,
    done: Done,
    _body: Option<Vec<CoreStmt>>,
    out: &mut Option<CoreStmt>,
) -> Done
    ensures { IfOk result (λ _. Behind done (Reports (refused (NotInProfile Exceptions) place) sink.old sink.new (option_map typed_statement out.new))) }
{
    done?;
    left_out(sink, Feature::Exceptions, place, out);
    Ok(())
}

/// A statement that is left out.
#[inline(never)]
fn left_out(sink: &mut FirstRefusal, feature: Feature, place: Place, out: &mut Option<CoreStmt>)
    ensures { Reports (refused (NotInProfile feature) place) sink.old sink.new (option_map typed_statement out.new) }
{
    put(
        out,
        refuse(sink, LanguageRule::NotInProfile(feature), place),
    );
}

#[inline(never)]
#[cycle(statements)]
fn block(here: &Checker, sink: &mut FirstRefusal, list: &[Stmt], out: &mut Option<CoreStmt>) -> Done
    ensures { IfOk result (λ _. Reports (statement (here_of here.now.scope) (block (stmts_of list.now))) sink.old sink.new (option_map typed_statement out.new)) }
{
    let mut typed = None;
    let done = statements(here, sink, list, &mut typed);
    node::block(done, typed, out)
}

#[inline(never)]
#[cycle(statements)]
fn if_then(
    here: &Checker,
    sink: &mut FirstRefusal,
    then: &Stmt,
    e: &Expr,
    out: &mut Option<CoreStmt>,
) -> Done
    ensures { IfOk result (λ _. Reports (statement (here_of here.now.scope) (if_then (expr_of e.now) (stmt_of then.now))) sink.old sink.new (option_map typed_statement out.new)) }
{
    let mut condition = None;
    let done = check_condition(here, sink, e, &mut condition);
    let then = boxed(here, sink, then);
    node::if_then(done, condition, then, out)
}

/// The condition of an `if` with `else`, and what stands in front of the `else`.
#[inline(never)]
#[cycle(statements)]
fn if_front(
    here: &Checker,
    sink: &mut FirstRefusal,
    then: &Stmt,
    e: &Expr,
    out: &mut Option<(CoreExpr, Box<CoreStmt>)>,
) -> Done
    ensures { IfOk result (λ _. Reports (paired (condition (here_of here.now.scope) (expr_of e.now)) (statement (here_of here.now.scope) (stmt_of then.now))) sink.old sink.new (option_map front_of out.new)) }
{
    let mut condition = None;
    let done = check_condition(here, sink, e, &mut condition);
    let then = boxed(here, sink, then);
    node::front(done, condition, then, out)
}

#[inline(never)]
#[cycle(statements)]
fn case_of(
    here: &Checker,
    sink: &mut FirstRefusal,
    list: &[Branch],
    e: &Expr,
    out: &mut Option<CoreStmt>,
) -> Done
    ensures { IfOk result (λ _. Reports (statement (here_of here.now.scope) (case_of (expr_of e.now) (branches_of list.now))) sink.old sink.new (option_map typed_statement out.new)) }
{
    let mut head = None;
    let done = case_head(here, sink, list, e, &mut head);
    node::case_of(
        here.alloc,
        (done, Ok(())),
        head,
        Some(Vec::new(here.alloc)),
        out,
    )
}

#[inline(never)]
#[cycle(statements)]
fn while_do(
    here: &Checker,
    sink: &mut FirstRefusal,
    body: &Stmt,
    e: &Expr,
    out: &mut Option<CoreStmt>,
) -> Done
    ensures { IfOk result (λ _. Reports (statement (here_of here.now.scope) (while_do (expr_of e.now) (stmt_of body.now))) sink.old sink.new (option_map typed_statement out.new)) }
{
    let mut condition = None;
    let done = check_condition(here, sink, e, &mut condition);
    let body = loop_body(here, sink, None, body);
    node::while_do(done, condition, body, out)
}

#[inline(never)]
#[cycle(statements)]
fn repeat_until(
    here: &Checker,
    sink: &mut FirstRefusal,
    body: &[Stmt],
    e: &Expr,
    out: &mut Option<CoreStmt>,
) -> Done
    ensures { IfOk result (λ _. Reports (statement (here_of here.now.scope) (repeat_until (stmts_of body.now) (expr_of e.now))) sink.old sink.new (option_map typed_statement out.new)) }
{
    let around = within(here.alloc, here.scope.around, Around::Loop(None))?;
    let (mut typed, mut condition) = (None, None);
    let done = statements(&inside(*here, around.as_slice()), sink, body, &mut typed);
    let tested = check_condition(here, sink, e, &mut condition);
    node::repeat_until(here.alloc, (done, tested), typed, condition, out)
}

#[inline(never)]
#[cycle(statements)]
fn for_to(
    here: &Checker,
    sink: &mut FirstRefusal,
    body: &Stmt,
    variable: &Name,
    first: &Expr,
    direction: Direction,
    last: &Expr,
    out: &mut Option<CoreStmt>,
) -> Done
    ensures { IfOk result (λ _. Reports (statement (here_of here.now.scope) (for_to variable.now (expr_of first.now) direction (expr_of last.now) (stmt_of body.now))) sink.old sink.new (option_map typed_statement out.new)) }
{
    let counter = check_counter(*here, sink, variable)?;
    node::for_to(
        here.alloc,
        direction,
        counter,
        bounds(here, sink, counter, first, last),
        loop_body(here, sink, variable_of(counter), body),
        out,
    )
}

/// What stands behind `finally`.
#[inline(never)]
#[cycle(statements)]
fn finally_part(
    here: &Checker,
    sink: &mut FirstRefusal,
    list: &[Stmt],
    out: &mut Option<Vec<CoreStmt>>,
) -> Done
    ensures { IfOk result (λ _. Reports (statements (surrounded (here_of here.now.scope) Finally) (stmts_of list.now)) sink.old sink.new (statements_in out.new)) }
{
    let around = within(here.alloc, here.scope.around, Around::Finally)?;
    statements(&inside(*here, around.as_slice()), sink, list, out)
}

/// What stands behind a body that may raise exceptions is left out: it is refused at this class, where there is one.
#[inline(never)]
#[cycle(statements)]
fn excepted(
    here: &Checker,
    sink: &mut FirstRefusal,
    body: &[Stmt],
    class: Option<Place>,
    out: &mut Option<CoreStmt>,
) -> Done
    ensures { IfOk result (λ _. Reports (excepted (place_of_handlers (here_of here.now.scope) class) (statements (here_of here.now.scope) (stmts_of body.now))) sink.old sink.new (option_map typed_statement out.new)) }
{
    let mut typed = None;
    let done = statements(here, sink, body, &mut typed);
    handlers_left_out(sink, place_of_handlers(*here, class), done, typed, out)
}

/// A part that is a statement.
#[inline(never)]
#[cycle(statements)]
fn boxed(
    here: &Checker,
    sink: &mut FirstRefusal,
    s: &Stmt,
) -> Result<Option<Box<CoreStmt>>, NoMemory>
    ensures { IfOk result (λ t. Reports (statement (here_of here.now.scope) (stmt_of s.now)) sink.old sink.new (option_map boxed_of t)) }
{
    let mut typed = None;
    let done = statement(here, sink, s, &mut typed);
    node::boxed(here.alloc, done, typed)
}

/// The body of a loop, of a `for` with its variable.
#[inline(never)]
#[cycle(statements)]
fn loop_body(
    here: &Checker,
    sink: &mut FirstRefusal,
    counter: Option<VariableId>,
    s: &Stmt,
) -> Result<Option<Box<CoreStmt>>, NoMemory>
    ensures { IfOk result (λ t. Reports (statement (looped (here_of here.now.scope) counter) (stmt_of s.now)) sink.old sink.new (option_map boxed_of t)) }
{
    let around = within(here.alloc, here.scope.around, Around::Loop(counter))?;
    let mut typed = None;
    let done = statement(&inside(*here, around.as_slice()), sink, s, &mut typed);
    node::boxed(here.alloc, done, typed)
}

/// The selector and the branches of a case.
#[inline(never)]
#[cycle(statements)]
fn case_head(
    here: &Checker,
    sink: &mut FirstRefusal,
    list: &[Branch],
    e: &Expr,
    out: &mut Option<(CoreExpr, Vec<CoreBranch>)>,
) -> Done
    ensures { IfOk result (λ _. Reports (case_head (here_of here.now.scope) (expr_of e.now) (branches_of list.now) (λ of. branches (here_of here.now.scope) of (branches_of list.now))) sink.old sink.new (option_map head_of out.new)) }
{
    let (mut selector, mut typed) = (None, None);
    let mut spots = Vec::new(here.alloc);
    let tested = check_selector(here, sink, e, &mut selector);
    let of = type_in(&selector);
    let done = branches(here, sink, list, &mut spots, of, &mut typed);
    head(
        here.alloc,
        sink,
        spots,
        (tested, done),
        selector,
        typed,
        out,
    )
}

/// The branches of a case, where the selector has this type. Their labels go behind the others of the case.
#[inline(never)]
#[cycle(statements)]
fn branches(
    here: &Checker,
    sink: &mut FirstRefusal,
    list: &[Branch],
    spots: &mut Vec<Spot>,
    of: Option<TypeId>,
    out: &mut Option<Vec<CoreBranch>>,
) -> Done
    ensures reports { IfOk result (λ _. Reports (branches (here_of here.now.scope) of (branches_of list.now)) sink.old sink.new (branches_in out.new)) }
    ensures notes { IfOk result (λ _. spots.new.items ≡ spots.old.items ++ all_spots (here_of here.now.scope) of (branches_of list.now)) }
{
    begin(here.alloc, out);
    for branch in list {
        let mut body = None;
        let labels = branch_labels(*here, sink, spots, of, &branch.labels);
        let done = statement(here, sink, &branch.body, &mut body);
        let mut part = None;
        let made = node::branch(labels, done, body, &mut part);
        collect(out, made, part)?;
    }
    fit(out);
    Ok(())
}

/// Puts there the selector and the branches of a case with these labels.
#[inline(never)]
fn head(
    alloc: Global,
    sink: &mut FirstRefusal,
    spots: Vec<Spot>,
    done: (Done, Done),
    selector: Option<CoreExpr>,
    branches: Option<Vec<CoreBranch>>,
    out: &mut Option<(CoreExpr, Vec<CoreBranch>)>,
) -> Done
    ensures { IfOk result (λ _. Behind done.0 (Behind done.1 (Reports (distinct (both_typed (λ a b. (a, b)) selector branches) spots.items) sink.old sink.new out.new))) }
{
    let parts = paired_behind(done, selector, branches)?;
    let made = distinct(alloc, sink, spots.as_slice(), parts)?;
    put(out, made);
    Ok(())
}

/// The same place, with these parts round it.
fn inside<'a>(here: Checker<'a>, around: &'a [Around]) -> Checker<'a>
    ensures { here_of result.scope ≡ record (here_of here.entry.scope) { around = around.now } }
{
    Checker {
        alloc: here.alloc,
        scope: Scope {
            core: here.scope.core,
            visible: here.scope.visible,
            routine: here.scope.routine,
            around,
        },
    }
}

fn variable_of(counter: Option<Counter>) -> Option<VariableId>
    ensures { result ≡ option_map (λ c. c.variable) counter }
{
    match counter {
        None => None,
        Some(counter) => Some(counter.variable),
    }
}

fn type_in(e: &Option<CoreExpr>) -> Option<TypeId>
    ensures { result ≡ type_in (option_map typed_of e.now) }
{
    match e {
        None => None,
        Some(e) => Some(type_of(e)),
    }
}

/// Where handlers are left out: at the first one's class, if there is one.
#[inline(never)]
fn place_of_handlers(here: Checker, class: Option<Place>) -> Place
    ensures { result ≡ place_of_handlers (here_of here.entry.scope) class }
{
    match class {
        None => place_of_body(here),
        Some(place) => place,
    }
}

/// Where the first handler's class stands. Handlers of exceptions are left out.
fn first_class(handlers: &[Handler]) -> Option<Place>
    ensures { result ≡ first_class (handlers_of handlers.now) }
{
    match handlers.split_first() {
        None => None,
        Some((first, _)) => Some(first.class.name.position.place),
    }
}

/// What is tested: rule 22 where it is no Boolean.
#[inline(never)]
fn check_condition(
    here: &Checker,
    sink: &mut FirstRefusal,
    e: &Expr,
    out: &mut Option<CoreExpr>,
) -> Done
    ensures { IfOk result (λ _. Reports (condition (here_of here.now.scope) (expr_of e.now)) sink.old sink.new (option_map typed_of out.new)) }
{
    let made = match here.value(sink, None, e)? {
        None => None,
        Some(value) => tested(here, sink, start_of(e), value)?,
    };
    put(out, made);
    Ok(())
}

fn tested(
    here: &Checker,
    sink: &mut FirstRefusal,
    place: Place,
    value: Value,
) -> Result<Option<CoreExpr>, NoMemory>
    ensures { IfOk result (λ t. Reports (condition_means here.now.scope.core.now place (value_of value)) sink.old sink.new (option_map typed_of t)) }
{
    let core = here.scope.core;
    if assignable(core, value.type_of(), TypeId::BOOLEAN) {
        Ok(Some(as_type(here.alloc, core, false, TypeId::BOOLEAN, value)?))
    } else {
        Ok(refuse(sink, LanguageRule::NotBoolean, place))
    }
}

/// A value that is stored in what has this type, where there is one. `checked` is whether ranges are.
fn stored(
    here: &Checker,
    sink: &mut FirstRefusal,
    of: Option<TypeId>,
    checked: bool,
    e: &Expr,
) -> Result<Option<CoreExpr>, NoMemory>
    ensures { IfOk result (λ t. Reports (stored (here_of here.now.scope) of checked (expr_of e.now)) sink.old sink.new (option_map typed_of t)) }
{
    match of {
        Some(of) => here.given(sink, of, checked, e),
        None => match here.value(sink, None, e)? {
            None => Ok(None),
            Some(value) => Ok(Some(value.into_tree(here.alloc))),
        },
    }
}

/// The bounds of a `for`.
#[inline(never)]
fn bounds(
    here: &Checker,
    sink: &mut FirstRefusal,
    counter: Option<Counter>,
    first: &Expr,
    last: &Expr,
) -> Result<Option<(CoreExpr, CoreExpr)>, NoMemory>
    ensures { IfOk result (λ t. Reports (paired (bound_of (here_of here.now.scope) counter (expr_of first.now)) (bound_of (here_of here.now.scope) counter (expr_of last.now))) sink.old sink.new (option_map bounds_of t)) }
{
    let of = match counter {
        None => None,
        Some(counter) => Some(counter.bounds),
    };
    let first = stored(here, sink, of, false, first)?;
    let last = stored(here, sink, of, false, last)?;
    Ok(pair(first, last))
}

/// An assignment, with the position of its `:=`, whose switch R tells whether ranges are checked.
#[inline(never)]
fn assignment(
    here: &Checker,
    sink: &mut FirstRefusal,
    target: &Designator,
    position: Position,
    value: &Expr,
    out: &mut Option<CoreStmt>,
) -> Done
    ensures { IfOk result (λ _. Reports (assign_means (here_of here.now.scope) (designator_of target.now) position (expr_of value.now)) sink.old sink.new (option_map typed_statement out.new)) }
{
    let target = here.target(sink, target)?;
    let of = type_in(&target);
    let value = stored(here, sink, of, position.switches.r, value)?;
    let made = node::assign(here.alloc, pair(target, value))?;
    put(out, made);
    Ok(())
}
