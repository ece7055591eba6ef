//! Calls as statements: those of the built-in procedures, and all others.
ghost use Rattle.std.specs.Prelude.{◌≡◌, IfOk};
ghost use Rattle.std.specs.Option.{option_and_then, option_copied, option_map};
ghost use Rattle.op_check_expr.specs.Scopes.{here_of};
ghost use Rattle.op_judgement.specs.Judgement.{Reports};
ghost use Rattle.op_check_stmt.specs.Procedure.{arguments_behind, call_means, called, called_behind, called_of, exit_means, halt_means, jump_means, plain_call, procedure, result_at, values_of};
ghost use Rattle.op_core.specs.Statement.{stmt_of};
ghost use Rattle.op_tree.specs.Expression.{selector_of, selectors};
ghost use Rattle.op_tree.specs.Lists.{arguments_of};
ghost use Rattle.op_tree.specs.Statement.{designator_of, selectors_of};
ghost use Rattle.op_types.specs.ConstantParts.{joined_name};
ghost use Rattle.op_types.specs.Names.{lower};

use crate::action::{change, count, unwritten, write};
use crate::given::{Given, values};
use crate::leaving::{Jump, in_finally, leaving};
use op_base::NoMemory;
use op_check_expr::{Checker, Done, position_of, put};
use op_core::{Core, CoreStmt, FirstRefusal, RoutineId, TypeId};
use op_judgement::{LanguageRule, refuse};
use op_tree::{Argument, Designator, Direction, Name, Root, Selector};
use op_types::{BuiltIn, Meaning, Visible};
use std::alloc::Global;

/// A built-in name, and what it is given.
#[derive(Clone, Copy)]
pub struct Called<'t> {
    pub which: BuiltIn,
    pub name: &'t Name,
    pub given: &'t [Argument],
}

/// Puts there a call as a statement.
#[inline(never)]
pub fn call(
    here: &Checker,
    sink: &mut FirstRefusal,
    d: &Designator,
    out: &mut Option<CoreStmt>,
) -> Done
    ensures { IfOk result (λ _. Reports (call_means (here_of here.now.scope) (designator_of d.now)) sink.old sink.new (option_map stmt_of out.new)) }
{
    let made = match built_in(here.alloc, here.scope.visible, d)? {
        None => plain_call(*here, sink, d)?,
        Some(c) => procedure(*here, sink, d, c)?,
    };
    put(out, made);
    Ok(())
}

/// A call that is no built-in procedure's.
fn plain_call(
    here: Checker,
    sink: &mut FirstRefusal,
    d: &Designator,
) -> Result<Option<CoreStmt>, NoMemory>
    ensures { IfOk result (λ t. Reports (plain_call (here_of here.entry.scope) (designator_of d.now)) sink.old sink.new (option_map stmt_of t)) }
{
    match here.alone(sink, d)? {
        None => Ok(None),
        Some(e) => Ok(Some(CoreStmt::Call(e))),
    }
}

fn procedure(
    here: Checker,
    sink: &mut FirstRefusal,
    d: &Designator,
    c: Called,
) -> Result<Option<CoreStmt>, NoMemory>
    ensures { IfOk result (λ t. Reports (procedure (here_of here.entry.scope) (designator_of d.now) c.entry.which (called_of c.entry)) sink.old sink.new (option_map stmt_of t)) }
{
    match c.which {
        BuiltIn::Write => write(here, sink, false, c.given),
        BuiltIn::WriteLn => write(here, sink, true, c.given),
        BuiltIn::Inc => count(here, sink, Direction::To, c.name, values(c.given)),
        BuiltIn::Dec => count(here, sink, Direction::Downto, c.name, values(c.given)),
        BuiltIn::Include => change(here, sink, true, c.name, values(c.given)),
        BuiltIn::Exclude => change(here, sink, false, c.name, values(c.given)),
        BuiltIn::Exit => exit(here, sink, c.name, values(c.given)),
        BuiltIn::Halt => halt(here, sink, c.name, values(c.given)),
        BuiltIn::Break => Ok(check_jump(here, sink, Jump::Break, c.name, values(c.given))),
        BuiltIn::Continue => Ok(check_jump(here, sink, Jump::Continue, c.name, values(c.given))),
        _ => plain_call(here, sink, d),
    }
}

/// The built-in name that is called, also behind the name of its unit.
fn built_in<'t>(
    alloc: Global,
    visible: &Visible,
    d: &'t Designator,
) -> Result<Option<Called<'t>>, NoMemory>
    ensures { IfOk result (λ c. option_map called_of c ≡ called visible.now (designator_of d.now)) }
{
    let Root::Named(name) = &d.root else {
        return Ok(None);
    };
    match visible.look_up(name.text.as_slice())? {
        Some(Meaning::Unit(_)) => match d.selectors.split_first() {
            Some((Selector::Member(member), others)) => {
                let key = joined(alloc, name, member)?;
                Ok(called_behind(member, others, visible.look_up(key.as_slice())?))
            }
            _ => Ok(None),
        },
        meaning => Ok(called_behind(name, &d.selectors, meaning)),
    }
}

/// A name behind the name of its unit.
fn joined(alloc: Global, unit: &Name, name: &Name) -> Result<Vec<u8>, NoMemory>
    ensures { IfOk result (λ v. lower v.items ≡ joined_name unit.now.text name.now.text) }
{
    let mut joined = Vec::from_slice(alloc, unit.text.as_slice())?;
    joined.push(b'.')?;
    joined.extend_from_slice(name.text.as_slice())?;
    Ok(joined)
}

fn called_behind<'t>(
    name: &'t Name,
    selectors: &'t [Selector],
    meaning: Option<&Meaning>,
) -> Option<Called<'t>>
    ensures { option_map called_of result ≡ called_behind name.now (selectors_of selectors.now) (option_copied meaning.entry) }
{
    match meaning {
        Some(Meaning::BuiltIn(which)) => match arguments_behind(selectors) {
            None => None,
            Some(given) => Some(Called {
                which: *which,
                name,
                given,
            }),
        },
        _ => None,
    }
}

/// The arguments of a name behind which nothing else is selected.
fn arguments_behind(selectors: &[Selector]) -> Option<&[Argument]>
    ensures { option_map (λ a. arguments_of a.now) result ≡ arguments_behind (selectors_of selectors.now) }
{
    match selectors.split_first() {
        None => Some(&[]),
        Some((first, others)) => arguments_alone(first, others),
    }
}

fn arguments_alone<'t>(first: &'t Selector, others: &[Selector]) -> Option<&'t [Argument]>
    ensures { option_map (λ a. arguments_of a.now) result ≡ arguments_behind (selectors (selector_of first.now) (selectors_of others.now)) }
{
    match first {
        Selector::Call { arguments } => match others.split_first() {
            None => Some(arguments),
            Some(_) => None,
        },
        _ => None,
    }
}

/// Exit, with what the routine gives if it gives anything: rule 26 where it gives nothing, 59 where a finally part would be left.
fn exit(
    here: Checker,
    sink: &mut FirstRefusal,
    name: &Name,
    values: Given,
) -> Result<Option<CoreStmt>, NoMemory>
    ensures { IfOk result (λ t. Reports (exit_means (here_of here.entry.scope) name.now (values_of values.entry)) sink.old sink.new (option_map stmt_of t)) }
{
    let place = name.position.place;
    let stays = in_finally(here.scope.around);
    match values {
        Given::Nothing => {
            if stays {
                return Ok(refuse(sink, LanguageRule::LeavesFinally, place));
            }
            Ok(Some(CoreStmt::Exit))
        }
        Given::One(e) => {
            let Some(of) = result_of(here.scope.core, here.scope.routine) else {
                return Ok(refuse(sink, LanguageRule::WrongArguments, place));
            };
            if stays {
                return Ok(refuse(sink, LanguageRule::LeavesFinally, place));
            }
            match here.given(sink, of, position_of(e).switches.r, e)? {
                None => Ok(None),
                Some(result) => Ok(Some(CoreStmt::ExitWith(result))),
            }
        }
        _ => Ok(refuse(sink, LanguageRule::WrongArguments, place)),
    }
}

/// The type of what the routine gives.
fn result_of(core: &Core, routine: Option<RoutineId>) -> Option<TypeId>
    ensures { result ≡ option_and_then (result_at core.now) routine }
{
    let id = routine?;
    core.routines.as_slice().get(id.0 as usize)?.result
}

/// Halt: the program ends with a status that is an Integer, or with 0.
fn halt(
    here: Checker,
    sink: &mut FirstRefusal,
    name: &Name,
    values: Given,
) -> Result<Option<CoreStmt>, NoMemory>
    ensures { IfOk result (λ t. Reports (halt_means (here_of here.entry.scope) name.now (values_of values.entry)) sink.old sink.new (option_map stmt_of t)) }
{
    match values {
        Given::Nothing => Ok(Some(CoreStmt::Halt(unwritten(here.alloc, 0)))),
        Given::One(e) => match here.given(sink, TypeId::INTEGER, false, e)? {
            None => Ok(None),
            Some(status) => Ok(Some(CoreStmt::Halt(status))),
        },
        _ => Ok(refuse(sink, LanguageRule::WrongArguments, name.position.place)),
    }
}

/// Break or Continue: rule 58 where there is no loop, 59 where a finally part would be left.
fn check_jump(
    here: Checker,
    sink: &mut FirstRefusal,
    jump: Jump,
    name: &Name,
    values: Given,
) -> Option<CoreStmt>
    ensures { Reports (jump_means (here_of here.entry.scope) jump name.now (values_of values.entry)) sink.old sink.new (option_map stmt_of result) }
{
    match values {
        Given::Nothing => leaving(sink, here.scope.around, name.position.place, jump),
        _ => refuse(sink, LanguageRule::WrongArguments, name.position.place),
    }
}
