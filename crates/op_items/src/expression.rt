//! Expressions. Operands are evaluated from the left to the right; the value of an expression goes to the first temporary that is
//! free, or stays in its place where only a part of it is looked at ("Expressions" of the Free Pascal Reference Guide).
ghost use Rattle.std.specs.Prelude.{◌≡◌, IfOk};
ghost use Rattle.op_core.specs.Expression.{action_of, argument_of, element_of, expr_of, place, root_of};
ghost use Rattle.op_core.specs.Nodes.{arguments_of, elements_of};
ghost use Rattle.op_core.specs.Sizes.{type_at};
ghost use Rattle.op_items.specs.Adding.{Adds, Gives, Passes, PassesAll, env_view, found_view, two_on};
ghost use Rattle.op_items.specs.Setting.{here_view};
ghost use Rattle.op_meaning.specs.Expressions.{find, find_root, find_step, gather, gather_one, make, pass, pass_one};

use crate::found::{Found, path_of};
use crate::item::Item;
use crate::operation::goes_on_at;
use crate::path::whole_path;
use crate::setting::{Here, Setting};
use crate::shape::type_of;
use op_base::NoMemory;
use op_core::{Action, CoreArgument, CoreElement, CoreExpr, Root, TypeId, type_at};
use op_mir::{Computation, Given};
use op_tree::Operator;

/// What an argument gives to its parameter, and how many temporaries it keeps until the call.
#[derive(Drop)]
pub struct Passed {
    pub given: Given,
    pub used: u32,
}

/// The value, or the place where it is.
#[cycle(expression)]
pub fn find(
    setting: Setting,
    here: Here,
    e: &CoreExpr,
    items: &mut Vec<Item>,
) -> Result<Found, NoMemory>
    ensures { IfOk result (λ f. Gives setting.entry items.old.items items.new.items f (find (env_view setting.entry) (here_view here) (expr_of e.now))) }
{
    let mut of = e.of;
    let mut found = root(setting, here, of, &e.root, items)?;
    for each in &e.steps {
        found = step(setting, here, of, &each.action, each.of, found, items)?;
        of = each.of;
    }
    Ok(found)
}

/// The value, in a temporary of its own.
#[cycle(expression)]
pub fn make(
    setting: Setting,
    here: Here,
    e: &CoreExpr,
    items: &mut Vec<Item>,
) -> Result<(), NoMemory>
    ensures { IfOk result (λ _. Adds setting.entry items.old.items items.new.items (make (env_view setting.entry) (here_view here) (expr_of e.now)).items) }
{
    let found = find(setting, here, e, items)?;
    setting.make(items, type_of(e), here, found)
}

#[cycle(expression)]
fn root(
    setting: Setting,
    here: Here,
    of: TypeId,
    root: &Root,
    items: &mut Vec<Item>,
) -> Result<Found, NoMemory>
    ensures { IfOk result (λ f. Gives setting.entry items.old.items items.new.items f (find_root (env_view setting.entry) (here_view here) of (root_of root.now))) }
{
    match root {
        Root::Constant { value, .. } => setting.constant(items, here, value),
        Root::Variable(id) => Ok(Found::at(setting.variable(*id))),
        Root::Object(id) => Ok(Found::at(setting.variable(*id))),
        Root::Call { routine, arguments } => {
            let given = pass(setting, here.past_whole()?, arguments, items)?;
            setting.enter(items, here, *routine, given)?;
            Ok(Found::ready())
        }
        Root::Construct {
            class,
            constructor,
            arguments,
        } => {
            let given = pass(setting, here.past_whole()?, arguments, items)?;
            setting.construct(items, of, here, *class, *constructor, given)?;
            Ok(Found::ready())
        }
        Root::Set(elements) => {
            setting.number(items, here.first(), 0)?;
            gather(setting, here, elements, items)?;
            Ok(Found::ready())
        }
        Root::Eof => Ok(Found::ready()),
        Root::Eoln => Ok(Found::ready()),
    }
}

/// What is so far has the first type, what comes out the second one.
#[cycle(expression)]
fn step(
    setting: Setting,
    here: Here,
    of: TypeId,
    action: &Action,
    to: TypeId,
    found: Found,
    items: &mut Vec<Item>,
) -> Result<Found, NoMemory>
    ensures { IfOk result (λ f. Gives setting.entry items.old.items items.new.items f (find_step (env_view setting.entry) (here_view here) of (action_of action.now) to (found_view found))) }
{
    match action {
        Action::Convert { conversion, .. } => {
            let found = setting.own(items, of, here, found)?;
            setting.convert(items, *conversion, to, here.first())?;
            Ok(found)
        }
        Action::Bracket => setting.own(items, of, here, found),
        Action::Field(id) => setting.field(of, here, *id, found),
        Action::Index(at) => {
            make(setting, here.past_whole()?.past(found.used)?, at, items)?;
            setting.indexed(items, of, here, found)
        }
        Action::Prefix { operator, checked } => {
            let found = setting.own(items, of, here, found)?;
            let of = type_at(setting.core, of);
            setting.prefix(items, *operator, *checked, of, here.first())?;
            Ok(found)
        }
        Action::Operate {
            operator,
            checked,
            operand,
        } => {
            setting.make(items, of, here, found)?;
            second(setting, here, of, *operator, *checked, operand, items)
        }
        Action::Apply { function, checked } => setting.apply(
            items, *function, *checked, of, here, found,
        ),
        Action::Call { .. } => Ok(found),
        Action::Is(_) => Ok(found),
        Action::Copy { .. } => Ok(found),
    }
}

/// An operator behind its left operand, which is of the type.
#[cycle(expression)]
fn second(
    setting: Setting,
    here: Here,
    of: TypeId,
    operator: Operator,
    checked: bool,
    operand: &CoreExpr,
    items: &mut Vec<Item>,
) -> Result<Found, NoMemory>
    ensures { IfOk result (λ f. Gives setting.entry items.old.items items.new.items f (two_on (env_view setting.entry) (here_view here) operator checked (type_at setting.entry.core.now of) (expr_of operand.now))) }
{
    let of = type_at(setting.core, of);
    match goes_on_at(operator, of) {
        None => {
            make(setting, here.past(1)?, operand, items)?;
            setting.operate(items, operator, checked, of, here.first())?;
            Ok(Found::ready())
        }
        Some(truth) => {
            let mut second = Vec::new(setting.alloc);
            make(setting, here, operand, &mut second)?;
            setting.also(items, truth, here.first(), second)?;
            Ok(Found::ready())
        }
    }
}

/// The elements of a set constructor are joined one after the other ("Set Constructors").
#[cycle(expression)]
fn gather(
    setting: Setting,
    here: Here,
    elements: &[CoreElement],
    items: &mut Vec<Item>,
) -> Result<(), NoMemory>
    ensures { IfOk result (λ _. Adds setting.entry items.old.items items.new.items (gather (env_view setting.entry) (here_view here) (elements_of elements.now))) }
{
    let to = here.first();
    for each in elements {
        gather_one(setting, here, each, items)?;
        let right = here.behind(1)?;
        setting.compute(
            items,
            Computation::Combine {
                operator: Operator::Add,
                to,
                left: to,
                right,
            },
        )?;
    }
    Ok(())
}

/// The set of an element goes behind the one so far.
#[cycle(expression)]
fn gather_one(
    setting: Setting,
    here: Here,
    element: &CoreElement,
    items: &mut Vec<Item>,
) -> Result<(), NoMemory>
    ensures { IfOk result (λ _. Adds setting.entry items.old.items items.new.items (gather_one (env_view setting.entry) (here_view here) (element_of element.now))) }
{
    let to = here.behind(1)?;
    match element {
        CoreElement::One(value) => {
            make(setting, here.past(1)?, value, items)?;
            setting.compute(items, Computation::Single { to, from: to })
        }
        CoreElement::Range(first, last) => {
            make(setting, here.past(1)?, first, items)?;
            make(setting, here.past(2)?, last, items)?;
            let last = here.behind(2)?;
            setting.compute(
                items,
                Computation::Span {
                    to,
                    first: to,
                    last,
                },
            )
        }
    }
}

/// Arguments are evaluated from the left to the right; the paths of places are followed by the call ("Parameter lists").
#[cycle(expression)]
fn pass(
    setting: Setting,
    here: Here,
    arguments: &[CoreArgument],
    items: &mut Vec<Item>,
) -> Result<Vec<Given>, NoMemory>
    ensures { IfOk result (λ given. PassesAll setting.entry items.old.items items.new.items given (pass (env_view setting.entry) (here_view here) (arguments_of arguments.now))) }
{
    let mut here = here;
    let mut given = Vec::new(setting.alloc);
    for each in arguments {
        let passed = pass_one(setting, here, each, items)?;
        given.push(passed.given)?;
        here = here.past_whole()?.past(passed.used)?;
    }
    Ok(given)
}

#[cycle(expression)]
fn pass_one(
    setting: Setting,
    here: Here,
    argument: &CoreArgument,
    items: &mut Vec<Item>,
) -> Result<Passed, NoMemory>
    ensures { IfOk result (λ p. Passes setting.entry items.old.items items.new.items p (pass_one (env_view setting.entry) (here_view here) (argument_of argument.now))) }
{
    match argument {
        CoreArgument::Value(value) => {
            make(setting, here, value, items)?;
            let given = setting.given(type_of(value), here);
            Ok(Passed { given, used: 1 })
        }
        CoreArgument::Place(place) => pass_place(setting, here, place, items),
        CoreArgument::Array(array) => pass_place(setting, here, array, items),
        CoreArgument::Elements { of, .. } => {
            let path = whole_path(setting.alloc, *of, here);
            let given = Given::ByCopy { of: *of, path };
            Ok(Passed { given, used: 0 })
        }
    }
}

/// The place itself is given.
#[cycle(expression)]
fn pass_place(
    setting: Setting,
    here: Here,
    e: &CoreExpr,
    items: &mut Vec<Item>,
) -> Result<Passed, NoMemory>
    ensures { IfOk result (λ p. Passes setting.entry items.old.items items.new.items p (pass_one (env_view setting.entry) (here_view here) (place (expr_of e.now)))) }
{
    let Found { now, used } = find(setting, here, e, items)?;
    let path = path_of(setting.alloc, type_of(e), here, now);
    let given = Given::ByPlace { path };
    Ok(Passed { given, used })
}
