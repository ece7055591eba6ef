//! The test of expressions.
ghost use Rattle.std.specs.Prelude.{◌≡◌, true, false};
ghost use Rattle.op_core.specs.Expression.{action_of, argument_of, element_of, expr_of, root_of};
ghost use Rattle.op_core.specs.Nodes.{arguments_of, elements_of, steps_of};
ghost use Rattle.op_meaning.specs.Every.{is_text, text_after};
ghost use Rattle.op_plain.specs.Plain.{are_apart, are_plain_arguments, are_plain_elements, is_plain_argument, is_plain_element, is_plain_expression, is_plain_root, is_plain_step, is_short};
ghost use Rattle.op_sizes.specs.Written.{is_implied};
ghost use Rattle.op_typing.specs.SimpleTests.{is_short_text};

use crate::types::{asks_text, is_plain_constant, is_solid_type};
use op_core::{
    Action, Const, Core, CoreArgument, CoreElement, CoreExpr, Origin, Root, Step, TypeId,
};

#[cycle(expression)]
pub fn is_plain_expression(core: &Core, e: &CoreExpr) -> bool
    ensures texts { result ≡ is_plain_expression is_short_text core.now (expr_of e.now) }
    ensures lengths { result ≡ is_plain_expression is_short core.now (expr_of e.now) }
{
    if !is_plain_root(core, &e.root, e.of) {
        return false;
    }
    if !are_apart(&e.steps) {
        return false;
    }
    let mut text = is_text(&e.root);
    for each in &e.steps {
        if !is_plain_step(core, text, &each.action, each.of) {
            return false;
        }
        text = text_after(text, &each.action);
    }
    true
}

/// A constant stands for a node of the text at least.
#[cycle(expression)]
pub fn is_plain_root(core: &Core, root: &Root, of: TypeId) -> bool
    ensures texts { result ≡ is_plain_root is_short_text core.now (root_of root.now) of }
    ensures lengths { result ≡ is_plain_root is_short core.now (root_of root.now) of }
{
    match root {
        Root::Constant { value, nodes, .. } => 0 < *nodes && is_plain_constant(core, value, of),
        Root::Variable(_) => is_solid_type(core, of),
        Root::Object(_) => false,
        Root::Call { arguments, .. } => {
            is_solid_type(core, of) && are_plain_arguments(core, arguments)
        }
        Root::Construct { .. } => false,
        Root::Set(elements) => is_solid_type(core, of) && are_plain_elements(core, elements),
        Root::Eof => false,
        Root::Eoln => false,
    }
}

/// Whether no conversion that is not written stands behind another one.
fn are_apart(steps: &[Step]) -> bool
    ensures { result ≡ are_apart false (steps_of steps.now) }
{
    let mut implied = false;
    for each in steps {
        let here = is_implied(&each.action);
        if implied && here {
            return false;
        }
        implied = here;
    }
    true
}

/// Whether it is a conversion that is not written.
fn is_implied(action: &Action) -> bool
    ensures { result ≡ is_implied (action_of action.now) }
{
    match action {
        Action::Convert {
            origin: Origin::Implied,
            ..
        } => true,
        _ => false,
    }
}

/// Whether it is a text that is written in the program.
fn is_text(root: &Root) -> bool
    ensures { result ≡ is_text (root_of root.now) }
{
    match root {
        Root::Constant {
            value: Const::Text(_),
            ..
        } => true,
        _ => false,
    }
}

/// Whether what comes out of a step is still a text that is written there.
fn text_after(text: bool, action: &Action) -> bool
    ensures { result ≡ text_after text (action_of action.now) }
{
    match action {
        Action::Bracket => text,
        _ => false,
    }
}

/// `text` tells whether the step is behind a text that is written there; `next` is the type of what comes out.
#[cycle(expression)]
fn is_plain_step(core: &Core, text: bool, action: &Action, next: TypeId) -> bool
    ensures texts { result ≡ is_plain_step is_short_text core.now text (action_of action.now) next }
    ensures lengths { result ≡ is_plain_step is_short core.now text (action_of action.now) next }
{
    if text {
        is_plain_behind_text(core, action, next)
    } else {
        is_plain_behind_value(core, action, next)
    }
}

#[cycle(expression)]
fn is_plain_behind_text(core: &Core, action: &Action, next: TypeId) -> bool
    ensures texts { result ≡ is_plain_step is_short_text core.now true (action_of action.now) next }
    ensures lengths { result ≡ is_plain_step is_short core.now true (action_of action.now) next }
{
    match action {
        Action::Bracket => true,
        Action::Index(at) => is_solid_type(core, next) && is_plain_expression(core, at),
        Action::Apply { function, .. } => asks_text(*function) && is_solid_type(core, next),
        _ => false,
    }
}

#[cycle(expression)]
fn is_plain_behind_value(core: &Core, action: &Action, next: TypeId) -> bool
    ensures texts { result ≡ is_plain_step is_short_text core.now false (action_of action.now) next }
    ensures lengths { result ≡ is_plain_step is_short core.now false (action_of action.now) next }
{
    match action {
        Action::Index(at) => is_solid_type(core, next) && is_plain_expression(core, at),
        Action::Operate { operand, .. } => {
            is_solid_type(core, next) && is_plain_expression(core, operand)
        }
        Action::Call { .. } => false,
        _ => is_solid_type(core, next),
    }
}

#[cycle(expression)]
fn are_plain_elements(core: &Core, list: &[CoreElement]) -> bool
    ensures texts { result ≡ are_plain_elements is_short_text core.now (elements_of list.now) }
    ensures lengths { result ≡ are_plain_elements is_short core.now (elements_of list.now) }
{
    for each in list {
        if !is_plain_element(core, each) {
            return false;
        }
    }
    true
}

#[cycle(expression)]
fn is_plain_element(core: &Core, element: &CoreElement) -> bool
    ensures texts { result ≡ is_plain_element is_short_text core.now (element_of element.now) }
    ensures lengths { result ≡ is_plain_element is_short core.now (element_of element.now) }
{
    match element {
        CoreElement::One(value) => is_plain_expression(core, value),
        CoreElement::Range(first, last) => {
            is_plain_expression(core, first) && is_plain_expression(core, last)
        }
    }
}

#[cycle(expression)]
fn are_plain_arguments(core: &Core, list: &[CoreArgument]) -> bool
    ensures texts { result ≡ are_plain_arguments is_short_text core.now (arguments_of list.now) }
    ensures lengths { result ≡ are_plain_arguments is_short core.now (arguments_of list.now) }
{
    for each in list {
        if !is_plain_argument(core, each) {
            return false;
        }
    }
    true
}

/// No open array is given anything.
#[cycle(expression)]
fn is_plain_argument(core: &Core, argument: &CoreArgument) -> bool
    ensures texts { result ≡ is_plain_argument is_short_text core.now (argument_of argument.now) }
    ensures lengths { result ≡ is_plain_argument is_short core.now (argument_of argument.now) }
{
    match argument {
        CoreArgument::Value(value) => is_plain_expression(core, value),
        CoreArgument::Place(place) => is_plain_expression(core, place),
        CoreArgument::Array(_) => false,
        CoreArgument::Elements { .. } => false,
    }
}
