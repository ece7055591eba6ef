//! Places that may be written.
ghost use Rattle.std.specs.Prelude.{◌≡◌, slice_get};
ghost use Rattle.std.specs.Option.{option_map};
ghost use Rattle.op_core.specs.Expression.{action_of, expr_of, root_of as core_root_of};
ghost use Rattle.op_core.specs.Typing.{is_place, is_variable, leads_on};
ghost use Rattle.op_judgement.specs.Judgement.{Reports};
ghost use Rattle.op_check_expr.specs.Places.{is_counted, is_very, is_writable, is_writable_root, is_writable_row, leads, target_value, variable_tree, variable_value};
ghost use Rattle.op_check_expr.specs.Scopes.{here_of};
ghost use Rattle.op_check_expr.specs.Values.{value_of};

use crate::scope::{Around, Scope};
use crate::tree::type_of;
use crate::value::Value;
use op_base::Place;
use op_core::{
    Action, Core, CoreExpr, CoreType, FirstRefusal, Root, TypeId, VariableId, one_type, type_at,
};
use op_judgement::{LanguageRule, refuse};

/// An argument at a place that must be a variable, of the very type where one is given, that may be written.
pub fn variable_value(
    scope: Scope,
    sink: &mut FirstRefusal,
    at: Place,
    to: Option<TypeId>,
    value: Value,
) -> Option<CoreExpr>
    ensures { Reports (variable_value (here_of scope.entry) at to (value_of value)) sink.old sink.new (option_map expr_of result) }
{
    match value {
        Value::Computed(e) => variable_tree(scope, sink, at, to, e),
        Value::Constant(_) => refuse(sink, LanguageRule::NoVariable, at),
    }
}

fn variable_tree(
    scope: Scope,
    sink: &mut FirstRefusal,
    at: Place,
    to: Option<TypeId>,
    e: CoreExpr,
) -> Option<CoreExpr>
    ensures { Reports (variable_tree (here_of scope.entry) at to (expr_of e)) sink.old sink.new (option_map expr_of result) }
{
    if !is_place(true, scope.core, &e) {
        return refuse(sink, LanguageRule::NoVariable, at);
    }
    if !is_very(scope.core, type_of(&e), to) {
        return refuse(sink, LanguageRule::VariableOfAnotherType, at);
    }
    if !is_writable(scope, true, &e) {
        return refuse(sink, LanguageRule::NotWritable, at);
    }
    if !is_place(false, scope.core, &e) {
        return refuse(sink, LanguageRule::CharacterOfString, at);
    }
    Some(e)
}

/// What is assigned to, in a statement that begins at a place.
pub fn target_value(
    scope: Scope,
    sink: &mut FirstRefusal,
    at: Place,
    value: Value,
) -> Option<CoreExpr>
    ensures { Reports (target_value (here_of scope.entry) at (value_of value)) sink.old sink.new (option_map expr_of result) }
{
    match value {
        Value::Constant(_) => refuse(sink, LanguageRule::NotWritable, at),
        Value::Computed(e) => {
            if is_writable(scope, true, &e) {
                Some(e)
            } else {
                refuse(sink, LanguageRule::NotWritable, at)
            }
        }
    }
}

/// Whether it is a place. Where `chars` is set a character of a string is one.
fn is_place(chars: bool, core: &Core, e: &CoreExpr) -> bool
    ensures { result ≡ is_place chars core.now (expr_of e.now) }
{
    leads(chars, core, is_variable(&e.root), e)
}

fn is_variable(root: &Root) -> bool
    ensures { result ≡ is_variable (core_root_of root.now) }
{
    matches!(root, Root::Variable(_))
}

fn is_very(core: &Core, from: TypeId, to: Option<TypeId>) -> bool
    ensures { result ≡ is_very core.now from to }
{
    match to {
        None => true,
        Some(to) => one_type(core.types.as_slice(), from, to),
    }
}

fn is_writable(scope: Scope, chars: bool, e: &CoreExpr) -> bool
    ensures { result ≡ is_writable (here_of scope.entry) chars (expr_of e.now) }
{
    leads(chars, scope.core, is_writable_root(scope, &e.root), e)
}

fn is_writable_root(scope: Scope, root: &Root) -> bool
    ensures { result ≡ is_writable_root (here_of scope.entry) (core_root_of root.now) }
{
    match root {
        Root::Variable(id) => is_writable_variable(scope, *id),
        _ => false,
    }
}

/// Whether a variable may be written at a place.
pub fn is_writable_variable(scope: Scope, id: VariableId) -> bool
    ensures { result ≡ is_writable_row (here_of scope.entry) id (slice_get (here_of scope.entry).core.variables id.0) }
{
    match scope.core.variables.as_slice().get(id.0 as usize) {
        Some(variable) => variable.role.is_written() && !is_counted(scope, id),
        None => false,
    }
}

/// Whether it is the variable of a loop round the place.
fn is_counted(scope: Scope, id: VariableId) -> bool
    ensures { result ≡ is_counted (here_of scope.entry) id }
{
    scope.around.iter().any(|around| match around {
        Around::Loop(Some(counter)) => counter.0 == id.0,
        _ => false,
    })
}

/// Whether the steps lead to a place where the root is one or not. Where `chars` is set a character of a string is one.
fn leads(chars: bool, core: &Core, so_far: bool, e: &CoreExpr) -> bool
    ensures { result ≡ leads chars core.now so_far (expr_of e.now) }
{
    let mut so_far = so_far;
    let mut of = e.of;
    for step in &e.steps {
        so_far = leads_on(chars, type_at(core, of), &step.action, so_far);
        of = step.of;
    }
    so_far
}

fn leads_on(chars: bool, of: Option<CoreType>, action: &Action, so_far: bool) -> bool
    ensures { result ≡ leads_on chars of (action_of action.now) so_far }
{
    match (of, action) {
        (Some(CoreType::Class(_)), Action::Field(_)) => true,
        (Some(CoreType::Record { .. }), Action::Field(_)) => so_far,
        (Some(CoreType::Array { .. } | CoreType::OpenArray { .. }), Action::Index(_)) => so_far,
        (Some(CoreType::DynamicArray { .. }), Action::Index(_)) => true,
        (Some(CoreType::String), Action::Index(_)) => chars && so_far,
        _ => false,
    }
}
