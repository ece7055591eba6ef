//! Whether operands of managed code have their kinds.
ghost use Rattle.op_core.specs.Rows.{rows};
ghost use Rattle.op_core.specs.Sizes.{range_of, type_at};
ghost use Rattle.op_meaning.specs.Primitives.{gives, signature};
ghost use Rattle.op_meaning.specs.Shapes.{is_reference, shape_of};
ghost use Rattle.op_mir.specs.Kinds.{are_from, are_given, are_taken, begins, calls, copies, has_kinds, is_destined, is_given, is_kept_as, is_number, is_of_unit, is_part, is_received, is_same_range, is_taken, is_textual, leads_to, leads_to_kind, leads_to_text, of_own, of_referred, type_behind, type_of_element, type_of_field, type_of_path, type_of_root};
ghost use Rattle.std.specs.List.{list_any};
ghost use Rattle.std.specs.Prelude.{◌≡◌, nat_eq, slice_get};

use crate::shape::{is_composite, is_string, single_kind};
use crate::{Action, Call, Destination, Given, LocalId, Operand, Path, Receiver, Root, Step};
use op_core::{
    Core, CoreType, IntegerKind, Owner, Parameter, Role, RoutineId, Run, TypeId, VariableId,
    integer_range, range_of, type_at,
};
use op_meaning::Sort;
use op_tree::ParameterMode;

// ---- types

fn is_same_range(a: (i64, i64), b: (i64, i64)) -> bool
    ensures { result ≡ is_same_range a b }
{
    a.0 == b.0 && a.1 == b.1
}

/// Whether values of the type are single numbers, of which a store keeps the low bits of this kind.
fn is_kept_as(core: &Core, of: TypeId, kind: IntegerKind) -> bool
    ensures { result ≡ is_kept_as core.now of kind }
{
    match single_kind(core, of) {
        None => false,
        Some(own) => is_same_range(integer_range(own), integer_range(kind)),
    }
}

fn is_number(core: &Core, of: TypeId) -> bool
    ensures { result ≡ is_number core.now of }
{
    match single_kind(core, of) {
        None => false,
        Some(_) => true,
    }
}

/// Whether a variable of the role stands for a place of the caller.
pub(crate) fn is_reference(role: Role) -> bool
    ensures { result ≡ is_reference role }
{
    matches!(
        role,
        Role::Parameter(ParameterMode::Var) | Role::Parameter(ParameterMode::Out)
    )
}

// ---- places

fn is_global(core: &Core, variable: VariableId) -> bool
    ensures { result ≡ list_any (λ id. nat_eq id.0 variable.0) core.now.globals }
{
    core.globals
        .as_slice()
        .iter()
        .any(|each| each.0 == variable.0)
}

/// The type of a variable of the routine whose value is its own.
fn own_type(core: &Core, variables: Run, local: LocalId) -> Option<TypeId>
    ensures { result ≡ of_own (slice_get (rows core.now.variables variables) local.0) }
{
    match core.variables.rows(variables).get(local.0 as usize) {
        None => None,
        Some(variable) => match is_reference(variable.role) {
            true => None,
            false => Some(variable.of),
        },
    }
}

/// The type of a variable of the routine that stands for a place of the caller.
fn referred_type(core: &Core, variables: Run, local: LocalId) -> Option<TypeId>
    ensures { result ≡ of_referred (slice_get (rows core.now.variables variables) local.0) }
{
    match core.variables.rows(variables).get(local.0 as usize) {
        None => None,
        Some(variable) => match is_reference(variable.role) {
            true => Some(variable.of),
            false => None,
        },
    }
}

/// The type of what a path begins with, in a routine with these variables.
#[tactic(auto, unfolding(crate::specs::Kinds::type_of_root))]
fn type_of_root(core: &Core, variables: Run, root: Root) -> Option<TypeId>
    ensures { result ≡ type_of_root core.now variables root }
{
    match root {
        Root::Global { variable } => {
            if !is_global(core, variable) {
                return None;
            }
            match core.variables.as_slice().get(variable.0 as usize) {
                None => None,
                Some(row) => Some(row.of),
            }
        }
        Root::Local { variable } => own_type(core, variables, variable),
        Root::Through { variable } => referred_type(core, variables, variable),
        Root::Temporary { of, number: _ } => Some(of),
    }
}

fn type_of_field(core: &Core, of: TypeId, number: u32) -> Option<TypeId>
    ensures { result ≡ type_of_field core.now (type_at core.now of) number }
{
    match type_at(core, of) {
        Some(CoreType::Record { fields }) => {
            match core.fields.rows(fields).get(number as usize) {
                None => None,
                Some(field) => Some(field.of),
            }
        }
        _ => None,
    }
}

fn are_from(core: &Core, index: TypeId, low: i32, high: i32) -> bool
    ensures { result ≡ are_from (range_of (type_at core.now index)) low high }
{
    match range_of(core, index) {
        None => false,
        Some(range) => is_same_range(range, (low as i64, high as i64)),
    }
}

fn type_of_element(core: &Core, of: TypeId, low: i32, high: i32) -> Option<TypeId>
    ensures { result ≡ type_of_element core.now (type_at core.now of) low high }
{
    match type_at(core, of) {
        Some(CoreType::Array { index, element }) => match are_from(core, index, low, high) {
            true => Some(element),
            false => None,
        },
        _ => None,
    }
}

/// The type of the part to which a step leads from a place of the type.
#[tactic(auto, unfolding(crate::specs::Kinds::type_behind))]
fn type_behind(core: &Core, of: TypeId, step: Step) -> Option<TypeId>
    ensures { result ≡ type_behind core.now of step }
{
    match step {
        Step::Field { of: whole, number } => {
            if whole.0 != of.0 {
                return None;
            }
            type_of_field(core, of, number)
        }
        Step::Element {
            of: whole,
            low,
            high,
            index: _,
        } => {
            if whole.0 != of.0 {
                return None;
            }
            type_of_element(core, of, low, high)
        }
    }
}

/// The type of what the path leads to; none where a step is not written for what it starts from.
fn type_of_path(core: &Core, variables: Run, path: &Path) -> Option<TypeId>
    ensures { result ≡ type_of_path core.now variables path.now }
{
    let mut found = type_of_root(core, variables, path.root);
    for step in path.steps.as_slice() {
        found = match found {
            None => None,
            Some(of) => type_behind(core, of, *step),
        };
    }
    found
}

fn leads_to(core: &Core, variables: Run, path: &Path, of: TypeId) -> bool
    ensures { result ≡ leads_to core.now variables path.now of }
{
    match type_of_path(core, variables, path) {
        None => false,
        Some(to) => to.0 == of.0,
    }
}

fn leads_to_kind(core: &Core, variables: Run, path: &Path, kind: IntegerKind) -> bool
    ensures { result ≡ leads_to_kind core.now variables path.now kind }
{
    match type_of_path(core, variables, path) {
        None => false,
        Some(to) => is_kept_as(core, to, kind),
    }
}

// ---- actions

fn copies(core: &Core, variables: Run, of: TypeId, to: &Path, from: &Path) -> bool
    ensures { result ≡ copies core.now variables of to.now from.now }
{
    is_composite(core, of)
        && leads_to(core, variables, to, of)
        && leads_to(core, variables, from, of)
}

fn begins(core: &Core, variables: Run, local: LocalId) -> bool
    ensures { result ≡ begins core.now variables local }
{
    match own_type(core, variables, local) {
        None => false,
        Some(of) => is_number(core, of) || is_composite(core, of),
    }
}

/// Whether numbers are loaded and stored as their places keep them, and values with parts are copied.
#[tactic(auto, unfolding(crate::specs::Kinds::has_kinds))]
pub(crate) fn has_kinds(core: &Core, variables: Run, action: &Action) -> bool
    ensures { result ≡ has_kinds core.now variables action.now }
{
    match action {
        Action::Constant { to: _, value: _ } => true,
        Action::Load { to: _, kind, from } => leads_to_kind(core, variables, from, *kind),
        Action::Store { to, kind, from: _ } => leads_to_kind(core, variables, to, *kind),
        Action::Copy { of, to, from } => copies(core, variables, *of, to, from),
        Action::Look { at } => type_of_path(core, variables, at).is_some(),
        Action::BeginWith { variable } => begins(core, variables, *variable),
        Action::Pick {
            to: _,
            text: _,
            index: _,
        } => true,
        Action::Compute(_) => true,
        Action::Do {
            primitive,
            operands,
            to,
        } => {
            are_taken(core, variables, primitive.signature(), operands.as_slice())
                && is_destined(core, variables, primitive.gives(), to)
        }
    }
}

fn leads_to_text(core: &Core, variables: Run, path: &Path) -> bool
    ensures { result ≡ leads_to_text core.now variables path.now }
{
    match type_of_path(core, variables, path) {
        None => false,
        Some(to) => is_string(core, to),
    }
}

/// Whether each operand is of its sort, in order.
fn are_taken(core: &Core, variables: Run, sorts: &[Sort], operands: &[Operand]) -> bool
    ensures { result ≡ are_taken core.now variables sorts.now operands.now }
{
    match sorts.split_first() {
        None => match operands.split_first() {
            None => true,
            Some(_) => false,
        },
        Some((sort, others)) => match operands.split_first() {
            None => false,
            Some((operand, rest)) => {
                is_taken(core, variables, *sort, operand)
                    && are_taken(core, variables, others, rest)
            }
        },
    }
}

#[tactic(auto, unfolding(crate::specs::Kinds::is_taken))]
fn is_taken(core: &Core, variables: Run, sort: Sort, operand: &Operand) -> bool
    ensures { result ≡ is_taken core.now variables sort operand.now }
{
    match sort {
        Sort::Numeric => match operand {
            Operand::Number(_) => true,
            Operand::Text(_) => false,
            Operand::Literal(_) => false,
        },
        Sort::Textual => match operand {
            Operand::Number(_) => false,
            Operand::Text(path) => leads_to_text(core, variables, path),
            Operand::Literal(_) => true,
        },
    }
}

/// Whether what is given, of this sort or nothing, goes where such a one may go.
#[tactic(auto, unfolding(crate::specs::Kinds::is_destined))]
fn is_destined(core: &Core, variables: Run, gives: Option<Sort>, to: &Destination) -> bool
    ensures { result ≡ is_destined core.now variables gives to.now }
{
    match to {
        Destination::Unused => gives.is_none(),
        Destination::InTemporary(_) => matches!(gives, Some(Sort::Numeric)),
        Destination::InNew { of, number: _ } => is_textual(gives) && is_string(core, *of),
        Destination::IntoPlace { of, to, old: _ } => {
            is_textual(gives) && is_string(core, *of) && leads_to(core, variables, to, *of)
        }
        Destination::OverPlace { to } => is_textual(gives) && leads_to_text(core, variables, to),
    }
}

fn is_textual(gives: Option<Sort>) -> bool
    ensures { result ≡ is_textual gives }
{
    matches!(gives, Some(Sort::Textual))
}

// ---- calls

#[tactic(auto, unfolding(crate::specs::Kinds::is_given))]
fn is_given(core: &Core, variables: Run, given: &Given, parameter: &Parameter) -> bool
    ensures { result ≡ is_given core.now variables given.now parameter.now }
{
    let refers = is_reference(Role::Parameter(parameter.mode));
    match given {
        Given::ByValue { kind, temporary: _ } => is_kept_as(core, parameter.of, *kind) && !refers,
        Given::ByPlace { path } => leads_to(core, variables, path, parameter.of) && refers,
        Given::ByCopy { of, path } => {
            of.0 == parameter.of.0
                && is_composite(core, *of)
                && leads_to(core, variables, path, *of)
                && !refers
        }
    }
}

/// Whether each parameter is given something, in order.
fn are_given(core: &Core, variables: Run, given: &[Given], parameters: &[Parameter]) -> bool
    ensures { result ≡ are_given core.now variables given.now parameters.now }
{
    match given.split_first() {
        None => match parameters.split_first() {
            None => true,
            Some(_) => false,
        },
        Some((each, others)) => match parameters.split_first() {
            None => false,
            Some((parameter, rest)) => {
                is_given(core, variables, each, parameter)
                    && are_given(core, variables, others, rest)
            }
        },
    }
}

#[tactic(auto, unfolding(crate::specs::Kinds::is_received))]
fn is_received(core: &Core, variables: Run, gives: Option<TypeId>, receiver: &Receiver) -> bool
    ensures { result ≡ is_received core.now variables gives receiver.now }
{
    match gives {
        None => match receiver {
            Receiver::Nowhere => true,
            Receiver::Temporary { temporary: _ } => false,
            Receiver::Place { of: _, to: _ } => false,
        },
        Some(own) => match receiver {
            Receiver::Nowhere => false,
            Receiver::Temporary { temporary: _ } => !is_composite(core, own),
            Receiver::Place { of, to } => {
                of.0 == own.0 && is_composite(core, *of) && leads_to(core, variables, to, *of)
            }
        },
    }
}

fn is_of_unit(owner: Owner) -> bool
    ensures { result ≡ is_of_unit owner }
{
    match owner {
        Owner::Unit => true,
        Owner::Class(_) => false,
        Owner::Interface(_) => false,
    }
}

/// Whether the routine is no method, and its parameters and what gets its result are of the kinds that they are to be.
pub(crate) fn calls(core: &Core, variables: Run, id: RoutineId, call: &Call) -> bool
    ensures { result ≡ calls core.now variables (slice_get core.now.routines id.0) call.now }
{
    match core.routines.as_slice().get(id.0 as usize) {
        None => false,
        Some(callee) => {
            is_of_unit(callee.owner)
                && are_given(
                    core,
                    variables,
                    call.given.as_slice(),
                    core.parameters.rows(callee.parameters),
                )
                && is_received(core, variables, callee.result, &call.receiver)
        }
    }
}

/// Whether it is a routine without parameters and without a result.
pub(crate) fn is_part(core: &Core, id: RoutineId) -> bool
    ensures { result ≡ is_part (slice_get core.now.routines id.0) }
{
    match core.routines.as_slice().get(id.0 as usize) {
        None => false,
        Some(callee) => {
            is_of_unit(callee.owner) && callee.parameters.count == 0 && callee.result.is_none()
        }
    }
}
