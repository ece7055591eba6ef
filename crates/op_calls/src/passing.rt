//! What parameters are given ("Value parameters", "Variable parameters", "Out parameters" and "Open array parameters" of the Free Pascal
//! Reference Guide).
ghost use Rattle.std.specs.Prelude.{◌≡◌, ◌∷◌, [], ℕ, IfOk, None, Some, map, option_copied};
ghost use Rattle.op_calls.specs.Passing.{Passes, kept, passed_view, value_passed};
ghost use Rattle.op_core.specs.Sizes.{type_at};
ghost use Rattle.op_semantics.specs.Expressions.{array_passed, elements_copied, elements_passed, given_by, held_at, hold_by, open_passed, operand_of, parameter_row, past_hold, path_of, place_passed, reference_passed};
ghost use Rattle.op_semantics.specs.Items.{by_place, none};
ghost use Rattle.op_semantics.specs.Paths.{array_on, in_temporary};
ghost use Rattle.op_semantics.specs.Shapes.{shape_of};
ghost use Rattle.op_values.specs.Adding.{found_view, now_view};
ghost use Rattle.op_values.specs.Setting.{here_view};
ghost use Rattle.op_values.specs.View.{view_given, view_hold, view_operand, view_path, view_step};

use op_base::NoMemory;
use op_core::{Core, CoreType, RoutineId, TypeId, Variable, type_at};
use op_semantics::Primitive;
use op_values::{
    Destination, Found, Given, Here, Item, Now, Operand, Path, Root, Setting, Shape, Step,
    Temporary, element_of, held_path, operand_of, path_of, refers, shape_of, sum, two,
    variables_of,
};

/// What an argument gives to its parameter, how many temporaries it keeps until the call, and the first free temporary behind it for a value
/// that has to be ended.
#[derive(Drop)]
pub struct Passed {
    pub given: Given,
    pub used: u32,
    pub held: u32,
}

/// The row of the parameter of a routine with this number.
pub fn parameter_row(core: &Core, routine: RoutineId, number: u32) -> Option<&Variable>
    ensures { option_copied result ≡ parameter_row core.now routine.0 number }
{
    let first = variables_of(core, routine).first as usize;
    core.variables.as_slice().get(first + number as usize)
}

// ---- values

/// What a value parameter is given, by the type of the value.
pub fn given(setting: Setting, of: TypeId, here: Here, now: Now) -> Given
    ensures { view_given result ≡ given_by setting.entry.core.now (shape_of setting.entry.core.now of) of (here_view here) (now_view now) }
{
    match shape_of(setting.core, of) {
        Shape::Single(kind) => Given::ByValue {
            kind,
            temporary: here.first(),
        },
        Shape::Composite => Given::ByCopy {
            of,
            path: path_of(setting.alloc, of, here, now),
        },
        Shape::Chars => Given::ByOperand(operand_of(setting.alloc, of, here, now)),
        Shape::Elements => Given::ByOperand(operand_of(setting.alloc, of, here, now)),
        Shape::Instance { .. } => Given::ByOperand(operand_of(setting.alloc, of, here, now)),
    }
}

/// A value of its own keeps its temporary until the call.
pub fn value_passed(setting: Setting, of: TypeId, here: Here, found: Found) -> Passed
    ensures { passed_view result ≡ value_passed setting.entry.core.now of (here_view here) (found_view found) }
{
    Passed {
        given: given(setting, of, here, found.now),
        used: 1,
        held: found.held,
    }
}

// ---- places

/// A place of the type itself.
pub fn place_passed(
    setting: Setting,
    of: TypeId,
    here: Here,
    found: Found,
) -> Result<Passed, NoMemory>
    ensures { IfOk result (λ p. passed_view p ≡ place_passed (path_of of (here_view here) (now_view found.now)) (found_view found)) }
{
    let Found { now, used, held } = found;
    place_kept(path_of(setting.alloc, of, here, now), used, held)
}

fn place_kept(path: Path, used: u32, held: u32) -> Result<Passed, NoMemory>
    ensures { IfOk result (λ p. passed_view p ≡ place_passed (view_path path) (kept used held)) }
{
    let holder = array_on(path.steps.as_slice());
    let behind = past_hold(holder, held)?;
    Ok(Passed {
        given: Given::ByPlace {
            path,
            hold: hold_by(holder, held),
        },
        used,
        held: behind,
    })
}

/// The type of the dynamic array that a place lies in, as far as the steps to it tell.
fn array_on(steps: &[Step]) -> Option<TypeId>
    ensures { result ≡ array_on None (map view_step steps.now) }
{
    let mut holder = None;
    for step in steps {
        holder = array_behind(holder, *step);
    }
    holder
}

/// The same behind one step more.
fn array_behind(so_far: Option<TypeId>, step: Step) -> Option<TypeId>
    ensures { result ≡ array_on so_far (view_step step ∷ []) }
{
    match step {
        Step::OfArray { of, .. } => Some(of),
        Step::OfInstance { .. } => None,
        Step::Field { .. } => so_far,
        Step::Element { .. } => so_far,
        Step::OfOpen { .. } => so_far,
    }
}

/// The temporary that holds a dynamic array for the call.
fn hold_by(holder: Option<TypeId>, held: u32) -> Option<Temporary>
    ensures { view_hold result ≡ hold_by holder held }
{
    match holder {
        None => None,
        Some(of) => Some(Temporary { of, number: held }),
    }
}

fn past_hold(holder: Option<TypeId>, held: u32) -> Result<u32, NoMemory>
    ensures { IfOk result (λ behind. behind ≡ past_hold holder held) }
{
    match holder {
        None => Ok(held),
        Some(_) => sum(held, 1),
    }
}

// ---- open arrays

/// An array for an open array, by the row of the parameter.
pub fn array_passed(
    setting: Setting,
    items: &mut Vec<Item>,
    here: Here,
    parameter: Option<&Variable>,
    of: TypeId,
    found: Found,
) -> Result<Passed, NoMemory>
    ensures { IfOk result (λ p. Passes setting.entry items.old.items items.new.items p (array_passed setting.entry.core.now (here_view here) (option_copied parameter.entry) of (found_view found))) }
{
    match parameter {
        None => place_passed(setting, of, here, found),
        Some(row) => array_given(setting, items, here, row, of, found),
    }
}

fn array_given(
    setting: Setting,
    items: &mut Vec<Item>,
    here: Here,
    row: &Variable,
    of: TypeId,
    found: Found,
) -> Result<Passed, NoMemory>
    ensures { IfOk result (λ p. Passes setting.entry items.old.items items.new.items p (array_passed setting.entry.core.now (here_view here) (Some row.now) of (found_view found))) }
{
    let Found { now, used, held } = found;
    if refers(setting.core, row) {
        let path = path_of(setting.alloc, of, here, now);
        return reference_passed(setting, of, path, used, held);
    }
    let operand = operand_of(setting.alloc, of, here, now);
    elements_copied(setting, items, row.of, operand, used, held)
}

/// By reference: the elements of the dynamic array at a place, an open array as it is handed on, or an array with bounds.
fn reference_passed(
    setting: Setting,
    of: TypeId,
    path: Path,
    used: u32,
    held: u32,
) -> Result<Passed, NoMemory>
    ensures { IfOk result (λ p. passed_view p ≡ reference_passed of (type_at setting.entry.core.now of) (view_path path) (kept used held)) }
{
    match type_at(setting.core, of) {
        Some(CoreType::DynamicArray { .. }) => {
            elements_passed(held_at(of, &path), path, used, held)
        }
        Some(CoreType::OpenArray { .. }) => open_passed(path, used, held),
        _ => place_kept(path, used, held),
    }
}

/// A temporary holds its array already.
fn held_at(of: TypeId, path: &Path) -> Option<TypeId>
    ensures { result ≡ held_at of (view_path path.now).root (view_path path.now).steps }
{
    match path.root {
        Root::Temporary { .. } => held_part(of, path.steps.as_slice()),
        Root::Global { .. } => Some(of),
        Root::Local { .. } => Some(of),
        Root::Through { .. } => Some(of),
    }
}

/// Of a temporary, behind these steps.
fn held_part(of: TypeId, steps: &[Step]) -> Option<TypeId>
    ensures { (to : TypeId) (n : ℕ) → result ≡ held_at of (in_temporary to n) (map view_step steps.now) }
{
    if steps.is_empty() {
        return None;
    }
    Some(of)
}

fn elements_passed(
    holder: Option<TypeId>,
    path: Path,
    used: u32,
    held: u32,
) -> Result<Passed, NoMemory>
    ensures { IfOk result (λ p. passed_view p ≡ elements_passed holder (view_path path) (kept used held)) }
{
    let behind = past_hold(holder, held)?;
    Ok(Passed {
        given: Given::ByElements {
            path,
            hold: hold_by(holder, held),
        },
        used,
        held: behind,
    })
}

/// An open array, as it is handed on.
fn open_passed(path: Path, used: u32, held: u32) -> Result<Passed, NoMemory>
    ensures { IfOk result (λ p. passed_view p ≡ open_passed (view_path path) (view_path path).root (kept used held)) }
{
    match path.root {
        Root::Through { .. } => Ok(handed_on(path, used, held)),
        Root::Temporary { .. } => Ok(handed_on(path, used, held)),
        Root::Global { .. } => elements_passed(None, path, used, held),
        Root::Local { .. } => elements_passed(None, path, used, held),
    }
}

/// What is held already.
fn handed_on(path: Path, used: u32, held: u32) -> Passed
    ensures { passed_view result ≡ record { items = none; given = by_place (view_path path) None; used = used; held = held } }
{
    Passed {
        given: Given::ByPlace { path, hold: None },
        used,
        held,
    }
}

/// By value: a new array, in a temporary of the parameter's type.
fn elements_copied(
    setting: Setting,
    items: &mut Vec<Item>,
    to: TypeId,
    operand: Operand,
    used: u32,
    held: u32,
) -> Result<Passed, NoMemory>
    ensures { IfOk result (λ p. Passes setting.entry items.old.items items.new.items p (elements_copied setting.entry.core.now to (view_operand operand) (kept used held))) }
{
    let behind = sum(held, 1)?;
    let element = Operand::OfType(element_of(setting.core, to));
    let operands = two(setting.alloc, element, operand)?;
    let new = Destination::InNew {
        of: to,
        number: held,
    };
    setting.primitive(items, Primitive::CopyElements, operands, new)?;
    let copy = Operand::Value(held_path(setting.alloc, to, held));
    Ok(Passed {
        given: Given::ByOperand(copy),
        used,
        held: behind,
    })
}
