//! What expressions count for in the charge of their routine, in bytes.
ghost use Rattle.std.specs.Prelude.{◌≡◌, ◌<◌, ◌^◌};
ghost use Rattle.op_core.specs.Expression.{action_of, argument_of, element_of, expr_of, root_of};
ghost use Rattle.op_core.specs.Nodes.{arguments_of};
ghost use Rattle.op_meaning.specs.Charge.{action_weight, argument_weight, arguments_weight, charged, element_weight, expression_weight, listed_values, root_weight, size_of, valued};

use op_core::{Action, Core, CoreArgument, CoreElement, CoreExpr, CoreType, Origin, Root, TypeId};

/// The bytes of a node of the text.
pub const NODE: u64 = 16;

/// The bytes of a word of the charge, which is also as many bytes of a value.
pub const WORD: u64 = 4;

#[cycle(expression)]
pub fn expression(core: &Core, e: &CoreExpr) -> u64
    ensures { result ≡ charged (expression_weight core.now (expr_of e.now)) }
{
    let mut sum = root(core, &e.root, e.of);
    for each in &e.steps {
        sum = sum.saturating_add(action(core, &each.action, each.of));
    }
    sum
}

#[cycle(expression)]
fn root(core: &Core, root: &Root, of: TypeId) -> u64
    ensures { result ≡ charged (root_weight core.now of (root_of root.now)) }
{
    match root {
        Root::Constant { nodes, words, .. } => NODE * *nodes as u64 + WORD * *words as u64,
        Root::Object(_) => 0,
        Root::Variable(_) => valued(core, of),
        Root::Eof => valued(core, of),
        Root::Eoln => valued(core, of),
        Root::Call {
            arguments: given,
            ..
        } => sum!(core: valued(of), arguments(given)),
        Root::Construct {
            arguments: given,
            ..
        } => sum!(core: valued(of), arguments(given)),
        Root::Set(elements) => {
            let mut sum = valued(core, of);
            for each in elements {
                sum = sum.saturating_add(element(core, each));
            }
            sum
        }
    }
}

#[cycle(expression)]
fn action(core: &Core, action: &Action, of: TypeId) -> u64
    ensures { result ≡ charged (action_weight core.now of (action_of action.now)) }
{
    match action {
        Action::Convert {
            origin: Origin::Implied,
            ..
        } => 0,
        Action::Convert {
            origin: Origin::Cast,
            ..
        } => valued(core, of),
        Action::Convert {
            origin: Origin::As_,
            ..
        } => valued(core, of).saturating_add(NODE),
        Action::Bracket => valued(core, of),
        Action::Field(_) => valued(core, of),
        Action::Prefix { .. } => valued(core, of),
        Action::Apply { .. } => valued(core, of),
        Action::Is(_) => valued(core, of).saturating_add(NODE),
        Action::Index(at) => sum!(core: valued(of), expression(at)),
        Action::Operate { operand, .. } => { sum!(core: valued(of), expression(operand)) }
        Action::Call {
            arguments: given,
            ..
        } => sum!(core: valued(of), arguments(given)),
        Action::Copy { first, count } =>
            sum!(core: valued(of), expression(first), expression(count)),
    }
}

#[cycle(expression)]
fn element(core: &Core, element: &CoreElement) -> u64
    ensures { result ≡ charged (element_weight core.now (element_of element.now)) }
{
    match element {
        CoreElement::One(value) => expression(core, value),
        CoreElement::Range(first, last) => { sum!(core: expression(first), expression(last)) }
    }
}

#[cycle(expression)]
fn arguments(core: &Core, list: &[CoreArgument]) -> u64
    ensures { result ≡ charged (arguments_weight core.now (arguments_of list.now)) }
{
    let mut sum = 0u64;
    for each in list {
        sum = sum.saturating_add(argument(core, each));
    }
    sum
}

#[cycle(expression)]
fn argument(core: &Core, argument: &CoreArgument) -> u64
    ensures { result ≡ charged (argument_weight core.now (argument_of argument.now)) }
{
    match argument {
        CoreArgument::Value(value) => expression(core, value),
        CoreArgument::Place(place) => expression(core, place),
        CoreArgument::Array(array) => expression(core, array),
        CoreArgument::Elements { of, values } => {
            let mut sum = listed(core, *of, values.len());
            for each in values {
                sum = sum.saturating_add(expression(core, each));
            }
            sum
        }
    }
}

/// A node of an expression of this type: records, static arrays and sets also take words.
#[tactic(auto, unfolding(crate::specs::Charge::valued))]
pub fn valued(core: &Core, of: TypeId) -> u64
    ensures { result ≡ charged (valued core.now of) }
{
    match core.types.as_slice().get(of.0 as usize) {
        Some(CoreType::Record { .. }) => NODE + WORD * size_of(core, of).div_ceil(WORD),
        Some(CoreType::Array { .. }) => NODE + WORD * size_of(core, of).div_ceil(WORD),
        Some(CoreType::Set { .. }) => NODE + WORD * size_of(core, of).div_ceil(WORD),
        _ => NODE,
    }
}

/// The bytes of a value of the type.
pub fn size_of(core: &Core, of: TypeId) -> u64
    ensures value { result ≡ size_of core.now of }
    ensures small { result < 2 ^ 32 }
{
    match core.extents.as_slice().get(of.0 as usize) {
        None => 4,
        Some(extent) => extent.size as u64,
    }
}

/// A list of so many elements for an open array of this type: it takes the words of its elements.
#[tactic(auto, unfolding(crate::specs::Charge::listed_values))]
fn listed(core: &Core, of: TypeId, count: usize) -> u64
    ensures { result ≡ charged (listed_values core.now of count) }
{
    let size = match core.types.as_slice().get(of.0 as usize) {
        Some(CoreType::OpenArray { element }) => size_of(core, *element),
        _ => return NODE,
    };
    let words = (count as u64).saturating_mul(size).div_ceil(WORD);
    words.saturating_mul(WORD).saturating_add(NODE)
}
