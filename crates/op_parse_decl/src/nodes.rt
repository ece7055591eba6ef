//! The nodes of types and first values, from their parts.
ghost use Rattle.std.specs.Prelude.{◌≡◌, IfOk};
ghost use Rattle.std.specs.Option.{option_map};
ghost use Rattle.op_parse_decl.specs.Initials.{name_alone};
ghost use Rattle.op_parse_decl.specs.Types.{denoted};
ghost use Rattle.op_tree.specs.Denoter.{array, denoter_of, record_, set, subrange};
ghost use Rattle.op_tree.specs.Expression.{bracketed, designated, designator, expr_of, named as named_root, no_selectors};
ghost use Rattle.op_tree.specs.Initial.{field_initials, initial_of, initials, list, record_ as record_value};
ghost use Rattle.op_tree.specs.Lists.{denoters_of, field_initials_of, field_lists_of, initials_of};
ghost use Rattle.op_tree.specs.Statement.{selectors_of};

use op_base::{NoMemory, Place};
use op_scan::Switches;
use op_tree::{
    Designator, Expr, FieldInitializer, Fields, Initializer, Name, Names, Position, QualifiedName,
    Root, Selector, TypeDenoter,
};
use std::alloc::Global;
use std::mem::replace;

pub fn subrange_node(alloc: Global, first: Expr, last: Expr) -> Result<TypeDenoter, NoMemory>
    ensures { IfOk result (λ t. denoter_of t ≡ subrange (expr_of first) (expr_of last)) }
{
    let first = Box::new(alloc, first)?;
    let last = Box::new(alloc, last)?;
    Ok(TypeDenoter::Subrange { first, last })
}

pub fn set_node(
    alloc: Global,
    position: Position,
    base: TypeDenoter,
) -> Result<TypeDenoter, NoMemory>
    ensures { IfOk result (λ t. denoter_of t ≡ set position (denoter_of base)) }
{
    let base = Box::new(alloc, base)?;
    Ok(TypeDenoter::Set { position, base })
}

pub fn array_node(
    alloc: Global,
    position: Position,
    packed: bool,
    indices: Vec<TypeDenoter>,
    element: TypeDenoter,
) -> Result<TypeDenoter, NoMemory>
    ensures { IfOk result (λ t. denoter_of t ≡ array position packed (denoters_of indices.items) (denoter_of element)) }
{
    let element = Box::new(alloc, element)?;
    Ok(TypeDenoter::Array {
        position,
        packed,
        indices,
        element,
    })
}

pub fn record_node(position: Position, packed: bool, fields: Vec<Fields>) -> TypeDenoter
    ensures { denoter_of result ≡ record_ position packed (field_lists_of fields.items) }
{
    TypeDenoter::Record {
        position,
        packed,
        fields,
    }
}

/// A list of a first item and others.
pub fn list_node(
    position: Position,
    first: Initializer,
    others: Vec<Initializer>,
) -> Result<Initializer, NoMemory>
    ensures { IfOk result (λ i. initial_of i ≡ list position (initials (initial_of first) (initials_of others.items))) }
{
    let mut items = others;
    items.insert(0, first)?;
    Ok(Initializer::List { position, items })
}

/// A record of a first field and others.
pub fn record_value_node(
    position: Position,
    first: FieldInitializer,
    others: Vec<FieldInitializer>,
) -> Result<Initializer, NoMemory>
    ensures { IfOk result (λ i. initial_of i ≡ record_value position (field_initials first.name (initial_of first.value) (field_initials_of others.items))) }
{
    let mut fields = others;
    fields.insert(0, first)?;
    Ok(Initializer::Record { position, fields })
}

/// What stands in the place of a first value before it is read.
pub fn unread(end: Place) -> Initializer {
    Initializer::Value(Expr::Nil {
        position: Position {
            place: end,
            switches: Switches::OFF,
        },
    })
}

/// The name that a first value is, if it is no more, out of its place.
#[inline(never)]
pub fn name_alone(end: Place, tree: &mut Initializer) -> Option<Name>
    ensures { result ≡ name_alone (initial_of tree.old) }
{
    let Initializer::Value(expression) = replace(tree, unread(end)) else {
        return None;
    };
    let Expr::Designator(designator) = expression else {
        return None;
    };
    let Designator { root, selectors } = designator;
    let Root::Named(name) = root else {
        return None;
    };
    if selectors.is_empty() {
        Some(name)
    } else {
        None
    }
}

/// The type that an expression is where it is no bound of a subrange: a name, the word `string`, or a name in brackets.
pub fn denoted(alloc: Global, bound: Expr) -> Result<Option<TypeDenoter>, NoMemory>
    ensures { IfOk result (λ t. option_map denoter_of t ≡ denoted (expr_of bound)) }
{
    let Expr::Designator(designator) = bound else {
        return Ok(None);
    };
    let Designator { root, selectors } = designator;
    match root {
        Root::String { position } => {
            if selectors.is_empty() {
                return Ok(Some(TypeDenoter::String { position }));
            }
            Ok(None)
        }
        Root::Named(name) => Ok(named(name, selectors)),
        Root::Bracketed { position, inside } => {
            if !selectors.is_empty() {
                return Ok(None);
            }
            enumeration_of_one(alloc, position, Box::into_inner(inside))
        }
    }
}

/// The type of a name and what is selected of it.
fn named(first: Name, selectors: Vec<Selector>) -> Option<TypeDenoter>
    ensures { option_map denoter_of result ≡ denoted (designated (designator (named_root first) (selectors_of selectors.items))) }
{
    let mut selectors = selectors;
    let Some(last) = selectors.pop() else {
        return Some(TypeDenoter::Named(QualifiedName {
            unit: None,
            name: first,
        }));
    };
    if !selectors.is_empty() {
        return None;
    }
    match last {
        Selector::Member(name) => Some(TypeDenoter::Named(QualifiedName {
            unit: Some(first),
            name,
        })),
        Selector::Index { .. } => None,
        Selector::Call { .. } => None,
    }
}

/// An enumeration of one value, from what stands in its brackets.
fn enumeration_of_one(
    alloc: Global,
    position: Position,
    inside: Expr,
) -> Result<Option<TypeDenoter>, NoMemory>
    ensures { IfOk result (λ t. option_map denoter_of t ≡ denoted (designated (designator (bracketed position (expr_of inside)) no_selectors))) }
{
    let Expr::Designator(designator) = inside else {
        return Ok(None);
    };
    let Designator { root, selectors } = designator;
    let Root::Named(name) = root else {
        return Ok(None);
    };
    if !selectors.is_empty() {
        return Ok(None);
    }
    let mut names = Vec::new(alloc);
    names.push(name)?;
    Ok(Some(TypeDenoter::Enumeration {
        position,
        values: Names::from(names),
    }))
}
