//! First values of typed constants and variables (Free Pascal Reference Guide, "Typed constants" and "Initialized variables").
ghost use Rattle.op_judgement.specs.Judgement.{Reports, changed};
ghost use Rattle.op_judgement.specs.Steps.{judged};
ghost use Rattle.std.specs.Prelude.{◌≡◌, ◌∷◌, [], true, IfOk};
ghost use Rattle.std.specs.Option.{option_map};
ghost use Rattle.op_check_stmt.specs.Parts.{items_of, with_last};
ghost use Rattle.op_check_unit.specs.Initials.{by_elements, by_fields, counted, elements, fields, first, first_expression, is_bracketed, of_type, one_value, shape_of, single, starts, start_of_initial, unless_wrong, values_in, wrong_count};
ghost use Rattle.op_check_unit.specs.Steps.{Leaves, here_of};
ghost use Rattle.op_core.specs.Initial.{first_value_of, parts};
ghost use Rattle.op_core.specs.Rows.{rows};
ghost use Rattle.op_tree.specs.Expression.{expr_of};
ghost use Rattle.op_tree.specs.Initial.{initial_of};
ghost use Rattle.op_tree.specs.Lists.{field_initials_of, initials_of};
ghost use Rattle.op_types.specs.ConstantParts.{start_of};

use crate::Declarer;
use crate::bound::needed_constant;
use crate::declarer::is_name;
use op_base::{NoMemory, Place};
use op_check_expr::retyped;
use op_core::{Core, CoreType, Field, FirstRefusal, Initial, Run, TypeId, type_at, values_of};
use op_judgement::{LanguageRule, refuse};
use op_tree::{Expr, FieldInitializer, Initializer, Root};
use op_types::{Constant, Setting, assignable, start_of};
use std::alloc::Global;

/// A first value; None where a rule is broken in it.
type First = Result<Option<Initial>, NoMemory>;

/// The parts of a first value; None where a rule is broken in one.
type Parts = Result<Option<Vec<Initial>>, NoMemory>;

/// What a first value of a type is made of.
#[derive(Clone, Copy)]
pub enum Shape {
    /// It is one constant.
    Single,
    /// So many values of a type, in a list.
    Elements(u64, TypeId),
    /// An array without bounds, which has no list.
    Unbounded,
    /// A value for each of these fields.
    Fields(Run),
}

fn shape_of(core: &Core, of: TypeId) -> Shape
    ensures { result ≡ shape_of core.now of }
{
    match type_at(core, of) {
        Some(CoreType::Array { index, element }) => {
            Shape::Elements(values_of(core, index), element)
        }
        Some(CoreType::DynamicArray { .. }) => Shape::Unbounded,
        Some(CoreType::Record { fields }) => Shape::Fields(fields),
        _ => Shape::Single,
    }
}

impl Declarer {
    /// The first value of a variable of a type.
    pub fn first_value(&mut self, of: TypeId, value: &Initializer) -> First
        ensures { IfOk result (λ v. Leaves (judged (here_of self.old) (first self.old.core self.old.visible of (initial_of value.now))) self.old self.new (option_map first_value_of v)) }
    {
        let setting = Setting {
            alloc: self.alloc,
            core: &self.core,
            visible: &self.visible,
        };
        first(setting, &mut self.sink, of, value)
    }
}

#[cycle(values)]
fn first(setting: Setting, sink: &mut FirstRefusal, of: TypeId, value: &Initializer) -> First
    ensures { IfOk result (λ v. Reports (first setting.entry.core.now setting.entry.visible.now of (initial_of value.now)) sink.old sink.new (option_map first_value_of v)) }
{
    match value {
        Initializer::Value(e) => first_expression(setting, sink, of, e),
        Initializer::List { position, items } => list(setting, sink, of, position.place, items),
        Initializer::Record { position, fields } => {
            record(setting, sink, of, position.place, fields)
        }
    }
}

/// A list, whose bracket stands at the place.
#[cycle(values)]
fn list(
    setting: Setting,
    sink: &mut FirstRefusal,
    of: TypeId,
    bracket: Place,
    items: &[Initializer],
) -> First
    ensures { IfOk result (λ v. Reports (by_elements bracket (λ count element. counted bracket count (starts (initials_of items.now)) (elements setting.entry.core.now setting.entry.visible.now element (initials_of items.now))) (shape_of setting.entry.core.now of)) sink.old sink.new (option_map first_value_of v)) }
{
    let Shape::Elements(count, element) = shape_of(setting.core, of) else {
        return Ok(refuse(sink, LanguageRule::NotAssignable, bracket));
    };
    let typed = elements(setting, sink, element, items)?;
    Ok(unless_wrong(sink, wrong_count(bracket, count, items), typed))
}

#[cycle(values)]
fn elements(setting: Setting, sink: &mut FirstRefusal, of: TypeId, items: &[Initializer]) -> Parts
    ensures { IfOk result (λ v. Reports (elements setting.entry.core.now setting.entry.visible.now of (initials_of items.now)) sink.old sink.new (values_in v)) }
{
    let mut typed = Some(Vec::new(setting.alloc));
    for item in items {
        let part = first(setting, sink, of, item)?;
        collect(&mut typed, part)?;
    }
    Ok(typed)
}

/// A record, whose bracket stands at the place.
#[cycle(values)]
fn record(
    setting: Setting,
    sink: &mut FirstRefusal,
    of: TypeId,
    bracket: Place,
    items: &[FieldInitializer],
) -> First
    ensures { IfOk result (λ v. Reports (by_fields bracket (λ run. changed parts (fields setting.entry.core.now setting.entry.visible.now bracket (rows setting.entry.core.now.fields run) (field_initials_of items.now))) (shape_of setting.entry.core.now of)) sink.old sink.new (option_map first_value_of v)) }
{
    let Shape::Fields(run) = shape_of(setting.core, of) else {
        return Ok(refuse(sink, LanguageRule::NotAssignable, bracket));
    };
    let typed = fields(setting, sink, bracket, setting.core.fields.rows(run), items)?;
    Ok(joined(typed))
}

/// The fields of a record: rule 25 at a name that is not that of the next field, 20 at the bracket where fields are left.
#[cycle(values)]
fn fields(
    setting: Setting,
    sink: &mut FirstRefusal,
    bracket: Place,
    declared: &[Field],
    items: &[FieldInitializer],
) -> Parts
    ensures { IfOk result (λ v. Reports (fields setting.entry.core.now setting.entry.visible.now bracket declared.now (field_initials_of items.now)) sink.old sink.new (values_in v)) }
{
    let mut typed = Some(Vec::new(setting.alloc));
    let mut left = declared;
    for item in items {
        let Some((field, others)) = left.split_first() else {
            return Ok(refuse(sink, LanguageRule::NoMember, item.name.position.place));
        };
        if !is_name(Some(&field.name), &item.name) {
            return Ok(refuse(sink, LanguageRule::NoMember, item.name.position.place));
        }
        let part = first(setting, sink, field.of, &item.value)?;
        collect(&mut typed, part)?;
        left = others;
    }
    match left.split_first() {
        None => Ok(typed),
        Some(_) => Ok(refuse(sink, LanguageRule::NotAssignable, bracket)),
    }
}

/// An expression; in brackets it is a list of one where the type is an array.
#[cycle(expression)]
fn first_expression(setting: Setting, sink: &mut FirstRefusal, of: TypeId, e: &Expr) -> First
    ensures { IfOk result (λ v. Reports (first_expression setting.entry.core.now setting.entry.visible.now of (expr_of e.now)) sink.old sink.new (option_map first_value_of v)) }
{
    if is_bracketed(e) {
        in_brackets(setting, sink, of, e)
    } else {
        single(setting, sink, of, e)
    }
}

/// An expression in brackets.
#[cycle(expression)]
fn in_brackets(setting: Setting, sink: &mut FirstRefusal, of: TypeId, e: &Expr) -> First
    requires bracketed { is_bracketed (expr_of e.now) ≡ true }
    ensures { IfOk result (λ v. Reports (first_expression setting.entry.core.now setting.entry.visible.now of (expr_of e.now)) sink.old sink.new (option_map first_value_of v)) }
{
    let Expr::Designator(called) = e else {
        unreachable!()
    };
    let Root::Bracketed { position, inside } = &called.root else {
        unreachable!()
    };
    match shape_of(setting.core, of) {
        Shape::Elements(count, element) => {
            let part = first_expression(setting, sink, element, inside)?;
            let wrong = wrong_one(position.place, count, start_of(inside));
            one_part(setting.alloc, sink, wrong, part)
        }
        Shape::Unbounded => Ok(refuse(sink, LanguageRule::NotAssignable, position.place)),
        Shape::Single | Shape::Fields(_) => single(setting, sink, of, e),
    }
}

/// Whether this is an expression in brackets and nothing more.
fn is_bracketed(e: &Expr) -> bool
    ensures { result ≡ is_bracketed (expr_of e.now) }
{
    match e {
        Expr::Designator(called) => match (&called.root, called.selectors.split_first()) {
            (Root::Bracketed { .. }, None) => true,
            _ => false,
        },
        _ => false,
    }
}

/// A constant: rule 20 where it is not assignable to the type, 33 where it is out of its range.
fn single(setting: Setting, sink: &mut FirstRefusal, of: TypeId, e: &Expr) -> First
    ensures { IfOk result (λ v. Reports (single setting.entry.core.now setting.entry.visible.now of (expr_of e.now)) sink.old sink.new (option_map first_value_of v)) }
{
    match needed_constant(setting, sink, e)? {
        None => Ok(None),
        Some(constant) => of_type(setting, sink, start_of(e), of, constant),
    }
}

fn of_type(
    setting: Setting,
    sink: &mut FirstRefusal,
    place: Place,
    of: TypeId,
    constant: Constant,
) -> First
    ensures { IfOk result (λ v. Reports (of_type setting.entry.core.now place of constant) sink.old sink.new (option_map first_value_of v)) }
{
    if !assignable(setting.core, constant.of, of) {
        return Ok(refuse(sink, LanguageRule::NotAssignable, place));
    }
    match retyped(setting.alloc, setting.core, of, &constant.value)? {
        None => Ok(refuse(sink, LanguageRule::OutOfRange, place)),
        Some(value) => Ok(Some(Initial::Value(value))),
    }
}

/// Where a list has not as many parts as are needed.
fn wrong_count(bracket: Place, count: u64, items: &[Initializer]) -> Option<Place>
    ensures { result ≡ wrong_count bracket count (starts (initials_of items.now)) }
{
    if (items.len() as u64) < count {
        return Some(bracket);
    }
    match items.get(count as usize) {
        None => None,
        Some(item) => Some(start_of_initial(item)),
    }
}

/// The same of a list of one part.
fn wrong_one(bracket: Place, count: u64, start: Place) -> Option<Place>
    ensures { result ≡ wrong_count bracket count (start ∷ []) }
{
    match count {
        0 => Some(start),
        1 => None,
        _ => Some(bracket),
    }
}

/// The parts as a list, unless it has not as many as are needed, which is rule 20 at a place.
fn unless_wrong(
    sink: &mut FirstRefusal,
    wrong: Option<Place>,
    typed: Option<Vec<Initial>>,
) -> Option<Initial>
    ensures { Reports (unless_wrong wrong (values_in typed)) sink.old sink.new (option_map first_value_of result) }
{
    match wrong {
        None => joined(typed),
        Some(place) => refuse(sink, LanguageRule::NotAssignable, place),
    }
}

/// The same of a list of one part.
fn one_part(
    alloc: Global,
    sink: &mut FirstRefusal,
    wrong: Option<Place>,
    part: Option<Initial>,
) -> First
    ensures { IfOk result (λ v. Reports (unless_wrong wrong (option_map one_value (option_map first_value_of part))) sink.old sink.new (option_map first_value_of v)) }
{
    match (wrong, part) {
        (Some(place), _) => Ok(refuse(sink, LanguageRule::NotAssignable, place)),
        (None, None) => Ok(None),
        (None, Some(value)) => {
            let mut list = Vec::new(alloc);
            list.push(value)?;
            Ok(Some(Initial::Parts(list)))
        }
    }
}

fn joined(typed: Option<Vec<Initial>>) -> Option<Initial>
    ensures { option_map first_value_of result ≡ option_map parts (values_in typed) }
{
    match typed {
        None => None,
        Some(list) => Some(Initial::Parts(list)),
    }
}

/// The first token of a first value.
fn start_of_initial(value: &Initializer) -> Place
    ensures { result ≡ start_of_initial (initial_of value.now) }
{
    match value {
        Initializer::Value(e) => start_of(e),
        Initializer::List { position, .. } | Initializer::Record { position, .. } => {
            position.place
        }
    }
}

/// Puts a part behind those of a list. A list with a part that is not typed is none.
fn collect<T: Drop>(list: &mut Option<Vec<T>>, part: Option<T>) -> Result<(), NoMemory>
    ensures { IfOk result (λ _. items_of list.new ≡ with_last (items_of list.old) part) }
{
    match (list.take(), part) {
        (Some(parts), Some(part)) => {
            let mut parts = parts;
            parts.push(part)?;
            *list = Some(parts);
            Ok(())
        }
        _ => Ok(()),
    }
}
