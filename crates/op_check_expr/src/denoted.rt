//! What names stand for in an expression, and members of it.
ghost use Rattle.std.specs.Prelude.{◌≡◌, IfOk, slice_get};
ghost use Rattle.std.specs.Option.{option_copied, option_map};
ghost use Rattle.op_core.specs.Expression.{expr_of};
ghost use Rattle.op_judgement.specs.Judgement.{Reports, checked, fine};
ghost use Rattle.op_check_expr.specs.Naming.{denoted, denoted_of, feature_of, feature_of_type, field_at, field_named, field_of, meant_of, named, number_at, variable_named, variable_tree};
ghost use Rattle.op_check_expr.specs.Values.{value_of};
ghost use Rattle.op_check_expr.specs.Parts.{by_feature};

use crate::tree::then;
use crate::value::Value;
use op_base::{NoMemory, Text};
use op_core::{
    Action, Core, CoreExpr, CoreType, Field, FieldId, FirstRefusal, Function, Root, RoutineId, Run,
    TypeId, VariableId, type_at,
};
use op_judgement::{Feature, LanguageRule, refuse};
use op_tree::{Name, Position};
use op_types::{BuiltIn, Meaning, Setting};
use std::alloc::Global;

/// What a name stands for, or what is selected of it.
#[derive(Drop)]
pub enum Meant {
    Value(Value),
    Routine(RoutineId),
    TypeName(TypeId),
    /// A unit, by its name.
    Unit(Text),
    BuiltIn(BuiltIn),
}

/// The same, with the position of the name that it was last named by.
#[derive(Drop)]
pub struct Denoted {
    pub position: Position,
    pub what: Meant,
}

/// What is found of a designator; None where a rule is broken in it.
pub type Found = Result<Option<Denoted>, NoMemory>;

/// What a name stands for that is spelled so and stands at a position.
pub fn named(
    setting: Setting,
    sink: &mut FirstRefusal,
    name: &[u8],
    position: Position,
    meaning: Option<&Meaning>,
) -> Found
    ensures { IfOk result (λ d. Reports (named setting.entry.core.now name.now position (option_copied meaning.entry)) sink.old sink.new (option_map denoted_of d)) }
{
    let place = position.place;
    match meaning {
        None => Ok(refuse(sink, LanguageRule::UnknownName, place)),
        Some(Meaning::Spoiled) => Ok(None),
        Some(Meaning::Constant(_)) => match setting.name(sink, place, meaning)? {
            Some(Some(constant)) => Ok(Some(Denoted {
                position,
                what: Meant::Value(Value::Constant(constant)),
            })),
            _ => Ok(None),
        },
        Some(Meaning::Variable { id, .. }) => {
            Ok(variable_named(setting.alloc, setting.core, position, *id))
        }
        Some(Meaning::TypeName(of)) => {
            let feature = feature_of_type(type_at(setting.core, *of));
            Ok(unless(sink, feature, position, Meant::TypeName(*of)))
        }
        Some(Meaning::Routine(id)) => Ok(Some(Denoted {
            position,
            what: Meant::Routine(*id),
        })),
        Some(Meaning::Unit(_)) => {
            let what = Meant::Unit(Text::copy_of(setting.alloc, name)?);
            Ok(Some(Denoted { position, what }))
        }
        Some(Meaning::BuiltIn(b)) => {
            Ok(unless(sink, feature_of(*b), position, Meant::BuiltIn(*b)))
        }
    }
}

/// What stands at a position, unless it shows a feature that is left out.
fn unless(
    sink: &mut FirstRefusal,
    feature: Option<Feature>,
    position: Position,
    what: Meant,
) -> Option<Denoted>
    ensures { Reports (by_feature position.place feature (fine (denoted position (meant_of what)))) sink.old sink.new (option_map denoted_of result) }
{
    match feature {
        Some(feature) => refuse(sink, LanguageRule::NotInProfile(feature), position.place),
        None => Some(Denoted { position, what }),
    }
}

fn variable_named(alloc: Global, core: &Core, position: Position, id: VariableId) -> Option<Denoted>
    ensures { option_map denoted_of result ≡ (checked (variable_named position id (slice_get core.now.variables id.0))).typed }
{
    let variable = core.variables.as_slice().get(id.0 as usize)?;
    let e = variable_tree(alloc, id, variable.of);
    Some(Denoted {
        position,
        what: Meant::Value(Value::Computed(e)),
    })
}

/// A variable by its name.
pub fn variable_tree(alloc: Global, id: VariableId, of: TypeId) -> CoreExpr
    ensures { expr_of result ≡ variable_tree id of }
{
    CoreExpr::new(alloc, Root::Variable(id), of)
}

/// The feature that a built-in name shows.
fn feature_of(b: BuiltIn) -> Option<Feature>
    ensures { result ≡ feature_of b }
{
    match b {
        BuiltIn::Read
        | BuiltIn::ReadLn
        | BuiltIn::Eof
        | BuiltIn::Eoln
        | BuiltIn::SetLength
        | BuiltIn::Copy
        | BuiltIn::Val
        | BuiltIn::Str
        | BuiltIn::Pos
        | BuiltIn::Delete
        | BuiltIn::Insert
        | BuiltIn::StringOfChar => Some(Feature::Strings),
        BuiltIn::Function(Function::Assigned) => Some(Feature::DynamicArrays),
        BuiltIn::LeftOut(feature) => Some(feature),
        _ => None,
    }
}

/// The feature that the name of a built-in type shows.
pub fn feature_of_type(of: Option<CoreType>) -> Option<Feature>
    ensures { result ≡ feature_of_type of }
{
    match of {
        Some(CoreType::String) => Some(Feature::Strings),
        Some(CoreType::Class(id)) => match id.0 {
            0 => Some(Feature::Classes),
            1 => Some(Feature::Interfaces),
            _ => None,
        },
        Some(CoreType::Interface(id)) => (id.0 == 0).then_some(Feature::Interfaces),
        _ => None,
    }
}

/// A field of a value, by its name.
pub fn field_of(
    alloc: Global,
    core: &Core,
    sink: &mut FirstRefusal,
    name: &Name,
    value: Value,
) -> Found
    ensures { IfOk result (λ d. Reports (field_of core.now name.now (value_of value)) sink.old sink.new (option_map denoted_of d)) }
{
    let of = type_at(core, value.type_of());
    let Some((id, of)) = field_named(core, name.text.as_slice(), of)? else {
        return Ok(refuse(sink, LanguageRule::NoMember, name.position.place));
    };
    let e = then(value.into_tree(alloc), Action::Field(id), of)?;
    Ok(Some(Denoted {
        position: name.position,
        what: Meant::Value(Value::Computed(e)),
    }))
}

/// The field of a record by its name, and its type.
fn field_named(
    core: &Core,
    name: &[u8],
    of: Option<CoreType>,
) -> Result<Option<(FieldId, TypeId)>, NoMemory>
    ensures { IfOk result (λ f. f ≡ field_named core.now name.now of) }
{
    match of {
        Some(CoreType::Record { fields }) => match core.fields.position_named(fields, name)? {
            Some(k) => Ok(field_at(core.fields.rows(fields), fields, k)),
            None => Ok(None),
        },
        _ => Ok(None),
    }
}

/// The number of a row among those that lie together, where it has no more than 32 bits.
pub fn number_at(run: Run, k: usize) -> Option<u32>
    ensures { result ≡ number_at run k }
{
    u32::try_from((run.first as usize).saturating_add(k)).ok()
}

fn field_at(rows: &[Field], run: Run, k: usize) -> Option<(FieldId, TypeId)>
    ensures { result ≡ field_at rows.now run k }
{
    let number = number_at(run, k)?;
    let field = rows.get(k)?;
    Some((FieldId(number), field.of))
}
