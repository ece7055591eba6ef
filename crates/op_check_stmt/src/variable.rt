//! The variables of loops.
ghost use Rattle.std.specs.Prelude.{◌≡◌, IfOk};
ghost use Rattle.std.specs.Option.{option_copied};
ghost use Rattle.op_check_expr.specs.Scopes.{here_of};
ghost use Rattle.op_judgement.specs.Judgement.{Reports};
ghost use Rattle.op_check_stmt.specs.Variable.{counter, counter_means, counter_named, host_of, is_ordinal};
ghost use Rattle.op_types.specs.Sorts.{sort_of};

use op_base::{NoMemory, Place};
use op_check_expr::Checker;
use op_core::{Core, CoreType, FirstRefusal, TypeId, VariableId, type_at};
use op_judgement::{LanguageRule, refuse};
use op_tree::Name;
use op_types::{Meaning, Sort, sort_of};

/// The variable of a `for`, and the type of its bounds.
#[derive(Clone, Copy)]
pub struct Counter {
    pub variable: VariableId,
    pub bounds: TypeId,
}

/// What the name behind `for` stands for: rule 15 where it is unknown, 16 where it is no variable, 23 where that is not ordinal,
/// 29 where it cannot be written.
#[inline(never)]
pub fn check_counter(
    here: Checker,
    sink: &mut FirstRefusal,
    name: &Name,
) -> Result<Option<Counter>, NoMemory>
    ensures { IfOk result (Reports (counter (here_of here.entry.scope) name.now) sink.old sink.new) }
{
    let meaning = here.scope.visible.look_up(name.text.as_slice())?;
    Ok(counter_named(here, sink, name.position.place, meaning))
}

fn counter_named(
    here: Checker,
    sink: &mut FirstRefusal,
    place: Place,
    meaning: Option<&Meaning>,
) -> Option<Counter>
    ensures { Reports (counter_named (here_of here.entry.scope) place (option_copied meaning.entry)) sink.old sink.new result }
{
    match meaning {
        None => refuse(sink, LanguageRule::UnknownName, place),
        Some(Meaning::Spoiled) => None,
        Some(Meaning::Variable { id, .. }) => {
            let variable = here.scope.core.variables.as_slice().get(id.0 as usize)?;
            counter_of(
                here.scope.core,
                sink,
                place,
                *id,
                variable.of,
                here.is_writable_variable(*id),
            )
        }
        Some(_) => refuse(sink, LanguageRule::WrongKindOfName, place),
    }
}

/// A variable of a type as the variable of a loop.
fn counter_of(
    core: &Core,
    sink: &mut FirstRefusal,
    place: Place,
    variable: VariableId,
    of: TypeId,
    is_writable: bool,
) -> Option<Counter>
    ensures { Reports (counter_means core.now place variable of is_writable) sink.old sink.new result }
{
    if !is_ordinal(sort_of(core, of)) {
        return refuse(sink, LanguageRule::NotOrdinal, place);
    }
    if !is_writable {
        return refuse(sink, LanguageRule::NotWritable, place);
    }
    let bounds = host_of(core, of);
    Some(Counter { variable, bounds })
}

pub fn is_ordinal(sort: Sort) -> bool
    ensures { result ≡ is_ordinal sort }
{
    matches!(sort, Sort::Ordinal(_))
}

/// The type in which values of an ordinal type are counted and compared: Integer, or the one that a subrange is of.
pub fn host_of(core: &Core, of: TypeId) -> TypeId
    ensures { result ≡ host_of core.now of }
{
    match type_at(core, of) {
        Some(CoreType::Integer(_)) => TypeId::INTEGER,
        Some(CoreType::Subrange { base, .. }) => base,
        _ => of,
    }
}
