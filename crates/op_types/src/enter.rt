//! Entering types into the tables of a program.
ghost use Rattle.std.specs.Prelude.{◌≡◌, IfOk, length};
ghost use Rattle.op_core.specs.Sizes.{IsBehind, KeepsExtents};
ghost use Rattle.op_core.specs.Types.{predefined};
ghost use Rattle.op_types.specs.Entering.{entered, sets_of, with_type, with_types};

use op_base::NoMemory;
use op_core::{Core, CoreType, IntegerKind, TypeId, extent_by};
use std::alloc::Global;

/// Enters a type behind the others, with the extent of its values, and behind it the set types that sets of its values have.
/// Extents stay right where what the type's depends on stands in the tables: the types of its parts, its fields, its interface.
/// After want of memory the core may have some of these rows and lack others.
pub fn enter_type(core: &mut Core, of: CoreType) -> Result<TypeId, NoMemory>
    ensures number { IfOk result (λ id. id.0 ≡ length core.old.types) }
    ensures rows { IfOk result (λ _. core.new ≡ entered core.old of) }
    ensures kept { IfOk result (λ _. KeepsExtents core.old → IsBehind core.old.fields core.old.interfaces (length core.old.types) of → KeepsExtents core.new) }
{
    let id = enter(core, of)?;
    Ok(id)
}

#[tactic(auto, unfolding(crate::specs::Entering::entered))]
fn enter(core: &mut Core, of: CoreType) -> Result<TypeId, NoMemory>
    ensures number { IfOk result (λ id. id.0 ≡ length core.old.types) }
    ensures rows { IfOk result (λ _. core.new ≡ entered core.old of) }
{
    let id = push_type(core, of)?;
    match sets_of(of) {
        Sets::None => Ok(id),
        Sets::OfAll => {
            push_type(core, CoreType::Set { base: id })?;
            Ok(id)
        }
        Sets::OfFirst => {
            let (low, high) = (0, 31);
            let base = push_type(
                core,
                CoreType::Subrange {
                    base: id,
                    low,
                    high,
                },
            )?;
            push_type(core, CoreType::Set { base })?;
            Ok(id)
        }
    }
}

/// Of which values of a type there are sets.
pub enum Sets {
    None,
    OfAll,
    /// Of its first 32 values.
    OfFirst,
}

fn sets_of(of: CoreType) -> Sets
    ensures { result ≡ sets_of of }
{
    match of {
        CoreType::Enumeration { values } => {
            if values <= 32 {
                Sets::OfAll
            } else {
                Sets::OfFirst
            }
        }
        CoreType::Subrange { low, high, .. } => {
            if 0 <= low && high <= 31 {
                Sets::OfAll
            } else {
                Sets::None
            }
        }
        _ => Sets::None,
    }
}

/// The program of nothing but the predefined types, which have the numbers of `TypeId`'s constants.
pub fn predefined(alloc: Global) -> Result<Core, NoMemory>
    ensures types { IfOk result (λ core. core.types ≡ predefined) }
    ensures kept { IfOk result KeepsExtents }
{
    let mut core = Core::new(alloc);
    let (low, high) = (0, 31);
    enter_all(
        &mut core,
        &[
            CoreType::Integer(IntegerKind::Signed8),
            CoreType::Integer(IntegerKind::Unsigned8),
            CoreType::Integer(IntegerKind::Signed16),
            CoreType::Integer(IntegerKind::Unsigned16),
            CoreType::Integer(IntegerKind::Signed32),
            CoreType::Boolean,
            CoreType::Char,
            CoreType::String,
            CoreType::Nil,
            CoreType::Nothing,
            CoreType::EmptySet,
            CoreType::Subrange {
                base: TypeId::INTEGER,
                low,
                high,
            },
            CoreType::Set {
                base: TypeId::SMALL_INTEGERS,
            },
            CoreType::Subrange {
                base: TypeId::CHAR,
                low,
                high,
            },
            CoreType::Set {
                base: TypeId::SMALL_CHARS,
            },
            CoreType::Set {
                base: TypeId::BOOLEAN,
            },
        ],
    )?;
    Ok(core)
}

/// Enters types one by one.
fn enter_all(core: &mut Core, types: &[CoreType]) -> Result<(), NoMemory>
    ensures { IfOk result (λ _. core.new ≡ with_types core.old types.now) }
{
    for of in types {
        push_type(core, *of)?;
    }
    Ok(())
}

/// Enters a type alone.
fn push_type(core: &mut Core, of: CoreType) -> Result<TypeId, NoMemory>
    ensures number { IfOk result (λ id. id.0 ≡ length core.old.types) }
    ensures row { IfOk result (λ _. core.new ≡ with_type core.old of) }
{
    let Ok(number) = u32::try_from(core.types.as_slice().len()) else {
        return Err(NoMemory);
    };
    let extent = extent_by(core, of);
    core.extents.push(extent)?;
    core.types.push(of)?;
    Ok(TypeId(number))
}
