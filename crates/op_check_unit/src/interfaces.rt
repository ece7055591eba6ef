//! The order in which the interface parts of units are declared.
ghost use Rattle.std.specs.Prelude.{◌≡◌, IfOk, map};
ghost use Rattle.std.specs.Option.{option_copied, option_map};
ghost use Rattle.op_check_unit.specs.Interfaces.{interface_order, interface_uses, unit_at, visited, visited_by};
ghost use Rattle.op_tree.specs.File.{file_of, unit_of};

use crate::reached::Reached;
use crate::unit_names::{UnitFiles, UnitNames};
use op_base::{NoMemory, Text};
use op_tree::{Name, Unit};
use std::alloc::Global;

/// The numbers of all units, each behind those of the units that its interface part uses.
pub fn interface_order(
    alloc: Global,
    order: &[Text],
    files: &UnitFiles,
) -> Result<Reached, NoMemory>
    ensures { IfOk result (λ numbers. numbers ≡ interface_order order.now (map file_of files.now.trees.now)) }
{
    let names = UnitNames::new(alloc, order)?;
    let mut numbers = Reached::none(alloc, order.len())?;
    for number in 0..order.len() {
        visit(order.len(), &names, files, number, &mut numbers)?;
    }
    Ok(numbers)
}

/// Puts the number of a unit behind those of the units that its interface part uses, unless it is there; so many steps deep at most.
fn visit(
    depth: usize,
    order: &UnitNames,
    files: &UnitFiles,
    number: usize,
    so_far: &mut Reached,
) -> Result<(), NoMemory>
    ensures { IfOk result (λ _. so_far.new ≡ visited depth order.now (map file_of files.now.trees.now) number so_far.old) }
{
    let Some(less) = depth.checked_sub(1) else {
        return Ok(());
    };
    if so_far.contains(number) {
        return Ok(());
    }
    let unit = unit_at(order.as_slice(), files, number)?;
    for name in interface_uses(unit) {
        if let Some(used) = order.number_of(name)? {
            visit(less, order, files, used, so_far)?;
        }
    }
    so_far.push(number)?;
    Ok(())
}

fn interface_uses(unit: Option<&Unit>) -> &[Name]
    ensures { result.now ≡ interface_uses (option_map unit_of (option_copied unit.entry)) }
{
    match unit {
        None => &[],
        Some(unit) => unit.interface_uses.as_slice(),
    }
}

/// The unit of this number.
pub fn unit_at<'a>(
    order: &[Text],
    files: &'a UnitFiles,
    number: usize,
) -> Result<Option<&'a Unit>, NoMemory>
    ensures { IfOk result (λ unit. option_map unit_of (option_copied unit) ≡ unit_at order.now (map file_of files.now.trees.now) number) }
{
    match order.get(number) {
        None => Ok(None),
        Some(name) => files.unit_named(name.as_slice()),
    }
}
