//! The fields of an instance: those of its ancestors first, in order of declaration ("Classes" of the Free Pascal Reference Guide).
ghost use Rattle.std.specs.Prelude.{◌≡◌, ◌+◌, ◌-◌, ◌&&◌, suc, nat_le, nat_lt, IfOk, length};
ghost use Rattle.op_semantics.specs.Shapes.{declared_within, field_of_class, fields_of_class, fields_within};

use crate::setting::sum;
use op_base::NoMemory;
use op_core::{Class, ClassId, Core, FieldId, Run};

/// Which part of an instance of the class the field is.
pub fn field_of_class(core: &Core, class: ClassId, field: FieldId) -> Result<u32, NoMemory>
    ensures { IfOk result (λ n. n ≡ field_of_class core.now class field) }
{
    declared_within(core.classes.as_slice(), core, class, field)
}

/// Which part it is where the class or one of its ancestors, in no more steps than are given, declares it.
fn declared_within(
    steps: &[Class],
    core: &Core,
    class: ClassId,
    field: FieldId,
) -> Result<u32, NoMemory>
    ensures { IfOk result (λ n. n ≡ declared_within (suc (length steps.now)) core.now field class) }
{
    let Some(row) = core.classes.as_slice().get(class.0 as usize) else {
        return Ok(0);
    };
    if is_among(row.fields, field) {
        return own_part(core, class, row.fields, field);
    }
    let Some(ancestor) = row.ancestor else {
        return Ok(0);
    };
    let Some((_, steps)) = steps.split_first() else {
        return Ok(0);
    };
    declared_within(steps, core, ancestor, field)
}

fn is_among(run: Run, field: FieldId) -> bool
    ensures { result ≡ (nat_le run.first field.0 && nat_lt field.0 (run.first + run.count)) }
{
    run.first <= field.0 && (field.0 as u64) < run.first as u64 + run.count as u64
}

/// Of a field that the class itself declares.
fn own_part(core: &Core, class: ClassId, run: Run, field: FieldId) -> Result<u32, NoMemory>
    ensures { IfOk result (λ n. n ≡ length (fields_of_class core.now class) - run.count + (field.0 - run.first)) }
{
    let count = fields_within(core.classes.as_slice(), core, class, 0)?;
    sum(
        count.saturating_sub(run.count),
        field.0.saturating_sub(run.first),
    )
}

/// How many fields the class and its ancestors have, in no more steps than are given, and so many others.
fn fields_within(steps: &[Class], core: &Core, class: ClassId, others: u32) -> Result<u32, NoMemory>
    ensures { IfOk result (λ n. n ≡ others + length (fields_within (suc (length steps.now)) core.now class)) }
{
    let Some(row) = core.classes.as_slice().get(class.0 as usize) else {
        return Ok(others);
    };
    let own = u32::try_from(core.fields.rows(row.fields).len()).map_err(|_| NoMemory)?;
    let so_far = sum(others, own)?;
    let Some(ancestor) = row.ancestor else {
        return Ok(so_far);
    };
    let Some((_, steps)) = steps.split_first() else {
        return Ok(so_far);
    };
    fields_within(steps, core, ancestor, so_far)
}
