//! Typed parts that are put together.
ghost use Rattle.std.specs.Prelude.{◌≡◌, IfOk, Some, []};
ghost use Rattle.std.specs.Option.{option_map};
ghost use Rattle.op_check_expr.specs.Parts.{Behind};
ghost use Rattle.op_check_stmt.specs.Parts.{items_of, with_last};

use op_check_expr::Done;
use std::alloc::Global;

/// Puts an empty list there.
#[inline(never)]
pub fn begin<T: Drop>(alloc: Global, list: &mut Option<Vec<T>>)
    ensures { items_of list.new ≡ Some [] }
{
    *list = Some(Vec::new(alloc));
}

/// Puts a part, with the answer that it stands behind, behind those of a list. A list with a part that is not typed is none.
#[inline(never)]
pub fn collect<T: Drop>(list: &mut Option<Vec<T>>, done: Done, part: Option<T>) -> Done
    ensures { IfOk result (λ _. Behind done (items_of list.new ≡ with_last (items_of list.old) part)) }
{
    done?;
    match (list.take(), part) {
        (Some(parts), Some(part)) => {
            let mut parts = parts;
            parts.push(part)?;
            *list = Some(parts);
            Ok(())
        }
        _ => Ok(()),
    }
}

/// Puts a list into a block of its own size, where there is room for one.
#[inline(never)]
pub fn fit<T: Drop>(list: &mut Option<Vec<T>>)
    ensures { items_of list.new ≡ items_of list.old }
{
    *list = fitted(list.take());
}

/// The list in a block of its own size, where there is room for one.
pub fn fitted<T>(list: Option<Vec<T>>) -> Option<Vec<T>>
    ensures { items_of result ≡ items_of list }
{
    match list {
        None => None,
        Some(list) => {
            let mut list = list;
            list.shrink_to_fit();
            Some(list)
        }
    }
}
