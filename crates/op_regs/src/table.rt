//! Tables of what may be missing.
ghost use Rattle.op_regs.specs.Tables.{entry};
ghost use Rattle.std.specs.Prelude.{◌≡◌};

/// What a table has at a place, nothing beyond its end.
pub fn entry<T: Copy>(table: &[Option<T>], place: usize) -> Option<T>
    ensures { result ≡ entry table.now place }
{
    match table.get(place) {
        None => None,
        Some(item) => *item,
    }
}
