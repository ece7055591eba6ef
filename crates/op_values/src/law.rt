//! Laws of items.
ghost use Rattle.std.specs.Prelude.{ℕ};
ghost use Rattle.op_core.specs.declared.program.Core.{Core};
ghost use Rattle.op_values.specs.Nodes.{ItemNodes};

/// What an item with a list says is what the list's items say.
pub fn item_nodes()
    ensures { (core : Core) (r : ℕ) → ItemNodes core r }
{}
