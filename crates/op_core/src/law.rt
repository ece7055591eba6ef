//! Laws of typed trees.
ghost use Rattle.op_core.specs.Nodes.{ListNodes};

/// What a node with a list says is what the list's parts say.
pub fn list_nodes()
    ensures { ListNodes }
{}
