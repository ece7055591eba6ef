//! Laws of the grammar.
ghost use Rattle.op_tree.specs.AtMostOne.{OneClass, OneDenoter, OneExpression, OneFile, OneHeading, OneInitial, OneInterface, OneInterfacePart, OneListOfDeclarations, OneMethod, OneStatement};
ghost use Rattle.op_tree.specs.Lists.{ListNodes};

/// At most one tree of each sort stands at the front of a list of tokens and is whole.
pub fn at_most_one()
    ensures expression { OneExpression }
    ensures statement { OneStatement }
    ensures denoter { OneDenoter }
    ensures initializer { OneInitial }
    ensures heading { OneHeading }
    ensures method { OneMethod }
    ensures class { OneClass }
    ensures interface { OneInterface }
    ensures declarations { OneListOfDeclarations }
    ensures interface_part { OneInterfacePart }
    ensures file { OneFile }
{}

/// What a node with a list says is what the list's parts say.
pub fn list_nodes()
    ensures { ListNodes }
{}
