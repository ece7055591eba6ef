//! Classes and interfaces.
use crate::{Fields, Method, Name, Names, TypeDenoter};
use op_scan::CompactText;

#[derive(Clone, Copy)]
pub enum Visibility {
    Private,
    Protected,
    Public,
    Published,
}

/// A class, with the names of its ancestor and its interfaces as they are listed.
#[derive(Drop)]
pub struct Class {
    pub ancestors: Names,
    pub sections: Vec<Section>,
}

/// Members of one visibility. Only the first section may have none written, and then has a member.
#[derive(Drop)]
pub struct Section {
    pub visibility: Option<Visibility>,
    pub members: Vec<Member>,
}

#[derive(Drop)]
pub enum Member {
    Fields(Fields),
    Method(Method),
    Property(Property),
}

#[derive(Drop)]
pub struct Property {
    pub name: Name,
    pub denoter: TypeDenoter,
    pub read: Option<Name>,
    pub write: Option<Name>,
}

/// An interface. `identifier` is the text in square brackets.
#[derive(Drop)]
pub struct Interface {
    pub ancestor: Option<Name>,
    pub identifier: Option<CompactText>,
    pub methods: Vec<Method>,
}
