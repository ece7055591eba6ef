//! Where an expression stands.
use crate::Visible;
use op_core::Core;
use std::alloc::Global;

/// What the parts of an expression are checked against, and where memory comes from.
#[derive(Clone, Copy)]
pub struct Setting<'a> {
    pub alloc: Global,
    pub core: &'a Core,
    pub visible: &'a Visible,
}
