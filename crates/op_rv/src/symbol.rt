//! The names of code that has no addresses yet: numbers, each counted from 0.

/// A block of a routine. A routine begins at its block 0.
#[derive(Clone, Copy)]
pub struct BlockId(pub u32);

#[derive(Clone, Copy)]
pub struct RoutineId(pub u32);

/// The bytes of a string constant.
#[derive(Clone, Copy)]
pub struct LiteralId(pub u32);

/// A table of methods or of interfaces.
#[derive(Clone, Copy)]
pub struct TableId(pub u32);

/// A type or class descriptor.
#[derive(Clone, Copy)]
pub struct DescriptorId(pub u32);

#[derive(Clone, Copy)]
pub struct GlobalId(pub u32);

/// What has an address that is known once the program is linked.
#[derive(Clone, Copy)]
pub enum Symbol {
    Literal(LiteralId),
    Table(TableId),
    Descriptor(DescriptorId),
    Global(GlobalId),
    Routine(RoutineId),
}
