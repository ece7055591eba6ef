//! What a tree keeps of single tokens.
use op_base::Place;
use op_scan::{CompactText, Switches};

/// Where a token stands, and the switches there. Later passes report there.
#[derive(Clone, Copy)]
pub struct Position {
    pub place: Place,
    pub switches: Switches,
}

/// An identifier, as it is written.
#[derive(Drop)]
pub struct Name {
    pub text: CompactText,
    pub position: Position,
}

/// A name, or a name of a unit's interface behind that unit's name and a dot.
#[derive(Drop)]
pub struct QualifiedName {
    pub unit: Option<Name>,
    pub name: Name,
}
