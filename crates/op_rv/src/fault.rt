//! Why a step is refused.

/// The kinds of fault. A fault changes nothing, and its pc is that of the instruction.
#[derive(Clone, Copy, Debug, PartialEq, Eq)]
pub enum FaultKind {
    /// The pc is no multiple of 4, or the word there is not executable.
    Fetch,
    /// The word is no instruction.
    Illegal,
    /// A load that is misaligned or outside what is readable.
    Load,
    /// A store that is misaligned or outside what is writable.
    Store,
    /// An environment call with a number or a descriptor that is not listed.
    Call,
    /// EBREAK.
    Break,
}
