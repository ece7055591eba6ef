//! For op_parse_decl: the readers that declarations share with statements. Each reads a part at the front of the tokens, at
//! the depth that is left, and gives what stands behind it.
pub use crate::chain::{chain, operations};
pub use crate::compound::statements;
pub use crate::designator::selectors;
pub use crate::error::{left_out, nested, syntax, told};
pub use crate::factor::enter;
pub use crate::mark::{Mark, after_mark, behind_mark};
pub use crate::nodes::{bracketed_node, chain_node, designator_node, fitted};
pub use crate::token::{is_identifier, is_number, is_word, name, position_of, spelled};
