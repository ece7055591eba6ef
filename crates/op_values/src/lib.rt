//! What statements are made into, as it lies in memory, and the values that expressions give: the ground of what makes the items of op_semantics.
//!
//! Actions, operands, paths, temporaries and items have one type each, and `specs/View.antt` says which of the source machine's each one is.
//! A function appends items to a list. Its contract says which ones these are (`Adds`), and where the value is then (`Gives`).
#![tactic(auto)]

mod action;
mod adding;
mod found;
mod given;
mod ids;
mod instance;
mod item;
mod law;
mod operand;
mod path;
mod setting;
mod shape;
mod temporary;
mod value;

pub use action::{Action, Computation, Destination, Operand};
pub use found::{Found, Now, operand_of, path_of};
pub use given::{Given, Receiver};
pub use ids::{LocalId, TemporaryId};
pub use instance::field_of_class;
pub use item::{Case, Clause, Item, Turns, Way};
pub use law::item_nodes;
pub use operand::{one, three, two};
pub use path::{
    Path, Root, Step, copy_of, held_path, path_to, refers, root_of, variables_of, whole_path,
    with_step,
};
pub use setting::{Here, Setting, behind, next, sum};
pub use shape::{
    Shape, counted_of, element_of, field_number, high_in, host, is_managed, is_open, kind_of,
    low_in, number, shape_of, type_of, type_of_variable,
};
pub use temporary::Temporary;
