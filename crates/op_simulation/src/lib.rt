//! Machines and simulation: what it means that one machine goes along with another one, and what follows from it.
//!
//! This crate has no code that runs. Its definitions and lemmas are what the passes of the compiler are stated and proved
//! by. Each function here carries one theorem in its contract, for any machines, and takes and answers nothing.
#![tactic(auto)]

mod beside;
mod layers;
mod theorems;

pub use beside::{FoldedLayer, folds_lift};
pub use layers::{Layer, Machine, Restated, TwoLayers, Watched, WatchedLayer};
pub use theorems::{
    counter_in_four_steps, ends_are_above, facts_hold_below, facts_stay, moments_hold, one_end,
    path_is_stretch, paths_join, points_pass, runs_agree, simulation_restated, simulations_compose,
};
