//! The theorems, each as the contract of a function without code.

ghost use Rattle.op_simulation.specs.Matching.{Agreement, Between, Follows, Joins, Stretch, Weaker, through};
ghost use Rattle.op_simulation.specs.Path.{Path};
ghost use Rattle.op_simulation.specs.Slowed.{at_rest, counter, in_four_steps};
ghost use Rattle.op_simulation.specs.System.{Always, Halted, run, trace};
ghost use Rattle.std.specs.Prelude.{List, suc, ◌*◌, ◌++◌, ◌+◌, ◌<◌, ◌≡◌, ◌≤◌, ℕ};

use crate::layers::{Layer, Machine, Restated, TwoLayers, Watched, WatchedLayer};

/// Determinism: a machine has one end, and one trace to it.
pub fn one_end<M: Machine>()
    ensures state { (m n : ℕ) (a : M.system.State) → Halted M.system (run M.system m a) → Halted M.system (run M.system n a) → run M.system m a ≡ run M.system n a }
    ensures shown { (m n : ℕ) (a : M.system.State) → Halted M.system (run M.system m a) → Halted M.system (run M.system n a) → trace M.system m a ≡ trace M.system n a }
{}

/// From a simulation to whole runs: the list of agreement points.
pub fn runs_agree<L: Layer>()
    ensures agree { Follows L.matching → Joins L.matching.traces → (a : L.top.State) (b : L.bottom.State) → L.matching.states a b → Agreement L.matching a b }
{}

/// The agreement points rise and pass every step below, and each step lies between two of them.
pub fn points_pass<L: Layer>()
    ensures rise { (a : L.top.State) (b : L.bottom.State) (agrees : Agreement L.matching a b) (n : ℕ) → agrees.point n < agrees.point (suc n) }
    ensures pass { (a : L.top.State) (b : L.bottom.State) (agrees : Agreement L.matching a b) (n : ℕ) → n ≤ agrees.point n }
    ensures between { (a : L.top.State) (b : L.bottom.State) (agrees : Agreement L.matching a b) (k n : ℕ) → k < agrees.point n → (i : ℕ) × (i < n) × Between agrees.point k i }
{}

/// What holds at every step below, with the state above from which that step is done.
pub fn moments_hold<L: Layer>()
    ensures between { (a : L.top.State) (b : L.bottom.State) (agrees : Agreement L.matching a b) (k n : ℕ) → Between agrees.point k n → L.matching.moments (run L.top n a) (run L.bottom k b) }
    ensures always { (a : L.top.State) (b : L.bottom.State) → Agreement L.matching a b → (k : ℕ) → (n : ℕ) × (n ≤ k) × L.matching.moments (run L.top n a) (run L.bottom k b) }
{}

/// A fact that holds for ever holds now and from the next state on.
pub fn facts_stay<W: Watched>()
    ensures here { (a : W.system.State) → Always W.system W.holds a → W.holds a }
    ensures next { (a : W.system.State) → Always W.system W.holds a → Always W.system W.holds (W.system.step a) }
{}

/// What each moment tells of the machine below alone holds there for ever.
pub fn facts_hold_below<L: WatchedLayer>()
    ensures { ((a : L.top.State) (b : L.bottom.State) → L.matching.moments a b → L.holds b) → (a : L.top.State) (b : L.bottom.State) → Agreement L.matching a b → Always L.bottom L.holds b }
{}

/// The other direction: what has ended below stands for a state above, with the trace to it.
pub fn ends_are_above<L: Layer>()
    ensures state { (a : L.top.State) (b : L.bottom.State) → Agreement L.matching a b → (m : ℕ) → Halted L.bottom (run L.bottom m b) → L.matching.states (run L.top m a) (run L.bottom m b) }
    ensures shown { (a : L.top.State) (b : L.bottom.State) → Agreement L.matching a b → (m : ℕ) → Halted L.bottom (run L.bottom m b) → L.matching.traces (trace L.top m a) (trace L.bottom m b) }
{}

/// Paths: a step is one, and two of them are one.
pub fn paths_join<W: Watched>()
    ensures step { (b : W.system.State) → W.holds b → Path W.system W.holds b (W.system.step b) 1 (W.system.shows b) (W.system.cost b) }
    ensures join { (b c d : W.system.State) (m n : ℕ) (xs ys : List W.Event) (p q : ℕ) → Path W.system W.holds b c m xs p → Path W.system W.holds c d n ys q → Path W.system W.holds b d (m + n) (xs ++ ys) (p + q) }
{}

/// A path below from matching states to matching states is a stretch.
pub fn path_is_stretch<L: Layer>()
    ensures { (a : L.top.State) (b c : L.bottom.State) (more : ℕ) (events : List L.Below) (most : ℕ) → Path L.bottom (L.matching.moments a) b c (suc more) events most → L.matching.states (L.top.step a) c → L.matching.traces (L.top.shows a) events → most ≤ L.matching.factor * L.top.cost a → Stretch L.matching a b }
{}

/// Simulations compose.
pub fn simulations_compose<L: TwoLayers>()
    ensures { Follows L.upper → Follows L.lower → Joins L.lower.traces → Follows (through L.upper L.lower) }
{}

/// A simulation may be said with less.
pub fn simulation_restated<L: Restated>()
    ensures { Weaker L.strong L.weak → Follows L.strong → Follows L.weak }
{}

/// The example: a counter whose steps are slowed twice follows the counter, by composition, and so do its runs.
pub fn counter_in_four_steps()
    ensures follows { Follows (in_four_steps counter) }
    ensures agree { (n : ℕ) → Agreement (in_four_steps counter) n (at_rest (at_rest n)) }
{}
