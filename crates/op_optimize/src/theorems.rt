//! What is proved of runs of code that is made shorter, each as the contract of a function without code.

ghost use Rattle.op_low.specs.Machine.{NeverBad, start};
ghost use Rattle.op_low.specs.State.{Placement, State};
ghost use Rattle.op_low.specs.Valid.{is_valid};
ghost use Rattle.op_low.specs.declared.code.Low.{Low};
ghost use Rattle.op_low.specs.declared.code.Routine.{Routine};
ghost use Rattle.op_optimize.specs.Optimizing.{Optimizes};
ghost use Rattle.op_optimize.specs.Programs.{EachRoutine};
ghost use Rattle.op_optimize.specs.Renaming.{RenamesRoutine};
ghost use Rattle.op_optimize.specs.Shortening.{Shortens};
ghost use Rattle.op_optimize.specs.Thinning.{ThinsRoutine, ThinsRoutines};
ghost use Rattle.std.specs.Prelude.{List, true, ◌≡◌, ℕ};

/// Runs that are made shorter twice are made shorter.
pub fn shortenings_compose()
    ensures { (low middle better : Low) (p : Placement) (a b c : State) → Shortens low middle p a b → Shortens middle better p b c → Shortens low better p a c }
{}

/// Code whose registers have other names does the same in no more steps.
pub fn renaming_shortens()
    ensures runs { (low better : Low) (p : Placement) → EachRoutine RenamesRoutine low better → is_valid low ≡ true → (bottom room : ℕ) (memory : ℕ → ℕ) (input : List ℕ) → NeverBad low p (start low p bottom room memory input) → Shortens low better p (start low p bottom room memory input) (start better p bottom room memory input) }
    ensures valid { (low better : Low) → EachRoutine RenamesRoutine low better → is_valid low ≡ true → is_valid better ≡ true }
    ensures thins { (routine better : Routine) → RenamesRoutine routine better → ThinsRoutine routine better }
    ensures thins_each { (low better : Low) → EachRoutine RenamesRoutine low better → ThinsRoutines low.routines better.routines }
{}

/// What the optimizer makes of a program does the same in no more steps, is valid where that is, and has no more of anything.
pub fn optimized_code_shortens()
    ensures runs { (low better : Low) (p : Placement) → Optimizes low better → is_valid low ≡ true → (bottom room : ℕ) (memory : ℕ → ℕ) (input : List ℕ) → NeverBad low p (start low p bottom room memory input) → Shortens low better p (start low p bottom room memory input) (start better p bottom room memory input) }
    ensures valid { (low better : Low) → Optimizes low better → is_valid low ≡ true → is_valid better ≡ true }
    ensures thins { (low better : Low) → Optimizes low better → ThinsRoutines low.routines better.routines }
{}
