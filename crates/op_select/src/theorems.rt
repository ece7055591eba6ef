//! What is proved of selected code, each as the contract of a function without code.

ghost use Rattle.op_rv.specs.State.{State};
ghost use Rattle.op_select.specs.Example.{example_setting};
ghost use Rattle.op_select.specs.Going.{IsSetting, Setting, placement_of};
ghost use Rattle.op_select.specs.Selected.{selected};
ghost use Rattle.op_select.specs.Starting.{Begins, EndsAlike, Starts, start_in};
ghost use Rattle.op_low.specs.Machine.{NeverBad, low_machine};
ghost use Rattle.op_low.specs.State.{Ending};
ghost use Rattle.op_simulation.specs.Matching.{Follows};
ghost use Rattle.op_simulation.specs.System.{run};
ghost use Rattle.std.specs.Prelude.{◌≡◌, List, ℕ};

/// Selected code that stands in memory goes along with low code: one step of low code is one or more steps of the machine,
/// with the same events, at most 32 for a cost of one, and the machine does not fault.
pub fn selected_code_goes_along()
    ensures { (w : Setting) → IsSetting w → Follows (selected w) }
{}

/// From the head of the entry routine on, with an empty stack, it comes to where low code begins.
pub fn selected_code_begins()
    ensures { (w : Setting) → IsSetting w → (memory : ℕ → ℕ) (input : List ℕ) (b : State) → Starts w memory input b → Begins w memory input b }
{}

/// Where low code ends, the machine ends with the same status, and has written the same.
pub fn selected_code_ends()
    ensures { (w : Setting) → IsSetting w → (memory : ℕ → ℕ) (input : List ℕ) (b : State) → Starts w memory input b → NeverBad w.low (placement_of w) (start_in w memory input) → (n status : ℕ) → (run (low_machine w.low (placement_of w)) n (start_in w memory input)).ending ≡ Ending.Ended status → EndsAlike status (run (low_machine w.low (placement_of w)) n (start_in w memory input)) b }
{}

/// The law that the others ask of where code and stack lie is met by an example.
pub fn example_is_placed()
    ensures { IsSetting example_setting }
{}
