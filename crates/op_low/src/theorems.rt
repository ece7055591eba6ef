//! What is proved of the machine of low code, each as the contract of a function without code.

ghost use Rattle.op_low.specs.Example.{anywhere, example};
ghost use Rattle.op_low.specs.Machine.{low_machine, start};
ghost use Rattle.op_low.specs.Runs.{RunsValid};
ghost use Rattle.op_low.specs.State.{Ending, Placement, State, goes_on};
ghost use Rattle.op_low.specs.Valid.{is_valid};
ghost use Rattle.op_low.specs.declared.code.Low.{Low};
ghost use Rattle.op_simulation.specs.System.{Halted, run};
ghost use Rattle.std.specs.Prelude.{[], ◌≡◌, List, false, true, ℕ};

/// A machine that has ended, or is bad, stays and shows nothing.
pub fn stopped_machine_halts()
    ensures { (low : Low) (p : Placement) (m : State) → goes_on m.ending ≡ false → Halted (low_machine low p) m }
{}

/// Valid code comes to valid instructions alone, from its beginning on.
pub fn valid_code_runs_valid()
    ensures begins { (low : Low) (p : Placement) → is_valid low ≡ true → (bottom room : ℕ) (memory : ℕ → ℕ) (input : List ℕ) → RunsValid low (start low p bottom room memory input) }
    ensures goes_on { (low : Low) (p : Placement) → is_valid low ≡ true → (n : ℕ) (m : State) → RunsValid low m → RunsValid low (run (low_machine low p) n m) }
{}

/// The example: what it returns, and where it lands when it raises through a routine that has no landing.
pub fn example_runs()
    ensures valid { is_valid (example 20) ≡ true }
    ensures returns { (run (low_machine (example 4) anywhere) 9 (start (example 4) anywhere 4096 1024 (λ _. 0) [])).ending ≡ Ending.Ended 14 }
    ensures raises { (run (low_machine (example 20) anywhere) 9 (start (example 20) anywhere 4096 1024 (λ _. 0) [])).ending ≡ Ending.Ended 7 }
{}
