//! What is proved of the routines and of calls of them, each as the contract of a function without code.
ghost use Rattle.op_heap.specs.Heap.{Heap};
ghost use Rattle.op_low.specs.State.{Ended, Placement, State};
ghost use Rattle.op_low.specs.Valid.{is_valid_routine};
ghost use Rattle.op_low.specs.declared.code.Low.{Low};
ghost use Rattle.op_low.specs.declared.instruction.Call.{Call};
ghost use Rattle.op_low.specs.declared.instruction.Instruction.{Instruction};
ghost use Rattle.op_rt_heap.specs.Claims.{BlockIsGiven, BlockIsRefused, BlockIsTaken, HeapBegins, SlotIsFound, SlotIsFreed, SlotIsIssued, SlotIsRefused};
ghost use Rattle.op_rt_heap.specs.Example.{ended, routines};
ghost use Rattle.std.specs.List.{list_all};
ghost use Rattle.std.specs.Prelude.{◌≡◌, ◌<◌, List, true, ℕ};

/// The routine with which a program begins makes one hole of the heap, with no slot issued.
pub fn heap_begins()
    ensures begins { HeapBegins }
{}

/// The routine that takes a block takes it from the front of the first hole that is large enough, or ends the program with run-time error 203 where
/// none is. It takes at most 96 steps and 6 a hole, at that cost.
pub fn blocks_are_taken()
    ensures taken { (low : Low) (p : Placement) (m : State) (r : ℕ) (operands : Call) (rest : List Instruction) (kinds : ℕ → ℕ) (h : Heap) → BlockIsTaken low p m r operands rest kinds h }
    ensures refused { (low : Low) (p : Placement) (m : State) (r : ℕ) (operands : Call) (rest : List Instruction) (kinds : ℕ → ℕ) (h : Heap) → BlockIsRefused low p m r operands rest kinds h }
{}

/// The routine that gives a block back takes it out of the heap. It takes at most 96 steps and 6 a hole, at that cost.
pub fn blocks_are_given_back()
    ensures given { (low : Low) (p : Placement) (m : State) (r : ℕ) (operands : Call) (rest : List Instruction) (kinds : ℕ → ℕ) (h : Heap) → BlockIsGiven low p m r operands rest kinds h }
{}

/// The routine that tests for a slot changes nothing, and ends the program with run-time error 203 where none can be issued.
pub fn slots_are_tested()
    ensures found { (low : Low) (p : Placement) (m : State) (r : ℕ) (operands : Call) (rest : List Instruction) (h : Heap) → SlotIsFound low p m r operands rest h }
    ensures refused { (low : Low) (p : Placement) (m : State) (r : ℕ) (operands : Call) (rest : List Instruction) (h : Heap) → SlotIsRefused low p m r operands rest h }
{}

/// The routine that issues a slot issues the one that was freed last, or the least that was never issued.
pub fn slots_are_issued()
    ensures issued { (low : Low) (p : Placement) (m : State) (r : ℕ) (operands : Call) (rest : List Instruction) (h : Heap) → SlotIsIssued low p m r operands rest h }
{}

/// The routine that gives a slot back makes it the next one, or retires it.
pub fn slots_are_given_back()
    ensures freed { (low : Low) (p : Placement) (m : State) (r : ℕ) (operands : Call) (rest : List Instruction) (h : Heap) → SlotIsFreed low p m r operands rest h }
{}

/// The routines are valid in each program that has the literal of the error.
pub fn routines_are_valid()
    ensures valid { (low : Low) → 7 < low.counts.literals → list_all (is_valid_routine low) routines ≡ true }
{}

/// Where the last of some blocks goes, after three were taken and the first two given back.
pub fn examples_run()
    ensures merged { (ended 81).ending ≡ Ended 0 }
    ensures behind_third { (ended 98).ending ≡ Ended 9 }
    ensures no_hole { (ended 1025).ending ≡ Ended 203 }
{}
