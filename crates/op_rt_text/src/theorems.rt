//! What is proved of calls of the run-time routines on the machine of low code, each as the contract of a function without code.
ghost use Rattle.op_low.specs.State.{Placement, State};
ghost use Rattle.op_low.specs.Valid.{is_valid_routine};
ghost use Rattle.op_low.specs.declared.code.Low.{Low};
ghost use Rattle.op_low.specs.declared.code.Routine.{Routine};
ghost use Rattle.op_low.specs.declared.instruction.Call.{Call};
ghost use Rattle.op_low.specs.declared.instruction.Instruction.{Instruction};
ghost use Rattle.op_meaning.specs.Texts.{padded, text_of_char, text_of_number, text_of_truth, width_of};
ghost use Rattle.op_rt_text.specs.Example.{ended_call};
ghost use Rattle.op_rt_text.specs.Names.{clear_number, copy_bytes_number, copy_words_number, take_number, write_blanks_number, write_bytes_number, write_char_number, write_number_number, write_truth_number};
ghost use Rattle.op_rt_text.specs.Running.{Allowed, Called, Clearable, Clears, Copies, Copyable, HasTexts, StandsAt, Writes, blank_text};
ghost use Rattle.op_rt_text.specs.Runtime.{runtime_routines};
ghost use Rattle.op_rv.specs.Operation.{signed};
ghost use Rattle.op_rv.specs.State.{bytes_from, word_at};
ghost use Rattle.std.specs.List.{list_all};
ghost use Rattle.std.specs.Prelude.{[], ◌∷◌, ◌++◌, ◌≡◌, ◌<◌, ◌≤◌, ◌%◌, ◌^◌, List, codes, length, true, ℕ};

/// A call of a routine that writes appends exactly the text that is meant to the output, padded with blanks to the width, and comes back
/// with the caller as it was. It takes at most 512 steps more than the text has bytes, at that cost.
pub fn texts_are_written()
    ensures blanks { (low : Low) (p : Placement) (m : State) (operands : Call) (rest : List Instruction) (count : ℕ) → HasTexts p m → Called low p m write_blanks_number (count ∷ []) operands rest → Writes low p m operands rest (blank_text (width_of (signed count))) }
    ensures bytes { (low : Low) (p : Placement) (m : State) (operands : Call) (rest : List Instruction) (at width : ℕ) (text : List ℕ) → HasTexts p m → StandsAt p m at text → length text < 2 ^ 31 → Called low p m write_bytes_number (at ∷ length text ∷ width ∷ []) operands rest → Writes low p m operands rest (padded (width_of (signed width)) text) }
    ensures number { (low : Low) (p : Placement) (m : State) (operands : Call) (rest : List Instruction) (value width : ℕ) → HasTexts p m → Called low p m write_number_number (value ∷ width ∷ []) operands rest → Writes low p m operands rest (padded (width_of (signed width)) (text_of_number (signed value))) }
    ensures truth { (low : Low) (p : Placement) (m : State) (operands : Call) (rest : List Instruction) (value width : ℕ) → HasTexts p m → Called low p m write_truth_number (value ∷ width ∷ []) operands rest → Writes low p m operands rest (padded (width_of (signed width)) (text_of_truth (signed value))) }
    ensures character { (low : Low) (p : Placement) (m : State) (operands : Call) (rest : List Instruction) (value width : ℕ) → HasTexts p m → Called low p m write_char_number (value ∷ width ∷ []) operands rest → Writes low p m operands rest (padded (width_of (signed width)) (text_of_char (signed value))) }
{}

/// A call of a routine that copies leaves memory below the limit as it was but for exactly the bytes that were to be copied, and one of the
/// routine that clears but for exactly the bytes that become zeros; each comes back with the caller as it was. It takes at most 192 steps,
/// and 6 a byte, at that cost.
pub fn memory_is_copied()
    ensures words { (low : Low) (p : Placement) (m : State) (operands : Call) (rest : List Instruction) (to from count : ℕ) → Copyable p m to from count → to % 4 ≡ 0 → from % 4 ≡ 0 → count % 4 ≡ 0 → Called low p m copy_words_number (to ∷ from ∷ count ∷ []) operands rest → Copies low p m operands rest to from count }
    ensures bytes { (low : Low) (p : Placement) (m : State) (operands : Call) (rest : List Instruction) (to from count : ℕ) → Copyable p m to from count → Called low p m copy_bytes_number (to ∷ from ∷ count ∷ []) operands rest → Copies low p m operands rest to from count }
    ensures take { (low : Low) (p : Placement) (m : State) (operands : Call) (rest : List Instruction) (to size : ℕ) → Copyable p m to (word_at m.memory to) size → to % 4 ≡ 0 → Allowed p.rights.readable m.limit to 4 → Called low p m take_number (to ∷ size ∷ []) operands rest → Copies low p m operands rest to (word_at m.memory to) size }
    ensures zeros { (low : Low) (p : Placement) (m : State) (operands : Call) (rest : List Instruction) (to count : ℕ) → Clearable p m to count → Called low p m clear_number (to ∷ count ∷ []) operands rest → Clears low p m operands rest to count }
{}

/// The run-time routines are valid in each program that has them in front and its three literals.
pub fn routines_are_valid()
    ensures { (low : Low) (others : List Routine) → low.routines ≡ runtime_routines ++ others → 3 ≤ low.counts.literals → list_all (is_valid_routine low) runtime_routines ≡ true }
{}

/// What some calls write, and where some copy bytes of the literals.
pub fn examples_run()
    ensures zero_alone { (ended_call write_number_number (0 ∷ 0 ∷ [])).output ≡ codes "0" }
    ensures least_padded { (ended_call write_number_number (2147483648 ∷ 13 ∷ [])).output ≡ codes "  -2147483648" }
    ensures greatest_at_width { (ended_call write_number_number (2147483647 ∷ 10 ∷ [])).output ≡ codes "2147483647" }
    ensures negative_width { (ended_call write_number_number (4294967295 ∷ 4294967295 ∷ [])).output ≡ codes "-1" }
    ensures truth_padded { (ended_call write_truth_number (0 ∷ 7 ∷ [])).output ≡ codes "  FALSE" }
    ensures truth_of_number { (ended_call write_truth_number (4294967295 ∷ 0 ∷ [])).output ≡ codes "TRUE" }
    ensures low_bits_of_char { (ended_call write_char_number (321 ∷ 3 ∷ [])).output ≡ codes "  A" }
    ensures bytes_padded { (ended_call write_bytes_number (65 ∷ 7 ∷ 9 ∷ [])).output ≡ codes "  RUEFALS" }
    ensures blanks_in_pieces { (ended_call write_blanks_number (130 ∷ [])).output ≡ blank_text 130 }
    ensures no_blanks { (ended_call write_blanks_number (4294967295 ∷ [])).output ≡ [] }
    ensures bytes_copied { bytes_from (ended_call copy_bytes_number (4096 ∷ 65 ∷ 3 ∷ [])).memory 4096 3 ≡ codes "RUE" }
    ensures words_copied { bytes_from (ended_call copy_words_number (4096 ∷ 64 ∷ 8 ∷ [])).memory 4096 8 ≡ codes "TRUEFALS" }
    ensures word_cleared { bytes_from (ended_call clear_number (68 ∷ 4 ∷ [])).memory 66 8 ≡ codes "UE" ++ 0 ∷ 0 ∷ 0 ∷ 0 ∷ codes "E " }
    ensures value_taken { bytes_from (ended_call take_number (4096 ∷ 6 ∷ [])).memory 4096 6 ≡ codes "      " }
{}
