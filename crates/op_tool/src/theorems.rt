//! A law of programs.
ghost use Rattle.std.specs.Prelude.{ℕ, List};
ghost use Rattle.op_base.specs.declared.files.NamedFile.{NamedFile};
ghost use Rattle.op_tool.specs.OneOutcome.{OneOutcome};

/// A program is accepted, with one typed form, or refused by one rule, and never both, where the files tell what they hold.
pub fn one_outcome()
    ensures { (files : List NamedFile) (name : List ℕ) → OneOutcome files name }
{}
