//! What is proved of the low code of computations, as the contract of a function without code.
ghost use Rattle.op_compute.specs.Claims.{BranchesLead, ComputationsAnswer, ComputationsMean, ComputationsStep, ConstantsAnswer, StraightCodeLeads};

/// The low code of a computation does on the low machine what the source machine does with its numbers: `mean` says what that is,
/// `answer` and `constants` what the code comes to, `lead` where branches lead, `run` that the machine goes there, and `step` that
/// it takes a step at least.
pub fn computations_go_along()
    ensures mean { ComputationsMean }
    ensures answer { ComputationsAnswer }
    ensures constants { ConstantsAnswer }
    ensures lead { BranchesLead }
    ensures run { StraightCodeLeads }
    ensures step { ComputationsStep }
{}
