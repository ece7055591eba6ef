//! How many temporaries code names.
ghost use Rattle.std.specs.Prelude.{◌≡◌, ◌≤◌, ◌^◌, ◌+◌};
ghost use Rattle.op_lower.specs.Temporaries.{in_action, in_block, in_blocks, in_call, in_computation, in_destination, in_given, in_instruction, in_move, in_operand, in_path, in_paths, in_receiver, in_step, most_of, up_to, up_to_both, up_to_each};

use op_mir::{
    Action, Block, Call, Computation, Destination, Given, Instruction, Operand, Path, Receiver,
    Step, TemporaryId,
};

/// One more than the greatest temporary that the blocks name.
pub fn in_blocks(blocks: &[Block]) -> u64
    ensures { result ≡ in_blocks blocks.now }
{
    blocks
        .iter()
        .fold(0, |most, block| most.max(in_block(block)))
}

fn in_block(block: &Block) -> u64
    ensures { result ≡ in_block block.now }
{
    block.code.as_slice().iter().fold(0, |most, instruction| most.max(in_instruction(instruction)))
}

// ---- instructions

#[tactic(auto, unfolding(crate::specs::Temporaries::in_instruction))]
fn in_instruction(instruction: &Instruction) -> u64
    ensures { result ≡ in_instruction instruction.now }
{
    match instruction {
        Instruction::Act { action, landing: _ } => in_action(action),
        Instruction::Call { routine: _, call } => in_call(call),
        Instruction::Jump { block: _ } => 0,
        Instruction::When {
            temporary,
            block: _,
        } => up_to(*temporary),
        Instruction::Unless {
            temporary,
            block: _,
        } => up_to(*temporary),
        Instruction::Switch { temporary, arms: _ } => up_to(*temporary),
        Instruction::Dispatch {
            temporary,
            block: _,
        } => up_to_next(*temporary),
        Instruction::MakeDue { finalization: _ } => 0,
        Instruction::OpenTemporaries { temporaries: _ } => 0,
        Instruction::EndTemporary { temporary: _ } => 0,
        Instruction::Stop { status } => up_to(*status),
        Instruction::Return => 0,
    }
}

fn in_call(call: &Call) -> u64
    ensures { result ≡ in_call call.now }
{
    all_given(call.given.as_slice()).max(in_receiver(&call.receiver))
}

fn all_given(given: &[Given]) -> u64
    ensures { result ≡ most_of in_given given.now }
{
    given.iter().fold(0, |most, one| most.max(in_given(one)))
}

fn in_given(given: &Given) -> u64
    ensures { result ≡ in_given given.now }
{
    match given {
        Given::ByValue { kind: _, temporary } => up_to(*temporary),
        Given::ByPlace { path } => in_path(path),
        Given::ByCopy { of: _, path } => in_path(path),
    }
}

fn in_receiver(receiver: &Receiver) -> u64
    ensures { result ≡ in_receiver receiver.now }
{
    match receiver {
        Receiver::Nowhere => 0,
        Receiver::Temporary { temporary } => up_to(*temporary),
        Receiver::Place { of: _, to } => in_path(to),
    }
}

// ---- actions

#[tactic(auto, unfolding(crate::specs::Temporaries::in_action))]
fn in_action(action: &Action) -> u64
    ensures { result ≡ in_action action.now }
{
    match action {
        Action::Constant { to, value: _ } => up_to(*to),
        Action::Load { to, kind: _, from } => in_move(*to, from),
        Action::Store { to, kind: _, from } => in_move(*from, to),
        Action::Copy { of: _, to, from } => in_paths(to, from),
        Action::Look { at } => in_path(at),
        Action::BeginWith { variable: _ } => 0,
        Action::Pick { to, text: _, index } => up_to_both(*to, *index),
        Action::Compute(computation) => in_computation(*computation),
        Action::Do {
            primitive: _,
            operands,
            to,
        } => in_operands(operands.as_slice()).max(in_destination(to)),
    }
}

fn in_move(temporary: TemporaryId, path: &Path) -> u64
    ensures { result ≡ in_move temporary path.now }
{
    up_to(temporary).max(in_path(path))
}

fn in_paths(to: &Path, from: &Path) -> u64
    ensures { result ≡ in_paths to.now from.now }
{
    in_path(to).max(in_path(from))
}

#[tactic(auto, unfolding(crate::specs::Temporaries::in_computation))]
fn in_computation(computation: Computation) -> u64
    ensures { result ≡ in_computation computation }
{
    match computation {
        Computation::Arithmetic {
            operator: _,
            checked: _,
            to,
            left,
            right,
        } => up_to_each(to, left, right),
        Computation::Compare {
            operator: _,
            to,
            left,
            right,
        } => up_to_each(to, left, right),
        Computation::Negate {
            checked: _,
            to,
            from,
        } => up_to_both(to, from),
        Computation::Complement { to, from } => up_to_both(to, from),
        Computation::Invert { to, from } => up_to_both(to, from),
        Computation::Absolute {
            checked: _,
            to,
            from,
        } => up_to_both(to, from),
        Computation::Odd { to, from } => up_to_both(to, from),
        Computation::Upper { to, from } => up_to_both(to, from),
        Computation::LowBits { kind: _, to, from } => up_to_both(to, from),
        Computation::Check {
            low: _,
            high: _,
            to,
            from,
        } => up_to_both(to, from),
        Computation::Neighbour {
            distance: _,
            low: _,
            high: _,
            to,
            from,
        } => up_to_both(to, from),
        Computation::Single { to, from } => up_to_both(to, from),
        Computation::Span { to, first, last } => up_to_each(to, first, last),
        Computation::Combine {
            operator: _,
            to,
            left,
            right,
        } => up_to_each(to, left, right),
        Computation::Contains { to, element, set } => up_to_each(to, element, set),
        Computation::CheckSet { all: _, to, from } => up_to_both(to, from),
    }
}

fn in_operands(operands: &[Operand]) -> u64
    ensures { result ≡ most_of in_operand operands.now }
{
    operands
        .iter()
        .fold(0, |most, operand| most.max(in_operand(operand)))
}

#[tactic(auto, unfolding(crate::specs::Temporaries::in_operand))]
fn in_operand(operand: &Operand) -> u64
    ensures { result ≡ in_operand operand.now }
{
    match operand {
        Operand::Number(temporary) => up_to(*temporary),
        Operand::Text(path) => in_path(path),
        Operand::Literal(_) => 0,
    }
}

#[tactic(auto, unfolding(crate::specs::Temporaries::in_destination))]
fn in_destination(to: &Destination) -> u64
    ensures { result ≡ in_destination to.now }
{
    match to {
        Destination::Unused => 0,
        Destination::InTemporary(temporary) => up_to(*temporary),
        Destination::InNew { of: _, number: _ } => 0,
        Destination::IntoPlace { of: _, to, old: _ } => in_path(to),
        Destination::OverPlace { to } => in_path(to),
    }
}

// ---- places

fn in_path(path: &Path) -> u64
    ensures { result ≡ in_path path.now }
{
    path.steps
        .as_slice()
        .iter()
        .fold(0, |most, step| most.max(in_step(*step)))
}

fn in_step(step: Step) -> u64
    ensures { result ≡ in_step step }
{
    match step {
        Step::Field { of: _, number: _ } => 0,
        Step::Element {
            of: _,
            low: _,
            high: _,
            index,
        } => up_to(index),
    }
}

// ---- temporaries

fn up_to(a: TemporaryId) -> u64
    ensures value { result ≡ up_to a }
    ensures small { result ≤ 2 ^ 32 }
{
    a.0 as u64 + 1
}

fn up_to_next(a: TemporaryId) -> u64
    ensures { result ≡ up_to a + 1 }
{
    up_to(a) + 1
}

fn up_to_both(a: TemporaryId, b: TemporaryId) -> u64
    ensures { result ≡ up_to_both a b }
{
    up_to(a).max(up_to(b))
}

fn up_to_each(a: TemporaryId, b: TemporaryId, c: TemporaryId) -> u64
    ensures { result ≡ up_to_each a b c }
{
    up_to(a).max(up_to_both(b, c))
}
