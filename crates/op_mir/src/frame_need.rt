//! How many bytes of the stack an activation of a routine needs for its frame.
ghost use Rattle.op_core.specs.Rows.{rows};
ghost use Rattle.op_meaning.specs.Shapes.{result_of_routine};
ghost use Rattle.op_mir.specs.FrameNeed.{action_words, bytes_before, call_words, each_once, first_words, frame_need, given_words, instruction_words, is_one_root, most_words, operand_words, path_words, receiver_words, roots_named, roots_of_action, roots_of_given, roots_of_instruction, roots_of_receiver, rounded, size_of_root, variable_bytes};
ghost use Rattle.std.specs.List.{flat_map, list_any, sum_by};
ghost use Rattle.std.specs.Option.{option_to_list};
ghost use Rattle.std.specs.Prelude.{◌≡◌, ◌≤◌, ◌||◌, ◌+◌, ◌-◌, ◌^◌, ◌++◌, [], ◌∷◌, min};

use crate::kinds::is_reference;
use crate::validity::variables_of;
use crate::{
    Action, Block, Call, Given, Instruction, Operand, Path, Receiver, Root, Routine, one_root,
};
use op_core::{Core, Owner, Variable, size_of};

/// What the frame of the routine with the number needs, in bytes. Where that is more than 2^64 - 1 the answer is that number.
pub(crate) fn frame_need(core: &Core, routine: usize, code: &Routine) -> u64
    ensures { result ≡ min (frame_need core.now routine code.now) (2 ^ 64 - 1) }
{
    let variables = core.variables.rows(variables_of(core, routine));
    let parameters = parameters_of(core, routine);
    let blocks = code.blocks.as_slice();
    let words = first_words(parameters, variables)
        .max(code_words(blocks))
        .saturating_add(3)
        .saturating_add(parameters)
        .saturating_add(code.temporaries as u64);
    words
        .saturating_mul(4)
        .saturating_add(bytes_of_variables(core, variables))
        .saturating_add(bytes_of_wholes(core, blocks))
}

/// How many parameters it has, its object among them.
fn parameters_of(core: &Core, routine: usize) -> u64
    ensures { result ≡ result_of_routine core.now routine }
{
    match core.routines.as_slice().get(routine) {
        None => 0,
        Some(row) => match row.owner {
            Owner::Unit => row.parameters.count as u64,
            _ => 1 + row.parameters.count as u64,
        },
    }
}

fn rounded(bytes: u32) -> u64
    ensures value { result ≡ rounded bytes }
    ensures small { result ≤ 4294967296 }
{
    (bytes as u64).div_ceil(4) * 4
}

// ---- variables

fn bytes_of_variables(core: &Core, variables: &[Variable]) -> u64
    ensures { result ≡ min (sum_by (variable_bytes core.now) variables.now) (2 ^ 64 - 1) }
{
    let mut sum = 0u64;
    for each in variables {
        sum = sum.saturating_add(bytes_of_variable(core, each));
    }
    sum
}

fn bytes_of_variable(core: &Core, variable: &Variable) -> u64
    ensures { result ≡ variable_bytes core.now variable.now }
{
    if is_reference(variable.role) {
        return 0;
    }
    rounded(size_of(core, variable.of))
}

#[tactic(auto, unfolding(crate::specs::FrameNeed::first_words))]
fn first_words(parameters: u64, variables: &[Variable]) -> u64
    ensures { result ≡ first_words parameters variables.now }
{
    match variables.split_first() {
        None => 1,
        Some((first, _)) => {
            if is_reference(first.role) {
                return 2;
            }
            if 0 < parameters {
                return 1;
            }
            2
        }
    }
}

// ---- words that an instruction works with

fn code_words(blocks: &[Block]) -> u64
    ensures { result ≡ most_words (λ b. most_words (λ i. min (instruction_words i) (2 ^ 64 - 1)) b.code) blocks.now }
{
    let mut most = 0u64;
    for block in blocks {
        most = most.max(block_words(block));
    }
    most
}

fn block_words(block: &Block) -> u64
    ensures { result ≡ most_words (λ i. min (instruction_words i) (2 ^ 64 - 1)) block.now.code }
{
    let mut most = 0u64;
    for instruction in block.code.as_slice() {
        most = most.max(instruction_words(instruction));
    }
    most
}

#[tactic(auto, unfolding(crate::specs::FrameNeed::instruction_words))]
fn instruction_words(instruction: &Instruction) -> u64
    ensures { result ≡ min (instruction_words instruction.now) (2 ^ 64 - 1) }
{
    match instruction {
        Instruction::Act { action, landing: _ } => action_words(action),
        Instruction::Call { routine: _, call } => call_words(call),
        Instruction::Jump { block: _ } => 0,
        Instruction::When {
            temporary: _,
            block: _,
        } => 3,
        Instruction::Unless {
            temporary: _,
            block: _,
        } => 3,
        Instruction::Switch {
            temporary: _,
            arms: _,
        } => 3,
        Instruction::Dispatch {
            temporary: _,
            block: _,
        } => 3,
        Instruction::MakeDue { finalization: _ } => 2,
        Instruction::OpenTemporaries { temporaries: _ } => 0,
        Instruction::EndTemporary { temporary: _ } => 0,
        Instruction::Stop { status: _ } => 0,
        Instruction::Return => 0,
    }
}

#[tactic(auto, unfolding(crate::specs::FrameNeed::action_words))]
fn action_words(action: &Action) -> u64
    ensures { result ≡ min (action_words action.now) (2 ^ 64 - 1) }
{
    match action {
        Action::Constant { to: _, value: _ } => 0,
        Action::Load {
            to: _,
            kind: _,
            from,
        } => path_words(from),
        Action::Store {
            to,
            kind: _,
            from: _,
        } => path_words(to),
        Action::Copy { of: _, to, from } => {
            path_words(from)
                .saturating_add(path_words(to))
                .saturating_add(1)
        }
        Action::Look { at } => path_words(at).saturating_add(1),
        Action::BeginWith { variable: _ } => 0,
        Action::Pick {
            to: _,
            text: _,
            index: _,
        } => 3,
        Action::Compute(_) => 3,
        Action::Do {
            primitive: _,
            operands,
            to: _,
        } => operands_words(operands.as_slice()),
    }
}

/// What is given takes one.
fn operands_words(operands: &[Operand]) -> u64
    ensures { result ≡ min (1 + sum_by operand_words operands.now) (2 ^ 64 - 1) }
{
    let mut sum = 1u64;
    for operand in operands {
        sum = sum.saturating_add(operand_words(operand));
    }
    sum
}

#[tactic(auto, unfolding(crate::specs::FrameNeed::operand_words))]
fn operand_words(operand: &Operand) -> u64
    ensures { result ≡ min (operand_words operand.now) (2 ^ 64 - 1) }
{
    match operand {
        Operand::Number(_) => 0,
        Operand::Text(path) => path_words(path),
        Operand::Literal(_) => 2,
    }
}

/// The charge of the callee takes one.
#[tactic(auto, unfolding(crate::specs::FrameNeed::call_words))]
fn call_words(call: &Call) -> u64
    ensures { result ≡ min (call_words call.now) (2 ^ 64 - 1) }
{
    let mut sum = receiver_words(&call.receiver).saturating_add(1);
    for given in call.given.as_slice() {
        sum = sum.saturating_add(given_words(given));
    }
    sum
}

#[tactic(auto, unfolding(crate::specs::FrameNeed::given_words))]
fn given_words(given: &Given) -> u64
    ensures { result ≡ min (given_words given.now) (2 ^ 64 - 1) }
{
    match given {
        Given::ByValue {
            kind: _,
            temporary: _,
        } => 1,
        Given::ByPlace { path } => path_words(path),
        Given::ByCopy { of: _, path } => path_words(path),
    }
}

#[tactic(auto, unfolding(crate::specs::FrameNeed::receiver_words))]
fn receiver_words(receiver: &Receiver) -> u64
    ensures { result ≡ min (receiver_words receiver.now) (2 ^ 64 - 1) }
{
    match receiver {
        Receiver::Nowhere => 0,
        Receiver::Temporary { temporary: _ } => 0,
        Receiver::Place { of: _, to } => path_words(to),
    }
}

fn path_words(path: &Path) -> u64
    ensures { result ≡ min (path_words path.now) (2 ^ 64 - 1) }
{
    (path.steps.as_slice().len() as u64)
        .saturating_mul(2)
        .saturating_add(1)
}

// ---- temporaries of record and array types, each where it is named last

/// Those of all blocks together.
fn bytes_of_wholes(core: &Core, blocks: &[Block]) -> u64
    ensures { result ≡ min (sum_by (size_of_root core.now) (each_once (roots_named blocks.now))) (2 ^ 64 - 1) }
{
    let mut sum = 0u64;
    let mut rest = blocks;
    while let Some((block, behind)) = rest.split_first() {
        sum = sum.saturating_add(bytes_in_code(core, block.code.as_slice(), behind));
        rest = behind;
    }
    sum
}

/// Those that neither the rest of the code names nor a block behind it.
fn bytes_in_code(core: &Core, code: &[Instruction], behind: &[Block]) -> u64
    ensures { result ≡ min (bytes_before core.now (flat_map roots_of_instruction code.now) (roots_named behind.now)) (2 ^ 64 - 1) }
{
    let mut sum = 0u64;
    let mut rest = code;
    while let Some((instruction, others)) = rest.split_first() {
        sum = sum.saturating_add(bytes_in_instruction(core, instruction, others, behind));
        rest = others;
    }
    sum
}

fn bytes_in_instruction(
    core: &Core,
    instruction: &Instruction,
    others: &[Instruction],
    behind: &[Block],
) -> u64
    ensures { result ≡ min (bytes_before core.now (roots_of_instruction instruction.now) (flat_map roots_of_instruction others.now ++ roots_named behind.now)) (2 ^ 64 - 1) }
{
    match instruction {
        Instruction::Act { action, landing: _ } => bytes_in_action(core, action, others, behind),
        Instruction::Call { routine: _, call } => bytes_in_call(core, call, others, behind),
        _ => 0,
    }
}

fn bytes_in_action(core: &Core, action: &Action, others: &[Instruction], behind: &[Block]) -> u64
    ensures { result ≡ min (bytes_before core.now (roots_of_action action.now) (flat_map roots_of_instruction others.now ++ roots_named behind.now)) (2 ^ 64 - 1) }
{
    match action {
        Action::Load {
            to: _,
            kind: _,
            from,
        } => bytes_once(core, from.root, others, behind),
        Action::Store {
            to,
            kind: _,
            from: _,
        } => bytes_once(core, to.root, others, behind),
        Action::Copy { of: _, to, from } => {
            let last = bytes_once(core, to.root, others, behind);
            if one_root(from.root, to.root) {
                return last;
            }
            bytes_once(core, from.root, others, behind).saturating_add(last)
        }
        Action::Look { at } => bytes_once(core, at.root, others, behind),
        _ => 0,
    }
}

fn bytes_in_call(core: &Core, call: &Call, others: &[Instruction], behind: &[Block]) -> u64
    ensures { result ≡ min (bytes_before core.now (flat_map roots_of_given call.now.given ++ roots_of_receiver call.now.receiver) (flat_map roots_of_instruction others.now ++ roots_named behind.now)) (2 ^ 64 - 1) }
{
    let mut sum = bytes_in_receiver(core, &call.receiver, others, behind);
    let mut rest = call.given.as_slice();
    while let Some((given, more)) = rest.split_first() {
        sum = sum.saturating_add(bytes_in_given(core, given, more, &call.receiver, others, behind));
        rest = more;
    }
    sum
}

fn bytes_in_receiver(
    core: &Core,
    receiver: &Receiver,
    others: &[Instruction],
    behind: &[Block],
) -> u64
    ensures value { result ≡ bytes_before core.now (roots_of_receiver receiver.now) (flat_map roots_of_instruction others.now ++ roots_named behind.now) }
    ensures small { result ≤ 4294967296 }
{
    match receiver_root(receiver) {
        None => 0,
        Some(root) => bytes_once(core, root, others, behind),
    }
}

fn bytes_in_given(
    core: &Core,
    given: &Given,
    more: &[Given],
    receiver: &Receiver,
    others: &[Instruction],
    behind: &[Block],
) -> u64
    ensures { result ≡ bytes_before core.now (roots_of_given given.now) (flat_map roots_of_given more.now ++ roots_of_receiver receiver.now ++ (flat_map roots_of_instruction others.now ++ roots_named behind.now)) }
{
    match given_root(given) {
        None => 0,
        Some(root) => {
            if named_in_call(root, more, receiver) {
                return 0;
            }
            bytes_once(core, root, others, behind)
        }
    }
}

/// Of a temporary that neither this code nor a block behind it names.
fn bytes_once(core: &Core, root: Root, others: &[Instruction], behind: &[Block]) -> u64
    ensures value { result ≡ bytes_before core.now (root ∷ []) (flat_map roots_of_instruction others.now ++ roots_named behind.now) }
    ensures small { result ≤ 4294967296 }
{
    if named_in_code(root, others) {
        return 0;
    }
    if named_in_blocks(root, behind) {
        return 0;
    }
    size_of_root(core, root)
}

fn size_of_root(core: &Core, root: Root) -> u64
    ensures value { result ≡ size_of_root core.now root }
    ensures small { result ≤ 4294967296 }
{
    match root {
        Root::Temporary { of, number: _ } => rounded(size_of(core, of)),
        _ => 0,
    }
}

// ---- what code names

fn named_in_blocks(root: Root, blocks: &[Block]) -> bool
    ensures { result ≡ list_any (λ b. list_any (λ i. list_any (is_one_root root) (roots_of_instruction i)) b.code) blocks.now }
{
    blocks
        .iter()
        .any(|block| named_in_code(root, block.code.as_slice()))
}

fn named_in_code(root: Root, code: &[Instruction]) -> bool
    ensures { result ≡ list_any (λ i. list_any (is_one_root root) (roots_of_instruction i)) code.now }
{
    code.iter().any(|instruction| is_named(root, instruction))
}

#[tactic(auto, using(crate::proofs::NeedLemmas::any_call))]
fn is_named(root: Root, instruction: &Instruction) -> bool
    ensures { result ≡ list_any (is_one_root root) (roots_of_instruction instruction.now) }
{
    match instruction {
        Instruction::Act { action, landing: _ } => named_in_action(root, action),
        Instruction::Call { routine: _, call } => {
            named_in_call(root, call.given.as_slice(), &call.receiver)
        }
        _ => false,
    }
}

fn named_in_action(root: Root, action: &Action) -> bool
    ensures { result ≡ list_any (is_one_root root) (roots_of_action action.now) }
{
    match action {
        Action::Load {
            to: _,
            kind: _,
            from,
        } => one_root(root, from.root),
        Action::Store {
            to,
            kind: _,
            from: _,
        } => one_root(root, to.root),
        Action::Copy { of: _, to, from } => { one_root(root, from.root) || one_root(root, to.root) }
        Action::Look { at } => one_root(root, at.root),
        _ => false,
    }
}

fn named_in_call(root: Root, given: &[Given], receiver: &Receiver) -> bool
    ensures { result ≡ (list_any (λ g. list_any (is_one_root root) (roots_of_given g)) given.now || list_any (is_one_root root) (roots_of_receiver receiver.now)) }
{
    named_in_givens(root, given) || named_in_receiver(root, receiver)
}

fn named_in_givens(root: Root, given: &[Given]) -> bool
    ensures { result ≡ list_any (λ g. list_any (is_one_root root) (roots_of_given g)) given.now }
{
    given.iter().any(|each| named_in_given(root, each))
}

fn named_in_given(root: Root, given: &Given) -> bool
    ensures { result ≡ list_any (is_one_root root) (roots_of_given given.now) }
{
    match given {
        Given::ByValue {
            kind: _,
            temporary: _,
        } => false,
        Given::ByPlace { path } => one_root(root, path.root),
        Given::ByCopy { of: _, path } => one_root(root, path.root),
    }
}

fn named_in_receiver(root: Root, receiver: &Receiver) -> bool
    ensures { result ≡ list_any (is_one_root root) (roots_of_receiver receiver.now) }
{
    match receiver {
        Receiver::Nowhere => false,
        Receiver::Temporary { temporary: _ } => false,
        Receiver::Place { of: _, to } => one_root(root, to.root),
    }
}

fn given_root(given: &Given) -> Option<Root>
    ensures { option_to_list result ≡ roots_of_given given.now }
{
    match given {
        Given::ByValue {
            kind: _,
            temporary: _,
        } => None,
        Given::ByPlace { path } => Some(path.root),
        Given::ByCopy { of: _, path } => Some(path.root),
    }
}

fn receiver_root(receiver: &Receiver) -> Option<Root>
    ensures { option_to_list result ≡ roots_of_receiver receiver.now }
{
    match receiver {
        Receiver::Nowhere => None,
        Receiver::Temporary { temporary: _ } => None,
        Receiver::Place { of: _, to } => Some(to.root),
    }
}
