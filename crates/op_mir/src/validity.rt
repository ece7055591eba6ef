//! Whether managed code names only what exists, has operands of their kinds, and needs no more than there is.
ghost use Rattle.op_core.specs.Sound.{bytes_of, globals_of};
ghost use Rattle.op_meaning.specs.Shapes.{variables_of};
ghost use Rattle.op_mir.specs.Valid.{act_fits, action_fits, all_given_fit, are_valid_from, arm_fits, branch_fits, call_fits, computation_fits, copied_fits, copy_fits, destination_fits, dispatch_fits, given_fits, globals_have_room, has, has_block, has_landing, has_local, has_next, has_routine, has_tables, has_three, has_two, has_type, has_variable, has_ways, is_charged, is_valid, is_valid_block, is_valid_instruction, is_valid_routine, leaves, leaves_if, load_fits, operand_fits, part_fits, path_fits, receiver_fits, root_fits, step_fits, switch_fits, temporary_fits};
ghost use Rattle.std.specs.List.{list_all};
ghost use Rattle.std.specs.Option.{option_to_list};
ghost use Rattle.std.specs.Prelude.{◌≡◌, ◌-◌, length, slice_get};

use crate::frame_need::frame_need;
use crate::kinds::{calls, has_kinds, is_part};
use crate::{
    Action, Arm, Block, BlockId, Call, Computation, Destination, Given, Instruction, LocalId, Mir,
    Operand, Path, Receiver, Root, Routine, Step, Temporary, TemporaryId,
};
use op_core::{Core, RoutineId, Run, TypeId, VariableId, size_of};

/// The bytes that the values of all global variables may have together.
const MOST_GLOBALS: u64 = 8_388_608;

/// Whether the code may be compiled further, beside these tables: every routine, block, place, temporary and type that it names exists, operands have their
/// kinds, each routine has a block to begin with and each block is left by its last instruction, the sizes of all global variables are together
/// at most 8,388,608 bytes, and each routine is charged at least what its frame needs.
#[tactic(auto, unfolding(crate::specs::Valid::is_valid))]
pub fn valid(core: &Core, mir: &Mir) -> bool
    ensures { result ≡ is_valid core.now mir.now }
{
    let own = variables_of(core, core.routines.as_slice().len());
    has_tables(core, mir)
        && globals_have_room(core)
        && valid_routine(core, mir, own, &mir.program)
        && all_routines(core, mir, mir.routines.as_slice())
}

fn has_tables(core: &Core, mir: &Mir) -> bool
    ensures { result ≡ has_tables core.now mir.now }
{
    mir.counts.types as usize == core.types.as_slice().len()
        && mir.counts.variables as usize == core.variables.as_slice().len()
        && mir.routines.as_slice().len() == core.routines.as_slice().len()
}

fn globals_have_room(core: &Core) -> bool
    ensures { result ≡ globals_have_room core.now }
{
    let mut sum = 0u64;
    for id in core.globals.as_slice() {
        sum = sum.saturating_add(bytes_of_global(core, *id));
    }
    sum <= MOST_GLOBALS
}

fn bytes_of_global(core: &Core, id: VariableId) -> u64
    ensures { result ≡ bytes_of core.now (option_to_list (slice_get core.now.variables id.0)) }
{
    match core.variables.as_slice().get(id.0 as usize) {
        None => 0,
        Some(row) => size_of(core, row.of) as u64,
    }
}

/// The rows of the variables of a routine.
pub(crate) fn variables_of(core: &Core, routine: usize) -> Run
    ensures { result ≡ variables_of core.now routine }
{
    match core.routines.as_slice().get(routine) {
        None => Run { first: 0, count: 0 },
        Some(row) => row.variables,
    }
}

fn all_routines(core: &Core, mir: &Mir, routines: &[Routine]) -> bool
    ensures { result ≡ are_valid_from core.now mir.now 0 routines.now }
{
    for (r, routine) in routines.iter().enumerate() {
        if !valid_routine(core, mir, variables_of(core, r), routine) {
            return false;
        }
        if frame_need(core, r, routine) > routine.charge {
            return false;
        }
    }
    true
}

#[tactic(auto, unfolding(crate::specs::Valid::is_valid_routine))]
fn valid_routine(core: &Core, mir: &Mir, variables: Run, routine: &Routine) -> bool
    ensures { result ≡ is_valid_routine core.now mir.now variables routine.now }
{
    routine.locals == variables.count
        && 0 < routine.blocks.as_slice().len()
        && all_blocks(core, mir, variables, routine, routine.blocks.as_slice())
}

fn all_blocks(core: &Core, mir: &Mir, variables: Run, routine: &Routine, blocks: &[Block]) -> bool
    ensures { result ≡ list_all (is_valid_block core.now mir.now variables routine.now) blocks.now }
{
    blocks
        .iter()
        .all(|block| valid_block(core, mir, variables, routine, block))
}

#[tactic(auto, unfolding(crate::specs::Valid::is_valid_block))]
fn valid_block(core: &Core, mir: &Mir, variables: Run, routine: &Routine, block: &Block) -> bool
    ensures { result ≡ is_valid_block core.now mir.now variables routine.now block.now }
{
    let code = block.code.as_slice();
    is_left(code) && all_instructions(core, mir, variables, routine, code)
}

fn all_instructions(
    core: &Core,
    mir: &Mir,
    variables: Run,
    routine: &Routine,
    code: &[Instruction],
) -> bool
    ensures { result ≡ list_all (is_valid_instruction core.now mir.now variables routine.now) code.now }
{
    code.iter().all(|instruction| valid_instruction(core, mir, variables, routine, instruction))
}

fn is_left(code: &[Instruction]) -> bool
    ensures { result ≡ leaves_if (slice_get code.now (length code.now - 1)) }
{
    match code.last() {
        None => false,
        Some(last) => leaves_block(last),
    }
}

#[tactic(auto, unfolding(crate::specs::Valid::leaves))]
fn leaves_block(instruction: &Instruction) -> bool
    ensures { result ≡ leaves instruction.now }
{
    match instruction {
        Instruction::Jump { .. } => true,
        Instruction::Return => true,
        _ => false,
    }
}

// ---- instructions

/// In a routine with these variables.
#[tactic(auto, unfolding(crate::specs::Valid::is_valid_instruction))]
fn valid_instruction(
    core: &Core,
    mir: &Mir,
    variables: Run,
    routine: &Routine,
    instruction: &Instruction,
) -> bool
    ensures { result ≡ is_valid_instruction core.now mir.now variables routine.now instruction.now }
{
    match instruction {
        Instruction::Act { action, landing } => {
            valid_act(core, mir, variables, routine, action, *landing)
        }
        Instruction::Call { routine: id, call } => {
            valid_call(core, mir, variables, routine, *id, call)
        }
        Instruction::Jump { block } => has_head(routine, *block),
        Instruction::When { temporary, block } => valid_branch(routine, *temporary, *block),
        Instruction::Unless { temporary, block } => valid_branch(routine, *temporary, *block),
        Instruction::Switch { temporary, arms } => valid_switch(
            routine,
            *temporary,
            arms.as_slice(),
        ),
        Instruction::Dispatch { temporary, block } => valid_dispatch(routine, *temporary, *block),
        Instruction::MakeDue { finalization } => {
            names_routine(mir, *finalization) && is_part(core, *finalization)
        }
        Instruction::OpenTemporaries { temporaries } => all_temporaries(
            mir,
            temporaries.as_slice(),
        ),
        Instruction::EndTemporary { temporary } => names_type(mir, temporary.of),
        Instruction::Stop { status } => has_one(routine, *status),
        Instruction::Return => true,
    }
}

#[tactic(auto, unfolding(crate::specs::Valid::act_fits))]
fn valid_act(
    core: &Core,
    mir: &Mir,
    variables: Run,
    routine: &Routine,
    action: &Action,
    landing: Option<BlockId>,
) -> bool
    ensures { result ≡ act_fits core.now mir.now variables routine.now action.now landing }
{
    valid_action(mir, routine, action)
        && has_kinds(core, variables, action)
        && lands(routine, landing)
}

#[tactic(auto, unfolding(crate::specs::Valid::call_fits))]
fn valid_call(
    core: &Core,
    mir: &Mir,
    variables: Run,
    routine: &Routine,
    id: RoutineId,
    call: &Call,
) -> bool
    ensures { result ≡ call_fits core.now mir.now variables routine.now id call.now }
{
    names_routine(mir, id)
        && all_given(mir, routine, call.given.as_slice())
        && valid_receiver(mir, routine, &call.receiver)
        && calls(core, variables, id, call)
        && lands(routine, call.landing)
}

#[tactic(auto, unfolding(crate::specs::Valid::all_given_fit))]
fn all_given(mir: &Mir, routine: &Routine, given: &[Given]) -> bool
    ensures { result ≡ all_given_fit mir.now routine.now given.now }
{
    given.iter().all(|one| valid_given(mir, routine, one))
}

#[tactic(auto, unfolding(crate::specs::Valid::given_fits))]
fn valid_given(mir: &Mir, routine: &Routine, given: &Given) -> bool
    ensures { result ≡ given_fits mir.now routine.now given.now }
{
    match given {
        Given::ByValue { kind: _, temporary } => has_one(routine, *temporary),
        Given::ByPlace { path } => valid_path(mir, routine, path),
        Given::ByCopy { of, path } => valid_copied(mir, routine, *of, path),
    }
}

#[tactic(auto, unfolding(crate::specs::Valid::receiver_fits))]
fn valid_receiver(mir: &Mir, routine: &Routine, receiver: &Receiver) -> bool
    ensures { result ≡ receiver_fits mir.now routine.now receiver.now }
{
    match receiver {
        Receiver::Nowhere => true,
        Receiver::Temporary { temporary } => has_one(routine, *temporary),
        Receiver::Place { of, to } => valid_copied(mir, routine, *of, to),
    }
}

fn valid_branch(routine: &Routine, temporary: TemporaryId, block: BlockId) -> bool
    ensures { result ≡ branch_fits routine.now temporary block }
{
    has_one(routine, temporary) && has_head(routine, block)
}

#[tactic(auto, unfolding(crate::specs::Valid::switch_fits))]
fn valid_switch(routine: &Routine, temporary: TemporaryId, arms: &[Arm]) -> bool
    ensures { result ≡ switch_fits routine.now temporary arms.now }
{
    has_one(routine, temporary) && all_arms(routine, arms)
}

fn all_arms(routine: &Routine, arms: &[Arm]) -> bool
    ensures { result ≡ list_all (arm_fits routine.now) arms.now }
{
    arms.iter().all(|arm| valid_arm(routine, arm))
}

fn valid_arm(routine: &Routine, arm: &Arm) -> bool
    ensures { result ≡ arm_fits routine.now arm.now }
{
    has_head(routine, arm.block)
}

fn valid_dispatch(routine: &Routine, temporary: TemporaryId, block: BlockId) -> bool
    ensures { result ≡ dispatch_fits routine.now temporary block }
{
    has_next(routine, temporary) && leads_three_ways(routine, block)
}

fn all_temporaries(mir: &Mir, temporaries: &[Temporary]) -> bool
    ensures { result ≡ list_all (temporary_fits mir.now) temporaries.now }
{
    temporaries
        .iter()
        .all(|temporary| names_type(mir, temporary.of))
}

// ---- actions

#[tactic(auto, unfolding(crate::specs::Valid::action_fits))]
fn valid_action(mir: &Mir, routine: &Routine, action: &Action) -> bool
    ensures { result ≡ action_fits mir.now routine.now action.now }
{
    match action {
        Action::Constant { to, value: _ } => has_one(routine, *to),
        Action::Load { to, kind: _, from } => valid_load(mir, routine, *to, from),
        Action::Store { to, kind: _, from } => valid_load(mir, routine, *from, to),
        Action::Copy { of, to, from } => valid_copy(mir, routine, *of, to, from),
        Action::Look { at } => valid_path(mir, routine, at),
        Action::BeginWith { variable } => names_local(routine, *variable),
        Action::Pick { to, text: _, index } => has_both(routine, *to, *index),
        Action::Compute(computation) => valid_computation(routine, *computation),
        Action::Do {
            primitive: _,
            operands,
            to,
        } => all_operands(mir, routine, operands.as_slice()) && valid_destination(mir, routine, to),
    }
}

#[tactic(auto, unfolding(crate::specs::Valid::load_fits))]
fn valid_load(mir: &Mir, routine: &Routine, temporary: TemporaryId, path: &Path) -> bool
    ensures { result ≡ load_fits mir.now routine.now temporary path.now }
{
    has_one(routine, temporary) && valid_path(mir, routine, path)
}

#[tactic(auto, unfolding(crate::specs::Valid::copy_fits))]
fn valid_copy(mir: &Mir, routine: &Routine, of: TypeId, to: &Path, from: &Path) -> bool
    ensures { result ≡ copy_fits mir.now routine.now of to.now from.now }
{
    names_type(mir, of) && valid_path(mir, routine, to) && valid_path(mir, routine, from)
}

#[tactic(auto, unfolding(crate::specs::Valid::copied_fits))]
fn valid_copied(mir: &Mir, routine: &Routine, of: TypeId, path: &Path) -> bool
    ensures { result ≡ copied_fits mir.now routine.now of path.now }
{
    names_type(mir, of) && valid_path(mir, routine, path)
}

#[tactic(auto, unfolding(crate::specs::Valid::computation_fits))]
fn valid_computation(routine: &Routine, computation: Computation) -> bool
    ensures { result ≡ computation_fits routine.now computation }
{
    match computation {
        Computation::Arithmetic {
            operator: _,
            checked: _,
            to,
            left,
            right,
        } => has_each(routine, to, left, right),
        Computation::Compare {
            operator: _,
            to,
            left,
            right,
        } => has_each(routine, to, left, right),
        Computation::Negate {
            checked: _,
            to,
            from,
        } => has_both(routine, to, from),
        Computation::Complement { to, from } => has_both(routine, to, from),
        Computation::Invert { to, from } => has_both(routine, to, from),
        Computation::Absolute {
            checked: _,
            to,
            from,
        } => has_both(routine, to, from),
        Computation::Odd { to, from } => has_both(routine, to, from),
        Computation::Upper { to, from } => has_both(routine, to, from),
        Computation::LowBits { kind: _, to, from } => has_both(routine, to, from),
        Computation::Check {
            low: _,
            high: _,
            to,
            from,
        } => has_both(routine, to, from),
        Computation::Neighbour {
            distance: _,
            low: _,
            high: _,
            to,
            from,
        } => has_both(routine, to, from),
        Computation::Single { to, from } => has_both(routine, to, from),
        Computation::Span { to, first, last } => has_each(routine, to, first, last),
        Computation::Combine {
            operator: _,
            to,
            left,
            right,
        } => has_each(routine, to, left, right),
        Computation::Contains { to, element, set } => has_each(routine, to, element, set),
        Computation::CheckSet { all: _, to, from } => has_both(routine, to, from),
    }
}

fn all_operands(mir: &Mir, routine: &Routine, operands: &[Operand]) -> bool
    ensures { result ≡ list_all (operand_fits mir.now routine.now) operands.now }
{
    operands
        .iter()
        .all(|operand| valid_operand(mir, routine, operand))
}

#[tactic(auto, unfolding(crate::specs::Valid::operand_fits))]
fn valid_operand(mir: &Mir, routine: &Routine, operand: &Operand) -> bool
    ensures { result ≡ operand_fits mir.now routine.now operand.now }
{
    match operand {
        Operand::Number(temporary) => has_one(routine, *temporary),
        Operand::Text(path) => valid_path(mir, routine, path),
        Operand::Literal(_) => true,
    }
}

#[tactic(auto, unfolding(crate::specs::Valid::destination_fits))]
fn valid_destination(mir: &Mir, routine: &Routine, to: &Destination) -> bool
    ensures { result ≡ destination_fits mir.now routine.now to.now }
{
    match to {
        Destination::Unused => true,
        Destination::InTemporary(temporary) => has_one(routine, *temporary),
        Destination::InNew { of, number: _ } => names_type(mir, *of),
        Destination::IntoPlace { of, to, old: _ } => {
            names_type(mir, *of) && valid_path(mir, routine, to)
        }
        Destination::OverPlace { to } => valid_path(mir, routine, to),
    }
}

// ---- places

#[tactic(auto, unfolding(crate::specs::Valid::path_fits))]
fn valid_path(mir: &Mir, routine: &Routine, path: &Path) -> bool
    ensures { result ≡ path_fits mir.now routine.now path.now }
{
    valid_root(mir, routine, path.root) && all_steps(mir, routine, path.steps.as_slice())
}

fn all_steps(mir: &Mir, routine: &Routine, steps: &[Step]) -> bool
    ensures { result ≡ list_all (step_fits mir.now routine.now) steps.now }
{
    steps.iter().all(|step| valid_step(mir, routine, *step))
}

#[tactic(auto, unfolding(crate::specs::Valid::root_fits))]
fn valid_root(mir: &Mir, routine: &Routine, root: Root) -> bool
    ensures { result ≡ root_fits mir.now routine.now root }
{
    match root {
        Root::Global { variable } => names_variable(mir, variable),
        Root::Local { variable } => names_local(routine, variable),
        Root::Through { variable } => names_local(routine, variable),
        Root::Temporary { of, number: _ } => names_type(mir, of),
    }
}

#[tactic(auto, unfolding(crate::specs::Valid::step_fits))]
fn valid_step(mir: &Mir, routine: &Routine, step: Step) -> bool
    ensures { result ≡ step_fits mir.now routine.now step }
{
    match step {
        Step::Field { of, number: _ } => names_type(mir, of),
        Step::Element {
            of,
            low: _,
            high: _,
            index,
        } => names_type(mir, of) && has_one(routine, index),
    }
}

// ---- what is named

fn has_one(routine: &Routine, a: TemporaryId) -> bool
    ensures { result ≡ has routine.now a }
{
    a.0 < routine.temporaries
}

/// Whether the temporary behind it exists too.
fn has_next(routine: &Routine, a: TemporaryId) -> bool
    ensures { result ≡ has_next routine.now a }
{
    (a.0 as u64) + 1 < routine.temporaries as u64
}

fn has_both(routine: &Routine, a: TemporaryId, b: TemporaryId) -> bool
    ensures { result ≡ has_two routine.now a b }
{
    has_one(routine, a) && has_one(routine, b)
}

fn has_each(routine: &Routine, a: TemporaryId, b: TemporaryId, c: TemporaryId) -> bool
    ensures { result ≡ has_three routine.now a b c }
{
    has_one(routine, a) && has_one(routine, b) && has_one(routine, c)
}

fn names_local(routine: &Routine, variable: LocalId) -> bool
    ensures { result ≡ has_local routine.now variable }
{
    variable.0 < routine.locals
}

fn names_type(mir: &Mir, of: TypeId) -> bool
    ensures { result ≡ has_type mir.now of }
{
    of.0 < mir.counts.types
}

fn names_variable(mir: &Mir, variable: VariableId) -> bool
    ensures { result ≡ has_variable mir.now variable }
{
    variable.0 < mir.counts.variables
}

fn names_routine(mir: &Mir, id: RoutineId) -> bool
    ensures { result ≡ has_routine mir.now id }
{
    (id.0 as usize) < mir.routines.as_slice().len()
}

fn has_head(routine: &Routine, block: BlockId) -> bool
    ensures { result ≡ has_block routine.now block }
{
    (block.0 as usize) < routine.blocks.as_slice().len()
}

/// Whether the three blocks behind it exist.
fn leads_three_ways(routine: &Routine, block: BlockId) -> bool
    ensures { result ≡ has_ways routine.now block }
{
    block.0 as usize + 3 < routine.blocks.as_slice().len()
}

/// Where the code goes on that raises, if it says so.
fn lands(routine: &Routine, landing: Option<BlockId>) -> bool
    ensures { result ≡ has_landing routine.now landing }
{
    match landing {
        None => true,
        Some(block) => has_head(routine, block),
    }
}
