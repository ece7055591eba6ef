//! From items to instructions and blocks.
ghost use Rattle.std.specs.Prelude.{◌≡◌, ◌<◌, ℕ, ◌+◌, ◌-◌, ◌∷◌, [], IfOk, None, length, map, pos, take};
ghost use Rattle.op_core.specs.declared.program.Core.{Core};
ghost use Rattle.op_items.specs.View.{item_view, items_view, turns_view, cases_view};
ghost use Rattle.op_meaning.specs.Items.{also as and_also, choose as choice, select as selection, loop, body_first, protect as protected, scoped as within_scope};
ghost use Rattle.op_mir.specs.Code.{branch_if as meant_if, branch_unless as meant_unless};
ghost use Rattle.op_mir.specs.View.{view_temporary};
ghost use Rattle.op_lower.specs.Exits.{exits_of, reason_of};
ghost use Rattle.op_lower.specs.Made.{Adds, Makes, MakesArms, IsBody, items_made, item_made, branch_made, arms_made, loop_made, finally_made};
ghost use Rattle.op_lower.specs.Seen.{seen};

use crate::blocks::{Blocks, LoopBlocks};
use crate::exits::Exits;
use crate::instructions::Instructions;
use op_base::{NoMemory, Sequence};
use op_core::RoutineId;
use op_items::{Case, Item, Turns, Way};
use op_mir::{Action, Arm, BlockId, Call, Given, Instruction, Receiver, Temporary, TemporaryId};
use std::alloc::Global;
use std::mem::replace;

/// Puts the code that does the items in front of what stands behind them. Its blocks are put behind those that there are. Of the items is
/// taken what the code needs, so that an item within others takes little of the stack.
#[cycle(items)]
#[inline(never)]
pub fn code(
    alloc: Global,
    blocks: &mut Blocks,
    exits: &Exits,
    items: &mut Vec<Item>,
    now: &mut Instructions,
) -> Result<(), NoMemory>
    ensures { IfOk result (λ _. Makes (items_made exits.now items.old.items blocks.old now.old) blocks.old blocks.new now.new) }
{
    while let Some(item) = items.last_mut() {
        code_item(alloc, blocks, exits, item, now)?;
        drop_last(items);
    }
    Ok(())
}

/// Drops an item that is done.
#[inline(never)]
fn drop_last(items: &mut Vec<Item>)
    ensures { items.new.items ≡ take (length items.old.items - 1) items.old.items }
{
    items.truncate(items.len().saturating_sub(1));
}

#[cycle(items)]
fn code_item(
    alloc: Global,
    blocks: &mut Blocks,
    exits: &Exits,
    item: &mut Item,
    now: &mut Instructions,
) -> Result<(), NoMemory>
    ensures { IfOk result (λ _. Makes (item_made exits.now (λ core r. item_view core r item.old) blocks.old now.old) blocks.old blocks.new now.new) }
{
    match item {
        Item::Act(action) => act(action, now),
        Item::Also {
            truth,
            temporary,
            items,
        } => also(alloc, blocks, exits, *truth, *temporary, items, now),
        Item::Choose {
            temporary,
            first,
            otherwise,
        } => choose(alloc, blocks, exits, *temporary, first, otherwise, now),
        Item::Select {
            temporary,
            cases,
            otherwise,
        } => select(alloc, blocks, exits, *temporary, cases, otherwise, now),
        Item::Loop(turns) => from_head(alloc, blocks, exits, turns, now),
        Item::BodyFirst(turns) => from_body(alloc, blocks, exits, turns, now),
        Item::Protect {
            temporary,
            items,
            finalization,
        } => protect(alloc, blocks, exits, *temporary, items, finalization, now),
        Item::Leave(way) => leave(alloc, exits, *way, now),
        Item::Enter {
            routine,
            given,
            receiver,
        } => enter(alloc, *routine, given, receiver, now),
        Item::Halt { status } => halt(*status, now),
        Item::Scoped {
            first,
            others,
            items,
        } => scoped(alloc, blocks, exits, *first, others, items, now),
        Item::Attempt { .. } => Ok(now.clear()),
        Item::AttemptAll { .. } => Ok(now.clear()),
        Item::Throw { .. } => Ok(now.clear()),
        Item::Rethrow => Ok(now.clear()),
        Item::Construct { .. } => Ok(now.clear()),
        Item::Free { .. } => Ok(now.clear()),
    }
}

// ---- items of one instruction

#[inline(never)]
fn act(action: &mut Action, now: &mut Instructions) -> Result<(), NoMemory>
    ensures { IfOk result (λ _. now.new ≡ Instruction.Act action.old None ∷ now.old) }
{
    let nothing = Action::Constant {
        to: TemporaryId(0),
        value: 0,
    };
    now.put(Instruction::Act {
        action: replace(action, nothing),
        landing: None,
    })
}

#[inline(never)]
fn enter(
    alloc: Global,
    routine: RoutineId,
    given: &mut Sequence<Given>,
    receiver: &mut Receiver,
    now: &mut Instructions,
) -> Result<(), NoMemory>
    ensures { IfOk result (λ _. now.new ≡ Instruction.Call routine (record { given = given.old; receiver = receiver.old; landing = None }) ∷ now.old) }
{
    let call = Call {
        given: replace(given, Sequence::from(Vec::new(alloc))),
        receiver: replace(receiver, Receiver::Nowhere),
        landing: None,
    };
    now.put(Instruction::Call { routine, call })
}

#[inline(never)]
fn halt(status: TemporaryId, now: &mut Instructions) -> Result<(), NoMemory>
    ensures { IfOk result (λ _. now.new ≡ Instruction.Stop status ∷ now.old) }
{
    now.put(Instruction::Stop { status })
}

/// Puts the code that leaves in place of what stands behind it.
#[inline(never)]
fn leave(alloc: Global, exits: &Exits, way: Way, now: &mut Instructions) -> Result<(), NoMemory>
    ensures { IfOk result (λ _. (core : Core) (r : ℕ) → seen core r now.new ≡ exits_of exits.now (reason_of way)) }
{
    *now = exits.leave(alloc, way)?;
    Ok(())
}

// ---- branches

/// A new block with the code of the items, from which the code goes on at another block. What stands in `now` is dropped.
#[cycle(items)]
#[inline(never)]
fn branch(
    alloc: Global,
    blocks: &mut Blocks,
    exits: &Exits,
    items: &mut Vec<Item>,
    on: BlockId,
    now: &mut Instructions,
) -> Result<BlockId, NoMemory>
    ensures number { IfOk result (λ block. block.0 ≡ length blocks.old) }
    ensures blocks { IfOk result (λ _. Adds (branch_made exits.now items.old.items blocks.old on) blocks.old blocks.new) }
{
    let block = blocks.reserve()?;
    code_to(alloc, blocks, exits, items, on, now)?;
    blocks.fill(block, now);
    Ok(block)
}

/// Puts there the code that does the items and goes on at another block.
#[cycle(items)]
fn code_to(
    alloc: Global,
    blocks: &mut Blocks,
    exits: &Exits,
    items: &mut Vec<Item>,
    on: BlockId,
    now: &mut Instructions,
) -> Result<(), NoMemory>
    ensures { IfOk result (λ _. Makes (items_made exits.now items.old.items blocks.old (Instruction.Jump on ∷ [])) blocks.old blocks.new now.new) }
{
    now.lead_to(on)?;
    code(alloc, blocks, exits, items, now)
}

#[cycle(items)]
#[inline(never)]
fn also(
    alloc: Global,
    blocks: &mut Blocks,
    exits: &Exits,
    truth: bool,
    temporary: TemporaryId,
    items: &mut Vec<Item>,
    now: &mut Instructions,
) -> Result<(), NoMemory>
    ensures { IfOk result (λ _. Makes (item_made exits.now (λ core r. and_also truth temporary.0 (items_view core r items.old.items)) blocks.old now.old) blocks.old blocks.new now.new) }
{
    let end = blocks.join(now)?;
    code_to(alloc, blocks, exits, items, end.on, now)?;
    branch_unless(truth, temporary, end.block, now)?;
    Ok(())
}

#[cycle(items)]
#[inline(never)]
fn choose(
    alloc: Global,
    blocks: &mut Blocks,
    exits: &Exits,
    temporary: TemporaryId,
    first: &mut Vec<Item>,
    otherwise: &mut Vec<Item>,
    now: &mut Instructions,
) -> Result<(), NoMemory>
    ensures { IfOk result (λ _. Makes (item_made exits.now (λ core r. choice temporary.0 (items_view core r first.old.items) (items_view core r otherwise.old.items)) blocks.old now.old) blocks.old blocks.new now.new) }
{
    let end = blocks.join(now)?;
    let other = branch(alloc, blocks, exits, otherwise, end.on, now)?;
    code_to(alloc, blocks, exits, first, end.on, now)?;
    branch_unless(true, temporary, other, now)?;
    Ok(())
}

#[cycle(items)]
#[inline(never)]
fn select(
    alloc: Global,
    blocks: &mut Blocks,
    exits: &Exits,
    temporary: TemporaryId,
    cases: &mut Vec<Case>,
    otherwise: &mut Vec<Item>,
    now: &mut Instructions,
) -> Result<(), NoMemory>
    ensures { IfOk result (λ _. Makes (item_made exits.now (λ core r. selection temporary.0 (cases_view core r cases.old.items) (items_view core r otherwise.old.items)) blocks.old now.old) blocks.old blocks.new now.new) }
{
    let end = blocks.join(now)?;
    code_to(alloc, blocks, exits, otherwise, end.on, now)?;
    let arms = arms(alloc, blocks, exits, cases, end.on)?;
    now.put(Instruction::Switch { temporary, arms })?;
    Ok(())
}

/// The branches of a selection, from which the code goes on at another block.
#[cycle(items)]
#[inline(never)]
fn arms(
    alloc: Global,
    blocks: &mut Blocks,
    exits: &Exits,
    cases: &mut Vec<Case>,
    on: BlockId,
) -> Result<Sequence<Arm>, NoMemory>
    ensures { IfOk result (MakesArms (arms_made exits.now cases.old.items blocks.old on) blocks.old blocks.new) }
{
    let mut now = Instructions::none(alloc);
    let mut reversed = Vec::new(alloc);
    while let Some(case) = cases.pop() {
        let Case { labels, mut items } = case;
        let block = branch(alloc, blocks, exits, &mut items, on, &mut now)?;
        reversed.push(Arm { labels, block })?;
    }
    reversed.reverse();
    Ok(Sequence::from(reversed))
}

/// Puts in front: to the block where the second operand is not evaluated.
#[inline(never)]
fn branch_unless(
    truth: bool,
    temporary: TemporaryId,
    block: BlockId,
    now: &mut Instructions,
) -> Result<(), NoMemory>
    ensures { IfOk result (λ _. (core : Core) (r : ℕ) → seen core r now.new ≡ meant_unless truth temporary.0 block.0 ∷ seen core r now.old) }
{
    if truth {
        now.put(Instruction::Unless { temporary, block })
    } else {
        now.put(Instruction::When { temporary, block })
    }
}

/// Puts behind the head of a loop: to the block where it is over.
#[inline(never)]
fn branch_if(
    truth: bool,
    temporary: TemporaryId,
    block: BlockId,
    now: &mut Instructions,
) -> Result<(), NoMemory>
    ensures { IfOk result (λ _. (core : Core) (r : ℕ) → seen core r now.new ≡ meant_if truth temporary.0 block.0 ∷ seen core r now.old) }
{
    if truth {
        now.put(Instruction::When { temporary, block })
    } else {
        now.put(Instruction::Unless { temporary, block })
    }
}

// ---- loops

#[cycle(items)]
#[inline(never)]
fn from_head(
    alloc: Global,
    blocks: &mut Blocks,
    exits: &Exits,
    turns: &mut Turns,
    now: &mut Instructions,
) -> Result<(), NoMemory>
    ensures { IfOk result (λ _. Makes (item_made exits.now (λ core r. loop (turns_view core r turns.old)) blocks.old now.old) blocks.old blocks.new now.new) }
{
    let made = loop_blocks(alloc, blocks, exits, turns, now)?;
    now.lead_to(made.head)
}

#[cycle(items)]
#[inline(never)]
fn from_body(
    alloc: Global,
    blocks: &mut Blocks,
    exits: &Exits,
    turns: &mut Turns,
    now: &mut Instructions,
) -> Result<(), NoMemory>
    ensures { IfOk result (λ _. Makes (item_made exits.now (λ core r. body_first (turns_view core r turns.old)) blocks.old now.old) blocks.old blocks.new now.new) }
{
    let made = loop_blocks(alloc, blocks, exits, turns, now)?;
    now.lead_to(made.body)
}

/// The blocks of a loop: what is behind it, its head and its body, and those of its parts.
#[cycle(items)]
#[inline(never)]
fn loop_blocks(
    alloc: Global,
    blocks: &mut Blocks,
    exits: &Exits,
    turns: &mut Turns,
    now: &mut Instructions,
) -> Result<LoopBlocks, NoMemory>
    ensures head { IfOk result (λ made. made.head.0 ≡ length blocks.old + 1) }
    ensures body { IfOk result (λ made. made.body.0 ≡ length blocks.old + 2) }
    ensures blocks { IfOk result (λ _. Adds (loop_made exits.now turns.old blocks.old now.old) blocks.old blocks.new) }
{
    let made = blocks.begin_loop(now)?;
    let within = Exits::Loop {
        around: &*exits,
        behind: made.behind,
    };
    let on = body_block(alloc, blocks, &within, &mut turns.body, made, now)?;
    code_to(alloc, blocks, &within, &mut turns.between, on, now)?;
    branch_if(turns.ends, turns.temporary, made.behind, now)?;
    code(alloc, blocks, exits, &mut turns.head, now)?;
    blocks.fill(made.head, now);
    Ok(made)
}

/// The body of a loop, and the block to which one jumps in order to come to it.
#[cycle(items)]
#[inline(never)]
fn body_block(
    alloc: Global,
    blocks: &mut Blocks,
    exits: &Exits,
    body: &mut Vec<Item>,
    made: LoopBlocks,
    now: &mut Instructions,
) -> Result<BlockId, NoMemory>
    requires { made.body.0 < length blocks.old }
    ensures { IfOk result (IsBody (items_made exits.now body.old.items blocks.old (Instruction.Jump made.head ∷ [])) made.body blocks.old blocks.new) }
{
    code_to(alloc, blocks, exits, body, made.head, now)?;
    let on = now.reached_by(made.body);
    blocks.fill(made.body, now);
    Ok(on)
}

// ---- temporaries that end

/// The first one and the others, which are taken, as one list.
#[inline(never)]
fn listed(
    alloc: Global,
    first: Temporary,
    others: &mut Sequence<Temporary>,
) -> Result<Sequence<Temporary>, NoMemory>
    ensures { IfOk result (λ all. all ≡ first ∷ others.old) }
{
    let mut all = replace(others, Sequence::from(Vec::new(alloc))).into_vec();
    all.insert(0, first)?;
    Ok(Sequence::from(all))
}

/// Items that may make temporaries, which end in this order behind them and where they are left.
#[cycle(items)]
#[inline(never)]
fn scoped(
    alloc: Global,
    blocks: &mut Blocks,
    exits: &Exits,
    first: Temporary,
    others: &mut Sequence<Temporary>,
    items: &mut Vec<Item>,
    now: &mut Instructions,
) -> Result<(), NoMemory>
    ensures { IfOk result (λ _. Makes (item_made exits.now (λ core r. within_scope (view_temporary first) (map view_temporary others.old) (items_view core r items.old.items)) blocks.old now.old) blocks.old blocks.new now.new) }
{
    let temporaries = listed(alloc, first, others)?;
    let all = temporaries.as_slice();
    now.end(all)?;
    let within = Exits::Scope {
        around: &*exits,
        temporaries: all,
    };
    code(alloc, blocks, &within, items, now)?;
    now.put(Instruction::OpenTemporaries { temporaries })?;
    Ok(())
}

// ---- finally parts

#[cycle(items)]
#[inline(never)]
fn protect(
    alloc: Global,
    blocks: &mut Blocks,
    exits: &Exits,
    temporary: TemporaryId,
    items: &mut Vec<Item>,
    finalization: &mut Vec<Item>,
    now: &mut Instructions,
) -> Result<(), NoMemory>
    ensures { IfOk result (λ _. Makes (item_made exits.now (λ core r. protected temporary.0 (items_view core r items.old.items) (items_view core r finalization.old.items)) blocks.old now.old) blocks.old blocks.new now.new) }
{
    let block = finally_block(alloc, blocks, exits, temporary, finalization, now)?;
    let within = Exits::Finally {
        reason: temporary,
        finalization: block,
    };
    code_to(alloc, blocks, &within, items, block, now)?;
    now.put(begin_without_reason(temporary))?;
    Ok(())
}

/// The block of a finally part, and the three behind it that leave what stands round the construct.
#[cycle(items)]
#[inline(never)]
fn finally_block(
    alloc: Global,
    blocks: &mut Blocks,
    exits: &Exits,
    reason: TemporaryId,
    items: &mut Vec<Item>,
    now: &mut Instructions,
) -> Result<BlockId, NoMemory>
    ensures number { IfOk result (λ block. block.0 ≡ length blocks.old) }
    ensures blocks { IfOk result (λ _. Adds (finally_made exits.now reason items.old.items blocks.old now.old) blocks.old blocks.new) }
{
    let block = ways_out(alloc, blocks, exits)?;
    now.put(Instruction::Dispatch {
        temporary: reason,
        block,
    })?;
    code(alloc, blocks, exits, items, now)?;
    blocks.fill(block, now);
    Ok(block)
}

/// Reserves a block, and makes the three behind it: they leave.
fn ways_out(alloc: Global, blocks: &mut Blocks, exits: &Exits) -> Result<BlockId, NoMemory>
    ensures number { IfOk result (λ block. block.0 ≡ length blocks.old) }
    ensures blocks { IfOk result (λ _. Adds (λ core r. [] ∷ exits_of exits.now 1 ∷ exits_of exits.now 2 ∷ exits_of exits.now 3 ∷ []) blocks.old blocks.new) }
{
    let block = blocks.reserve()?;
    blocks.put(exits.leave(alloc, Way::Exit)?)?;
    blocks.put(exits.leave(alloc, Way::Break)?)?;
    blocks.put(exits.leave(alloc, Way::Continue)?)?;
    Ok(block)
}

/// Nothing is left when the part begins.
fn begin_without_reason(reason: TemporaryId) -> Instruction
    ensures { result ≡ Instruction.Act (Action.Constant reason (pos 0)) None }
{
    Instruction::Act {
        action: Action::Constant {
            to: reason,
            value: 0,
        },
        landing: None,
    }
}
