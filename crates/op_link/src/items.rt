//! From the items of routines to their code.
ghost use Rattle.std.specs.Prelude.{◌≡◌, ◌+◌, ◌*◌, ◌^◌, ◌<◌, ◌≤◌, ◌&&◌, IfOk, IsTrue, Some, length};
ghost use Rattle.std.specs.List.{list_all};
ghost use Rattle.op_rv.specs.Encoding.{is_register};
ghost use Rattle.op_link.specs.Code.{blocks_code, blocks_have_fields, branch_code, code_at, has_fields, have_fields, item_code, items_code, jump_code, routine_code, routine_has_fields, routines_code, set_address, symbol_address};
ghost use Rattle.op_link.specs.Placing.{HasRoom, behind_blocks, behind_items, behind_routine, first_spot, items_in_blocks, items_in_routine, items_in_routines};
ghost use Rattle.op_link.specs.Reach.{block_in, head_in, reach_of};
ghost use Rattle.op_link.specs.Writes.{Writes};

use crate::addresses::{Addresses, symbol_address};
use crate::code::{CodeError, RETURN, ZERO, push, push_address, push_branch, push_jump};
use crate::place::{Spot, behind, block_in, first_spot, head_in};
use crate::reach::{Reach, reach_of};
use op_layout::Layout;
use op_rv::{BlockId, BranchOp, Instr, Item, ObjectBlock, ObjectRoutine, RoutineId, Symbol};

/// Puts the address of a symbol in a register.
fn push_symbol(
    code: &mut Vec<u8>,
    layout: &Layout,
    addresses: &Addresses,
    rd: u8,
    symbol: Symbol,
) -> Result<(), CodeError>
    requires { IsTrue (is_register rd) }
    ensures { Writes result code.old.items code.new.items (code_at (λ to. Some (set_address rd to)) (symbol_address layout.now addresses.now symbol)) }
{
    match symbol_address(layout, addresses, symbol) {
        None => Err(CodeError::OutOfReach),
        Some(to) => push_address(code, rd, to),
    }
}

/// A branch to an address, if there is one.
fn push_branch_to(
    code: &mut Vec<u8>,
    reach: Reach,
    op: BranchOp,
    left: u8,
    right: u8,
    from: u32,
    to: Option<u32>,
) -> Result<(), CodeError>
    requires registers { IsTrue (is_register left && is_register right) }
    requires room { from + 4 < 2 ^ 32 }
    ensures { Writes result code.old.items code.new.items (code_at (branch_code reach op left right from) to) }
{
    match to {
        None => Err(CodeError::OutOfReach),
        Some(to) => push_branch(code, reach, op, left, right, from, to),
    }
}

/// A jump to an address, if there is one, with the address behind in the register `link`.
fn push_jump_to(
    code: &mut Vec<u8>,
    reach: Reach,
    link: u8,
    from: u32,
    to: Option<u32>,
) -> Result<(), CodeError>
    requires { IsTrue (is_register link) }
    ensures { Writes result code.old.items code.new.items (code_at (jump_code reach link from) to) }
{
    match to {
        None => Err(CodeError::OutOfReach),
        Some(to) => push_jump(code, reach, link, from, to),
    }
}

/// An item of the routine `r`.
#[tactic(auto, unfolding(crate::specs::Code::item_code, crate::specs::Code::has_fields))]
fn push_item(
    code: &mut Vec<u8>,
    layout: &Layout,
    addresses: &Addresses,
    r: usize,
    spot: Spot,
    item: &Item,
) -> Result<(), CodeError>
    requires fields { IsTrue (has_fields item.now) }
    requires room { HasRoom spot 1 }
    ensures { Writes result code.old.items code.new.items (item_code layout.now addresses.now r spot item.now) }
{
    let reach = reach_of(addresses.known.as_slice(), r, spot.longest, item);
    let routines = addresses.routines.as_slice();
    match item {
        Item::Plain(i) => push(code, *i),
        Item::Address { rd, symbol } => push_symbol(code, layout, addresses, *rd, *symbol),
        Item::Branch {
            op,
            left,
            right,
            block,
        } => {
            let to = block_in(routines, r, *block);
            push_branch_to(code, reach, *op, *left, *right, spot.address, to)
        }
        Item::Jump { block } => {
            let to = block_in(routines, r, *block);
            push_jump_to(code, reach, ZERO, spot.address, to)
        }
        Item::Call {
            routine,
            landing: _,
        } => {
            let to = head_in(routines, *routine);
            push_jump_to(code, reach, RETURN, spot.address, to)
        }
        Item::CallAt { landing: _ } => push(
            code,
            Instr::Jalr {
                rd: RETURN,
                rs1: RETURN,
                offset: 0,
            },
        ),
    }
}

/// Items of the routine `r`. Gives the spot behind them.
fn push_items(
    code: &mut Vec<u8>,
    layout: &Layout,
    addresses: &Addresses,
    r: usize,
    spot: Spot,
    items: &[Item],
) -> Result<Spot, CodeError>
    requires fields { IsTrue (have_fields items.now) }
    requires room { HasRoom spot (length items.now) }
    ensures code { Writes result code.old.items code.new.items (items_code layout.now addresses.now r spot items.now) }
    ensures end { IfOk result (λ end. end ≡ behind_items addresses.now.known r spot items.now) }
    ensures longest { IfOk result (λ end. end.longest ≤ spot.longest + 12 * length items.now) }
    ensures address { IfOk result (λ end. end.address ≤ spot.address + 12 * length items.now) }
{
    let mut spot = spot;
    for item in items {
        push_item(code, layout, addresses, r, spot, item)?;
        spot = behind(addresses.known.as_slice(), r, spot, item);
    }
    Ok(spot)
}

/// Blocks of the routine `r`. Gives the spot behind them.
fn push_blocks(
    code: &mut Vec<u8>,
    layout: &Layout,
    addresses: &Addresses,
    r: usize,
    spot: Spot,
    blocks: &[ObjectBlock],
) -> Result<Spot, CodeError>
    requires fields { IsTrue (list_all (λ block. have_fields block.items) blocks.now) }
    requires room { HasRoom spot (items_in_blocks blocks.now) }
    ensures code { Writes result code.old.items code.new.items (blocks_code layout.now addresses.now r spot blocks.now) }
    ensures end { IfOk result (λ end. end ≡ behind_blocks addresses.now.known r spot blocks.now) }
    ensures longest { IfOk result (λ end. end.longest ≤ spot.longest + 12 * items_in_blocks blocks.now) }
    ensures address { IfOk result (λ end. end.address ≤ spot.address + 12 * items_in_blocks blocks.now) }
{
    let mut spot = spot;
    for block in blocks {
        spot = push_items(code, layout, addresses, r, spot, block.items.as_slice())?;
    }
    Ok(spot)
}

/// The routine `r`. Gives the spot behind it.
#[tactic(auto, unfolding(crate::specs::Code::routine_has_fields, crate::specs::Code::blocks_have_fields))]
fn push_routine(
    code: &mut Vec<u8>,
    layout: &Layout,
    addresses: &Addresses,
    r: usize,
    spot: Spot,
    routine: &ObjectRoutine,
) -> Result<Spot, CodeError>
    requires fields { IsTrue (routine_has_fields routine.now) }
    requires room { HasRoom spot (items_in_routine routine.now) }
    ensures code { Writes result code.old.items code.new.items (routine_code layout.now addresses.now r spot routine.now) }
    ensures end { IfOk result (λ end. end ≡ behind_routine addresses.now.known r spot routine.now) }
    ensures longest { IfOk result (λ end. end.longest ≤ spot.longest + 12 * items_in_routine routine.now) }
    ensures address { IfOk result (λ end. end.address ≤ spot.address + 12 * items_in_routine routine.now) }
{
    let spot = push_items(code, layout, addresses, r, spot, routine.head.as_slice())?;
    push_blocks(code, layout, addresses, r, spot, routine.blocks.as_slice())
}

/// All routines, behind the instructions with which the program begins.
pub(crate) fn push_routines(
    code: &mut Vec<u8>,
    layout: &Layout,
    addresses: &Addresses,
    routines: &[ObjectRoutine],
) -> Result<(), CodeError>
    requires fields { IsTrue (list_all routine_has_fields routines.now) }
    requires small { items_in_routines routines.now ≤ 16777216 }
    ensures { Writes result code.old.items code.new.items (routines_code layout.now addresses.now 0 first_spot routines.now) }
{
    let mut spot = first_spot();
    for (r, routine) in routines.iter().enumerate() {
        spot = push_routine(code, layout, addresses, r, spot, routine)?;
    }
    Ok(())
}
