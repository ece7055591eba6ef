//! The parts of an image, one behind the other.
ghost use Rattle.std.specs.Prelude.{◌≡◌, ◌+◌, ◌^◌, ◌<◌, ◌≤◌, ◌++◌, [], ◌∷◌, IfErr, IfOk, IsTrue, OnOk, Some, None, length, map};
ghost use Rattle.std.specs.List.{list_all};
ghost use Rattle.std.specs.Option.{option_map};
ghost use Rattle.op_link.specs.Code.{high_of, routine_has_fields};
ghost use Rattle.op_link.specs.Linking.{code_padding, constants_bytes, constants_padding, data_bytes, entry_word, first_hole_code, front_bytes, heap_size_code, image_bytes, program_code, stack_code, stack_size_code, start_code, words};
ghost use Rattle.op_link.specs.Memory.{are_in_range, globals_size, most_linked};
ghost use Rattle.op_link.specs.Placing.{items_in_routines};
ghost use Rattle.op_link.specs.Writes.{Writes};
ghost use Rattle.op_rv.specs.Encoding.{is_imm, is_register};

use crate::addresses::Addresses;
use crate::code::{CodeError, ZERO, high, push, push_address, push_far_jump};
use crate::elf::{push_file_header, push_program_headers, push_word};
use crate::globals::{push_globals, push_zeros};
use crate::items::push_routines;
use crate::memory_map::{
    CODE_ADDRESS, CONTROL_ADDRESS, HEAP_ADDRESS, STACK_TOP, Settings, Sizes, segments,
};
use crate::place::{RoutinePlace, head_in};
use op_layout::Layout;
use op_rv::{ImmOp, Instr, Objects, RoutineId, StoreOp};
use std::alloc::{AllocError, Global};

/// The zeros between the headers and the offset 4,096.
const HEADERS_PADDING: u32 = 3852;

/// The register that has the top of the stack.
const STACK_POINTER: u8 = 2;

/// The register that has the address of the control region while a program begins.
const CONTROL: u8 = 5;

/// The register that has the address of the first hole.
const HOLE: u8 = 6;

/// The register that has the word that is told.
const WORD: u8 = 7;

/// The register that has the bottom of the stack.
const STACK_BOTTOM: u8 = 8;

/// Where the control region has the address of the first hole, the bytes of heap and stack, and the least slot that was never issued.
const FIRST_HOLE: i32 = 0;

const HEAP_BYTES: i32 = 8;

const STACK_BYTES: i32 = 12;

const NEXT_UNUSED: i32 = 16;

/// Where a hole has its bytes.
const HOLE_BYTES: i32 = 0;

/// The least slot.
const FIRST_SLOT: i32 = 1;

/// Appends headers and zeros up to the code.
#[tactic(auto, unfolding(crate::specs::Linking::front_bytes))]
fn push_front(image: &mut Vec<u8>, sizes: &Sizes, settings: &Settings) -> Result<(), AllocError>
    requires code { sizes.now.code + sizes.now.constants ≤ most_linked }
    requires globals { sizes.now.initial + sizes.now.zeros < 2 ^ 32 }
    requires settings { IsTrue (are_in_range settings.now) }
    ensures { OnOk result (image.new.items ≡ image.old.items ++ front_bytes sizes.now settings.now) }
{
    push_file_header(image)?;
    push_program_headers(image, &segments(sizes, settings))?;
    push_zeros(image, HEADERS_PADDING)?;
    Ok(())
}

/// Appends an instruction that sets the upper part of a register, where the lower part of the address is 0.
fn push_upper(image: &mut Vec<u8>, rd: u8, to: u32) -> Result<(), CodeError>
    requires { IsTrue (is_register rd) }
    ensures { Writes result image.old.items image.new.items (Some (Instr.Lui rd (high_of to) ∷ [])) }
{
    push(
        image,
        Instr::Lui {
            rd,
            upper: high(to),
        },
    )
}

/// Appends an instruction that stores the word of a register behind the address in another one.
fn push_store(image: &mut Vec<u8>, base: u8, value: u8, offset: i32) -> Result<(), CodeError>
    requires base { IsTrue (is_register base) }
    requires value { IsTrue (is_register value) }
    requires offset { IsTrue (is_imm offset) }
    ensures { Writes result image.old.items image.new.items (Some (Instr.Store StoreOp.Sw base value offset ∷ [])) }
{
    push(
        image,
        Instr::Store {
            op: StoreOp::Sw,
            rs1: base,
            rs2: value,
            offset,
        },
    )
}

/// Appends the instructions that tell where the first hole is.
fn push_first_hole(image: &mut Vec<u8>) -> Result<(), CodeError>
    ensures { Writes result image.old.items image.new.items (Some first_hole_code) }
{
    push_upper(image, CONTROL, CONTROL_ADDRESS)?;
    push_upper(image, HOLE, HEAP_ADDRESS)?;
    push_store(image, CONTROL, HOLE, FIRST_HOLE)
}

/// Appends those that tell the bytes of the heap.
fn push_heap_size(image: &mut Vec<u8>, settings: &Settings) -> Result<(), CodeError>
    requires { IsTrue (are_in_range settings.now) }
    ensures { Writes result image.old.items image.new.items (Some (heap_size_code settings.now)) }
{
    push_address(image, WORD, settings.heap_size())?;
    push_store(image, CONTROL, WORD, HEAP_BYTES)?;
    push_store(image, HOLE, WORD, HOLE_BYTES)
}

/// Appends those that tell the bytes of the stack and the least slot.
fn push_stack_size(image: &mut Vec<u8>, settings: &Settings) -> Result<(), CodeError>
    requires { IsTrue (are_in_range settings.now) }
    ensures { Writes result image.old.items image.new.items (Some (stack_size_code settings.now)) }
{
    push_address(image, WORD, 1024 * settings.stack)?;
    push_store(image, CONTROL, WORD, STACK_BYTES)?;
    push(
        image,
        Instr::Imm {
            op: ImmOp::Addi,
            rd: WORD,
            rs1: ZERO,
            imm: FIRST_SLOT,
        },
    )?;
    push_store(image, CONTROL, WORD, NEXT_UNUSED)
}

/// Appends those that make the stack, and go to an address.
fn push_stack(image: &mut Vec<u8>, settings: &Settings, to: u32) -> Result<(), CodeError>
    requires { IsTrue (are_in_range settings.now) }
    ensures { Writes result image.old.items image.new.items (Some (stack_code settings.now to)) }
{
    push_address(image, STACK_BOTTOM, settings.stack_address())?;
    push_address(image, STACK_POINTER, STACK_TOP)?;
    push_far_jump(image, ZERO, to)
}

/// Appends the instructions with which a program begins. They go to an address.
fn push_start(image: &mut Vec<u8>, settings: &Settings, to: u32) -> Result<(), CodeError>
    requires { IsTrue (are_in_range settings.now) }
    ensures { Writes result image.old.items image.new.items (Some (start_code settings.now to)) }
{
    push_first_hole(image)?;
    push_heap_size(image, settings)?;
    push_stack_size(image, settings)?;
    push_stack(image, settings, to)
}

/// Appends the code.
#[tactic(auto, unfolding(crate::specs::Linking::program_code))]
fn push_program(
    image: &mut Vec<u8>,
    layout: &Layout,
    addresses: &Addresses,
    settings: &Settings,
    objects: &Objects,
) -> Result<(), CodeError>
    requires settings { IsTrue (are_in_range settings.now) }
    requires fields { IsTrue (list_all routine_has_fields objects.now.routines) }
    requires small { items_in_routines objects.now.routines ≤ 16777216 }
    ensures { Writes result image.old.items image.new.items (program_code layout.now addresses.now settings.now objects.now) }
{
    match head_in(addresses.routines.as_slice(), objects.entry) {
        None => Err(CodeError::OutOfReach),
        Some(to) => {
            push_start(image, settings, to)?;
            push_routines(image, layout, addresses, objects.routines.as_slice())
        }
    }
}

/// The address of a routine, 0 where there is none.
#[tactic(auto, unfolding(crate::specs::Linking::entry_word))]
fn entry_word(routines: &[RoutinePlace], routine: RoutineId) -> u32
    ensures { result ≡ entry_word routines.now routine }
{
    match head_in(routines, routine) {
        None => 0,
        Some(address) => address,
    }
}

/// Appends what the tables hold.
fn push_entries(
    image: &mut Vec<u8>,
    routines: &[RoutinePlace],
    entries: &[RoutineId],
) -> Result<(), AllocError>
    ensures { OnOk result (image.new.items ≡ image.old.items ++ words (map (entry_word routines.now) entries.now)) }
{
    for entry in entries {
        push_word(image, entry_word(routines, *entry))?;
    }
    Ok(())
}

/// Appends the constants.
#[tactic(auto, unfolding(crate::specs::Linking::constants_bytes))]
fn push_constants(
    image: &mut Vec<u8>,
    layout: &Layout,
    routines: &[RoutinePlace],
) -> Result<(), AllocError>
    ensures { OnOk result (image.new.items ≡ image.old.items ++ constants_bytes layout.now routines.now) }
{
    image.extend_from_slice(layout.bytes.as_slice())?;
    push_entries(image, routines, layout.entries.as_slice())
}

impl Sizes {
    /// The zeros between the code and the constants.
    #[tactic(auto, unfolding(crate::specs::Linking::code_padding))]
    fn code_padding(&self) -> u32
        requires { self.now.code + self.now.constants ≤ most_linked }
        ensures { result ≡ code_padding self.now }
    {
        self.constants_address() - (CODE_ADDRESS + self.code)
    }

    /// The zeros between the constants and the globals.
    #[tactic(auto, unfolding(crate::specs::Linking::constants_padding))]
    fn constants_padding(&self) -> u32
        requires { self.now.code + self.now.constants ≤ most_linked }
        ensures { result ≡ constants_padding self.now }
    {
        self.globals_address() - (self.constants_address() + self.constants)
    }
}

/// Appends what the file has behind the code.
#[tactic(auto, unfolding(crate::specs::Linking::data_bytes))]
fn push_data(
    image: &mut Vec<u8>,
    layout: &Layout,
    objects: &Objects,
    sizes: &Sizes,
    routines: &[RoutinePlace],
) -> Result<(), AllocError>
    requires code { sizes.now.code + sizes.now.constants ≤ most_linked }
    requires few { globals_size objects.now.globals ≤ 15728640 }
    ensures { OnOk result (image.new.items ≡ image.old.items ++ data_bytes layout.now objects.now sizes.now routines.now) }
{
    push_zeros(image, sizes.code_padding())?;
    push_constants(image, layout, routines)?;
    push_zeros(image, sizes.constants_padding())?;
    push_globals(image, objects.globals.as_slice())
}

/// The image of a program whose parts take these bytes and stand at these addresses.
#[tactic(auto, unfolding(crate::specs::Linking::image_bytes))]
pub(crate) fn write(
    alloc: Global,
    layout: &Layout,
    objects: &Objects,
    settings: &Settings,
    sizes: &Sizes,
    addresses: &Addresses,
) -> Result<Vec<u8>, CodeError>
    requires code { sizes.now.code + sizes.now.constants ≤ most_linked }
    requires globals { sizes.now.initial + sizes.now.zeros < 2 ^ 32 }
    requires settings { IsTrue (are_in_range settings.now) }
    requires fields { IsTrue (list_all routine_has_fields objects.now.routines) }
    requires small { items_in_routines objects.now.routines ≤ 16777216 }
    requires few { globals_size objects.now.globals ≤ 15728640 }
    ensures image { IfOk result (λ image. option_map (image_bytes layout.now objects.now settings.now sizes.now addresses.now.routines) (program_code layout.now addresses.now settings.now objects.now) ≡ Some image.items) }
    ensures far { IfErr result (λ error. error ≡ CodeError.OutOfReach → program_code layout.now addresses.now settings.now objects.now ≡ None) }
{
    let mut image = Vec::new(alloc);
    push_front(&mut image, sizes, settings)?;
    push_program(&mut image, layout, addresses, settings, objects)?;
    push_data(
        &mut image,
        layout,
        objects,
        sizes,
        addresses.routines.as_slice(),
    )?;
    Ok(image)
}
