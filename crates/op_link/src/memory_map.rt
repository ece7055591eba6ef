//! Where the parts of a program lie in memory.
ghost use Rattle.std.specs.Prelude.{◌≡◌, ◌+◌, ◌^◌, ◌<◌, ◌≤◌, IsTrue, length, nat_le};
ghost use Rattle.op_link.specs.Memory.{are_in_range, constants_address, constants_size, empty, filled, globals_address, heap_size, most_linked, page_up, segments_of, stack_address, stack_size};

use crate::table::Segment;
use op_layout::Layout;

/// What a program gets to run, in KiB: 64 to 262,144 of heap and 16 to 65,536 of stack.
#[derive(Clone, Copy)]
pub struct Settings {
    pub heap: u32,
    pub stack: u32,
}

/// How many bytes the parts of a program take.
#[derive(Clone, Copy)]
pub struct Sizes {
    pub code: u32,
    pub constants: u32,
    /// Global variables that begin with bytes of their own.
    pub initial: u32,
    /// Global variables that begin as zero.
    pub zeros: u32,
}

/// The most that code, constants and initial globals may take together.
const MOST_LINKED: usize = 67_108_864;

/// Where the code begins in memory.
pub(crate) const CODE_ADDRESS: u32 = 0x0001_0000;

/// How far the bytes of a segment stand in front of their address.
const ADDRESS_FROM_OFFSET: u32 = 0xF000;

/// Where the control region begins, and its size.
pub(crate) const CONTROL_ADDRESS: u32 = 0x0800_0000;

const CONTROL_SIZE: u32 = 524_312;

/// Where the heap begins.
pub(crate) const HEAP_ADDRESS: u32 = 0x1000_0000;

/// The first address behind the stack.
pub(crate) const STACK_TOP: u32 = 0x7000_0000;

/// What the stack has besides, for the routines below all others.
const STACK_RESERVE: u32 = 2048;

const PAGE: u32 = 4096;

const READ: u32 = 4;

const READ_EXECUTE: u32 = 5;

const READ_WRITE: u32 = 6;

/// Whether code of this size, the constants and the initial globals take no more than they may.
pub(crate) fn is_within(code: u32, layout: &Layout, initial: u32) -> bool
    ensures { result ≡ nat_le (code + constants_size layout.now + initial) most_linked }
{
    let bytes = layout.bytes.as_slice().len();
    let entries = layout.entries.as_slice().len();
    bytes <= MOST_LINKED
        && entries <= MOST_LINKED
        && code as usize + (bytes + 4 * entries) + initial as usize <= MOST_LINKED
}

/// The first address of a page that is not below this one.
fn page_up(n: u32) -> u32
    requires { n + 4095 < 2 ^ 32 }
    ensures { result ≡ page_up n }
{
    (n + (PAGE - 1)) / PAGE * PAGE
}

impl Sizes {
    /// Where the constants begin.
    #[tactic(auto, unfolding(crate::specs::Memory::constants_address))]
    pub(crate) fn constants_address(&self) -> u32
        requires { self.now.code ≤ most_linked }
        ensures is { result ≡ constants_address self.now }
        ensures above { 0x00010000 + self.now.code ≤ result }
        ensures bound { result < 0x00010000 + self.now.code + 4096 }
    {
        page_up(CODE_ADDRESS + self.code)
    }

    /// Where the global variables begin.
    #[tactic(auto, unfolding(crate::specs::Memory::globals_address))]
    pub(crate) fn globals_address(&self) -> u32
        requires { self.now.code + self.now.constants ≤ most_linked }
        ensures is { result ≡ globals_address self.now }
        ensures above { 0x00010000 ≤ result }
        ensures behind { constants_address self.now + self.now.constants ≤ result }
        ensures bound { result < 0x00010000 + self.now.code + self.now.constants + 8192 }
    {
        page_up(self.constants_address() + self.constants)
    }
}

impl Settings {
    /// What a program gets that asks for nothing else.
    pub const DEFAULT: Settings = Settings {
        heap: 8192,
        stack: 1024,
    };

    /// The bytes of the heap.
    pub(crate) fn heap_size(&self) -> u32
        requires { IsTrue (are_in_range self.now) }
        ensures { result ≡ heap_size self.now }
    {
        1024 * self.heap
    }

    /// The size of the stack's segment.
    fn stack_size(&self) -> u32
        requires { IsTrue (are_in_range self.now) }
        ensures { result ≡ stack_size self.now }
    {
        1024 * self.stack + STACK_RESERVE
    }

    /// The bottom of the stack.
    #[tactic(auto, unfolding(crate::specs::Memory::stack_address))]
    pub(crate) fn stack_address(&self) -> u32
        requires { IsTrue (are_in_range self.now) }
        ensures { result ≡ stack_address self.now }
    {
        STACK_TOP - self.stack_size()
    }
}

/// A segment with bytes in the file.
fn filled(address: u32, file_size: u32, memory_size: u32, flags: u32) -> Segment
    requires { 0xF000 ≤ address }
    ensures { result ≡ filled address file_size memory_size flags }
{
    Segment {
        address,
        offset: address - ADDRESS_FROM_OFFSET,
        file_size,
        memory_size,
        flags,
    }
}

/// A segment of zeros.
fn empty(address: u32, size: u32) -> Segment
    ensures { result ≡ empty address size }
{
    Segment {
        address,
        offset: address % PAGE,
        file_size: 0,
        memory_size: size,
        flags: READ_WRITE,
    }
}

/// The segments in their order: code, constants, globals, control region, heap, stack.
#[tactic(auto, unfolding(crate::specs::Memory::segments_of))]
pub(crate) fn segments(sizes: &Sizes, settings: &Settings) -> [Segment; 6]
    requires code { sizes.now.code + sizes.now.constants ≤ most_linked }
    requires globals { sizes.now.initial + sizes.now.zeros < 2 ^ 32 }
    requires settings { IsTrue (are_in_range settings.now) }
    ensures { result ≡ segments_of sizes.now settings.now }
{
    let globals_size = sizes.initial + sizes.zeros;
    [
        filled(CODE_ADDRESS, sizes.code, sizes.code, READ_EXECUTE),
        filled(
            sizes.constants_address(),
            sizes.constants,
            sizes.constants,
            READ,
        ),
        filled(
            sizes.globals_address(),
            sizes.initial,
            globals_size,
            READ_WRITE,
        ),
        empty(CONTROL_ADDRESS, CONTROL_SIZE),
        empty(HEAP_ADDRESS, settings.heap_size()),
        empty(settings.stack_address(), settings.stack_size()),
    ]
}
