//! The laws of heaps, each as the contract of a function without code.
ghost use Rattle.op_heap.specs.Claims.{BlocksArePlaced, BlocksAreRead, HeapStays, HolesAreMerged, SizesAreLeast, TableStays, WordsAreIssuedOnce};

/// A block that goes to the front of the first hole that is large enough lies apart from all others, and takes this front and nothing else.
pub fn blocks_are_placed()
    ensures placed { BlocksArePlaced }
{}

/// A block that is given up becomes a hole, which is merged with both its neighbours.
pub fn holes_are_merged()
    ensures merged { HolesAreMerged }
{}

/// The blocks of strings, arrays and instances are no larger than they need to be, in steps of 16 bytes.
pub fn sizes_are_least()
    ensures least { SizesAreLeast }
{}

/// No word of a class or interface value is issued twice.
pub fn words_are_issued_once()
    ensures once { WordsAreIssuedOnce }
{}

/// Memory that has a heap tells its blocks, with their addresses, sizes and kinds.
pub fn blocks_are_read()
    ensures read { BlocksAreRead }
{}

/// Memory goes on having the heap and the slots where a change leaves alone what the frames name.
pub fn heap_stays()
    ensures stays { HeapStays }
{}

/// The row of a slot goes on leading to the block of its instance, whatever is made and let go.
pub fn table_stays()
    ensures stays { TableStays }
{}
