//! Places in a file.
ghost use Rattle.std.specs.Prelude.{◌≡◌, ℕ, List, [], ◌∷◌, ◌++◌, ◌+◌, ◌<◌, ◌≤◌, ◌^◌, length};
ghost use Rattle.op_scan.specs.Scan.{place_of};

use op_base::Place;

/// The place behind this byte, which stands at `place`. A line feed ends a line.
fn next_place(place: Place, byte: u8) -> Place
    requires line { place.line + 1 < 2 ^ 32 }
    requires column { place.col + 1 < 2 ^ 32 }
    ensures follows { (before : List ℕ) → place ≡ place_of place.file before
        → result ≡ place_of place.file (before ++ byte ∷ []) }
    ensures file { result.file ≡ place.file }
    ensures line_bound { result.line ≤ place.line + 1 }
    ensures column_bound { result.col ≤ place.col + 1 }
{
    if byte == b'\n' {
        return Place {
            file: place.file,
            line: place.line + 1,
            col: 1,
        };
    }
    Place {
        file: place.file,
        line: place.line,
        col: place.col + 1,
    }
}

/// The place behind these bytes, the first of which stands at `place`.
pub fn place_behind(place: Place, bytes: &[u8]) -> Place
    requires lines { place.line + length bytes.now < 2 ^ 32 }
    requires columns { place.col + length bytes.now < 2 ^ 32 }
    ensures { (before : List ℕ) → place ≡ place_of place.file before
        → result ≡ place_of place.file (before ++ bytes.now) }
{
    let mut here = place;
    for byte in bytes {
        here = next_place(here, *byte);
    }
    here
}
