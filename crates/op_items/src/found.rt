//! Where a value is.
ghost use Rattle.std.specs.Prelude.{◌≡◌};
ghost use Rattle.op_items.specs.Adding.{found_view, now_view};
ghost use Rattle.op_items.specs.Setting.{here_view};
ghost use Rattle.op_meaning.specs.Expressions.{found, path_of, ready, at_path};
ghost use Rattle.op_meaning.specs.Items.{none};
ghost use Rattle.op_mir.specs.View.{view_path};

use crate::path::whole_path;
use crate::setting::Here;
use op_core::TypeId;
use op_mir::Path;
use op_scan::CompactText;
use std::alloc::Global;

/// Where a value is.
#[derive(Drop)]
pub enum Now {
    /// In the first free temporary, by its type one for a number or one for a value that is no number.
    Ready,
    /// At a place.
    At(Path),
    /// It is a literal.
    Literal(CompactText),
}

/// A value, and how many temporaries the indices of its path keep.
#[derive(Drop)]
pub struct Found {
    pub now: Now,
    pub used: u32,
}

impl Found {
    /// In its temporary.
    pub fn ready() -> Found
        ensures { found_view result ≡ found none ready }
    {
        Found {
            now: Now::Ready,
            used: 0,
        }
    }

    /// At a place that needs no index.
    pub fn at(path: Path) -> Found
        ensures { found_view result ≡ found none (at_path (view_path path)) }
    {
        Found {
            now: Now::At(path),
            used: 0,
        }
    }
}

/// The place of a value of the type, which is its temporary where it is nowhere else.
pub fn path_of(alloc: Global, of: TypeId, here: Here, now: Now) -> Path
    ensures { view_path result ≡ path_of of (here_view here) (now_view now) }
{
    match now {
        Now::At(path) => path,
        _ => whole_path(alloc, of, here),
    }
}
