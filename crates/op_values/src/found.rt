//! Where a value is.
ghost use Rattle.std.specs.Prelude.{◌≡◌};
ghost use Rattle.op_semantics.specs.Expressions.{at_path, found, operand_of, path_of, ready};
ghost use Rattle.op_semantics.specs.Items.{none};
ghost use Rattle.op_values.specs.Adding.{found_view, now_view};
ghost use Rattle.op_values.specs.Setting.{here_view};
ghost use Rattle.op_values.specs.View.{view_operand, view_path};

use crate::action::Operand;
use crate::ids::TemporaryId;
use crate::path::{Path, whole_path};
use crate::setting::Here;
use op_core::TypeId;
use op_scan::CompactText;
use std::alloc::Global;

/// Where a value is.
#[derive(Drop)]
pub enum Now {
    /// In the first free temporary, by its type one for a number or one for another value.
    Ready,
    /// At a place.
    At(Path),
    /// In a temporary of its own.
    Owned(Path),
    /// It is a literal.
    Literal(CompactText),
    /// It is nil of a type.
    Nil(TypeId),
    /// It is a Char of a text, by the temporary that has the index.
    Char { text: Operand, index: TemporaryId },
}

/// A value, how many temporaries the indices of its path keep, and the first free temporary behind it for a value that has to be ended.
#[derive(Drop)]
pub struct Found {
    pub now: Now,
    pub used: u32,
    pub held: u32,
}

impl Found {
    /// In its temporary.
    pub fn ready(held: u32) -> Found
        ensures { found_view result ≡ found none ready held }
    {
        Found {
            now: Now::Ready,
            used: 0,
            held,
        }
    }

    /// It is there, without an index.
    pub fn new(now: Now, held: u32) -> Found
        ensures { found_view result ≡ found none (now_view now) held }
    {
        Found { now, used: 0, held }
    }

    /// At a place that needs no index.
    pub fn at(path: Path, held: u32) -> Found
        ensures { found_view result ≡ found none (at_path (view_path path)) held }
    {
        Found {
            now: Now::At(path),
            used: 0,
            held,
        }
    }
}

/// The place of a value of the type, which is its temporary where it is nowhere else.
pub fn path_of(alloc: Global, of: TypeId, here: Here, now: Now) -> Path
    ensures { view_path result ≡ path_of of (here_view here) (now_view now) }
{
    match now {
        Now::At(path) => path,
        Now::Owned(path) => path,
        Now::Ready => whole_path(alloc, of, here),
        Now::Literal(_) => whole_path(alloc, of, here),
        Now::Nil(_) => whole_path(alloc, of, here),
        Now::Char { .. } => whole_path(alloc, of, here),
    }
}

/// A value of the type that is no number, where it is.
pub fn operand_of(alloc: Global, of: TypeId, here: Here, now: Now) -> Operand
    ensures { view_operand result ≡ operand_of of (here_view here) (now_view now) }
{
    match now {
        Now::Ready => Operand::Value(whole_path(alloc, of, here)),
        Now::At(path) => Operand::Value(path),
        Now::Owned(path) => Operand::Value(path),
        Now::Literal(text) => Operand::Literal(text),
        Now::Nil(of) => Operand::Nil(of),
        Now::Char { text, .. } => text,
    }
}
