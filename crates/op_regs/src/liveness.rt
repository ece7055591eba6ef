//! The positions at which a register is live, by going through all lines until nothing changes.
ghost use Rattle.op_regs.specs.Marking.{AreMarked, MarkLive, is_marked as has_mark, is_marked_at as has_mark_at, lacks as lacks_mark, leads as does_lead, with_mark};
ghost use Rattle.std.specs.Prelude.{◌≡◌, ◌<◌, IfOk, if◌then◌else◌, length, true};

use crate::line::Line;
use op_base::NoMemory;
use std::alloc::Global;

fn is_marked(marks: &[bool], position: usize) -> bool
    ensures { result ≡ has_mark marks.now position }
{
    match marks.get(position) {
        None => false,
        Some(mark) => *mark,
    }
}

fn is_marked_at(marks: &[bool], position: Option<usize>) -> bool
    ensures { result ≡ has_mark_at marks.now position }
{
    match position {
        None => false,
        Some(position) => is_marked(marks, position),
    }
}

/// Whether the line at a position reads, or leads to a mark.
fn leads(marks: &[bool], position: usize, line: Line) -> bool
    requires { position < usize.MAX }
    ensures { result ≡ does_lead marks.now position line }
{
    line.reads || line.passes && is_marked(marks, position + 1) || is_marked_at(marks, line.other)
}

/// Whether a mark is missing at a position.
#[tactic(auto, unfolding(crate::specs::Marking::lacks))]
fn lacks(lines: &[Line], marks: &[bool], position: usize) -> bool
    requires { position < usize.MAX }
    ensures { result ≡ lacks_mark lines.now marks.now position }
{
    match lines.get(position) {
        None => false,
        Some(line) => !is_marked(marks, position) && leads(marks, position, *line),
    }
}

/// Puts a mark at a position if it is missing. Whether there are changes then.
fn mark(lines: &[Line], marks: &mut Vec<bool>, position: usize, changes: bool) -> bool
    requires place { position < length lines.now }
    requires each { length marks.old.items ≡ length lines.now }
    ensures marks { marks.new.items ≡ with_mark lines.now position marks.old.items }
    ensures changes { result ≡ (if lacks_mark lines.now marks.old.items position then true else changes) }
{
    if !lacks(lines, marks.as_slice(), position) {
        return changes;
    }
    marks[position] = true;
    true
}

/// Puts marks where they are missing, from the last line to the first. Whether there were such.
fn pass(lines: &[Line], marks: &mut Vec<bool>) -> bool
    requires { length marks.old.items ≡ length lines.now }
    ensures { AreMarked lines.now marks.old.items marks.new.items result 0 }
{
    let mut changes = false;
    let mut left = lines.len();
    while 0 < left {
        left -= 1;
        changes = mark(lines, marks, left, changes);
    }
    changes
}

/// A mark for each position at which the register is live, and none for the others.
pub fn live_at(alloc: Global, lines: &[Line]) -> Result<Vec<bool>, NoMemory>
    ensures each { IfOk result (λ marks. length marks.items ≡ length lines.now) }
    ensures live { IfOk result (λ marks. MarkLive lines.now marks.items) }
{
    let mut marks = vec![in alloc; false; lines.len()]?;
    while pass(lines, &mut marks) {}
    Ok(marks)
}
