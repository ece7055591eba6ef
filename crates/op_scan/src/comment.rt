//! Comments, which nest (Free Pascal Reference Guide, "Comments").
ghost use Rattle.std.specs.Prelude.{◌≡◌, ◌≤◌, ℕ, List, ◌∷◌, ◌++◌, IfOk, MatchOption, length};
ghost use Rattle.op_scan.specs.Class.{class_at};
ghost use Rattle.op_scan.specs.Comment.{opening, Closes};
ghost use Rattle.op_scan.specs.Inside.{opens, inside_at};
ghost use Rattle.op_scan.specs.Item.{IsFront};
ghost use Rattle.op_scan.specs.declared.class.Class.TheVariants as class;

use crate::Switches;
use crate::byte::{ByteKind, begins_with, run_length};
use crate::directive::effect_of_comment;
use crate::effect::{COMMENT_NOT_CLOSED, Effect, Front};
use op_base::NoMemory;
use std::alloc::Global;

/// The marks round a comment.
#[derive(Clone, Copy)]
pub enum Marks {
    /// `{` and `}`
    Braces,
    /// `(*` and `*)`
    Stars,
}

/// What begins at a byte inside a comment.
#[derive(Clone, Copy)]
pub enum Inside {
    /// The end of the comment.
    Closes,
    /// Another comment.
    Opens(Marks),
    Plain,
}

/// How many bytes these marks have at each end.
fn mark_length(marks: Marks) -> usize
    ensures { result ≡ length (opening marks) }
{
    match marks {
        Marks::Braces => 1,
        Marks::Stars => 2,
    }
}

/// The marks of the comment that begins with these bytes, if one does.
fn opens(first: u8, after: &[u8]) -> Inside
    ensures { result ≡ opens first after.now }
{
    if first == b'{' {
        Inside::Opens(Marks::Braces)
    } else if first == b'(' && begins_with(after, b'*') {
        Inside::Opens(Marks::Stars)
    } else {
        Inside::Plain
    }
}

/// What begins with these bytes, inside a comment with these marks.
fn inside_at(marks: Marks, first: u8, after: &[u8]) -> Inside
    ensures { result ≡ inside_at marks first after.now }
{
    match marks {
        Marks::Braces => {
            if first == b'}' {
                return Inside::Closes;
            }
        }
        Marks::Stars => {
            if first == b'*' && begins_with(after, b')') {
                return Inside::Closes;
            }
        }
    }
    opens(first, after)
}

/// What stands behind the comment whose inside begins with these bytes, if it is closed.
fn after_comment<'a>(
    alloc: Global,
    first: Marks,
    bytes: &'a [u8],
) -> Result<Option<&'a [u8]>, NoMemory>
    ensures { IfOk result (λ found. MatchOption found
        ((rest : List ℕ) → Closes first bytes.now rest → ⊥)
        (λ rest. Closes first bytes.now rest.now)) }
{
    let mut outer = Vec::new(alloc);
    let mut marks = first;
    let mut rest = bytes;
    while let Some((byte, after)) = rest.split_first() {
        match inside_at(marks, *byte, after) {
            Inside::Plain => rest = after,
            Inside::Opens(inner) => {
                outer.push(marks)?;
                marks = inner;
                (_, rest) = rest.split_at(mark_length(inner));
            }
            Inside::Closes => {
                (_, rest) = rest.split_at(mark_length(marks));
                match outer.pop() {
                    Some(next) => marks = next,
                    None => return Ok(Some(rest)),
                }
            }
        }
    }
    Ok(None)
}

/// The comment or directive with these marks at the front.
pub fn comment(
    alloc: Global,
    marks: Marks,
    bytes: &[u8],
    switches: Switches,
) -> Result<Front, NoMemory>
    requires { class_at bytes.now ≡ class.Comment marks }
    ensures { IfOk result (λ front. IsFront switches bytes.now front.length front.effect) }
{
    let width = mark_length(marks);
    let (_, on) = bytes.split_at(width);
    match after_comment(alloc, marks, on)? {
        None => Ok(Front {
            length: 0,
            effect: Effect::Breaks(COMMENT_NOT_CLOSED),
        }),
        Some(rest) => {
            let length = on.len() - rest.len();
            let (inside, _) = on.split_at(length - width);
            Ok(Front {
                length: width + length,
                effect: effect_of_comment(switches, inside),
            })
        }
    }
}

/// The comment or directive from `//` to the end of the line at the front.
pub fn line_comment(bytes: &[u8], switches: Switches) -> Front
    requires { class_at bytes.now ≡ class.LineComment }
    ensures { IsFront switches bytes.now result.length result.effect }
{
    let (_, line) = bytes.split_at(2);
    let length = run_length(ByteKind::NotLineFeed, line);
    let (inside, _) = line.split_at(length);
    Front {
        length: 2 + length,
        effect: effect_of_comment(switches, inside),
    }
}
