//! Reading the files of a program.
ghost use Rattle.std.specs.Prelude.{◌≡◌, ◌≤◌, ◌∷◌, None, IfOk, IfErr, length};
ghost use Rattle.op_scan.specs.Scan.{StandFor};
ghost use Rattle.op_tree.specs.Terminal.{terminals};
ghost use Rattle.op_units.specs.Cycles.{FirstIs, RefusesBy, StopsAt, with_frame};
ghost use Rattle.op_units.specs.Forms.{FirstShown};
ghost use Rattle.op_units.specs.Names.{IsFolder};
ghost use Rattle.op_units.specs.Reading.{BreaksAs, IsShownAs, Reads, ReadsTokens, SpelledAs, first_told};
ghost use Rattle.op_units.specs.Unbuilt.{FirstUnbuilt};
ghost use Rattle.op_units.specs.Walk.{GivesForest, RefusalHasText, Stops, Visits, nothing_read, walked, walked_of};

use crate::form::first_form;
use crate::frame::Frame;
use crate::unbuilt::first_unbuilt;
use crate::uses::folder_of;
use crate::walk::{CYCLE, FILE_TOO_LARGE, MOST_BYTES, Walk, broken, start_of};
use crate::{Forest, LoadError};
use op_base::{FILE_MISSING, FileAnswer, Files, NoMemory, Place, Refusal, Rule, Text};
use op_core::FirstRefusal;
use op_parse_code::ParseError;
use op_parse_decl::parse;
use op_scan::{ScanError, Token, Tokens, scan};
use op_tree::Tree;
use std::alloc::Global;
use std::collections::VecDeque;

/// The files of the program whose main file has this name, which is the name as `files` knows it, and the order of its units.
///
/// The main file is read, and then the units that it uses: a unit `Foo` from the file `foo.pas` in the folder of the main file, depth first and each
/// file once. Visiting a unit visits the units of its interface part in order, then those of its implementation part, then places the unit. `System` and
/// `SysUtils` have no file.
///
/// `Refused` tells the first rule that is broken, with the name of the file where that is: the main file's as it was given, and the bare name of a unit's.
/// In each file come 62 at line and column 1, where the file has more than 4,194,304 bytes or with it all files have more than 16,777,216; the first rule
/// of spelling, as `scan` has them; the first of 9, 61 and 13 by place, as `parse` has them or by a word that shows what is not built yet; 12 where the
/// file is not one of the unit of that name, or the main file no program; 17 at a name that is used again. Then for each name in a uses list in turn
/// 11, where interface uses have a cycle by it; 13 for SysUtils; 10, where the file is missing; 63, where 1,000 units have been read; and what breaks
/// in the file that is read for it. The main file is refused at line and column 1 where it is missing. `ReadFault` comes where a file could not be read,
/// `NoMemory` where the allocator has no room.
pub fn load<F: Files>(alloc: Global, files: &mut F, main: &str) -> Result<Forest, LoadError>
    // The trees and the order that the walk gives.
    ensures loaded { IfOk result (GivesForest (F.stored files.old) main.now) }
    // Each error has its cause in this call.
    ensures failed { IfErr result (Stops (F.stored files.old) main.now (F.faults files.old) (F.faults files.new)) }
    // What is refused breaks a rule that has a text.
    ensures told { IfErr result RefusalHasText }
    ensures counts { F.faults files.old ≤ F.faults files.new }
    ensures unchanged { F.stored files.new ≡ F.stored files.old }
{
    let mut walk = Walk::new(alloc);
    let first = first_frame(alloc, files, &mut walk, main)?;
    let folder = folder_of(main.as_bytes());
    visit_all(alloc, files, folder, &mut walk, first)?;
    Ok(walk.into_forest())
}

/// Reads the main file.
fn first_frame<F: Files>(
    alloc: Global,
    files: &mut F,
    walk: &mut Walk,
    main: &str,
) -> Result<Frame, LoadError>
    requires { walked_of walk.old ≡ nothing_read }
    ensures is { FirstIs (F.stored files.old) main.now (walked_of walk.new) (F.faults files.old) (F.faults files.new) result }
    ensures counts { F.faults files.old ≤ F.faults files.new }
    ensures unchanged { F.stored files.new ≡ F.stored files.old }
{
    let name = main.as_bytes();
    match files.read(alloc, main, MOST_BYTES)? {
        FileAnswer::Found(text) => {
            let file = Text::copy_of(alloc, name)?;
            walk.enter(alloc, file, None, text.as_slice())
        }
        FileAnswer::Long => Err(refused(alloc, name, broken(FILE_TOO_LARGE, start_of(0)))),
        FileAnswer::Missing => Err(refused(alloc, name, broken(FILE_MISSING, start_of(0)))),
        FileAnswer::Failed => Err(LoadError::ReadFault),
    }
}

/// Visits the uses of a file, and all that these use.
fn visit_all<F: Files>(
    alloc: Global,
    files: &mut F,
    folder: &[u8],
    walk: &mut Walk,
    first: Frame,
) -> Result<(), LoadError>
    requires { first.unit ≡ None }
    ensures visited { IfOk result (λ _. Visits (F.stored files.old) folder.now first.file first.closing (walked_of walk.old) first.uses.items (walked (walked_of walk.new))) }
    ensures failed { IfErr result (StopsAt (F.stored files.old) folder.now first (walked_of walk.old) (F.faults files.old) (F.faults files.new)) }
    ensures counts { F.faults files.old ≤ F.faults files.new }
    ensures unchanged { F.stored files.new ≡ F.stored files.old }
{
    let mut frames = VecDeque::new(alloc);
    put(&mut frames, first, None)?;
    for _ in 0..u64::MAX {
        let Some(frame) = frames.pop_front() else {
            return Ok(());
        };
        let Frame {
            file,
            unit,
            mut uses,
            closing,
        } = frame;
        match uses.pop_front() {
            Some(used) => {
                let inner = walk.visit(alloc, files, folder, file.as_slice(), used)?;
                let frame = Frame {
                    file,
                    unit,
                    uses,
                    closing,
                };
                put(&mut frames, frame, inner)?;
            }
            None => match closing {
                Some(place) => {
                    return Err(refused(alloc, file.as_slice(), broken(CYCLE, place)));
                }
                None => walk.place(unit)?,
            },
        }
    }
    Err(LoadError::NoMemory)
}

/// Puts a file in front of those under visit, and one that it uses in front of it.
fn put(frames: &mut VecDeque<Frame>, frame: Frame, inner: Option<Frame>) -> Result<(), NoMemory>
    ensures { IfOk result (λ _. frames.new.items ≡ with_frame inner (frame ∷ frames.old.items)) }
{
    frames.push_front(frame)?;
    if let Some(inner) = inner {
        frames.push_front(inner)?;
    }
    Ok(())
}

/// The refusal of a file.
pub fn refused(alloc: Global, name: &[u8], refusal: Refusal) -> LoadError
    ensures { RefusesBy name.now refusal result }
{
    match Text::copy_of(alloc, name) {
        Ok(file) => LoadError::Refused(refusal, file),
        Err(NoMemory) => LoadError::NoMemory,
    }
}

/// The tree of a file's text, by its number in the order of reading.
pub fn tree_of(alloc: Global, number: u32, bytes: &[u8]) -> Result<Tree, ParseError>
    requires { length bytes.now ≤ 4194304 }
    ensures reads { IfOk result (Reads number bytes.now) }
    ensures breaks { IfErr result (BreaksAs number bytes.now) }
{
    let tokens = tokens_of(alloc, number, bytes)?;
    tree_of_tokens(alloc, &tokens)
}

/// The tokens of a text, with the error of the parser.
fn tokens_of(alloc: Global, number: u32, bytes: &[u8]) -> Result<Tokens, ParseError>
    requires { length bytes.now ≤ 4194304 }
    ensures stand { IfOk result (StandFor number bytes.now) }
    ensures breaks { IfErr result (SpelledAs number bytes.now) }
{
    match scan(alloc, bytes, number) {
        Ok(tokens) => Ok(tokens),
        Err(ScanError::Refused(refusal)) => Err(ParseError::Refused(refusal)),
        Err(ScanError::NoMemory) => Err(ParseError::NoMemory),
    }
}

/// The tree of a file's tokens.
fn tree_of_tokens(alloc: Global, tokens: &Tokens) -> Result<Tree, ParseError>
    ensures reads { IfOk result (ReadsTokens tokens.now) }
    ensures breaks { IfErr result (IsShownAs tokens.now) }
{
    let list = tokens.list.as_slice();
    let word = first_unbuilt(list);
    match parse(alloc, tokens) {
        Ok(tree) => match shown(word, list) {
            None => Ok(tree),
            Some(refusal) => Err(ParseError::Refused(refusal)),
        },
        Err(error) => Err(first_told(error, word)),
    }
}

/// What shows in tokens that a tree spells: the refusal by a word, or that of a form.
fn shown(word: Option<Refusal>, tokens: &[Token]) -> Option<Refusal>
    ensures { FirstUnbuilt (terminals tokens.now) word → FirstShown (terminals tokens.now) result }
{
    match word {
        Some(refusal) => Some(refusal),
        None => first_form(tokens),
    }
}

/// What the parser answered, or the refusal by a word where that comes first; the one by the grammar where they stand alike.
fn first_told(error: ParseError, word: Option<Refusal>) -> ParseError
    ensures { result ≡ first_told error word }
{
    let ParseError::Refused(grammar) = error else {
        return ParseError::NoMemory;
    };
    let Some(word) = word else {
        return ParseError::Refused(grammar);
    };
    let mut first = FirstRefusal {
        kept: Some(grammar),
    };
    first.report(word);
    ParseError::Refused(first.kept.unwrap_or(grammar))
}
