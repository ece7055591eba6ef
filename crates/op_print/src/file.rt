//! The print of whole files.
ghost use Rattle.std.specs.Prelude.{◌≡◌, Option, IfOk};
ghost use Rattle.std.specs.Option.{option_map};
ghost use Rattle.op_print.specs.DeclarationDrafts.{declarations_draft};
ghost use Rattle.op_print.specs.Page.{after, optional, switch, ◌&◌};
ghost use Rattle.op_print.specs.Print.{file_draft, print_of, program_draft, program_heading_draft, tail_draft, tail_part_draft, unit_draft, uses_draft};
ghost use Rattle.op_print.specs.Scanned.{PrintsAgain, ScansAsPrinted};
ghost use Rattle.op_print.specs.Spelling.{spelling};
ghost use Rattle.op_scan.specs.declared.token.TokenKind.{TokenKind};
ghost use Rattle.op_tree.specs.Declaration.{declarations_of};
ghost use Rattle.op_tree.specs.File.{file_of, program_of, unit_of};
ghost use Rattle.op_tree.specs.Statement.{stmts_of};

use crate::declaration::{begin_end, declarations};
use crate::list::in_brackets;
use crate::name::{name, names};
use crate::printer::{Printer, line, switch, tight, word, word_at};
use crate::statement::block;
use op_base::{NoMemory, Text};
use op_tree::{Declaration, Name, Program, ProgramHeading, Stmt, Tree, Unit};
use std::alloc::Global;

fn program_heading(page: &mut Printer, heading: &Option<ProgramHeading>) -> Result<(), NoMemory>
    ensures { IfOk result (λ _. page.new ≡ after page.old (optional program_heading_draft heading.now)) }
{
    match heading {
        None => Ok(()),
        Some(heading) => {
            print_all!(page:
                word(b"program"), name(&heading.name),
                in_brackets(b",", heading.parameters.as_slice()), tight(b";"))
        }
    }
}

fn uses(page: &mut Printer, list: &[Name]) -> Result<(), NoMemory>
    ensures { IfOk result (λ _. page.new ≡ after page.old (uses_draft list.now)) }
{
    if list.is_empty() {
        return Ok(());
    }
    print_all!(page: line(), word(b"uses"), names(list), tight(b";"))
}

fn program(page: &mut Printer, program: &Program) -> Result<(), NoMemory>
    ensures { IfOk result (λ _. page.new ≡ after page.old (switch (program_of program.now).position.switches & program_draft (program_of program.now))) }
{
    print_all!(page:
        switch(program.position.switches), program_heading(&program.heading), uses(program.uses.as_slice()),
        declarations(&program.declarations), begin_end(&program.statements))
}

/// A word and statements, where there are any.
fn tail_part(page: &mut Printer, opening: &[u8], list: &Option<Vec<Stmt>>) -> Result<(), NoMemory>
    ensures { (k : TokenKind) → opening.now ≡ spelling k → IfOk result (λ _. page.new ≡ after page.old (optional (tail_part_draft k) (option_map (λ ss. stmts_of ss.items) list.now))) }
{
    match list {
        None => Ok(()),
        Some(list) => print_all!(page: word(opening), block(list)),
    }
}

/// What a unit does at the beginning and at the end, and `end`.
fn tail(page: &mut Printer, unit: &Unit) -> Result<(), NoMemory>
    ensures { IfOk result (λ _. page.new ≡ after page.old (tail_draft (unit_of unit.now).tail)) }
{
    print_all!(page:
        line(), tail_part(b"initialization", &unit.initialization),
        tail_part(b"finalization", &unit.finalization), word(b"end"))
}

fn part(page: &mut Printer, used: &[Name], list: &[Declaration]) -> Result<(), NoMemory>
    ensures { IfOk result (λ _. page.new ≡ after page.old (uses_draft used.now & declarations_draft (declarations_of list.now))) }
{
    print_all!(page: uses(used), declarations(list))
}

fn unit(page: &mut Printer, unit: &Unit) -> Result<(), NoMemory>
    ensures { IfOk result (λ _. page.new ≡ after page.old (unit_draft (unit_of unit.now))) }
{
    print_all!(page:
        word_at(unit.position.switches, b"unit"), name(&unit.name), tight(b";"),
        line(), word(b"interface"), part(unit.interface_uses.as_slice(), &unit.interface_declarations),
        line(), word(b"implementation"), part(unit.uses.as_slice(), &unit.declarations),
        tail(unit))
}

fn file(page: &mut Printer, tree: &Tree) -> Result<(), NoMemory>
    ensures { IfOk result (λ _. page.new ≡ after page.old (file_draft (file_of tree.now))) }
{
    match tree {
        Tree::Program(tree) => print_all!(page: program(tree), tight(b"."), line()),
        Tree::Unit(tree) => print_all!(page: unit(tree), tight(b"."), line()),
    }
}

/// The text of a tree: the words of its tokens, with blanks and line ends between them. A directive stands before a word at
/// which the tree has other switches.
///
/// Statements and declarations begin lines, and what belongs to them stands further in. `NoMemory` comes where the
/// allocator has no room.
#[tactic(auto, unfolding(crate::specs::Print::print_of))]
pub fn print(alloc: Global, tree: &Tree) -> Result<Text, NoMemory>
    ensures text { IfOk result (λ text. text ≡ print_of (file_of tree.now)) }
    // Scanning it gives the tokens of its words, with the switches of the tree, where each of them can be a token.
    ensures scans { IfOk result (λ text. ScansAsPrinted (file_of tree.now) text) }
    // Where the tree spells the tokens of a text, those of the print are spelled by the same tree with its switches, but for
    // places.
    ensures again { IfOk result (λ text. PrintsAgain (file_of tree.now) text) }
{
    let mut page = Printer::new(alloc);
    file(&mut page, tree)?;
    Ok(page.into_text())
}
