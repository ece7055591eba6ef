//! The print of types.
ghost use Rattle.std.specs.Prelude.{◌≡◌, IfOk};
ghost use Rattle.op_print.specs.DenoterDrafts.{denoter_draft, denoter_drafts, field_line, fields_draft, packed_draft, structure_draft};
ghost use Rattle.op_print.specs.Page.{after, enclosed};
ghost use Rattle.op_print.specs.Spelling.{spelling};
ghost use Rattle.op_scan.specs.declared.token.TokenKind.{TokenKind};
ghost use Rattle.op_scan.specs.declared.token.TokenKind.TheVariants as kind;
ghost use Rattle.op_tree.specs.Denoter.{denoter_of};
ghost use Rattle.op_tree.specs.Lists.{denoters_of, field_lists_of};

use crate::expression::expression;
use crate::name::{names, qualified_name};
use crate::printer::{Printer, end, indent, line, tight, word, word_at};
use op_base::NoMemory;
use op_scan::Switches;
use op_tree::{Fields, TypeDenoter};

fn packed_word(page: &mut Printer, switches: Switches, packed: bool) -> Result<(), NoMemory>
    ensures { IfOk result (λ _. page.new ≡ after page.old (packed_draft switches packed)) }
{
    if packed {
        return word_at(page, switches, b"packed");
    }
    Ok(())
}

/// The word of an array or a record.
fn structure_word(
    page: &mut Printer,
    switches: Switches,
    packed: bool,
    bytes: &[u8],
) -> Result<(), NoMemory>
    ensures { (k : TokenKind) → bytes.now ≡ spelling k → IfOk result (λ _. page.new ≡ after page.old (structure_draft switches packed k)) }
{
    if packed {
        return word(page, bytes);
    }
    word_at(page, switches, bytes)
}

#[cycle(denoter)]
pub fn denoter(page: &mut Printer, denoted: &TypeDenoter) -> Result<(), NoMemory>
    ensures { IfOk result (λ _. page.new ≡ after page.old (denoter_draft (denoter_of denoted.now))) }
{
    match denoted {
        TypeDenoter::Named(name) => qualified_name(page, name),
        TypeDenoter::String { position } => word_at(page, position.switches, b"string"),
        TypeDenoter::Subrange { first, last } =>
            print_all!(page: expression(first), word(b".."), expression(last)),
        TypeDenoter::Enumeration { position, values } => {
            print_all!(page: word_at(position.switches, b"("), names(values.as_slice()), tight(b")"))
        }
        TypeDenoter::Set { position, base } => {
            print_all!(page: word_at(position.switches, b"set"), word(b"of"), denoter(base))
        }
        TypeDenoter::Array {
            position,
            packed,
            indices: list,
            element,
        } => {
            print_all!(page:
                packed_word(position.switches, *packed), structure_word(position.switches, *packed, b"array"),
                indices(list), word(b"of"), denoter(element))
        }
        TypeDenoter::Record {
            position,
            packed,
            fields: list,
        } => {
            print_all!(page:
                packed_word(position.switches, *packed), structure_word(position.switches, *packed, b"record"),
                indent(), fields(list), end())
        }
    }
}

/// The indices of an array, in brackets where there are any.
#[cycle(denoter)]
fn indices(page: &mut Printer, list: &[TypeDenoter]) -> Result<(), NoMemory>
    ensures { IfOk result (λ _. page.new ≡ after page.old (enclosed kind.OpenBracket kind.Comma kind.CloseBracket (denoter_drafts (denoters_of list.now)))) }
{
    let Some((first, others)) = list.split_first() else {
        return Ok(());
    };
    tight(page, b"[")?;
    denoter(page, first)?;
    for each in others {
        tight(page, b",")?;
        denoter(page, each)?;
    }
    tight(page, b"]")
}

#[cycle(denoter)]
fn fields(page: &mut Printer, list: &[Fields]) -> Result<(), NoMemory>
    ensures { IfOk result (λ _. page.new ≡ after page.old (fields_draft (field_lists_of list.now))) }
{
    for each in list {
        field_line(page, each)?;
    }
    Ok(())
}

/// Names and their type, on a line of their own.
#[cycle(denoter)]
pub fn field_line(page: &mut Printer, fields: &Fields) -> Result<(), NoMemory>
    ensures { IfOk result (λ _. page.new ≡ after page.old (field_line fields.now.names (denoter_draft (denoter_of fields.now.denoter)))) }
{
    print_all!(page:
        line(), names(fields.names.as_slice()), tight(b":"), denoter(&fields.denoter), tight(b";"))
}
