//! The print of first values.
ghost use Rattle.std.specs.Prelude.{◌≡◌, IfOk};
ghost use Rattle.op_print.specs.DenoterDrafts.{field_initial_drafts, initial_draft, initial_drafts};
ghost use Rattle.op_print.specs.NameDrafts.{name_draft};
ghost use Rattle.op_print.specs.Page.{after, separated, tight, ◌&◌};
ghost use Rattle.op_scan.specs.declared.token.TokenKind.TheVariants as kind;
ghost use Rattle.op_tree.specs.Initial.{initial_of};
ghost use Rattle.op_tree.specs.Lists.{field_initials_of, initials_of};

use crate::expression::expression;
use crate::name::name;
use crate::printer::{Printer, tight, word_at};
use op_base::NoMemory;
use op_tree::{FieldInitializer, Initializer};

#[cycle(initializer)]
pub fn initializer(page: &mut Printer, value: &Initializer) -> Result<(), NoMemory>
    ensures { IfOk result (λ _. page.new ≡ after page.old (initial_draft (initial_of value.now))) }
{
    match value {
        Initializer::Value(value) => expression(page, value),
        Initializer::List { position, items } => {
            print_all!(page: word_at(position.switches, b"("), initializers(items), tight(b")"))
        }
        Initializer::Record { position, fields } => {
            print_all!(page: word_at(position.switches, b"("), field_initializers(fields), tight(b")"))
        }
    }
}

#[cycle(initializer)]
fn initializers(page: &mut Printer, list: &[Initializer]) -> Result<(), NoMemory>
    ensures { IfOk result (λ _. page.new ≡ after page.old (separated kind.Comma (initial_drafts (initials_of list.now)))) }
{
    print_separated!(page, b",", list, initializer)
}

#[cycle(initializer)]
fn field_initializers(page: &mut Printer, list: &[FieldInitializer]) -> Result<(), NoMemory>
    ensures { IfOk result (λ _. page.new ≡ after page.old (separated kind.Semicolon (field_initial_drafts (field_initials_of list.now)))) }
{
    print_separated!(page, b";", list, field_initializer)
}

#[cycle(initializer)]
fn field_initializer(page: &mut Printer, field: &FieldInitializer) -> Result<(), NoMemory>
    ensures { IfOk result (λ _. page.new ≡ after page.old (name_draft field.now.name & tight kind.Colon & initial_draft (initial_of field.now.value))) }
{
    print_all!(page: name(&field.name), tight(b":"), initializer(&field.value))
}
