//! The print of names.
ghost use Rattle.std.specs.Prelude.{◌≡◌, IfOk};
ghost use Rattle.op_print.specs.NameDrafts.{name_draft, names_draft, qualified_draft, qualified_of};
ghost use Rattle.op_print.specs.Page.{after};

use crate::list::{Printed, separated};
use crate::printer::{Printer, tight, tight_at, word_at};
use op_base::NoMemory;
use op_tree::{Name, QualifiedName};

impl Printed for Name {
    ghost draft = { name_draft };

    fn print(&self, page: &mut Printer) -> Result<(), NoMemory> {
        name(page, self)
    }
}

pub fn name(page: &mut Printer, name: &Name) -> Result<(), NoMemory>
    ensures { IfOk result (λ _. page.new ≡ after page.old (name_draft name.now)) }
{
    word_at(page, name.position.switches, name.text.as_slice())
}

/// Names with commas between them.
pub fn names(page: &mut Printer, list: &[Name]) -> Result<(), NoMemory>
    ensures { IfOk result (λ _. page.new ≡ after page.old (names_draft list.now)) }
{
    separated(page, b",", list)
}

/// A name, behind another one and a dot where there is one.
pub fn qualified(page: &mut Printer, unit: &Option<Name>, last: &Name) -> Result<(), NoMemory>
    ensures { IfOk result (λ _. page.new ≡ after page.old (qualified_of unit.now last.now)) }
{
    match unit {
        None => name(page, last),
        Some(unit) => {
            print_all!(page:
                name(unit), tight(b"."),
                tight_at(last.position.switches, last.text.as_slice()))
        }
    }
}

pub fn qualified_name(page: &mut Printer, of: &QualifiedName) -> Result<(), NoMemory>
    ensures { IfOk result (λ _. page.new ≡ after page.old (qualified_draft of.now)) }
{
    qualified(page, &of.unit, &of.name)
}
