//! The print of classes and interfaces.
ghost use Rattle.std.specs.Prelude.{◌≡◌, ℕ, List, Option, IfOk};
ghost use Rattle.op_print.specs.HeadingDrafts.{accessor_draft, ancestor_draft, class_draft, identifier_draft, interface_draft, member_draft, property_draft, section_draft, visibility_draft, visibility_word};
ghost use Rattle.op_print.specs.Page.{after, optional, word, ◌&◌};
ghost use Rattle.op_scan.specs.declared.token.TokenKind.TheVariants as kind;
ghost use Rattle.op_tree.specs.Declaration.{class_of, interface_of, member_of, property_of, section_of};

use crate::denoter::{denoter, field_line};
use crate::list::{Printed, all, ended, in_brackets};
use crate::name::name;
use crate::printer::{Printer, line, string, tight, word};
use op_base::NoMemory;
use op_scan::CompactText;
use op_tree::{Class, Interface, Member, Name, Property, Section, Visibility};

fn visibility_word(visibility: Visibility) -> &'static [u8]
    ensures { result.now ≡ visibility_word visibility }
{
    match visibility {
        Visibility::Private => b"private",
        Visibility::Protected => b"protected",
        Visibility::Public => b"public",
        Visibility::Published => b"published",
    }
}

/// A word and a name, where there is one.
fn accessor(page: &mut Printer, opening: &[u8], accessor: &Option<Name>) -> Result<(), NoMemory>
    ensures { IfOk result (λ _. page.new ≡ after page.old (optional (accessor_draft opening.now) accessor.now)) }
{
    match accessor {
        None => Ok(()),
        Some(accessor) => print_all!(page: word(opening), name(accessor)),
    }
}

fn property(page: &mut Printer, property: &Property) -> Result<(), NoMemory>
    ensures { IfOk result (λ _. page.new ≡ after page.old (property_draft (property_of property.now))) }
{
    print_all!(page:
        line(), word(b"property"), name(&property.name), tight(b":"), denoter(&property.denoter),
        accessor(b"read", &property.read), accessor(b"write", &property.write), tight(b";"))
}

impl Printed for Member {
    ghost draft = { λ m. member_draft (member_of m) };

    fn print(&self, page: &mut Printer) -> Result<(), NoMemory> {
        match self {
            Member::Fields(fields) => field_line(page, fields),
            Member::Method(method) => method.print(page),
            Member::Property(declared) => property(page, declared),
        }
    }
}

fn visibility(page: &mut Printer, visibility: Option<Visibility>) -> Result<(), NoMemory>
    ensures { IfOk result (λ _. page.new ≡ after page.old (optional visibility_draft visibility)) }
{
    match visibility {
        None => Ok(()),
        Some(visibility) => print_all!(page: line(), word(visibility_word(visibility))),
    }
}

impl Printed for Section {
    ghost draft = { λ s. section_draft (section_of s) };

    #[tactic(auto, using(crate::proofs::Nodes::fused))]
    fn print(&self, page: &mut Printer) -> Result<(), NoMemory> {
        print_all!(page: visibility(self.visibility), all(&self.members))
    }
}

#[tactic(auto, using(crate::proofs::Nodes::fused))]
pub fn class(page: &mut Printer, class: &Class) -> Result<(), NoMemory>
    ensures { IfOk result (λ _. page.new ≡ after page.old (class_draft (class_of class.now))) }
{
    print_all!(page:
        word(b"class"), in_brackets(b",", class.ancestors.as_slice()), ended(&class.sections))
}

fn ancestor(page: &mut Printer, ancestor: &Option<Name>) -> Result<(), NoMemory>
    ensures { IfOk result (λ _. page.new ≡ after page.old (optional ancestor_draft ancestor.now)) }
{
    match ancestor {
        None => Ok(()),
        Some(ancestor) => print_all!(page: tight(b"("), name(ancestor), tight(b")")),
    }
}

/// The text in square brackets of an interface, where there is one.
pub fn identifier(page: &mut Printer, identifier: &Option<CompactText>) -> Result<(), NoMemory>
    ensures { IfOk result (λ _. page.new ≡ after page.old (optional identifier_draft identifier.now)) }
{
    match identifier {
        None => Ok(()),
        Some(identifier) =>
            print_all!(page: tight(b"["), string(identifier.as_slice()), tight(b"]")),
    }
}

fn interface_head(page: &mut Printer, interface: &Interface) -> Result<(), NoMemory>
    ensures { IfOk result (λ _. page.new ≡ after page.old (word kind.Interface & optional ancestor_draft interface.now.ancestor & optional identifier_draft interface.now.identifier)) }
{
    print_all!(page:
        word(b"interface"), ancestor(&interface.ancestor), identifier(&interface.identifier))
}

#[tactic(auto, using(crate::proofs::Nodes::fused))]
pub fn interface(page: &mut Printer, interface: &Interface) -> Result<(), NoMemory>
    ensures { IfOk result (λ _. page.new ≡ after page.old (interface_draft (interface_of interface.now))) }
{
    print_all!(page: interface_head(interface), ended(&interface.methods))
}
