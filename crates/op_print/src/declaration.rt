//! The print of declarations. Each begins a line.
ghost use Rattle.std.specs.Prelude.{◌≡◌, IfOk, Option, map};
ghost use Rattle.std.specs.Option.{option_map};
ghost use Rattle.op_print.specs.DeclarationDrafts.{begin_end_draft, body_draft, constant_draft, declaration_draft, declarations_draft, definition_draft, first_value_draft, type_declaration_draft, variables_draft};
ghost use Rattle.op_print.specs.Page.{after, each, indent, optional, outdent, ◌&◌};
ghost use Rattle.op_tree.specs.Declaration.{body_of, constant_of, declaration_of, declarations_of, definition_of, heading_of, routine, type_of, variables_of};
ghost use Rattle.op_tree.specs.Initial.{initial_of};
ghost use Rattle.op_tree.specs.Statement.{stmts_of};

use crate::class::{class, identifier, interface};
use crate::denoter::denoter;
use crate::heading::{heading, optional_type};
use crate::initializer::initializer;
use crate::list::{Printed, all};
use crate::name::{name, names};
use crate::printer::{Printer, indent, line, outdent, tight, word};
use crate::statement::block;
use op_base::NoMemory;
use op_tree::{
    Body, Constant, Declaration, Initializer, Routine, Stmt, TypeDeclaration, TypeDefinition,
    Variables,
};

impl Printed for Constant {
    ghost draft = { λ c. constant_draft (constant_of c) };

    fn print(&self, page: &mut Printer) -> Result<(), NoMemory> {
        print_all!(page:
            line(), name(&self.name), optional_type(&self.denoter), word(b"="),
            initializer(&self.value), tight(b";"))
    }
}

/// `=` and a first value, where there is one.
fn first_value(page: &mut Printer, value: &Option<Box<Initializer>>) -> Result<(), NoMemory>
    ensures { IfOk result (λ _. page.new ≡ after page.old (optional first_value_draft (option_map (λ first. initial_of first.value) value.now))) }
{
    match value {
        None => Ok(()),
        Some(value) => print_all!(page: word(b"="), initializer(value)),
    }
}

impl Printed for Variables {
    ghost draft = { λ v. variables_draft (variables_of v) };

    fn print(&self, page: &mut Printer) -> Result<(), NoMemory> {
        print_all!(page:
            line(), names(self.names.as_slice()), tight(b":"), denoter(&self.denoter),
            first_value(&self.value), tight(b";"))
    }
}

fn definition(page: &mut Printer, definition: &TypeDefinition) -> Result<(), NoMemory>
    ensures { IfOk result (λ _. page.new ≡ after page.old (definition_draft (definition_of definition.now))) }
{
    match definition {
        TypeDefinition::Denoter(denoted) => denoter(page, denoted),
        TypeDefinition::ForwardClass => word(page, b"class"),
        TypeDefinition::Class(defined) => class(page, defined),
        TypeDefinition::ForwardInterface { identifier: text } => {
            print_all!(page: word(b"interface"), identifier(text))
        }
        TypeDefinition::Interface(defined) => interface(page, defined),
    }
}

impl Printed for TypeDeclaration {
    ghost draft = { λ t. type_declaration_draft (type_of t) };

    fn print(&self, page: &mut Printer) -> Result<(), NoMemory> {
        print_all!(page:
            line(), name(&self.name), word(b"="), definition(&self.definition), tight(b";"))
    }
}

/// Declarations of one sort, further in.
fn group<T: Printed>(page: &mut Printer, list: &[T]) -> Result<(), NoMemory>
    ensures { IfOk result (λ _. page.new ≡ after page.old (indent & each (map T.draft list.now) & outdent)) }
{
    print_all!(page: indent(), all(list), outdent())
}

/// `begin`, statements and `end`, on lines of their own.
pub fn begin_end(page: &mut Printer, list: &[Stmt]) -> Result<(), NoMemory>
    ensures { IfOk result (λ _. page.new ≡ after page.old (begin_end_draft (stmts_of list.now))) }
{
    print_all!(page: line(), word(b"begin"), block(list), word(b"end"))
}

#[cycle(declaration)]
pub fn declarations(page: &mut Printer, list: &[Declaration]) -> Result<(), NoMemory>
    ensures { IfOk result (λ _. page.new ≡ after page.old (declarations_draft (declarations_of list.now))) }
{
    for each in list {
        declaration(page, each)?;
    }
    Ok(())
}

#[cycle(declaration)]
fn declaration(page: &mut Printer, declared: &Declaration) -> Result<(), NoMemory>
    ensures { IfOk result (λ _. page.new ≡ after page.old (declaration_draft (declaration_of declared.now))) }
{
    match declared {
        Declaration::Constants(list) => print_all!(page: line(), word(b"const"), group(list)),
        Declaration::Types(list) => print_all!(page: line(), word(b"type"), group(list)),
        Declaration::Variables(list) => print_all!(page: line(), word(b"var"), group(list)),
        Declaration::Heading(declared) => declared.print(page),
        Declaration::Routine(declared) => routine(page, declared),
    }
}

#[cycle(declaration)]
fn routine(page: &mut Printer, declared: &Routine) -> Result<(), NoMemory>
    ensures { IfOk result (λ _. page.new ≡ after page.old (declaration_draft (routine (heading_of declared.now.heading) declared.now.directives (body_of declared.now.body)))) }
{
    print_all!(page:
        line(), heading(&declared.heading), tight(b";"), all(declared.directives.as_slice()),
        body(&declared.body), tight(b";"))
}

#[cycle(declaration)]
fn body(page: &mut Printer, body: &Body) -> Result<(), NoMemory>
    ensures { IfOk result (λ _. page.new ≡ after page.old (body_draft (body_of body.now))) }
{
    match body {
        Body::Forward => word(page, b"forward"),
        Body::Block {
            declarations: list,
            statements,
        } => print_all!(page: indent(), declarations(list), outdent(), begin_end(statements)),
    }
}
