//! The print of headings and methods.
ghost use Rattle.std.specs.Prelude.{◌≡◌, Option, IfOk};
ghost use Rattle.std.specs.Option.{option_map};
ghost use Rattle.op_print.specs.HeadingDrafts.{directive_draft, directive_word, heading_draft, method_draft, mode_draft, open_array_draft, parameter_draft, parameter_type_draft, routine_word, type_draft};
ghost use Rattle.op_print.specs.Page.{after, optional};
ghost use Rattle.op_print.specs.Spelling.{spelling};
ghost use Rattle.op_tree.specs.Declaration.{heading_of, method_of};
ghost use Rattle.op_tree.specs.Denoter.{denoter_of};

use crate::denoter::denoter;
use crate::list::{Printed, all, in_brackets};
use crate::name::{names, qualified, qualified_name};
use crate::printer::{Printer, line, tight, word, word_at};
use op_base::NoMemory;
use op_tree::{
    Directive, Heading, Method, Parameter, ParameterMode, ParameterType, RoutineKind, TypeDenoter,
};

fn routine_word(kind: RoutineKind) -> &'static [u8]
    ensures { result.now ≡ spelling (routine_word kind) }
{
    match kind {
        RoutineKind::Procedure => b"procedure",
        RoutineKind::Function => b"function",
        RoutineKind::Constructor => b"constructor",
        RoutineKind::Destructor => b"destructor",
    }
}

fn directive_word(directive: Directive) -> &'static [u8]
    ensures { result.now ≡ directive_word directive }
{
    match directive {
        Directive::Virtual_ => b"virtual",
        Directive::Override_ => b"override",
        Directive::Abstract_ => b"abstract",
        Directive::Reintroduce => b"reintroduce",
        Directive::Overload => b"overload",
        Directive::Cdecl => b"cdecl",
        Directive::Stdcall => b"stdcall",
        Directive::Register => b"register",
    }
}

fn mode(page: &mut Printer, mode: ParameterMode) -> Result<(), NoMemory>
    ensures { IfOk result (λ _. page.new ≡ after page.old (mode_draft mode)) }
{
    match mode {
        ParameterMode::Value => Ok(()),
        ParameterMode::Var => word(page, b"var"),
        ParameterMode::Const_ => word(page, b"const"),
        ParameterMode::Out => word(page, b"out"),
    }
}

fn array_of(page: &mut Printer, open_array: bool) -> Result<(), NoMemory>
    ensures { IfOk result (λ _. page.new ≡ after page.old (open_array_draft open_array)) }
{
    if !open_array {
        return Ok(());
    }
    print_all!(page: word(b"array"), word(b"of"))
}

fn parameter_type(page: &mut Printer, of: &ParameterType) -> Result<(), NoMemory>
    ensures { IfOk result (λ _. page.new ≡ after page.old (parameter_type_draft of.now)) }
{
    match of {
        ParameterType::Named(name) => qualified_name(page, name),
        ParameterType::String { position } => word_at(page, position.switches, b"string"),
    }
}

impl Printed for Parameter {
    ghost draft = { parameter_draft };

    fn print(&self, page: &mut Printer) -> Result<(), NoMemory> {
        print_all!(page:
            mode(self.mode), names(self.names.as_slice()), tight(b":"), array_of(self.open_array),
            parameter_type(&self.of))
    }
}

/// A colon and a type, where there is one.
pub fn optional_type(page: &mut Printer, denoted: &Option<TypeDenoter>) -> Result<(), NoMemory>
    ensures { IfOk result (λ _. page.new ≡ after page.old (optional type_draft (option_map denoter_of denoted.now))) }
{
    match denoted {
        None => Ok(()),
        Some(denoted) => print_all!(page: tight(b":"), denoter(denoted)),
    }
}

pub fn heading(page: &mut Printer, heading: &Heading) -> Result<(), NoMemory>
    ensures { IfOk result (λ _. page.new ≡ after page.old (heading_draft (heading_of heading.now))) }
{
    print_all!(page:
        word(routine_word(heading.kind)), qualified(&heading.class, &heading.name),
        in_brackets(b";", heading.parameters.as_slice()), optional_type(&heading.result))
}

impl Printed for Directive {
    ghost draft = { directive_draft };

    fn print(&self, page: &mut Printer) -> Result<(), NoMemory> {
        print_all!(page: word(directive_word(*self)), tight(b";"))
    }
}

/// On a line of its own.
impl Printed for Method {
    ghost draft = { λ m. method_draft (method_of m) };

    fn print(&self, page: &mut Printer) -> Result<(), NoMemory> {
        print_all!(page:
            line(), heading(&self.heading), tight(b";"), all(self.directives.as_slice()))
    }
}
