//! Typed expressions: a root, and behind `|` each step, with its type in square brackets.
use crate::names::{
    checked, class, conversion, dispatch, function, operator, origin, prefix, routine, type_named,
    variable,
};
use crate::writer::{Word, Writer};
use op_base::NoMemory;
use op_core::{Action, Const, Core, CoreArgument, CoreElement, CoreExpr, Root, Step, TypeId};

#[cycle(expression)]
pub fn expression(out: &mut Writer, core: &Core, of: &CoreExpr) -> Result<(), NoMemory> {
    root(out, core, &of.root)?;
    typed(out, of.of)?;
    all_steps(out, core, &of.steps)
}

/// An expression in brackets.
#[cycle(expression)]
fn bracketed(out: &mut Writer, core: &Core, of: &CoreExpr) -> Result<(), NoMemory> {
    out.words(&[Word::Plain("(")])?;
    expression(out, core, of)?;
    out.words(&[Word::Plain(")")])
}

fn typed(out: &mut Writer, of: TypeId) -> Result<(), NoMemory> {
    out.words(&[Word::Plain("["), type_named(of), Word::Plain("]")])
}

#[cycle(expression)]
fn all_steps(out: &mut Writer, core: &Core, steps: &[Step]) -> Result<(), NoMemory> {
    for each in steps {
        step(out, core, each)?;
    }
    Ok(())
}

#[cycle(expression)]
fn step(out: &mut Writer, core: &Core, of: &Step) -> Result<(), NoMemory> {
    out.words(&[Word::Plain("|")])?;
    action(out, core, &of.action)?;
    typed(out, of.of)
}

#[cycle(expression)]
fn root(out: &mut Writer, core: &Core, of: &Root) -> Result<(), NoMemory> {
    match of {
        Root::Constant { value, .. } => constant(out, value),
        Root::Variable(id) => out.words(&[Word::Plain("variable"), variable(core, *id)]),
        Root::Object(id) => out.words(&[Word::Plain("object"), variable(core, *id)]),
        Root::Call {
            routine: id,
            arguments,
        } => {
            out.words(&[Word::Plain("call"), routine(core, *id)])?;
            all_arguments(out, core, arguments)
        }
        Root::Construct {
            class: of,
            constructor,
            arguments,
        } => {
            out.words(&[
                Word::Plain("construct"),
                class(*of),
                routine(core, *constructor),
            ])?;
            all_arguments(out, core, arguments)
        }
        Root::Set(elements) => all_elements(out, core, elements),
        Root::Eof => out.words(&[Word::Plain("Eof")]),
        Root::Eoln => out.words(&[Word::Plain("Eoln")]),
    }
}

pub fn constant(out: &mut Writer, of: &Const) -> Result<(), NoMemory> {
    match of {
        Const::Ordinal(number) => out.words(&[Word::Plain("constant"), Word::Number(*number)]),
        Const::Text(text) => out.words(&[Word::Plain("constant"), Word::Literal(text.as_slice())]),
        Const::Set(elements) => set(out, elements.as_slice()),
        Const::Nil => out.words(&[Word::Plain("nil")]),
    }
}

fn set(out: &mut Writer, elements: &[u8]) -> Result<(), NoMemory> {
    out.words(&[Word::Plain("constant set {")])?;
    for each in elements {
        out.words(&[Word::Number(*each as i32)])?;
    }
    out.words(&[Word::Plain("}")])
}

#[cycle(expression)]
fn action(out: &mut Writer, core: &Core, of: &Action) -> Result<(), NoMemory> {
    match of {
        Action::Convert {
            conversion: by,
            origin: from,
        } => out.words(&[Word::Plain("convert"), conversion(*by), origin(*from)]),
        Action::Bracket => out.words(&[Word::Plain("bracket")]),
        Action::Field(id) => out.words(&[Word::Numbered("field-", id.0)]),
        Action::Index(at) => {
            out.words(&[Word::Plain("index")])?;
            bracketed(out, core, at)
        }
        Action::Call {
            method,
            dispatch: by,
            arguments,
        } => {
            out.words(&[Word::Plain("call"), dispatch(*by), routine(core, *method)])?;
            all_arguments(out, core, arguments)
        }
        Action::Prefix {
            operator: by,
            checked: is_checked,
        } => out.words(&[prefix(*by), checked(*is_checked)]),
        Action::Operate {
            operator: by,
            checked: is_checked,
            operand,
        } => {
            out.words(&[operator(*by), checked(*is_checked)])?;
            bracketed(out, core, operand)
        }
        Action::Is(of) => out.words(&[Word::Plain("is"), type_named(*of)]),
        Action::Apply {
            function: by,
            checked: is_checked,
        } => out.words(&[function(*by), checked(*is_checked)]),
        Action::Copy { first, count } => {
            out.words(&[Word::Plain("Copy")])?;
            bracketed(out, core, first)?;
            bracketed(out, core, count)
        }
    }
}

#[cycle(expression)]
fn all_elements(out: &mut Writer, core: &Core, elements: &[CoreElement]) -> Result<(), NoMemory> {
    out.words(&[Word::Plain("set {")])?;
    for each in elements {
        element(out, core, each)?;
    }
    out.words(&[Word::Plain("}")])
}

#[cycle(expression)]
fn element(out: &mut Writer, core: &Core, of: &CoreElement) -> Result<(), NoMemory> {
    match of {
        CoreElement::One(value) => bracketed(out, core, value),
        CoreElement::Range(first, last) => {
            bracketed(out, core, first)?;
            out.words(&[Word::Plain("to")])?;
            bracketed(out, core, last)
        }
    }
}

#[cycle(expression)]
fn all_arguments(
    out: &mut Writer,
    core: &Core,
    arguments: &[CoreArgument],
) -> Result<(), NoMemory> {
    for each in arguments {
        argument(out, core, each)?;
    }
    Ok(())
}

#[cycle(expression)]
fn argument(out: &mut Writer, core: &Core, of: &CoreArgument) -> Result<(), NoMemory> {
    match of {
        CoreArgument::Value(value) => {
            out.words(&[Word::Plain("value")])?;
            bracketed(out, core, value)
        }
        CoreArgument::Place(place) => {
            out.words(&[Word::Plain("place")])?;
            bracketed(out, core, place)
        }
        CoreArgument::Array(array) => {
            out.words(&[Word::Plain("array")])?;
            bracketed(out, core, array)
        }
        CoreArgument::Elements { of, values } => {
            out.words(&[Word::Plain("elements of"), type_named(*of)])?;
            all_values(out, core, values)
        }
    }
}

#[cycle(expression)]
fn all_values(out: &mut Writer, core: &Core, values: &[CoreExpr]) -> Result<(), NoMemory> {
    for each in values {
        bracketed(out, core, each)?;
    }
    Ok(())
}
