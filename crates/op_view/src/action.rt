//! Actions.
use crate::computation::computation;
use crate::names::{integer, temporary, type_named};
use crate::place::path;
use crate::writer::{Word, Writer};
use op_base::NoMemory;
use op_core::{Core, IntegerKind, TypeId};
use op_meaning::Primitive;
use op_mir::{Action, Destination, Operand, Path, TemporaryId};

pub fn action(out: &mut Writer, core: &Core, of: &Action) -> Result<(), NoMemory> {
    match of {
        Action::Constant { to, value } => {
            out.words(&[temporary(*to), Word::Plain(":="), Word::Number(*value)])
        }
        Action::Load { to, kind, from } => load(out, core, *to, *kind, from),
        Action::Store { to, kind, from } => store(out, core, to, *kind, *from),
        Action::Copy { of, to, from } => copy(out, core, *of, to, from),
        Action::Look { at } => look(out, core, at),
        Action::BeginWith { variable } => out.words(&[
            Word::Numbered("local-", variable.0),
            Word::Plain("begins with its first value"),
        ]),
        Action::Pick { to, text, index } => out.words(&[
            temporary(*to),
            Word::Plain(":= pick"),
            Word::Literal(text.as_slice()),
            temporary(*index),
        ]),
        Action::Compute(of) => out.words(&computation(*of)),
        Action::Do {
            primitive: of,
            operands,
            to,
        } => primitive(out, core, *of, operands.as_slice(), to),
    }
}

fn primitive(
    out: &mut Writer,
    core: &Core,
    of: Primitive,
    operands: &[Operand],
    to: &Destination,
) -> Result<(), NoMemory> {
    out.words(&[Word::Plain(primitive_name(of))])?;
    for operand in operands {
        match operand {
            Operand::Number(from) => out.words(&[temporary(*from)])?,
            Operand::Text(at) => path(out, core, at)?,
            Operand::Literal(text) => out.words(&[Word::Literal(text.as_slice())])?,
        }
    }
    destination(out, core, to)
}

fn destination(out: &mut Writer, core: &Core, to: &Destination) -> Result<(), NoMemory> {
    match to {
        Destination::Unused => Ok(()),
        Destination::InTemporary(to) => out.words(&[Word::Plain("to"), temporary(*to)]),
        Destination::InNew { of, number } => {
            out.words(&[
                Word::Plain("to new"),
                type_named(*of),
                Word::Numbered("new-", *number),
            ])
        }
        Destination::IntoPlace { of, to, old } => {
            out.words(&[Word::Plain("into")])?;
            path(out, core, to)?;
            out.words(&[
                Word::Plain("old"),
                type_named(*of),
                Word::Numbered("new-", *old),
            ])
        }
        Destination::OverPlace { to } => {
            out.words(&[Word::Plain("over")])?;
            path(out, core, to)
        }
    }
}

fn primitive_name(of: Primitive) -> &'static str {
    match of {
        Primitive::WriteNumber => "write number",
        Primitive::WriteTruth => "write truth",
        Primitive::WriteChar => "write char",
        Primitive::WriteText => "write text",
        Primitive::Same => "same",
        Primitive::Concatenate => "concatenate",
        Primitive::CompareTexts => "compare texts",
        Primitive::TextLength => "length of text",
        Primitive::CharAt => "char at",
        Primitive::PieceOfText => "piece of text",
        Primitive::TextOfChar => "text of char",
        Primitive::StrNumber => "str of number",
        Primitive::StrTruth => "str of truth",
        Primitive::StrChar => "str of char",
        Primitive::StrText => "str of text",
        Primitive::ValNumber => "val, number",
        Primitive::ValCode => "val, code",
        Primitive::PutChar => "put char",
        Primitive::ResizeText => "resize text",
    }
}

fn load(
    out: &mut Writer,
    core: &Core,
    to: TemporaryId,
    kind: IntegerKind,
    from: &Path,
) -> Result<(), NoMemory> {
    out.words(&[temporary(to), Word::Plain(":= load"), integer(kind)])?;
    path(out, core, from)
}

fn store(
    out: &mut Writer,
    core: &Core,
    to: &Path,
    kind: IntegerKind,
    from: TemporaryId,
) -> Result<(), NoMemory> {
    out.words(&[
        Word::Plain("store"),
        integer(kind),
        temporary(from),
        Word::Plain("to"),
    ])?;
    path(out, core, to)
}

fn copy(out: &mut Writer, core: &Core, of: TypeId, to: &Path, from: &Path) -> Result<(), NoMemory> {
    out.words(&[Word::Plain("copy"), type_named(of), Word::Plain("to")])?;
    path(out, core, to)?;
    out.words(&[Word::Plain("from")])?;
    path(out, core, from)
}

fn look(out: &mut Writer, core: &Core, at: &Path) -> Result<(), NoMemory> {
    out.words(&[Word::Plain("look at")])?;
    path(out, core, at)
}
