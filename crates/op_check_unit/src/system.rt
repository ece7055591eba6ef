//! The unit System: what a program sees without declaring it.
ghost use Rattle.std.specs.Prelude.{◌≡◌, IfOk, None, []};
ghost use Rattle.op_check_unit.specs.Steps.{here_of};
ghost use Rattle.op_check_unit.specs.System.{beginning, character_names, class_names, floating_names, function_names, integer_names, meaning_of_known, native_names, other_names, pointer_names, rest_names, short_names, sized_names, statement_names, string_names, system_core, system_names, text_names, type_names, value_names, with_class, with_classes, with_known, with_left_out, with_table, with_types, with_unknown};
ghost use Rattle.op_check_unit.specs.declared.system.Known.TheVariants.{Form};
ghost use Rattle.op_types.specs.declared.visible.BuiltIn.TheVariants as form;

use crate::Declarer;
use op_base::{NoMemory, Text};
use op_core::{
    Class, ClassId, Const, Core, CoreType, FirstRefusal, Function, IntegerKind, Interface,
    InterfaceId, InterfaceKind, Run, Table, TypeId, UnitId,
};
use op_judgement::Feature;
use op_types::{BuiltIn, Constant, Meaning, Visible, Weight, enter_type};
use std::alloc::Global;

/// What a name of System stands for.
#[derive(Clone, Copy)]
pub enum Known {
    Named(TypeId),
    /// What has a form of its own.
    Form(BuiltIn),
    /// A constant of a type, by its number.
    Value(TypeId, i32),
}

/// The number of System, which has no row of its own.
const SYSTEM: UnitId = UnitId(u32::MAX);

/// The types of TObject, TInterfacedObject and IUnknown stand behind the predefined ones.
const OBJECT: TypeId = TypeId(16);

const INTERFACED_OBJECT: TypeId = TypeId(17);

const UNKNOWN: TypeId = TypeId(18);

const NO_ROWS: Run = Run { first: 0, count: 0 };

impl Declarer {
    /// Where a program begins.
    pub fn new(alloc: Global) -> Result<Declarer, NoMemory>
        ensures here { IfOk result (λ d. here_of d ≡ beginning) }
        ensures sink { IfOk result (λ d. d.sink.kept ≡ None) }
    {
        let mut visible = Visible::new(alloc);
        enter_names(alloc, &mut visible)?;
        let first = visible.len();
        Ok(Declarer {
            alloc,
            core: system_core(alloc)?,
            unit: UnitId(0),
            visible,
            first,
            count: 0,
            own: None,
            ahead: Visible::new(alloc),
            bytes: 0,
            routine: None,
            awaited: Table::new(alloc),
            bodies: Vec::new(alloc),
            first_values: Vec::new(alloc),
            sink: FirstRefusal::new(),
        })
    }
}

/// The program of nothing but System.
fn system_core(alloc: Global) -> Result<Core, NoMemory>
    ensures { IfOk result (λ core. core ≡ system_core) }
{
    let mut core = Core::new(alloc);
    enter_classes(alloc, &mut core)?;
    let (low, high) = (0, 31);
    enter_types(
        &mut core,
        &[
            CoreType::Integer(IntegerKind::Signed8),
            CoreType::Integer(IntegerKind::Unsigned8),
            CoreType::Integer(IntegerKind::Signed16),
            CoreType::Integer(IntegerKind::Unsigned16),
            CoreType::Integer(IntegerKind::Signed32),
            CoreType::Boolean,
            CoreType::Char,
            CoreType::String,
            CoreType::Nil,
            CoreType::Nothing,
            CoreType::EmptySet,
            CoreType::Subrange {
                base: TypeId::INTEGER,
                low,
                high,
            },
            CoreType::Subrange {
                base: TypeId::CHAR,
                low,
                high,
            },
            CoreType::Set {
                base: TypeId::BOOLEAN,
            },
            CoreType::Class(ClassId::OBJECT),
            CoreType::Class(ClassId::INTERFACED_OBJECT),
            CoreType::Interface(InterfaceId::UNKNOWN),
        ],
    )?;
    Ok(core)
}

/// Enters types one by one, and behind each the set types of its values.
fn enter_types(core: &mut Core, types: &[CoreType]) -> Result<(), NoMemory>
    ensures { IfOk result (λ _. core.new ≡ with_types types.now core.old) }
{
    for of in types {
        enter_type(core, *of)?;
    }
    Ok(())
}

/// TObject, TInterfacedObject and IUnknown, whose members are not built yet.
fn enter_classes(alloc: Global, core: &mut Core) -> Result<(), NoMemory>
    ensures { IfOk result (λ _. core.new ≡ with_classes core.old) }
{
    enter_class(alloc, core, b"TObject", OBJECT, None, NO_ROWS)?;
    core.listed.push(InterfaceId::UNKNOWN)?;
    let ancestor = Some(ClassId::OBJECT);
    let listed = Run { first: 0, count: 1 };
    enter_class(
        alloc,
        core,
        b"TInterfacedObject",
        INTERFACED_OBJECT,
        ancestor,
        listed,
    )?;
    enter_unknown(alloc, core)
}

/// A class without members of its own.
fn enter_class(
    alloc: Global,
    core: &mut Core,
    name: &[u8],
    of: TypeId,
    ancestor: Option<ClassId>,
    interfaces: Run,
) -> Result<(), NoMemory>
    ensures { IfOk result (λ _. core.new ≡ with_class name.now of ancestor interfaces core.old) }
{
    core.classes.push(Class {
        name: Text::copy_of(alloc, name)?,
        of,
        unit: UnitId(0),
        ancestor,
        interfaces,
        fields: NO_ROWS,
        methods: NO_ROWS,
        properties: NO_ROWS,
        complete: true,
    })
}

fn enter_unknown(alloc: Global, core: &mut Core) -> Result<(), NoMemory>
    ensures { IfOk result (λ _. core.new ≡ with_unknown core.old) }
{
    core.interfaces.push(Interface {
        name: Text::copy_of(alloc, b"IUnknown")?,
        of: UNKNOWN,
        unit: UnitId(0),
        kind: InterfaceKind::Com,
        ancestor: None,
        methods: NO_ROWS,
        complete: true,
    })
}

/// The names of System, each also behind the unit's name.
fn enter_names(alloc: Global, visible: &mut Visible) -> Result<(), NoMemory>
    ensures { IfOk result (λ _. visible.old ≡ [] → visible.new ≡ system_names) }
{
    visible.enter(b"System", Meaning::Unit(SYSTEM))?;
    enter_type_names(alloc, visible)?;
    enter_class_names(alloc, visible)?;
    enter_values(alloc, visible)?;
    enter_text(alloc, visible)?;
    enter_statements(alloc, visible)?;
    enter_functions(alloc, visible)?;
    enter_others(alloc, visible)?;
    enter_left_out(alloc, visible)
}

/// The names of types.
fn enter_type_names(alloc: Global, visible: &mut Visible) -> Result<(), NoMemory>
    ensures { IfOk result (λ _. visible.new ≡ with_table type_names visible.old) }
{
    enter(alloc, visible, b"ShortInt", Known::Named(TypeId::SHORT_INT))?;
    enter(alloc, visible, b"Byte", Known::Named(TypeId::BYTE))?;
    enter(alloc, visible, b"SmallInt", Known::Named(TypeId::SMALL_INT))?;
    enter(alloc, visible, b"Word", Known::Named(TypeId::WORD))?;
    enter(alloc, visible, b"LongInt", Known::Named(TypeId::INTEGER))?;
    enter(alloc, visible, b"Integer", Known::Named(TypeId::INTEGER))?;
    enter(alloc, visible, b"Boolean", Known::Named(TypeId::BOOLEAN))?;
    enter(alloc, visible, b"Char", Known::Named(TypeId::CHAR))?;
    enter(alloc, visible, b"AnsiString", Known::Named(TypeId::STRING))
}

/// The names of classes and interfaces.
fn enter_class_names(alloc: Global, visible: &mut Visible) -> Result<(), NoMemory>
    ensures { IfOk result (λ _. visible.new ≡ with_table class_names visible.old) }
{
    enter(alloc, visible, b"TObject", Known::Named(OBJECT))?;
    enter(
        alloc,
        visible,
        b"TInterfacedObject",
        Known::Named(INTERFACED_OBJECT),
    )?;
    enter(alloc, visible, b"IUnknown", Known::Named(UNKNOWN))?;
    enter(alloc, visible, b"IInterface", Known::Named(UNKNOWN))
}

/// The names of constants.
fn enter_values(alloc: Global, visible: &mut Visible) -> Result<(), NoMemory>
    ensures { IfOk result (λ _. visible.new ≡ with_table value_names visible.old) }
{
    enter(alloc, visible, b"False", Known::Value(TypeId::BOOLEAN, 0))?;
    enter(alloc, visible, b"True", Known::Value(TypeId::BOOLEAN, 1))?;
    enter(
        alloc,
        visible,
        b"MaxInt",
        Known::Value(TypeId::INTEGER, i32::MAX),
    )
}

/// The names of statements that read, write or change texts.
fn enter_text(alloc: Global, visible: &mut Visible) -> Result<(), NoMemory>
    ensures { IfOk result (λ _. visible.new ≡ with_table text_names visible.old) }
{
    enter(alloc, visible, b"Write", Known::Form(BuiltIn::Write))?;
    enter(alloc, visible, b"WriteLn", Known::Form(BuiltIn::WriteLn))?;
    enter(alloc, visible, b"Read", Known::Form(BuiltIn::Read))?;
    enter(alloc, visible, b"ReadLn", Known::Form(BuiltIn::ReadLn))?;
    enter(
        alloc,
        visible,
        b"SetLength",
        Known::Form(BuiltIn::SetLength),
    )?;
    enter(alloc, visible, b"Val", Known::Form(BuiltIn::Val))?;
    enter(alloc, visible, b"Str", Known::Form(BuiltIn::Str))?;
    enter(alloc, visible, b"Delete", Known::Form(BuiltIn::Delete))?;
    enter(alloc, visible, b"Insert", Known::Form(BuiltIn::Insert))
}

/// The names of other statements.
fn enter_statements(alloc: Global, visible: &mut Visible) -> Result<(), NoMemory>
    ensures { IfOk result (λ _. visible.new ≡ with_table statement_names visible.old) }
{
    enter(alloc, visible, b"Inc", Known::Form(BuiltIn::Inc))?;
    enter(alloc, visible, b"Dec", Known::Form(BuiltIn::Dec))?;
    enter(alloc, visible, b"Include", Known::Form(BuiltIn::Include))?;
    enter(alloc, visible, b"Exclude", Known::Form(BuiltIn::Exclude))?;
    enter(alloc, visible, b"Halt", Known::Form(BuiltIn::Halt))?;
    enter(alloc, visible, b"Exit", Known::Form(BuiltIn::Exit))?;
    enter(alloc, visible, b"Break", Known::Form(BuiltIn::Break))?;
    enter(alloc, visible, b"Continue", Known::Form(BuiltIn::Continue))
}

/// The names of functions of one value.
fn enter_functions(alloc: Global, visible: &mut Visible) -> Result<(), NoMemory>
    ensures { IfOk result (λ _. visible.new ≡ with_table function_names visible.old) }
{
    enter(
        alloc,
        visible,
        b"Length",
        Known::Form(BuiltIn::Function(Function::Length)),
    )?;
    enter(
        alloc,
        visible,
        b"Low",
        Known::Form(BuiltIn::Function(Function::Low)),
    )?;
    enter(
        alloc,
        visible,
        b"High",
        Known::Form(BuiltIn::Function(Function::High)),
    )?;
    enter(
        alloc,
        visible,
        b"Ord",
        Known::Form(BuiltIn::Function(Function::Ord)),
    )?;
    enter(
        alloc,
        visible,
        b"Succ",
        Known::Form(BuiltIn::Function(Function::Succ)),
    )?;
    enter(
        alloc,
        visible,
        b"Pred",
        Known::Form(BuiltIn::Function(Function::Pred)),
    )?;
    enter(
        alloc,
        visible,
        b"Abs",
        Known::Form(BuiltIn::Function(Function::Abs)),
    )?;
    enter(
        alloc,
        visible,
        b"Sqr",
        Known::Form(BuiltIn::Function(Function::Sqr)),
    )?;
    enter(
        alloc,
        visible,
        b"Odd",
        Known::Form(BuiltIn::Function(Function::Odd)),
    )?;
    enter(
        alloc,
        visible,
        b"Assigned",
        Known::Form(BuiltIn::Function(Function::Assigned)),
    )?;
    enter(
        alloc,
        visible,
        b"UpCase",
        Known::Form(BuiltIn::Function(Function::UpCase)),
    )
}

/// The names of other functions.
fn enter_others(alloc: Global, visible: &mut Visible) -> Result<(), NoMemory>
    ensures { IfOk result (λ _. visible.new ≡ with_table other_names visible.old) }
{
    enter(alloc, visible, b"Eof", Known::Form(BuiltIn::Eof))?;
    enter(alloc, visible, b"Eoln", Known::Form(BuiltIn::Eoln))?;
    enter(alloc, visible, b"Copy", Known::Form(BuiltIn::Copy))?;
    enter(alloc, visible, b"Chr", Known::Form(BuiltIn::Chr))?;
    enter(alloc, visible, b"Pos", Known::Form(BuiltIn::Pos))?;
    enter(
        alloc,
        visible,
        b"StringOfChar",
        Known::Form(BuiltIn::StringOfChar),
    )
}

/// The names of types that are not in this profile.
fn enter_left_out(alloc: Global, visible: &mut Visible) -> Result<(), NoMemory>
    ensures { IfOk result (λ _. visible.new ≡ with_left_out visible.old) }
{
    enter_floating(alloc, visible)?;
    enter_integers(alloc, visible)?;
    enter_natives(alloc, visible)?;
    enter_sized(alloc, visible)?;
    enter_short(alloc, visible)?;
    enter_strings(alloc, visible)?;
    enter_characters(alloc, visible)?;
    enter_pointers(alloc, visible)?;
    enter_rest(alloc, visible)
}

/// Floating point.
fn enter_floating(alloc: Global, visible: &mut Visible) -> Result<(), NoMemory>
    ensures { IfOk result (λ _. visible.new ≡ with_table floating_names visible.old) }
{
    leave_out(alloc, visible, b"Real", Feature::FloatingPoint)?;
    leave_out(alloc, visible, b"Single", Feature::FloatingPoint)?;
    leave_out(alloc, visible, b"Double", Feature::FloatingPoint)?;
    leave_out(alloc, visible, b"Extended", Feature::FloatingPoint)?;
    leave_out(alloc, visible, b"Currency", Feature::FloatingPoint)?;
    leave_out(alloc, visible, b"Comp", Feature::FloatingPoint)?;
    leave_out(alloc, visible, b"ValReal", Feature::FloatingPoint)?;
    leave_out(alloc, visible, b"TDateTime", Feature::FloatingPoint)
}

/// Other integer types.
fn enter_integers(alloc: Global, visible: &mut Visible) -> Result<(), NoMemory>
    ensures { IfOk result (λ _. visible.new ≡ with_table integer_names visible.old) }
{
    leave_out(alloc, visible, b"Int64", Feature::OtherIntegers)?;
    leave_out(alloc, visible, b"UInt64", Feature::OtherIntegers)?;
    leave_out(alloc, visible, b"QWord", Feature::OtherIntegers)?;
    leave_out(alloc, visible, b"Cardinal", Feature::OtherIntegers)?;
    leave_out(alloc, visible, b"LongWord", Feature::OtherIntegers)?;
    leave_out(alloc, visible, b"DWord", Feature::OtherIntegers)
}

/// Integer types of the width of the machine.
fn enter_natives(alloc: Global, visible: &mut Visible) -> Result<(), NoMemory>
    ensures { IfOk result (λ _. visible.new ≡ with_table native_names visible.old) }
{
    leave_out(alloc, visible, b"NativeInt", Feature::OtherIntegers)?;
    leave_out(alloc, visible, b"NativeUInt", Feature::OtherIntegers)?;
    leave_out(alloc, visible, b"PtrInt", Feature::OtherIntegers)?;
    leave_out(alloc, visible, b"PtrUInt", Feature::OtherIntegers)
}

/// Integer types by their bits, and those of sizes.
fn enter_sized(alloc: Global, visible: &mut Visible) -> Result<(), NoMemory>
    ensures { IfOk result (λ _. visible.new ≡ with_table sized_names visible.old) }
{
    leave_out(alloc, visible, b"Int8", Feature::OtherIntegers)?;
    leave_out(alloc, visible, b"Int16", Feature::OtherIntegers)?;
    leave_out(alloc, visible, b"Int32", Feature::OtherIntegers)?;
    leave_out(alloc, visible, b"UInt8", Feature::OtherIntegers)?;
    leave_out(alloc, visible, b"UInt16", Feature::OtherIntegers)?;
    leave_out(alloc, visible, b"UInt32", Feature::OtherIntegers)?;
    leave_out(alloc, visible, b"SizeInt", Feature::OtherIntegers)?;
    leave_out(alloc, visible, b"SizeUInt", Feature::OtherIntegers)
}

/// Short strings.
fn enter_short(alloc: Global, visible: &mut Visible) -> Result<(), NoMemory>
    ensures { IfOk result (λ _. visible.new ≡ with_table short_names visible.old) }
{
    leave_out(alloc, visible, b"ShortString", Feature::ShortStrings)?;
    leave_out(alloc, visible, b"OpenString", Feature::ShortStrings)
}

/// Other string types.
fn enter_strings(alloc: Global, visible: &mut Visible) -> Result<(), NoMemory>
    ensures { IfOk result (λ _. visible.new ≡ with_table string_names visible.old) }
{
    leave_out(alloc, visible, b"WideString", Feature::OtherStrings)?;
    leave_out(alloc, visible, b"UnicodeString", Feature::OtherStrings)?;
    leave_out(alloc, visible, b"UTF8String", Feature::OtherStrings)?;
    leave_out(alloc, visible, b"RawByteString", Feature::OtherStrings)
}

/// Pointers to characters and texts.
fn enter_characters(alloc: Global, visible: &mut Visible) -> Result<(), NoMemory>
    ensures { IfOk result (λ _. visible.new ≡ with_table character_names visible.old) }
{
    leave_out(alloc, visible, b"PChar", Feature::Pointers)?;
    leave_out(alloc, visible, b"PAnsiChar", Feature::Pointers)?;
    leave_out(alloc, visible, b"PWideChar", Feature::Pointers)?;
    leave_out(alloc, visible, b"PPChar", Feature::Pointers)?;
    leave_out(alloc, visible, b"PString", Feature::Pointers)?;
    leave_out(alloc, visible, b"PAnsiString", Feature::Pointers)
}

/// Other pointers.
fn enter_pointers(alloc: Global, visible: &mut Visible) -> Result<(), NoMemory>
    ensures { IfOk result (λ _. visible.new ≡ with_table pointer_names visible.old) }
{
    leave_out(alloc, visible, b"Pointer", Feature::Pointers)?;
    leave_out(alloc, visible, b"PPointer", Feature::Pointers)?;
    leave_out(alloc, visible, b"PByte", Feature::Pointers)?;
    leave_out(alloc, visible, b"PInteger", Feature::Pointers)?;
    leave_out(alloc, visible, b"PLongInt", Feature::Pointers)?;
    leave_out(alloc, visible, b"PBoolean", Feature::Pointers)
}

/// A procedural type, a metaclass and files.
fn enter_rest(alloc: Global, visible: &mut Visible) -> Result<(), NoMemory>
    ensures { IfOk result (λ _. visible.new ≡ with_table rest_names visible.old) }
{
    leave_out(alloc, visible, b"TProcedure", Feature::ProceduralTypes)?;
    leave_out(alloc, visible, b"TClass", Feature::Metaclasses)?;
    leave_out(alloc, visible, b"Text", Feature::Files)?;
    leave_out(alloc, visible, b"TextFile", Feature::Files)
}

/// Enters the name of a type that is not in this profile, by its feature.
fn leave_out(
    alloc: Global,
    visible: &mut Visible,
    name: &[u8],
    feature: Feature,
) -> Result<(), NoMemory>
    ensures { IfOk result (λ _. visible.new ≡ with_known name.now (Form (form.LeftOut feature)) visible.old) }
{
    enter(alloc, visible, name, Known::Form(BuiltIn::LeftOut(feature)))
}

/// Enters a name, alone and behind that of the unit.
fn enter(alloc: Global, visible: &mut Visible, name: &[u8], known: Known) -> Result<(), NoMemory>
    ensures { IfOk result (λ _. visible.new ≡ with_known name.now known visible.old) }
{
    visible.enter(name, meaning_of_known(known))?;
    let mut joined = Vec::from_slice(alloc, b"system.")?;
    joined.extend_from_slice(name)?;
    visible.enter(joined.as_slice(), meaning_of_known(known))
}

fn meaning_of_known(known: Known) -> Meaning
    ensures { result ≡ meaning_of_known known }
{
    match known {
        Known::Named(of) => Meaning::TypeName(of),
        Known::Form(form) => Meaning::BuiltIn(form),
        Known::Value(of, number) => {
            let value = Const::Ordinal(number);
            let weight = Weight { nodes: 1, words: 0 };
            Meaning::Constant(Constant { value, of, weight })
        }
    }
}
