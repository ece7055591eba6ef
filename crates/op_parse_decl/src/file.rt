//! Whole files (Free Pascal Reference Guide, "Programs, units, blocks").
ghost use Rattle.std.specs.Prelude.{IfErr, IfOk, List, MatchResult, Option, [], ℕ, ◌≡◌};
ghost use Rattle.op_parse_code.specs.Refusal.{IsFree, RefusalHasText};
ghost use Rattle.op_parse_decl.specs.Declarations.{SomeProgram, SomeProgramHeading, SomeUnit, SomeUses, Whole, WholeFile};
ghost use Rattle.op_parse_decl.specs.FileParts.{made_heading, made_program, made_tail, made_unit, made_uses, tail_of};
ghost use Rattle.op_parse_decl.specs.Refusal.{RefusesPart, RefusesParts};
ghost use Rattle.op_tree.specs.File.{File, Program, Tail, UnitFile, file_of, program_of, unit_of};
ghost use Rattle.op_tree.specs.FileGrammar.{IsFile, IsTail, Spells};
ghost use Rattle.op_tree.specs.Terminal.{terminals};
ghost use Rattle.op_tree.specs.declared.file.ProgramHeading.{ProgramHeading};
ghost use Rattle.op_tree.specs.declared.position.Name.{Name};

use crate::choice::{Either, Empty, Fork, Unless};
use crate::code_form::or_form_in_code;
use crate::declared_form::form_of_file;
use crate::form::told_at;
use crate::leaf::{BracketedNames, Here, Statements};
use crate::part::{Behind, Made, Part, Repeated, Setting, Stands};
use crate::routine::{Block, InBlock, LeftOut};
use crate::sign;
use op_parse_code::ParseError;
use op_parse_code::shared::{Mark, behind_mark, syntax};
use op_scan::{Token, Tokens};
use op_tree::{Declaration, Name, Names, Program, ProgramHeading, Stmt, Tree, Unit};
use std::alloc::Global;

/// How deep parts may be nested.
const DEEPEST: u32 = 200;

/// The tree of a file.
///
/// `Refused` is rule 9 at the first token that no file goes on with, or at the file's end, 61 at a token that is nested
/// too deep, 13 at a form that is left out. `NoMemory` comes where the allocator has no room.
pub fn parse(alloc: Global, tokens: &Tokens) -> Result<Tree, ParseError>
    // The grammar derives it from these tokens, with nothing left.
    ensures spells { IfOk result (λ tree. Spells (file_of tree) (terminals tokens.now.list)) }
    // There is none, or a form that is left out.
    ensures refused { IfErr result (RefusesPart WholeFile 200 tokens.now.end (terminals tokens.now.list)) }
    // No other tree does, and where one does the tokens are refused for a form of statements and expressions alone.
    ensures only { (file : File) → Spells file (terminals tokens.now.list) → MatchResult result (λ tree. file_of tree ≡ file) (IsFree tokens.now.end (terminals tokens.now.list)) }
    // What is refused breaks a rule that has a text.
    ensures told { IfErr result RefusalHasText }
{
    let setting = Setting {
        alloc,
        left: DEEPEST,
        end: tokens.end,
    };
    file(setting, tokens.list.as_slice())
}

fn file(setting: Setting, tokens: &[Token]) -> Result<Tree, ParseError>
    ensures whole { IfOk result (λ tree. IsFile setting.left (file_of tree) (terminals tokens.now) []) }
    ensures refused { IfErr result (RefusesPart WholeFile setting.left setting.end (terminals tokens.now)) }
{
    match unit_or_program(setting, tokens) {
        Ok(tree) => Ok(tree),
        Err(error) => match form_of_file(tokens) {
            Some(feature) => Err(told_at(feature, setting.end, tokens, tokens, error)),
            None => Err(or_form_in_code(setting, tokens, error)),
        },
    }
}

fn unit_or_program(setting: Setting, tokens: &[Token]) -> Result<Tree, ParseError>
    ensures whole { IfOk result (λ tree. IsFile setting.left (file_of tree) (terminals tokens.now) []) }
    ensures refused { IfErr result (RefusesPart WholeFile setting.left setting.end (terminals tokens.now)) }
{
    match behind_mark(Mark::Unit, tokens) {
        Some(_) => {
            let unit = whole(setting, tokens)?;
            Ok(Tree::Unit(unit))
        }
        None => {
            let program = whole(setting, tokens)?;
            Ok(Tree::Program(program))
        }
    }
}

/// The part that all of the tokens are.
fn whole<A: Part>(setting: Setting, tokens: &[Token]) -> Result<A, ParseError>
    ensures whole { IfOk result (λ a. A.phrase setting.left (A.says a) (terminals tokens.now) []) }
    ensures refused { IfErr result (RefusesParts A.begun (Whole A.phrase) setting.left setting.end (terminals tokens.now)) }
{
    let (part, rest) = A::read(setting, tokens)?;
    match rest.split_first() {
        None => Ok(part),
        Some(_) => Err(syntax(setting.end, rest)),
    }
}

/// The units that are used, if there are any.
#[derive(Drop)]
pub struct Used {
    pub names: Names,
}

impl Made for Used {
    type Parts = Behind<sign::Uses, (Names, Stands<sign::Semicolon>)>;

    ghost Said = { List Name };

    ghost says = { λ x. x.names };

    ghost phrase = { SomeUses };

    #[tactic(auto, using(crate::specs::FileParts::uses_of_parts, crate::specs::FileParts::no_uses_of_parts))]
    fn of(alloc: Global, parts: Self::Parts) -> Used {
        match parts.part {
            None => Used {
                names: Names::from(Vec::new(alloc)),
            },
            Some((names, _)) => Used { names },
        }
    }

    ghost made = { made_uses };
}

/// The heading of a program, if there is one.
#[derive(Drop)]
pub struct FileHeading {
    pub heading: Option<ProgramHeading>,
}

impl Made for FileHeading {
    type Parts = Behind<
        sign::Program,
        (
            Name,
            (Either<BracketedNames, Empty>, Stands<sign::Semicolon>),
        ),
    >;

    ghost Said = { Option ProgramHeading };

    ghost says = { λ x. x.heading };

    ghost phrase = { SomeProgramHeading };

    #[tactic(auto, using(crate::specs::FileParts::no_heading_of_parts, crate::specs::FileParts::name_of_parts, crate::specs::FileParts::names_of_parts))]
    fn of(alloc: Global, parts: Self::Parts) -> FileHeading {
        let Some(parts) = parts.part else {
            return FileHeading { heading: None };
        };
        let (name, (given, _)) = parts;
        match given {
            Either::First(given) => FileHeading {
                heading: Some(ProgramHeading {
                    name,
                    parameters: given.names,
                }),
            },
            Either::Second(_) => FileHeading {
                heading: Some(ProgramHeading {
                    name,
                    parameters: Names::from(Vec::new(alloc)),
                }),
            },
        }
    }

    ghost made = { made_heading };
}

/// Statements up to `end`.
type Last = (Statements, Stands<sign::End>);

/// What a unit does at the beginning and at the end, up to its `end`.
#[derive(Drop)]
pub struct Tail {
    pub initialization: Option<Vec<Stmt>>,
    pub finalization: Option<Vec<Stmt>>,
}

impl Made for Tail {
    type Parts = Fork<
        sign::End,
        Empty,
        Fork<
            sign::Finalization,
            Last,
            Fork<
                sign::Initialization,
                (
                    Statements,
                    Fork<sign::Finalization, Last, Stands<sign::End>>,
                ),
                Block,
            >,
        >,
    >;

    ghost Said = { Tail };

    ghost says = { tail_of };

    ghost phrase = { IsTail };

    #[tactic(auto, using(crate::specs::FileParts::end_of_parts, crate::specs::FileParts::finalization_of_parts, crate::specs::FileParts::both_of_parts, crate::specs::FileParts::initialization_of_parts, crate::specs::FileParts::block_of_parts))]
    fn of(_alloc: Global, parts: Self::Parts) -> Tail {
        match parts {
            Fork::Marked(_, _) => Tail {
                initialization: None,
                finalization: None,
            },
            Fork::Unmarked(Fork::Marked((last, _), _)) => Tail {
                initialization: None,
                finalization: Some(last.items),
            },
            Fork::Unmarked(Fork::Unmarked(Fork::Marked(parts, _))) => {
                let (first, rest) = parts;
                match rest {
                    Fork::Marked((last, _), _) => Tail {
                        initialization: Some(first.items),
                        finalization: Some(last.items),
                    },
                    Fork::Unmarked(_) => Tail {
                        initialization: Some(first.items),
                        finalization: None,
                    },
                }
            }
            Fork::Unmarked(Fork::Unmarked(Fork::Unmarked((_, (first, _))))) => Tail {
                initialization: Some(first.items),
                finalization: None,
            },
        }
    }

    ghost made = { made_tail };
}

/// A program, up to its dot.
impl Made for Program {
    type Parts = (
        Here,
        (FileHeading, (Used, (InBlock, (Block, Stands<sign::Dot>)))),
    );

    ghost Said = { Program };

    ghost says = { program_of };

    ghost phrase = { SomeProgram };

    #[tactic(auto, using(crate::specs::FileParts::program_of_parts))]
    fn of(
        _alloc: Global,
        (here, (heading, (used, (block, ((_, (statements, _)), _))))): Self::Parts,
    ) -> Program {
        Program {
            position: here.position,
            heading: heading.heading,
            uses: used.names,
            declarations: block.items,
            statements: statements.items,
        }
    }

    ghost made = { made_program };
}

/// A unit, up to its dot.
impl Made for Unit {
    type Parts = (
        (
            (Here, Stands<sign::Unit>),
            (Name, (Stands<sign::Semicolon>, Stands<sign::Interface>)),
        ),
        (
            (
                Used,
                (
                    Repeated<Declaration>,
                    Unless<LeftOut, Stands<sign::Implementation>>,
                ),
            ),
            ((Used, InBlock), (Tail, Stands<sign::Dot>)),
        ),
    );

    ghost Said = { UnitFile };

    ghost says = { unit_of };

    ghost phrase = { SomeUnit };

    fn of(
        _alloc: Global,
        (
            ((here, _), (name, _)),
            ((above, (interface, _)), ((used, block), (tail, _))),
        ): Self::Parts,
    ) -> Unit {
        Unit {
            position: here.position,
            name,
            interface_uses: above.names,
            interface_declarations: interface.items,
            uses: used.names,
            declarations: block.items,
            initialization: tail.initialization,
            finalization: tail.finalization,
        }
    }

    ghost made = { made_unit };
}
