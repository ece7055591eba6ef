//! The parts that are no others put together.
ghost use Rattle.std.proofs.Common.{suc-le-suc, zero-le};
ghost use Rattle.std.specs.Prelude.{List, ℕ, ◌≡◌};
ghost use Rattle.op_parse_code.proofs.StatementKnown.{known_name, known_statements};
ghost use Rattle.op_parse_code.specs.Refusal.{Alive};
ghost use Rattle.op_parse_code.specs.Whole.{SomeName};
ghost use Rattle.op_parse_code.specs.WholeStatement.{SomeStatements};
ghost use Rattle.op_parse_decl.specs.Declarations.{OneDirective, StandsHere, directive_at, is_directive};
ghost use Rattle.op_parse_decl.specs.InitialKnown.{known_initial};
ghost use Rattle.op_parse_decl.specs.KnownLeaves.{known_directive, known_here};
ghost use Rattle.op_parse_decl.specs.KnownTypes.{known_bracketed_names, known_denoter, known_names};
ghost use Rattle.op_parse_decl.specs.Opening.{is_open};
ghost use Rattle.op_parse_decl.specs.Refusal.{Never};
ghost use Rattle.op_parse_decl.specs.Types.{SomeBracketedNames, SomeDenoter, SomeInitial, SomeNames};
ghost use Rattle.op_tree.specs.Denoter.{Denoter, denoter_of};
ghost use Rattle.op_tree.specs.Initial.{Initial, initial_of};
ghost use Rattle.op_tree.specs.Statement.{Statements, stmts_of};
ghost use Rattle.op_tree.specs.Terminal.{terminals};
ghost use Rattle.op_tree.specs.declared.heading.Directive.{Directive};
ghost use Rattle.op_tree.specs.declared.position.Name.{Name};
ghost use Rattle.op_tree.specs.declared.position.Position.{Position};

use crate::denoter::denoter;
use crate::heading::directive_of;
use crate::initializer::initial;
use crate::names::{bracketed_names, names};
use crate::part::{Answer, Item, Part, Setting};
use op_parse_code::shared::{Mark, after_mark, name, position_of, statements, syntax};
use op_scan::{Token, TokenKind};
use op_tree::{Directive, Initializer, Name, Names, Position, Stmt, TypeDenoter};

impl Part for Name {
    ghost Said = { Name };

    ghost says = { λ x. x };

    ghost phrase = { SomeName };

    ghost begun = { Never };

    fn read<'a>(setting: Setting, tokens: &'a [Token]) -> Answer<'a, Name> {
        name(setting.alloc, setting.end, tokens)
    }

    ghost known = { known_name };
}

impl Part for Names {
    ghost Said = { List Name };

    ghost says = { λ x. x };

    ghost phrase = { SomeNames };

    ghost begun = { Never };

    fn read<'a>(setting: Setting, tokens: &'a [Token]) -> Answer<'a, Names> {
        let (names, rest) = names(setting, tokens)?;
        Ok((names, rest))
    }

    ghost known = { known_names };
}

impl Part for TypeDenoter {
    ghost Said = { Denoter };

    ghost says = { denoter_of };

    ghost phrase = { SomeDenoter };

    ghost begun = { Alive SomeDenoter };

    fn read<'a>(setting: Setting, tokens: &'a [Token]) -> Answer<'a, TypeDenoter> {
        denoter(setting, tokens)
    }

    ghost known = { known_denoter };
}

impl Part for Initializer {
    ghost Said = { Initial };

    ghost says = { initial_of };

    ghost phrase = { SomeInitial };

    ghost begun = { Alive SomeInitial };

    fn read<'a>(setting: Setting, tokens: &'a [Token]) -> Answer<'a, Initializer> {
        initial(setting, tokens)
    }

    ghost known = { known_initial };
}

/// A first value, in a block of its own.
#[derive(Drop)]
pub struct FirstValue {
    pub value: Box<Initializer>,
}

impl Part for FirstValue {
    ghost Said = { Initial };

    ghost says = { λ x. initial_of x.value.value };

    ghost phrase = { SomeInitial };

    ghost begun = { Alive SomeInitial };

    fn read<'a>(setting: Setting, tokens: &'a [Token]) -> Answer<'a, FirstValue> {
        let (first, rest) = initial(setting, tokens)?;
        let value = Box::new(setting.alloc, first)?;
        Ok((FirstValue { value }, rest))
    }

    ghost known = { known_initial };
}

/// Names in brackets.
#[derive(Drop)]
pub struct BracketedNames {
    pub names: Names,
}

impl Part for BracketedNames {
    ghost Said = { List Name };

    ghost says = { λ x. x.names };

    ghost phrase = { SomeBracketedNames };

    ghost begun = { Alive SomeBracketedNames };

    fn read<'a>(setting: Setting, tokens: &'a [Token]) -> Answer<'a, BracketedNames> {
        let (names, rest) = bracketed_names(setting, tokens)?;
        Ok((BracketedNames { names }, rest))
    }

    ghost known = { known_bracketed_names };
}

impl Item for BracketedNames {
    ghost test = { is_open };

    fn opens(kind: &TokenKind) -> bool {
        matches!(kind, TokenKind::OpenParenthesis)
    }

    ghost moves = { suc-le-suc zero-le };
}

/// Statements with semicolons between them.
#[derive(Drop)]
pub struct Statements {
    pub items: Vec<Stmt>,
}

impl Part for Statements {
    ghost Said = { Statements };

    ghost says = { λ x. stmts_of x.items.items };

    ghost phrase = { SomeStatements };

    ghost begun = { Alive SomeStatements };

    ghost least = { 0 };

    fn read<'a>(setting: Setting, tokens: &'a [Token]) -> Answer<'a, Statements> {
        let (items, rest) = statements(setting.alloc, setting.left, setting.end, tokens)?;
        Ok((Statements { items }, rest))
    }

    ghost known = { known_statements };
}

/// The directive that a token is.
fn directive_at(kind: &TokenKind) -> Option<Directive>
    ensures { result ≡ directive_at kind.now }
{
    match kind {
        TokenKind::Identifier(text) => directive_of(text.as_slice()),
        _ => None,
    }
}

impl Part for Directive {
    ghost Said = { Directive };

    ghost says = { λ x. x };

    ghost phrase = { OneDirective };

    ghost begun = { Never };

    fn read<'a>(setting: Setting, tokens: &'a [Token]) -> Answer<'a, Directive> {
        let Some((first, rest)) = tokens.split_first() else {
            return Err(syntax(setting.end, tokens));
        };
        let Some(directive) = directive_at(&first.kind) else {
            return Err(syntax(setting.end, tokens));
        };
        let rest = after_mark(Mark::Semicolon, setting.end, rest)?;
        Ok((directive, rest))
    }

    ghost known = { known_directive };
}

impl Item for Directive {
    ghost test = { is_directive };

    fn opens(kind: &TokenKind) -> bool {
        directive_at(kind).is_some()
    }

    ghost moves = { suc-le-suc zero-le };
}

/// Where the next token stands.
#[derive(Drop)]
pub struct Here {
    pub position: Position,
}

impl Part for Here {
    ghost Said = { Position };

    ghost says = { λ x. x.position };

    ghost phrase = { StandsHere };

    ghost begun = { Never };

    ghost least = { 0 };

    fn read<'a>(setting: Setting, tokens: &'a [Token]) -> Answer<'a, Here> {
        let Some((first, _)) = tokens.split_first() else {
            return Err(syntax(setting.end, tokens));
        };
        let position = position_of(first);
        Ok((Here { position }, tokens))
    }

    ghost known = { known_here };
}
