//! Declarations in a row, and routines with what is declared in them (Free Pascal Reference Guide, "Using functions and
//! procedures").
ghost use Rattle.std.proofs.Common.{suc-le-suc, zero-le};
ghost use Rattle.std.specs.Prelude.{IfErr, IfOk, IfSome, MatchOption, length, true, ◌<◌, ◌≡◌, ◌≤◌};
ghost use Rattle.op_parse_code.specs.Opening.{is_identifier};
ghost use Rattle.op_parse_code.specs.WholeStatement.{front_is};
ghost use Rattle.op_parse_decl.specs.Begun.{Anything, Opens};
ghost use Rattle.op_parse_decl.specs.Blocks.{known_declarations, made_interface_declaration};
ghost use Rattle.op_parse_decl.specs.DeclarationParts.{made_method};
ghost use Rattle.op_parse_decl.specs.Declarations.{AllOf, BehindForward, BlockDeclaration, BodyBefore, EndsBlockDeclarations, InterfaceDeclaration, WholeMethod, begins_declaration, is_forward};
ghost use Rattle.op_parse_decl.specs.Refusal.{RefusesParts};
ghost use Rattle.op_tree.proofs.MethodUnique.{begins_heading};
ghost use Rattle.op_tree.specs.Declaration.{Declaration, Declarations, Method, body, body_of, declaration_of, declarations_of, method_of};
ghost use Rattle.op_tree.specs.Ends.{IsNot};
ghost use Rattle.op_tree.specs.Statement.{stmts_of};
ghost use Rattle.op_tree.specs.Terminal.{terminals};

use crate::choice::{Either, Form, Unless};
use crate::declaration::Data;
use crate::declared_form::form_of_part;
use crate::leaf::Statements;
use crate::part::{Answer, Item, Made, Part, Repeated, Setting, Stands, begins};
use crate::sign;
use op_parse_code::shared::{enter, fitted, is_word};
use op_scan::{Token, TokenKind};
use op_tree::{Body, Declaration, Directive, Directives, Heading, Method, Routine, Stmt};
use std::alloc::Global;

/// A declaration that is left out.
pub struct LeftOut;

impl Form for LeftOut {
    fn feature(tokens: &[Token]) -> Option<(u8, &[Token])> {
        let feature = form_of_part(tokens)?;
        Some((feature, tokens))
    }
}

/// Statements between `begin` and `end`.
pub type Block = (
    Unless<LeftOut, Stands<sign::Begin>>,
    (Statements, Stands<sign::End>),
);

/// A heading with its directives, where no field may follow.
impl Made for Method {
    type Parts = (Heading, Repeated<Directive>);

    ghost Said = { Method };

    ghost says = { method_of };

    ghost phrase = { WholeMethod };

    fn of(_alloc: Global, (heading, directives): Self::Parts) -> Method {
        Method {
            heading,
            directives: Directives::from(directives.items),
        }
    }

    ghost made = { made_method };
}

impl Item for Method {
    ghost test = { begins_heading };

    fn opens(kind: &TokenKind) -> bool {
        matches!(
            kind,
            TokenKind::Procedure
                | TokenKind::Function
                | TokenKind::Constructor
                | TokenKind::Destructor
        )
    }

    ghost moves = { suc-le-suc zero-le };
}

/// A declaration of an interface part: of a routine the heading alone.
impl Made for Declaration {
    type Parts = Either<Data, Method>;

    ghost Said = { Declaration };

    ghost says = { declaration_of };

    ghost phrase = { InterfaceDeclaration };

    #[tactic(auto, using(crate::specs::Blocks::data_of_parts, crate::specs::Blocks::heading_of_parts))]
    fn of(_alloc: Global, parts: Self::Parts) -> Declaration {
        match parts {
            Either::First(data) => data.declaration,
            Either::Second(method) => Declaration::Heading(method),
        }
    }

    ghost made = { made_interface_declaration };
}

impl Item for Declaration {
    ghost test = { begins_declaration };

    fn opens(kind: &TokenKind) -> bool {
        Data::opens(kind) || Method::opens(kind)
    }

    ghost moves = { suc-le-suc zero-le };
}

/// The declarations of a block, as many as stand there.
#[derive(Drop)]
pub struct InBlock {
    pub items: Vec<Declaration>,
}

impl Part for InBlock {
    ghost Said = { Declarations };

    ghost says = { λ x. declarations_of x.items.items };

    ghost phrase = { AllOf BlockDeclaration };

    ghost begun = { Opens EndsBlockDeclarations (AllOf BlockDeclaration) };

    ghost least = { 0 };

    fn read<'a>(setting: Setting, tokens: &'a [Token]) -> Answer<'a, InBlock> {
        let (items, rest) = declarations(setting, tokens)?;
        Ok((InBlock { items }, rest))
    }

    ghost known = { known_declarations };
}

/// All declarations at the front.
#[cycle(declaration)]
fn declarations<'a>(setting: Setting, tokens: &'a [Token]) -> Answer<'a, Vec<Declaration>>
    ensures whole { IfOk result (λ f. AllOf BlockDeclaration setting.left (declarations_of f.0.items) (terminals tokens.now) (terminals f.1.now)) }
    ensures refused { IfErr result (RefusesParts (Opens EndsBlockDeclarations (AllOf BlockDeclaration)) (AllOf BlockDeclaration) setting.left setting.end (terminals tokens.now)) }
    ensures shorter { IfOk result (λ f. length f.1.now ≤ length tokens.now) }
{
    let mut items = Vec::new(setting.alloc);
    let mut rest = tokens;
    while begins::<Declaration>(rest) {
        let (item, behind) = declaration(setting, rest)?;
        items.push(item)?;
        rest = behind;
    }
    Ok((items, rest))
}

/// One declaration. A routine is counted.
#[cycle(declaration)]
fn declaration<'a>(setting: Setting, tokens: &'a [Token]) -> Answer<'a, Declaration>
    requires begins { front_is begins_declaration (terminals tokens.now) ≡ true }
    ensures whole { IfOk result (λ f. BlockDeclaration setting.left (declaration_of f.0) (terminals tokens.now) (terminals f.1.now)) }
    ensures refused { IfErr result (RefusesParts (Opens (IsNot is_identifier) BlockDeclaration) BlockDeclaration setting.left setting.end (terminals tokens.now)) }
    ensures shorter { IfOk result (λ f. length f.1.now < length tokens.now) }
{
    if begins::<Data>(tokens) {
        let (data, rest) = Data::read(setting, tokens)?;
        return Ok((data.declaration, rest));
    }
    let left = enter(setting.left, setting.end, tokens)?;
    let inside = Setting { left, ..setting };
    let (method, rest) = Method::read(inside, tokens)?;
    let (body, rest) = body(inside, rest)?;
    let routine = Routine {
        heading: method.heading,
        directives: method.directives,
        body,
    };
    Ok((Declaration::Routine(routine), rest))
}

/// What stands behind the heading of a routine, and the semicolon behind it.
#[cycle(declaration)]
fn body<'a>(setting: Setting, tokens: &'a [Token]) -> Answer<'a, Body>
    ensures whole { IfOk result (λ f. BodyBefore setting.left (body_of f.0) (terminals tokens.now) (terminals f.1.now)) }
    ensures refused { IfErr result (RefusesParts (Opens Anything BodyBefore) BodyBefore setting.left setting.end (terminals tokens.now)) }
    ensures shorter { IfOk result (λ f. length f.1.now < length tokens.now) }
{
    if let Some(rest) = behind_forward(tokens) {
        let (_, rest) = <Stands<sign::Semicolon>>::read(setting, rest)?;
        return Ok((Body::Forward, rest));
    }
    let (declarations, rest) = declarations(setting, tokens)?;
    let (((_, (statements, _)), _), rest) = <(Block, Stands<sign::Semicolon>)>::read(
        setting, rest,
    )?;
    Ok((block_body(declarations, statements.items), rest))
}

fn block_body(declarations: Vec<Declaration>, statements: Vec<Stmt>) -> Body
    ensures { body_of result ≡ body (declarations_of declarations.items) (stmts_of statements.items) }
{
    let declarations = fitted(declarations);
    Body::Block {
        declarations,
        statements,
    }
}

/// The tokens behind the word `forward`, where they begin with it.
fn behind_forward(tokens: &[Token]) -> Option<&[Token]>
    ensures word { MatchOption result (IsNot is_forward (terminals tokens.now)) (λ rest. BehindForward (terminals tokens.now) (terminals rest.now)) }
    ensures shorter { IfSome result (λ rest. length rest.now < length tokens.now) }
{
    let (first, rest) = tokens.split_first()?;
    if is_word(b"forward", &first.kind) {
        Some(rest)
    } else {
        None
    }
}
