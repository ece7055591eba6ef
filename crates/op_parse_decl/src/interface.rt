//! Interfaces (Free Pascal Reference Guide, "Interfaces").
ghost use Rattle.std.specs.Prelude.{IfErr, IfOk, List, Option, length, ℕ, ◌+◌, ◌≡◌, ◌≤◌};
ghost use Rattle.op_parse_decl.specs.Begun.{Anything, Opens};
ghost use Rattle.op_parse_decl.specs.Combined.{Both, both};
ghost use Rattle.op_parse_decl.specs.InterfaceParts.{known_interface, known_literal, made_head};
ghost use Rattle.op_parse_decl.specs.Interfaces.{InterfaceBefore, IsLiteral, SomeInterfaceHead, bodiless, is_literal};
ghost use Rattle.op_parse_decl.specs.Refusal.{Never};
ghost use Rattle.op_tree.specs.Declaration.{TypeDefinition, definition_of};
ghost use Rattle.op_tree.specs.Terminal.{terminals};
ghost use Rattle.op_tree.specs.declared.position.Name.{Name};

use crate::choice::{Ahead, Empty, Nested, Unless};
use crate::declared_form::INTERFACE_PROPERTY;
use crate::part::{Answer, Made, Part, Repeated, Setting, Stands};
use crate::routine::LeftOut;
use crate::sign;
use op_parse_code::shared::{Mark, behind_mark, left_out, spelled, syntax};
use op_scan::{CompactText, Token, TokenKind};
use op_tree::{Interface, Method, Name, TypeDefinition};
use std::alloc::Global;

/// A string.
#[derive(Drop)]
pub struct Literal {
    pub text: CompactText,
}

impl Part for Literal {
    ghost Said = { List ℕ };

    ghost says = { λ x. x.text };

    ghost phrase = { IsLiteral };

    ghost begun = { Never };

    fn read<'a>(setting: Setting, tokens: &'a [Token]) -> Answer<'a, Literal> {
        let Some((first, rest)) = tokens.split_first() else {
            return Err(syntax(setting.end, tokens));
        };
        if !is_literal(&first.kind) {
            return Err(syntax(setting.end, tokens));
        }
        let text = spelled(setting.alloc, &first.kind)?;
        Ok((Literal { text }, rest))
    }

    ghost known = { known_literal };
}

fn is_literal(kind: &TokenKind) -> bool
    ensures { result ≡ is_literal kind.now }
{
    matches!(kind, TokenKind::CharacterString(_))
}

/// The word `interface`, what the interface goes on from, and its identifier.
#[derive(Drop)]
pub struct InterfaceHead {
    pub ancestor: Option<Name>,
    pub identifier: Option<CompactText>,
}

impl Made for InterfaceHead {
    type Parts = (
        Stands<sign::Interface>,
        (
            Ahead<
                sign::OpenParenthesis,
                Nested<
                    (
                        Stands<sign::OpenParenthesis>,
                        (Name, Stands<sign::CloseParenthesis>),
                    ),
                >,
                Empty,
            >,
            Ahead<
                sign::OpenBracket,
                Nested<
                    (
                        Stands<sign::OpenBracket>,
                        (Literal, Stands<sign::CloseBracket>),
                    ),
                >,
                Empty,
            >,
        ),
    );

    ghost Said = { Both (Option Name) (Option (List ℕ)) };

    ghost says = { λ x. both x.ancestor x.identifier };

    ghost phrase = { SomeInterfaceHead };

    #[tactic(auto, using(crate::specs::InterfaceParts::head_of_none, crate::specs::InterfaceParts::head_of_text, crate::specs::InterfaceParts::head_of_name, crate::specs::InterfaceParts::head_of_both))]
    fn of(_alloc: Global, (_, (ancestor, identifier)): Self::Parts) -> InterfaceHead {
        match ancestor {
            Ahead::Unmarked(_) => match identifier {
                Ahead::Unmarked(_) => InterfaceHead {
                    ancestor: None,
                    identifier: None,
                },
                Ahead::Marked(text, _) => InterfaceHead {
                    ancestor: None,
                    identifier: Some(text.part.1.0.text),
                },
            },
            Ahead::Marked(name, _) => match identifier {
                Ahead::Unmarked(_) => InterfaceHead {
                    ancestor: Some(name.part.1.0),
                    identifier: None,
                },
                Ahead::Marked(text, _) => InterfaceHead {
                    ancestor: Some(name.part.1.0),
                    identifier: Some(text.part.1.0.text),
                },
            },
        }
    }

    ghost made = { made_head };
}

/// An interface, and the semicolon behind it.
#[derive(Drop)]
pub struct InterfaceWhole {
    pub definition: TypeDefinition,
}

impl Part for InterfaceWhole {
    ghost Said = { TypeDefinition };

    ghost says = { λ x. definition_of x.definition };

    ghost phrase = { InterfaceBefore };

    ghost begun = { Opens Anything InterfaceBefore };

    fn read<'a>(setting: Setting, tokens: &'a [Token]) -> Answer<'a, InterfaceWhole> {
        let (head, behind) = InterfaceHead::read(setting, tokens)?;
        if let Some(rest) = behind_mark(Mark::Semicolon, behind) {
            let definition = bodiless(setting.alloc, head);
            return Ok((InterfaceWhole { definition }, rest));
        }
        let (methods, behind) = Repeated::<Method>::read(setting, behind)?;
        if let Some(_) = behind_mark(Mark::Property, behind) {
            return Err(left_out(INTERFACE_PROPERTY, setting.end, behind));
        }
        let (_, rest) = <(Unless<LeftOut, Stands<sign::End>>, Stands<sign::Semicolon>)>::read(
            setting, behind,
        )?;
        let definition = TypeDefinition::Interface(Interface {
            ancestor: head.ancestor,
            identifier: head.identifier,
            methods: methods.items,
        });
        Ok((InterfaceWhole { definition }, rest))
    }

    ghost known = { known_interface };
}

/// An interface without `end`: without an ancestor it is a forward declaration.
fn bodiless(alloc: Global, head: InterfaceHead) -> TypeDefinition
    ensures { definition_of result ≡ bodiless head.ancestor head.identifier }
{
    let InterfaceHead {
        ancestor,
        identifier,
    } = head;
    match ancestor {
        None => TypeDefinition::ForwardInterface { identifier },
        Some(name) => TypeDefinition::Interface(Interface {
            ancestor: Some(name),
            identifier,
            methods: Vec::new(alloc),
        }),
    }
}
