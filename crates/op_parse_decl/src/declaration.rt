//! Constants, types and variables (Free Pascal Reference Guide, "Constants", "Types", "Variables").
ghost use Rattle.std.proofs.Common.{suc-le-suc, zero-le};
ghost use Rattle.std.specs.Prelude.{List, ℕ, ◌≡◌};
ghost use Rattle.std.specs.Option.{option_map};
ghost use Rattle.op_parse_code.specs.Opening.{is_identifier};
ghost use Rattle.op_parse_decl.specs.Begun.{Opens};
ghost use Rattle.op_parse_decl.specs.Blocks.{known_data};
ghost use Rattle.op_parse_decl.specs.DeclarationParts.{made_constant, made_definition, made_type, made_variables};
ghost use Rattle.op_parse_decl.specs.Declarations.{DefinitionBefore, SomeData};
ghost use Rattle.op_tree.proofs.DeclarationUnique.{begins_data};
ghost use Rattle.op_tree.specs.Declaration.{Constant, Declaration, TypeDeclaration, TypeDefinition, Variables, constant_of, declaration_of, definition_of, type_of, variables_of};
ghost use Rattle.op_tree.specs.DeclarationGrammar.{AreVariablesOfOneType, IsConstant, IsTypeDeclaration};
ghost use Rattle.op_tree.specs.Ends.{IsNot};
ghost use Rattle.op_tree.specs.Initial.{initial_of};

use crate::choice::{Ahead, Fork, Form, Several, Unless};
use crate::class::ClassBehind;
use crate::declared_form::{form_of_definition, form_of_type};
use crate::interface::InterfaceWhole;
use crate::leaf::FirstValue;
use crate::part::{Answer, Behind, Item, Made, Part, Setting, Stands};
use crate::sign;
use op_parse_code::shared::{Mark, after_mark, behind_mark, is_identifier};
use op_scan::{Token, TokenKind};
use op_tree::{
    Constant, Declaration, Initializer, Name, Names, TypeDeclaration, TypeDefinition, TypeDenoter,
    Variables,
};
use std::alloc::Global;

/// A constant, and the semicolon behind it.
impl Made for Constant {
    type Parts = (
        Name,
        (
            Behind<sign::Colon, TypeDenoter>,
            (Stands<sign::Equal>, (Initializer, Stands<sign::Semicolon>)),
        ),
    );

    ghost Said = { Constant };

    ghost says = { constant_of };

    ghost phrase = { IsConstant };

    #[tactic(auto, using(crate::specs::DeclarationParts::constant_of_parts))]
    fn of(_alloc: Global, (name, (denoter, (_, (value, _)))): Self::Parts) -> Constant {
        Constant {
            name,
            denoter: denoter.part,
            value,
        }
    }

    ghost made = { made_constant };
}

impl Item for Constant {
    ghost test = { is_identifier };

    fn opens(kind: &TokenKind) -> bool {
        is_identifier(kind)
    }

    ghost moves = { suc-le-suc zero-le };
}

/// Variables of one type, and the semicolon behind them.
impl Made for Variables {
    type Parts = (
        Names,
        (
            Stands<sign::Colon>,
            (
                TypeDenoter,
                (Behind<sign::Equal, FirstValue>, Stands<sign::Semicolon>),
            ),
        ),
    );

    ghost Said = { Variables };

    ghost says = { variables_of };

    ghost phrase = { AreVariablesOfOneType };

    #[tactic(auto, using(crate::specs::DeclarationParts::variables_of_parts))]
    fn of(_alloc: Global, (names, (_, (denoter, (value, _)))): Self::Parts) -> Variables {
        Variables {
            names,
            denoter,
            value: value_of(value.part),
        }
    }

    ghost made = { made_variables };
}

fn value_of(first: Option<FirstValue>) -> Option<Box<Initializer>>
    ensures { option_map (λ value. initial_of value.value) result ≡ option_map (λ first. initial_of first.value.value) first }
{
    match first {
        None => None,
        Some(first) => Some(first.value),
    }
}

impl Item for Variables {
    ghost test = { is_identifier };

    fn opens(kind: &TokenKind) -> bool {
        is_identifier(kind)
    }

    ghost moves = { suc-le-suc zero-le };
}

/// The word `generic` before a type.
pub struct GenericType;

impl Form for GenericType {
    fn feature(tokens: &[Token]) -> Option<(u8, &[Token])> {
        form_of_type(tokens)
    }
}

/// A type's name and what it stands for, and the semicolon behind them.
impl Made for TypeDeclaration {
    type Parts = Unless<GenericType, (Name, (Stands<sign::Equal>, TypeDefinition))>;

    ghost Said = { TypeDeclaration };

    ghost says = { type_of };

    ghost phrase = { IsTypeDeclaration };

    #[tactic(auto, using(crate::specs::DeclarationParts::type_of_parts))]
    fn of(_alloc: Global, parts: Self::Parts) -> TypeDeclaration {
        let (name, (_, definition)) = parts.part;
        TypeDeclaration { name, definition }
    }

    ghost made = { made_type };
}

impl Item for TypeDeclaration {
    ghost test = { is_identifier };

    fn opens(kind: &TokenKind) -> bool {
        is_identifier(kind)
    }

    ghost moves = { suc-le-suc zero-le };
}

/// A class of classes.
pub struct Metaclass;

impl Form for Metaclass {
    fn feature(tokens: &[Token]) -> Option<(u8, &[Token])> {
        form_of_definition(tokens)
    }
}

/// A type, a class or an interface, and the semicolon behind it.
impl Made for TypeDefinition {
    type Parts = Unless<
        Metaclass,
        Fork<
            sign::Class,
            ClassBehind,
            Ahead<sign::Interface, InterfaceWhole, (TypeDenoter, Stands<sign::Semicolon>)>,
        >,
    >;

    ghost Said = { TypeDefinition };

    ghost says = { definition_of };

    ghost phrase = { DefinitionBefore };

    #[tactic(auto, using(crate::specs::DeclarationParts::class_of_parts, crate::specs::DeclarationParts::interface_of_parts, crate::specs::DeclarationParts::denoter_of_parts))]
    fn of(_alloc: Global, parts: Self::Parts) -> TypeDefinition {
        match parts.part {
            Fork::Marked(class, _) => class.definition,
            Fork::Unmarked(Ahead::Marked(interface, _)) => interface.definition,
            Fork::Unmarked(Ahead::Unmarked((denoter, _))) => TypeDefinition::Denoter(denoter),
        }
    }

    ghost made = { made_definition };
}

/// Constants, types or variables in a row, with the word before them.
#[derive(Drop)]
pub struct Data {
    pub declaration: Declaration,
}

impl Part for Data {
    ghost Said = { Declaration };

    ghost says = { λ x. declaration_of x.declaration };

    ghost phrase = { SomeData };

    ghost begun = { Opens (IsNot is_identifier) SomeData };

    fn read<'a>(setting: Setting, tokens: &'a [Token]) -> Answer<'a, Data> {
        if let Some(after) = behind_mark(Mark::Const_, tokens) {
            let (constants, rest) = Several::<Constant>::read(setting, after)?;
            let declaration = Declaration::Constants(constants.items);
            return Ok((Data { declaration }, rest));
        }
        if let Some(after) = behind_mark(Mark::Var, tokens) {
            let (variables, rest) = Several::<Variables>::read(setting, after)?;
            let declaration = Declaration::Variables(variables.items);
            return Ok((Data { declaration }, rest));
        }
        let after = after_mark(Mark::Type_, setting.end, tokens)?;
        let (types, rest) = Several::<TypeDeclaration>::read(setting, after)?;
        let declaration = Declaration::Types(types.items);
        Ok((Data { declaration }, rest))
    }

    ghost known = { known_data };
}

impl Item for Data {
    ghost test = { begins_data };

    fn opens(kind: &TokenKind) -> bool {
        matches!(kind, TokenKind::Const_ | TokenKind::Type_ | TokenKind::Var)
    }

    ghost moves = { suc-le-suc zero-le };
}
