//! Declarations of types and constants.
ghost use Rattle.std.specs.Prelude.{◌≡◌, IfOk, None, Some, map};
ghost use Rattle.op_check_unit.specs.Declaring.{constant_by, constant_declared, constant_meaning, constants_declared, defined, type_declared, type_meaning, typed_declared, types_declared, value_means};
ghost use Rattle.op_check_unit.specs.Steps.{Declares, Leaves, here_of};
ghost use Rattle.op_tree.specs.Declaration.{constant_of, definition_of, type_of};
ghost use Rattle.op_tree.specs.Denoter.{denoter_of};
ghost use Rattle.op_tree.specs.Initial.{initial_of};

use crate::Declarer;
use op_base::NoMemory;
use op_core::{Role, TypeId};
use op_judgement::{Feature, LanguageRule};
use op_tree::{
    Constant as ConstantTree, Initializer, Name, TypeDeclaration, TypeDefinition, TypeDenoter,
};
use op_types::{Constant, Meaning};

impl Declarer {
    /// Declares types.
    pub fn types(&mut self, declarations: &[TypeDeclaration]) -> Result<(), NoMemory>
        ensures { IfOk result (λ _. Declares (types_declared (map type_of declarations.now) (here_of self.old)) self.old self.new) }
    {
        for declaration in declarations {
            self.type_declared(declaration)?;
        }
        Ok(())
    }

    fn type_declared(&mut self, declaration: &TypeDeclaration) -> Result<(), NoMemory>
        ensures { IfOk result (λ _. Declares (type_declared (type_of declaration.now) (here_of self.old)) self.old self.new) }
    {
        self.stand_ahead(&declaration.name)?;
        let of = self.defined(&declaration.name, &declaration.definition)?;
        self.end();
        self.declare(&declaration.name, type_meaning(of))
    }

    fn defined(
        &mut self,
        own: &Name,
        definition: &TypeDefinition,
    ) -> Result<Option<TypeId>, NoMemory>
        ensures { IfOk result (Leaves (defined own.now (definition_of definition.now) (here_of self.old)) self.old self.new) }
    {
        match definition {
            TypeDefinition::Denoter(denoter) => self.denoted(Some(own), false, denoter),
            TypeDefinition::ForwardClass | TypeDefinition::Class(_) => {
                self.refuse(
                    LanguageRule::NotInProfile(Feature::Classes),
                    own.position.place,
                );
                Ok(None)
            }
            TypeDefinition::ForwardInterface { .. } | TypeDefinition::Interface(_) => {
                self.refuse(
                    LanguageRule::NotInProfile(Feature::Interfaces),
                    own.position.place,
                );
                Ok(None)
            }
        }
    }

    /// Declares constants.
    pub fn constants(&mut self, declarations: &[ConstantTree]) -> Result<(), NoMemory>
        ensures { IfOk result (λ _. Declares (constants_declared (map constant_of declarations.now) (here_of self.old)) self.old self.new) }
    {
        for declaration in declarations {
            self.constant_declared(declaration)?;
        }
        Ok(())
    }

    fn constant_declared(&mut self, declaration: &ConstantTree) -> Result<(), NoMemory>
        ensures { IfOk result (λ _. Declares (constant_declared (constant_of declaration.now) (here_of self.old)) self.old self.new) }
    {
        match &declaration.denoter {
            None => self.untyped_declared(&declaration.value, &declaration.name),
            Some(denoter) => self.typed_constant(denoter, &declaration.value, &declaration.name),
        }
    }

    /// Declares a constant without a type.
    fn untyped_declared(&mut self, value: &Initializer, name: &Name) -> Result<(), NoMemory>
        ensures { IfOk result (λ _. Declares (constant_by None (initial_of value.now) name.now (here_of self.old)) self.old self.new) }
    {
        let constant = self.value(value)?;
        self.declare(name, constant_meaning(constant))
    }

    fn typed_constant(
        &mut self,
        denoter: &TypeDenoter,
        value: &Initializer,
        name: &Name,
    ) -> Result<(), NoMemory>
        ensures { IfOk result (λ _. Declares (constant_by (Some (denoter_of denoter.now)) (initial_of value.now) name.now (here_of self.old)) self.old self.new) }
    {
        self.stand_ahead(name)?;
        let of = self.denoted(None, false, denoter)?;
        self.end();
        self.typed_declared(of, value, name)
    }

    fn typed_declared(
        &mut self,
        of: Option<TypeId>,
        value: &Initializer,
        name: &Name,
    ) -> Result<(), NoMemory>
        ensures { IfOk result (λ _. Declares (typed_declared of (initial_of value.now) name.now (here_of self.old)) self.old self.new) }
    {
        let Some(of) = of else {
            return self.declare(name, Meaning::Spoiled);
        };
        let id = self.next_variable()?;
        self.row_entered(Role::Constant, of, Some(value), name)?;
        let writable = false;
        self.declare(name, Meaning::Variable { id, writable })
    }

    fn value(&mut self, value: &Initializer) -> Result<Option<Constant>, NoMemory>
        ensures { IfOk result (Leaves (value_means (initial_of value.now) (here_of self.old)) self.old self.new) }
    {
        match value {
            Initializer::Value(e) => self.constant_part(e),
            Initializer::List { position, .. } | Initializer::Record { position, .. } => {
                self.refuse(LanguageRule::NoConstant, position.place);
                Ok(None)
            }
        }
    }
}

/// A name whose declaration is broken is spoiled.
fn type_meaning(of: Option<TypeId>) -> Meaning
    ensures { result ≡ type_meaning of }
{
    match of {
        None => Meaning::Spoiled,
        Some(of) => Meaning::TypeName(of),
    }
}

fn constant_meaning(constant: Option<Constant>) -> Meaning
    ensures { result ≡ constant_meaning constant }
{
    match constant {
        None => Meaning::Spoiled,
        Some(constant) => Meaning::Constant(constant),
    }
}
