//! Lists of parts that hold no expression. A contract sees each as a list.
ghost use Rattle.std.specs.Prelude.{◌≡◌};

use crate::{Directive, Name, Parameter};
use std::marker::Model;

/// Names with commas between them.
#[derive(Drop)]
pub struct Names {
    names: Vec<Name>,
}

impl Model for Names {
    ghost use Rattle.std.specs.Prelude.{List};
    ghost use Rattle.op_tree.specs.declared.position.Name.{Name};

    ghost Value = { List Name };

    ghost view = { λ list. list.names.items };
}

impl Names {
    pub fn as_slice(&self) -> &[Name]
        ensures { result.now ≡ self.now }
    {
        self.names.as_slice()
    }
}

impl From<Vec<Name>> for Names {
    ghost from_gives = { λ names list. list ≡ names.items };

    fn from(names: Vec<Name>) -> Names {
        Names { names }
    }
}

/// The words behind the heading of a routine.
#[derive(Drop)]
pub struct Directives {
    directives: Vec<Directive>,
}

impl Model for Directives {
    ghost use Rattle.std.specs.Prelude.{List};
    ghost use Rattle.op_tree.specs.declared.heading.Directive.{Directive};

    ghost Value = { List Directive };

    ghost view = { λ list. list.directives.items };
}

impl Directives {
    pub fn as_slice(&self) -> &[Directive]
        ensures { result.now ≡ self.now }
    {
        self.directives.as_slice()
    }
}

impl From<Vec<Directive>> for Directives {
    ghost from_gives = { λ directives list. list ≡ directives.items };

    fn from(directives: Vec<Directive>) -> Directives {
        Directives { directives }
    }
}

/// The groups of parameters of a routine.
#[derive(Drop)]
pub struct Parameters {
    parameters: Vec<Parameter>,
}

impl Model for Parameters {
    ghost use Rattle.std.specs.Prelude.{List};
    ghost use Rattle.op_tree.specs.declared.heading.Parameter.{Parameter};

    ghost Value = { List Parameter };

    ghost view = { λ list. list.parameters.items };
}

impl Parameters {
    pub fn as_slice(&self) -> &[Parameter]
        ensures { result.now ≡ self.now }
    {
        self.parameters.as_slice()
    }
}

impl From<Vec<Parameter>> for Parameters {
    ghost from_gives = { λ parameters list. list ≡ parameters.items };

    fn from(parameters: Vec<Parameter>) -> Parameters {
        Parameters { parameters }
    }
}
