//! Constant expressions (Free Pascal Reference Guide, "Ordinary constants").
ghost use Rattle.std.specs.Prelude.{◌≡◌, Some, IfErr, IfOk};
ghost use Rattle.std.specs.Option.{option_copied, option_map};
ghost use Rattle.op_judgement.specs.Judgement.{RefusalHasText, fine, with_part};
ghost use Rattle.op_tree.specs.Expression.{argument_of, arguments, call, designator, element_of, expr_of, member, named, no_arguments, no_selectors, prefixed, selector_of, selectors};
ghost use Rattle.op_tree.specs.Lists.{arguments_of, operations_of};
ghost use Rattle.op_tree.specs.Statement.{designator_of, elements_of};
ghost use Rattle.op_types.specs.Answered.{FoldIs, Folds};
ghost use Rattle.op_types.specs.ConstantParts.{no_members, type_named, use_of};
ghost use Rattle.op_types.specs.Folding.{Finds, Gives, are_constant_elements, are_constant_operands, argument_means, call_means, constant, designated_constant, element, if_constant, in_brackets, is_constant, is_constant_argument, is_constant_call, is_constant_designator, is_constant_element, members, operations};

use crate::evaluation::{
    in_brackets, is_folded, made, no_members, nodes, number_behind, start_of, start_of_element,
};
use crate::{Meaning, Setting, Visible};
use op_base::{NoMemory, Place};
use op_core::{CheckError, Const, Core, FirstRefusal, Function, TypeId};
use op_judgement::{LanguageRule, refuse};
use op_tree::{
    Argument, Designator, Element, Expr, Name, Operation, Position, PrefixOperator, Root, Selector,
};
use std::alloc::Global;

/// The value of a constant expression, with its type.
#[derive(Drop)]
pub struct Constant {
    pub value: Const,
    pub of: TypeId,
    pub weight: Weight,
}

/// What an expression counts for in the charge of its routine: its nodes in the text, and a word for each of them that is a set.
#[derive(Clone, Copy)]
pub struct Weight {
    pub nodes: u32,
    pub words: u32,
}

/// A constant; None where a rule is broken in it.
pub type Part = Result<Option<Constant>, NoMemory>;

/// The same of an expression; None where it is no constant expression.
pub type Folded = Result<Option<Option<Constant>>, NoMemory>;

/// What a call of a name with one argument does.
#[derive(Clone, Copy)]
pub enum Use {
    /// The name is unknown.
    Unknown,
    /// Its declaration breaks a rule.
    Silent,
    /// Low or High of a type.
    Bound(Function),
    Apply(Applied),
}

/// What is done with the one argument of a call.
#[derive(Clone, Copy)]
pub enum Applied {
    Cast(TypeId),
    Function(Function),
}

/// What a constant expression is, None where it is no constant expression; or the first rule that it breaks.
pub fn fold(
    alloc: Global,
    core: &Core,
    visible: &Visible,
    e: &Expr,
) -> Result<Option<Const>, CheckError>
    ensures folded { FoldIs (is_constant core.now visible.now (expr_of e.now)) (constant core.now visible.now (expr_of e.now)) result }
    ensures law { Folds core.now visible.now (expr_of e.now) result }
    ensures told { IfErr result RefusalHasText }
{
    let mut sink = FirstRefusal::new();
    let setting = Setting {
        alloc,
        core,
        visible,
    };
    match setting.expression(&mut sink, e)? {
        None => Ok(None),
        Some(typed) => sink.or_typed(value_of(typed)),
    }
}

fn value_of(typed: Option<Constant>) -> Option<Const>
    ensures { result ≡ option_map (λ c. c.value) typed }
{
    match typed {
        None => None,
        Some(constant) => Some(constant.value),
    }
}

impl<'a> Setting<'a> {
    /// What a constant expression means; its faults go into the sink.
    pub fn constant(self, sink: &mut FirstRefusal, e: &Expr) -> Folded
        ensures { IfOk result (Gives (if_constant (is_constant self.entry.core.now self.entry.visible.now (expr_of e.now)) (constant self.entry.core.now self.entry.visible.now (expr_of e.now))) sink.old sink.new) }
    {
        let folded = self.expression(sink, e)?;
        Ok(folded)
    }

    #[cycle(folding)]
    fn expression(self, sink: &mut FirstRefusal, e: &Expr) -> Folded
        ensures { IfOk result (Finds (is_constant self.entry.core.now self.entry.visible.now (expr_of e.now)) (constant self.entry.core.now self.entry.visible.now (expr_of e.now)) sink.old sink.new) }
    {
        match e {
            Expr::Chain { first, rest } => match self.expression(sink, first)? {
                None => Ok(None),
                Some(a) => self.operations(sink, start_of(first), a, rest),
            },
            Expr::Prefix {
                operator,
                position,
                operand,
            } => { self.signed(sink, *operator, *position, operand) }
            Expr::Number { value, position } => {
                Ok(Some(self.numeral(sink, position.place, 1, *value as i64)))
            }
            Expr::Nil { .. } => Ok(Some(Some(made(Const::Nil, TypeId::NIL, nodes(1))))),
            Expr::Literal {
                text,
                selectors,
                ..
            } => self.literal(text.as_slice(), selectors),
            Expr::Designator(called) => self.designated(sink, called),
            Expr::Set { elements, .. } => self.set(sink, elements),
            Expr::Inherited { .. } => Ok(None),
        }
    }

    /// Operators and operands behind a first operand, in an expression that begins at `start`.
    #[cycle(folding)]
    fn operations(
        self,
        sink: &mut FirstRefusal,
        start: Place,
        first: Option<Constant>,
        rest: &[Operation],
    ) -> Folded
        ensures { IfOk result (Finds (are_constant_operands self.entry.core.now self.entry.visible.now (operations_of rest.now)) (operations self.entry.core.now self.entry.visible.now start (with_part fine first) (operations_of rest.now)) sink.old sink.new) }
    {
        let mut a = first;
        for operation in rest {
            let Some(b) = self.expression(sink, &operation.operand)? else {
                return Ok(None);
            };
            if !is_folded(operation.operator) {
                return Ok(None);
            }
            let place = operation.position.place;
            a = self.operation(sink, start, operation.operator, place, a, b)?;
        }
        Ok(Some(a))
    }

    #[cycle(folding)]
    fn set(self, sink: &mut FirstRefusal, elements: &[Element]) -> Folded
        ensures { IfOk result (Finds (are_constant_elements self.entry.core.now self.entry.visible.now (elements_of elements.now)) (in_brackets (members self.entry.core.now self.entry.visible.now (fine no_members) (elements_of elements.now))) sink.old sink.new) }
    {
        match self.members(sink, elements)? {
            None => Ok(None),
            Some(a) => Ok(Some(in_brackets(a))),
        }
    }

    /// The elements of a set.
    #[cycle(folding)]
    fn members(self, sink: &mut FirstRefusal, elements: &[Element]) -> Folded
        ensures { IfOk result (Finds (are_constant_elements self.entry.core.now self.entry.visible.now (elements_of elements.now)) (members self.entry.core.now self.entry.visible.now (fine no_members) (elements_of elements.now)) sink.old sink.new) }
    {
        let mut set = Some(no_members(self.alloc));
        for element in elements {
            let Some(more) = self.element(sink, element)? else {
                return Ok(None);
            };
            set = self.gather(sink, start_of_element(element), set, more)?;
        }
        Ok(Some(set))
    }

    #[cycle(folding)]
    fn element(self, sink: &mut FirstRefusal, part: &Element) -> Folded
        ensures { IfOk result (Finds (is_constant_element self.entry.core.now self.entry.visible.now (element_of part.now)) (element self.entry.core.now self.entry.visible.now (element_of part.now)) sink.old sink.new) }
    {
        match part {
            Element::One(e) => match self.expression(sink, e)? {
                None => Ok(None),
                Some(a) => Ok(Some(self.single(sink, start_of(e), a)?)),
            },
            Element::Range(e, f) => {
                let Some(a) = self.expression(sink, e)? else {
                    return Ok(None);
                };
                let Some(b) = self.expression(sink, f)? else {
                    return Ok(None);
                };
                Ok(Some(self.range(sink, (start_of(e), a), (start_of(f), b))?))
            }
        }
    }

    /// A sign or `not` before an operand.
    #[cycle(folding)]
    fn signed(
        self,
        sink: &mut FirstRefusal,
        operator: PrefixOperator,
        position: Position,
        operand: &Expr,
    ) -> Folded
        ensures { IfOk result (Finds (is_constant self.entry.core.now self.entry.visible.now (prefixed operator position (expr_of operand.now))) (constant self.entry.core.now self.entry.visible.now (prefixed operator position (expr_of operand.now))) sink.old sink.new) }
    {
        if let Some((n, at)) = number_behind(operator, operand) {
            return Ok(Some(self.numeral(sink, at, 2, -(n as i64))));
        }
        match self.expression(sink, operand)? {
            None => Ok(None),
            Some(None) => Ok(Some(None)),
            Some(Some(a)) => Ok(Some(self.prefix(sink, position.place, operator, a))),
        }
    }

    #[cycle(folding)]
    fn designated(self, sink: &mut FirstRefusal, called: &Designator) -> Folded
        ensures { IfOk result (Finds (is_constant_designator self.entry.core.now self.entry.visible.now (designator_of called.now)) (designated_constant self.entry.core.now self.entry.visible.now (designator_of called.now)) sink.old sink.new) }
    {
        match (&called.root, called.selectors.split_first()) {
            (Root::Named(name), None) => {
                let meaning = self.visible.look_up(name.text.as_slice())?;
                self.name(sink, name.position.place, meaning)
            }
            (Root::Named(name), Some((first, others))) => match others.split_first() {
                None => self.selected(sink, name, first),
                Some((second, more)) => match (first, more.split_first()) {
                    (Selector::Member(member), None) => {
                        self.selected_in_unit(sink, name, member, second)
                    }
                    _ => Ok(None),
                },
            },
            (Root::Bracketed { inside, .. }, None) => self.bracketed(sink, inside),
            _ => Ok(None),
        }
    }

    #[cycle(folding)]
    fn bracketed(self, sink: &mut FirstRefusal, inside: &Expr) -> Folded
        ensures { IfOk result (Finds (is_constant self.entry.core.now self.entry.visible.now (expr_of inside.now)) (in_brackets (constant self.entry.core.now self.entry.visible.now (expr_of inside.now))) sink.old sink.new) }
    {
        match self.expression(sink, inside)? {
            None => Ok(None),
            Some(a) => Ok(Some(in_brackets(a))),
        }
    }

    /// A name, and the one thing that is selected of it.
    #[cycle(folding)]
    fn selected(self, sink: &mut FirstRefusal, name: &Name, first: &Selector) -> Folded
        ensures { IfOk result (Finds (is_constant_designator self.entry.core.now self.entry.visible.now (designator (named name.now) (selectors (selector_of first.now) no_selectors))) (designated_constant self.entry.core.now self.entry.visible.now (designator (named name.now) (selectors (selector_of first.now) no_selectors))) sink.old sink.new) }
    {
        match first {
            Selector::Member(member) => self.member(sink, name, member),
            Selector::Call { arguments } => {
                let meaning = self.visible.look_up(name.text.as_slice())?;
                self.call(sink, name.position.place, meaning, arguments)
            }
            Selector::Index { .. } => Ok(None),
        }
    }

    /// A name behind a unit's, and the one thing that is selected of it.
    #[cycle(folding)]
    fn selected_in_unit(
        self,
        sink: &mut FirstRefusal,
        unit: &Name,
        name: &Name,
        second: &Selector,
    ) -> Folded
        ensures { IfOk result (Finds (is_constant_designator self.entry.core.now self.entry.visible.now (designator (named unit.now) (selectors (member name.now) (selectors (selector_of second.now) no_selectors)))) (designated_constant self.entry.core.now self.entry.visible.now (designator (named unit.now) (selectors (member name.now) (selectors (selector_of second.now) no_selectors)))) sink.old sink.new) }
    {
        match second {
            Selector::Call { arguments } => self.call_in_unit(sink, unit, name, arguments),
            _ => Ok(None),
        }
    }

    /// A name behind a unit's, with one list of arguments.
    #[cycle(folding)]
    fn call_in_unit(
        self,
        sink: &mut FirstRefusal,
        unit: &Name,
        name: &Name,
        list: &[Argument],
    ) -> Folded
        ensures { IfOk result (Finds (is_constant_designator self.entry.core.now self.entry.visible.now (designator (named unit.now) (selectors (member name.now) (selectors (call (arguments_of list.now)) no_selectors)))) (designated_constant self.entry.core.now self.entry.visible.now (designator (named unit.now) (selectors (member name.now) (selectors (call (arguments_of list.now)) no_selectors)))) sink.old sink.new) }
    {
        match self.qualified(unit, name)? {
            None => Ok(None),
            Some((meaning, place)) => self.call(sink, place, meaning, list),
        }
    }

    /// What stands for this, at a place, with one list of arguments.
    #[cycle(folding)]
    fn call(
        self,
        sink: &mut FirstRefusal,
        place: Place,
        meaning: Option<&Meaning>,
        list: &[Argument],
    ) -> Folded
        ensures { IfOk result (Finds (is_constant_call (type_named self.entry.visible.now (arguments_of list.now)) (is_constant_argument self.entry.core.now self.entry.visible.now (arguments_of list.now)) (use_of self.entry.core.now (option_copied meaning.entry))) (call_means self.entry.core.now place (type_named self.entry.visible.now (arguments_of list.now)) (argument_means self.entry.core.now self.entry.visible.now place (arguments_of list.now)) (use_of self.entry.core.now (option_copied meaning.entry))) sink.old sink.new) }
    {
        match self.use_of(meaning) {
            None => Ok(None),
            Some(Use::Unknown) => Ok(Some(refuse(sink, LanguageRule::UnknownName, place))),
            Some(Use::Silent) => Ok(Some(None)),
            Some(Use::Bound(function)) => match self.type_named(list)? {
                None => Ok(None),
                Some((of, at)) => Ok(Some(self.bound(sink, function, of, at))),
            },
            Some(Use::Apply(what)) => match list.split_first() {
                None => Ok(Some(refuse(sink, LanguageRule::WrongArguments, place))),
                Some((first, others)) => match others.split_first() {
                    None => self.argument(sink, what, place, first),
                    Some(_) => Ok(Some(refuse(sink, LanguageRule::WrongArguments, place))),
                },
            },
        }
    }

    /// A cast or a function at a place, of the one argument.
    #[cycle(folding)]
    fn argument(
        self,
        sink: &mut FirstRefusal,
        what: Applied,
        place: Place,
        first: &Argument,
    ) -> Folded
        ensures { IfOk result (Finds (is_constant_argument self.entry.core.now self.entry.visible.now (arguments (argument_of first.now) no_arguments)) (argument_means self.entry.core.now self.entry.visible.now place (arguments (argument_of first.now) no_arguments) what) sink.old sink.new) }
    {
        match first {
            Argument::Value(e) => match self.expression(sink, e)? {
                None => Ok(None),
                Some(None) => Ok(Some(None)),
                Some(Some(a)) => Ok(Some(self.used(sink, what, place, start_of(e), a)?)),
            },
            _ => Ok(Some(refuse(sink, LanguageRule::WrongArguments, place))),
        }
    }
}
