//! What the parts of constant expressions mean, once their own parts are constants.
ghost use Rattle.std.specs.Prelude.{◌≡◌, [], Some, None, IfOk, if◌then◌else◌};
ghost use Rattle.std.specs.Option.{option_and_then, option_copied, option_map};
ghost use Rattle.op_judgement.specs.Judgement.{Reports, with_part};
ghost use Rattle.op_tree.specs.Expression.{element_of, expr_of};
ghost use Rattle.op_tree.specs.Lists.{arguments_of};
ghost use Rattle.op_tree.specs.Statement.{designator_of, selectors_of};
ghost use Rattle.op_types.specs.Assignable.{true_of};
ghost use Rattle.op_types.specs.ConstantParts.{boxed, is_folded, joined, literal_means, loose, made, members_of, no_members, nodes, number_behind, only_value, plus, qualified, rule_of, start_of, start_of_element, type_in, type_named, type_of_name, type_of_value, use_of, use_of_function};
ghost use Rattle.op_types.specs.Folding.{Finds, Gives, application_means, bound_means, cast_means, element_means, entered, gathered_means, if_constant, is_constant_name, name_means, numeral, operation_means, prefix_means, range_means, single_means, use_means};
ghost use Rattle.op_types.specs.Names.{lower, meaning_of};

use crate::assign::assignable;
use crate::constant::{Applied, Constant, Folded, Part, Use, Weight};
use crate::operator::{application, operation, prefixed};
use crate::set::{between, combined, common_set, set_over};
use crate::sort::{Sort, kind_of, sort_of};
use crate::value::{applied, before, bound_of, cast, number_of, operated, within};
use crate::{BuiltIn, Meaning, Setting};
use op_base::{NoMemory, Place, Sequence};
use op_core::{Const, FirstRefusal, Function, TypeId};
use op_judgement::{LanguageRule, refuse};
use op_scan::CompactText;
use op_tree::{
    Argument, Designator, Element, Expr, Name, Operator, PrefixOperator, Root, Selector,
};
use std::alloc::Global;

/// A constant, a set taking a word of its own.
pub fn made(value: Const, of: TypeId, weight: Weight) -> Constant
    ensures { result ≡ made value of weight }
{
    let words = match value {
        Const::Set(_) => 1,
        _ => 0,
    };
    let weight = plus(weight, Weight { nodes: 0, words });
    Constant { value, of, weight }
}

/// So many nodes, none of which is a set.
pub fn nodes(count: u32) -> Weight
    ensures { result ≡ nodes count }
{
    Weight {
        nodes: count,
        words: 0,
    }
}

/// What two parts count for.
pub fn plus(a: Weight, b: Weight) -> Weight
    ensures { result ≡ plus a b }
{
    Weight {
        nodes: a.nodes.saturating_add(b.nodes),
        words: a.words.saturating_add(b.words),
    }
}

/// These and one node more.
pub fn joined(a: Weight, b: Weight) -> Weight
    ensures { result ≡ joined a b }
{
    plus(plus(a, b), nodes(1))
}

/// A node round what is inside.
pub fn in_brackets(inside: Option<Constant>) -> Option<Constant>
    ensures { result ≡ option_map boxed inside }
{
    let a = inside?;
    Some(made(a.value, a.of, joined(a.weight, nodes(0))))
}

/// Elements that are no node of their own.
fn loose(members: Vec<u8>, of: TypeId, weight: Weight) -> Constant
    ensures { result ≡ loose members.items of weight }
{
    let value = Const::Set(Sequence::from(members));
    Constant { value, of, weight }
}

pub fn no_members(alloc: Global) -> Constant
    ensures { result ≡ no_members }
{
    loose(Vec::new(alloc), TypeId::EMPTY_SET, nodes(0))
}

fn members_of(value: &Const) -> &[u8]
    ensures { result.now ≡ members_of value.now }
{
    match value {
        Const::Set(members) => members.as_slice(),
        _ => &[],
    }
}

pub fn start_of_element(element: &Element) -> Place
    ensures { result ≡ start_of_element (element_of element.now) }
{
    match element {
        Element::One(e) => start_of(e),
        Element::Range(e, _) => start_of(e),
    }
}

/// The first token of an expression.
pub fn start_of(e: &Expr) -> Place
    ensures { result ≡ start_of (expr_of e.now) }
{
    match e {
        Expr::Chain { first, .. } => start_of(first),
        Expr::Prefix { position, .. }
        | Expr::Number { position, .. }
        | Expr::Nil { position }
        | Expr::Set { position, .. }
        | Expr::Literal { position, .. }
        | Expr::Inherited { position, .. } => position.place,
        Expr::Designator(called) => match &called.root {
            Root::Named(name) => name.position.place,
            Root::String { position } | Root::Bracketed { position, .. } => position.place,
        },
    }
}

pub fn number_behind(operator: PrefixOperator, operand: &Expr) -> Option<(u32, Place)>
    ensures { result ≡ number_behind operator (expr_of operand.now) }
{
    match (operator, operand) {
        (PrefixOperator::Minus, Expr::Number { value, position }) => Some((*value, position.place)),
        _ => None,
    }
}

/// Whether constants have such an operator.
pub fn is_folded(operator: Operator) -> bool
    ensures { result ≡ is_folded operator }
{
    !matches!(operator, Operator::Is | Operator::As_)
}

/// The one argument of a call, where it is a value without a width.
pub fn only_value(arguments: &[Argument]) -> Option<&Expr>
    ensures { option_map (λ e. expr_of e.now) result ≡ only_value (arguments_of arguments.now) }
{
    let (first, others) = arguments.split_first()?;
    match (first, others.split_first()) {
        (Argument::Value(e), None) => Some(e),
        _ => None,
    }
}

/// A constant, where there is such a value; else the rule is broken at the place.
fn entered(
    sink: &mut FirstRefusal,
    rule: (LanguageRule, Place),
    of: TypeId,
    weight: Weight,
    value: Option<Const>,
) -> Option<Constant>
    ensures { Reports (entered rule.0 rule.1 of weight value) sink.old sink.new result }
{
    match value {
        None => refuse(sink, rule.0, rule.1),
        Some(value) => Some(made(value, of, weight)),
    }
}

/// Another copy of a constant. A long text is shared.
pub fn copy_of(alloc: Global, value: &Const) -> Result<Const, NoMemory>
    ensures { IfOk result (λ v. v ≡ value.now) }
{
    match value {
        Const::Ordinal(n) => Ok(Const::Ordinal(*n)),
        Const::Text(text) => Ok(Const::Text(text.share()?)),
        Const::Set(members) => {
            Ok(Const::Set(Sequence::from(Vec::from_slice(alloc, members.as_slice())?)))
        }
        Const::Nil => Ok(Const::Nil),
    }
}

/// The rule that an argument breaks which the function does not take.
fn rule_of(function: Function) -> LanguageRule
    ensures { result ≡ rule_of function }
{
    match function {
        Function::Ord | Function::Succ | Function::Pred => LanguageRule::NotOrdinal,
        _ => LanguageRule::NotAssignable,
    }
}

fn use_of_function(function: Function) -> Option<Use>
    ensures { result ≡ use_of_function function }
{
    match function {
        Function::Low | Function::High => Some(Use::Bound(function)),
        Function::Ord
        | Function::Succ
        | Function::Pred
        | Function::Abs
        | Function::Sqr
        | Function::Odd
        | Function::UpCase
        | Function::Length => Some(Use::Apply(Applied::Function(function))),
        _ => None,
    }
}

fn type_in(place: Place, meaning: Option<&Meaning>) -> Option<(TypeId, Place)>
    ensures { result ≡ type_in place (option_copied meaning.entry) }
{
    match meaning {
        Some(Meaning::TypeName(of)) => Some((*of, place)),
        _ => None,
    }
}

impl<'a> Setting<'a> {
    /// A number, of one node, or of two with a minus before it.
    pub fn numeral(
        self,
        sink: &mut FirstRefusal,
        place: Place,
        count: u32,
        n: i64,
    ) -> Option<Constant>
        ensures { Reports (numeral place count n) sink.old sink.new result }
    {
        entered(
            sink,
            (LanguageRule::NumberTooLarge, place),
            TypeId::INTEGER,
            nodes(count),
            within(n),
        )
    }

    /// A literal, and what is selected of it. A text of one byte is a Char until a string is needed.
    pub fn literal(self, text: &[u8], selectors: &[Selector]) -> Folded
        ensures { IfOk result (λ g. g ≡ literal_means text.now (selectors_of selectors.now)) }
    {
        match (selectors.split_first(), text) {
            (Some(_), _) => Ok(None),
            (None, [byte]) => Ok(Some(Some(made(
                Const::Ordinal(*byte as i32),
                TypeId::CHAR,
                nodes(1),
            )))),
            (None, _) => {
                let value = Const::Text(CompactText::copy_of(self.alloc, text)?);
                Ok(Some(Some(made(value, TypeId::STRING, nodes(1)))))
            }
        }
    }

    pub fn prefix(
        self,
        sink: &mut FirstRefusal,
        place: Place,
        operator: PrefixOperator,
        a: Constant,
    ) -> Option<Constant>
        ensures { Reports (prefix_means self.entry.core.now place operator a) sink.old sink.new result }
    {
        let Some(of) = prefixed(operator, sort_of(self.core, a.of)) else {
            return refuse(sink, LanguageRule::NoOperator, place);
        };
        let value = before(operator, of, number_of(&a.value));
        entered(
            sink,
            (LanguageRule::OutOfRange, place),
            of,
            joined(a.weight, nodes(0)),
            value,
        )
    }

    /// An operator at a place between two parts, in an expression that begins at `start`.
    pub fn operation(
        self,
        sink: &mut FirstRefusal,
        start: Place,
        operator: Operator,
        place: Place,
        a: Option<Constant>,
        b: Option<Constant>,
    ) -> Part
        ensures { IfOk result (Reports (operation_means self.entry.core.now start operator place a b) sink.old sink.new) }
    {
        let (Some(a), Some(b)) = (a, b) else {
            return Ok(None);
        };
        let sorts = (sort_of(self.core, a.of), sort_of(self.core, b.of));
        let sets = common_set(self.core, a.of, b.of);
        let Some(of) = operation(operator, sorts.0, sorts.1, sets) else {
            return Ok(refuse(sink, LanguageRule::NoOperator, place));
        };
        let value = operated(self.alloc, operator, sorts, &a.value, &b.value)?;
        Ok(entered(
            sink,
            (LanguageRule::OutOfRange, start),
            of,
            joined(a.weight, b.weight),
            value,
        ))
    }

    /// An element of a set that begins at a place.
    fn bound_of_set(
        self,
        sink: &mut FirstRefusal,
        at: Place,
        a: Option<Constant>,
    ) -> Option<Constant>
        ensures { Reports (with_part (element_means self.entry.core.now at) a) sink.old sink.new result }
    {
        let a = a?;
        let n = number_of(&a.value);
        match sort_of(self.core, a.of) {
            Sort::Ordinal(_) => {
                if 0 <= n && n <= 31 {
                    Some(a)
                } else {
                    refuse(sink, LanguageRule::NoSetElement, at)
                }
            }
            _ => refuse(sink, LanguageRule::NotOrdinal, at),
        }
    }

    /// One element of a set.
    pub fn single(self, sink: &mut FirstRefusal, at: Place, a: Option<Constant>) -> Part
        ensures { IfOk result (Reports (single_means self.entry.core.now at a) sink.old sink.new) }
    {
        let Some(a) = self.bound_of_set(sink, at, a) else {
            return Ok(None);
        };
        let n = number_of(&a.value);
        Ok(Some(loose(
            between(self.alloc, n, n)?,
            set_over(self.core, a.of),
            a.weight,
        )))
    }

    /// The elements of a set from one to another, each with its place.
    pub fn range(
        self,
        sink: &mut FirstRefusal,
        first: (Place, Option<Constant>),
        last: (Place, Option<Constant>),
    ) -> Part
        ensures { IfOk result (Reports (range_means self.entry.core.now first.0 first.1 last.0 last.1) sink.old sink.new) }
    {
        let a = self.bound_of_set(sink, first.0, first.1);
        let b = self.bound_of_set(sink, last.0, last.1);
        let (Some(a), Some(b)) = (a, b) else {
            return Ok(None);
        };
        if !assignable(self.core, b.of, a.of) {
            return Ok(refuse(sink, LanguageRule::NotAssignable, last.0));
        }
        let of = common_set(
            self.core,
            set_over(self.core, a.of),
            set_over(self.core, b.of),
        );
        let members = between(self.alloc, number_of(&a.value), number_of(&b.value))?;
        Ok(Some(loose(members, of, plus(a.weight, b.weight))))
    }

    /// The elements of a set so far, and more that begin at a place.
    pub fn gather(
        self,
        sink: &mut FirstRefusal,
        at: Place,
        a: Option<Constant>,
        b: Option<Constant>,
    ) -> Part
        ensures { IfOk result (Reports (gathered_means self.entry.core.now at a b) sink.old sink.new) }
    {
        let (Some(a), Some(b)) = (a, b) else {
            return Ok(None);
        };
        if !sort_of(self.core, a.of).is_set_as(sort_of(self.core, b.of)) {
            return Ok(refuse(sink, LanguageRule::NotAssignable, at));
        }
        let of = common_set(self.core, a.of, b.of);
        let members = combined(
            self.alloc,
            Operator::Add,
            members_of(&a.value),
            members_of(&b.value),
        )?;
        Ok(Some(loose(members, of, plus(a.weight, b.weight))))
    }

    /// What a name stands for, where that is a constant.
    pub fn name(self, sink: &mut FirstRefusal, place: Place, meaning: Option<&Meaning>) -> Folded
        ensures found { IfOk result (Finds (is_constant_name (option_copied meaning.entry)) (name_means place (option_copied meaning.entry)) sink.old sink.new) }
        ensures reading { IfOk result (Gives (if_constant (is_constant_name (option_copied meaning.entry)) (name_means place (option_copied meaning.entry))) sink.old sink.new) }
    {
        match meaning {
            None => Ok(Some(refuse(sink, LanguageRule::UnknownName, place))),
            Some(Meaning::Spoiled) => Ok(Some(None)),
            Some(Meaning::Constant(constant)) => {
                let value = copy_of(self.alloc, &constant.value)?;
                Ok(Some(Some(made(value, constant.of, nodes(1)))))
            }
            _ => Ok(None),
        }
    }

    /// What a name behind a unit's stands for, and where; the unit's name where that is not known.
    pub fn qualified(
        self,
        unit: &Name,
        name: &Name,
    ) -> Result<Option<(Option<&'a Meaning>, Place)>, NoMemory>
        ensures { IfOk result (λ q. option_map (λ q. (option_copied q.0, q.1)) q ≡ qualified self.entry.visible.now unit.now name.now) }
    {
        match self.visible.look_up(unit.text.as_slice())? {
            None => Ok(Some((None, unit.position.place))),
            Some(Meaning::Unit(_)) => {
                let mut joined = Vec::from_slice(self.alloc, unit.text.as_slice())?;
                joined.push(b'.')?;
                joined.extend_from_slice(name.text.as_slice())?;
                let meaning = self.visible.look_up(joined.as_slice())?;
                Ok(Some((meaning, name.position.place)))
            }
            _ => Ok(None),
        }
    }

    /// A name behind a unit's.
    pub fn member(self, sink: &mut FirstRefusal, unit: &Name, name: &Name) -> Folded
        ensures { IfOk result (Finds (true_of (λ q. is_constant_name q.0) (qualified self.entry.visible.now unit.now name.now)) (with_part (λ q. name_means q.1 q.0) (qualified self.entry.visible.now unit.now name.now)) sink.old sink.new) }
    {
        match self.qualified(unit, name)? {
            None => Ok(None),
            Some((meaning, place)) => self.name(sink, place, meaning),
        }
    }

    /// What a call of a name does.
    pub fn use_of(self, meaning: Option<&Meaning>) -> Option<Use>
        ensures { result ≡ use_of self.entry.core.now (option_copied meaning.entry) }
    {
        match meaning {
            None => Some(Use::Unknown),
            Some(Meaning::Spoiled) => Some(Use::Silent),
            Some(Meaning::TypeName(of)) => match kind_of(self.core, *of) {
                None => None,
                Some(_) => Some(Use::Apply(Applied::Cast(*of))),
            },
            Some(Meaning::BuiltIn(BuiltIn::Chr)) => {
                Some(Use::Apply(Applied::Cast(TypeId::CHAR)))
            }
            Some(Meaning::BuiltIn(BuiltIn::Function(function))) => use_of_function(*function),
            _ => None,
        }
    }

    /// The type that the one argument of a call names, and where.
    pub fn type_named(self, arguments: &[Argument]) -> Result<Option<(TypeId, Place)>, NoMemory>
        ensures { IfOk result (λ t. t ≡ type_named self.entry.visible.now (arguments_of arguments.now)) }
    {
        match only_value(arguments) {
            Some(e) => self.type_of_value(e),
            None => Ok(None),
        }
    }

    fn type_of_value(self, e: &Expr) -> Result<Option<(TypeId, Place)>, NoMemory>
        ensures { IfOk result (λ t. t ≡ type_of_value self.entry.visible.now (expr_of e.now)) }
    {
        match e {
            Expr::Designator(called) => self.type_of_name(called),
            _ => Ok(None),
        }
    }

    fn type_of_unit(self, unit: &Name, name: &Name) -> Result<Option<(TypeId, Place)>, NoMemory>
        ensures { IfOk result (λ t. t ≡ option_and_then (λ q. type_in q.1 q.0) (qualified self.entry.visible.now unit.now name.now)) }
    {
        match self.qualified(unit, name)? {
            None => Ok(None),
            Some((meaning, place)) => Ok(type_in(place, meaning)),
        }
    }

    fn type_of_name(self, called: &Designator) -> Result<Option<(TypeId, Place)>, NoMemory>
        ensures { IfOk result (λ t. t ≡ type_of_name self.entry.visible.now (designator_of called.now)) }
    {
        match (&called.root, called.selectors.split_first()) {
            (Root::Named(name), None) => {
                let meaning = self.visible.look_up(name.text.as_slice())?;
                Ok(type_in(name.position.place, meaning))
            }
            (Root::Named(name), Some((Selector::Member(member), others))) =>
                match others.split_first() {
                    None => self.type_of_unit(name, member),
                    Some(_) => Ok(None),
                },
            _ => Ok(None),
        }
    }

    /// Low or High of a type that is named at a place.
    pub fn bound(
        self,
        sink: &mut FirstRefusal,
        function: Function,
        of: TypeId,
        at: Place,
    ) -> Option<Constant>
        ensures { Reports (bound_means self.entry.core.now function (of, at)) sink.old sink.new result }
    {
        match bound_of(self.core, function, of) {
            None => refuse(sink, LanguageRule::NotOrdinal, at),
            Some((value, of)) => Some(made(value, of, nodes(2))),
        }
    }

    /// A cast or a function at a place, of an argument at another.
    pub fn used(
        self,
        sink: &mut FirstRefusal,
        what: Applied,
        place: Place,
        at: Place,
        a: Constant,
    ) -> Part
        ensures { IfOk result (Reports (use_means self.entry.core.now what place at a) sink.old sink.new) }
    {
        match what {
            Applied::Cast(of) => Ok(self.cast(sink, place, of, a)),
            Applied::Function(function) => self.apply(sink, function, place, at, a),
        }
    }

    fn cast(
        self,
        sink: &mut FirstRefusal,
        place: Place,
        of: TypeId,
        a: Constant,
    ) -> Option<Constant>
        ensures { Reports (cast_means self.entry.core.now place of a) sink.old sink.new result }
    {
        match sort_of(self.core, a.of) {
            Sort::Ordinal(_) => {
                let value = cast(self.core, of, number_of(&a.value));
                entered(
                    sink,
                    (LanguageRule::OutOfRange, place),
                    of,
                    joined(a.weight, nodes(0)),
                    value,
                )
            }
            _ => refuse(sink, LanguageRule::NoCast, place),
        }
    }

    fn apply(
        self,
        sink: &mut FirstRefusal,
        function: Function,
        place: Place,
        at: Place,
        a: Constant,
    ) -> Part
        ensures { IfOk result (Reports (application_means self.entry.core.now place function at a) sink.old sink.new) }
    {
        let Some(of) = application(function, sort_of(self.core, a.of), a.of) else {
            return Ok(refuse(sink, rule_of(function), at));
        };
        let value = applied(self.alloc, self.core, function, a.of, &a.value)?;
        Ok(entered(
            sink,
            (LanguageRule::OutOfRange, place),
            of,
            joined(a.weight, nodes(0)),
            value,
        ))
    }
}
