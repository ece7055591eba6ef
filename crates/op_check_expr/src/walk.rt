//! What expressions mean.
//!
//! One walk answers both constants and what is computed: a part is a constant where all its parts are. Every part is checked,
//! whatever the others break.
//!
//! A part within others is to take little of the stack. So what a part means is put in a place of the caller, `out` or that of the part in
//! front, and not answered; and a function that has such a place hands it on with the answer, since to drop it takes of the stack too.
ghost use Rattle.std.specs.Prelude.{◌≡◌, None, IfOk};
ghost use Rattle.std.specs.Option.{option_copied, option_map};
ghost use Rattle.op_core.specs.Expression as tree;
ghost use Rattle.op_tree.specs.Expression.{argument_of, arguments, call, designated, element_of, expr_of, index, literal, no_arguments, prefixed, root_of, selector_of};
ghost use Rattle.op_tree.specs.Lists.{arguments_of, expressions_of, operations_of};
ghost use Rattle.op_tree.specs.Statement.{designator_of, elements_of, selectors_of};
ghost use Rattle.op_judgement.specs.Judgement.{Reports, followed, refused, with_part};
ghost use Rattle.op_judgement.specs.declared.rules.LanguageRule.TheVariants.{NotInProfile};
ghost use Rattle.op_check_expr.specs.Calling.{given_of};
ghost use Rattle.op_check_expr.specs.Constructors.{member_of, members_of};
ghost use Rattle.op_check_expr.specs.Expressions.{argument, called, designator_of as designator_means, elements_at, formatted, given as given_means, given_to, member_in, members as members_mean, operations, range_in, root_of as root_means, select, selected, set_in, settled, sole, text_denoted as text_means, unused, value_in};
ghost use Rattle.op_check_expr.specs.Naming.{denoted_of};
ghost use Rattle.op_check_expr.specs.Scopes.{here_of};
ghost use Rattle.op_check_expr.specs.Values.{value_of};

use crate::apply::used;
use crate::call::{Given, Plan, add_given, first_of, given_first, type_wanted};
use crate::denoted::Denoted;
use crate::designator::{bracketed, position_of, position_of_denoted, still_at, text_denoted};
use crate::operate::{Done, operation_of, prefix_of};
use crate::scope::Checker;
use crate::set::{Member, Members, add_member, alone, ranged, set_of};
use crate::value::Value;
use op_base::Place;
use op_core::{CoreArgument, FirstRefusal, Parameter, TypeId};
use op_judgement::{Feature, LanguageRule, refuse};
use op_tree::{
    Argument, Designator, Element, Expr, Operation, Position, PrefixOperator, Root, Selector,
};
use op_types::{Applied, number_behind};

impl<'a> Checker<'a> {
    /// Puts there what an expression means. `wanted` is the type that its use fixes: a set constructor takes its type from that.
    #[cycle(walk)]
    pub fn value_in(
        &self,
        sink: &mut FirstRefusal,
        wanted: Option<TypeId>,
        e: &Expr,
        out: &mut Option<Value>,
    ) -> Done
        ensures { IfOk result (λ _. Reports (value_in (here_of self.now.scope) wanted (expr_of e.now)) sink.old sink.new (option_map value_of out.new)) }
    {
        match e {
            Expr::Chain { first, rest } => {
                self.value_in(sink, None, first, out)?;
                self.operations(sink, position_of(first).place, rest, out)
            }
            Expr::Prefix {
                operator,
                position,
                operand,
            } => { self.prefixed(sink, *operator, *position, operand, out) }
            Expr::Number { value, position } => {
                self.number(sink, position.place, 1, *value as i64, out);
                Ok(())
            }
            Expr::Nil { position } => {
                left_out(sink, Feature::DynamicArrays, position.place, out);
                Ok(())
            }
            Expr::Set { elements, .. } => self.set(sink, wanted, elements, out),
            Expr::Literal {
                text,
                position,
                selectors,
            } => { self.literal(sink, text.as_slice(), *position, selectors, out) }
            Expr::Designator(called) => self.designated(sink, called, out),
            Expr::Inherited { position, .. } => {
                left_out(sink, Feature::Classes, position.place, out);
                Ok(())
            }
        }
    }

    /// A designator as a value.
    #[cycle(walk)]
    #[inline(never)]
    fn designated(
        &self,
        sink: &mut FirstRefusal,
        called: &Designator,
        out: &mut Option<Value>,
    ) -> Done
        ensures { IfOk result (λ _. Reports (value_in (here_of self.now.scope) None (designated (designator_of called.now))) sink.old sink.new (option_map value_of out.new)) }
    {
        let mut denoted = None;
        let done = self.designator(sink, called, &mut denoted);
        self.as_value(sink, done, denoted, out)
    }

    /// A literal, and what is selected of it.
    #[cycle(walk)]
    #[inline(never)]
    fn literal(
        &self,
        sink: &mut FirstRefusal,
        text: &[u8],
        position: Position,
        selectors: &[Selector],
        out: &mut Option<Value>,
    ) -> Done
        ensures { IfOk result (λ _. Reports (value_in (here_of self.now.scope) None (literal text.now position (selectors_of selectors.now))) sink.old sink.new (option_map value_of out.new)) }
    {
        match selectors.split_first() {
            None => self.text_alone(text, out),
            Some(_) => {
                let mut denoted = None;
                let done = self.text_selected(sink, text, position, selectors, &mut denoted);
                self.as_value(sink, done, denoted, out)
            }
        }
    }

    /// Puts there what is selected of a text.
    #[cycle(walk)]
    fn text_selected(
        &self,
        sink: &mut FirstRefusal,
        text: &[u8],
        position: Position,
        selectors: &[Selector],
        out: &mut Option<Denoted>,
    ) -> Done
        ensures { IfOk result (λ _. Reports (selected (here_of self.now.scope) (Some (text_means position text.now)) (selectors_of selectors.now)) sink.old sink.new (option_map denoted_of out.new)) }
    {
        text_denoted(self.alloc, position, text, out)?;
        self.selected(sink, selectors, out)
    }

    /// Puts in the place of a first operand what operators and operands behind it make of it, in an expression that begins at `start`.
    #[cycle(walk)]
    #[inline(never)]
    fn operations(
        &self,
        sink: &mut FirstRefusal,
        start: Place,
        rest: &[Operation],
        a: &mut Option<Value>,
    ) -> Done
        ensures { IfOk result (λ _. Reports (operations (here_of self.now.scope) start (option_map value_of a.old) (operations_of rest.now)) sink.old sink.new (option_map value_of a.new)) }
    {
        for operation in rest {
            let mut b = None;
            let done = self.value_in(sink, None, &operation.operand, &mut b);
            let (operator, position) = (operation.operator, operation.position);
            operation_of(self.setting(), sink, start, operator, position, a, done, b)?;
        }
        Ok(())
    }

    /// A sign or `not` before an operand.
    #[cycle(walk)]
    #[inline(never)]
    fn prefixed(
        &self,
        sink: &mut FirstRefusal,
        operator: PrefixOperator,
        position: Position,
        operand: &Expr,
        out: &mut Option<Value>,
    ) -> Done
        ensures { IfOk result (λ _. Reports (value_in (here_of self.now.scope) None (prefixed operator position (expr_of operand.now))) sink.old sink.new (option_map value_of out.new)) }
    {
        if let Some((n, at)) = number_behind(operator, operand) {
            self.number(sink, at, 2, -(n as i64), out);
            return Ok(());
        }
        self.value_in(sink, None, operand, out)?;
        prefix_of(self.setting(), sink, operator, position, out)
    }

    #[cycle(walk)]
    #[inline(never)]
    fn set(
        &self,
        sink: &mut FirstRefusal,
        wanted: Option<TypeId>,
        elements: &[Element],
        out: &mut Option<Value>,
    ) -> Done
        ensures { IfOk result (λ _. Reports (set_in (here_of self.now.scope) wanted (elements_of elements.now)) sink.old sink.new (option_map value_of out.new)) }
    {
        let mut members = Some(Vec::new(self.alloc));
        let done = self.members_in(sink, elements, &mut members);
        set_of(self.setting(), sink, wanted, done, members, out)
    }

    /// Puts elements behind those so far.
    #[cycle(walk)]
    #[inline(never)]
    fn members_in(
        &self,
        sink: &mut FirstRefusal,
        elements: &[Element],
        members: &mut Members,
    ) -> Done
        ensures { IfOk result (λ _. Reports (members_mean (here_of self.now.scope) (option_map members_of members.old) (elements_of elements.now)) sink.old sink.new (option_map members_of members.new)) }
    {
        for element in elements {
            let mut member = None;
            let done = self.member_in(sink, element, &mut member);
            add_member(members, done, member)?;
        }
        Ok(())
    }

    #[cycle(walk)]
    #[inline(never)]
    fn member_in(
        &self,
        sink: &mut FirstRefusal,
        element: &Element,
        out: &mut Option<Member>,
    ) -> Done
        ensures { IfOk result (λ _. Reports (member_in (here_of self.now.scope) (element_of element.now)) sink.old sink.new (option_map member_of out.new)) }
    {
        match element {
            Element::One(e) => {
                let mut v = None;
                let done = self.value_in(sink, None, e, &mut v);
                alone(position_of(e).place, done, v, out)
            }
            Element::Range(_, _) => self.range_in(sink, element, out),
        }
    }

    /// The elements from one to another; none of one alone.
    #[cycle(walk)]
    #[inline(never)]
    fn range_in(&self, sink: &mut FirstRefusal, element: &Element, out: &mut Option<Member>) -> Done
        ensures { IfOk result (λ _. Reports (range_in (here_of self.now.scope) (element_of element.now)) sink.old sink.new (option_map member_of out.new)) }
    {
        match element {
            Element::One(_) => {
                clear(out);
                Ok(())
            }
            Element::Range(e, f) => {
                let (mut a, mut b) = (None, None);
                let first = self.value_in(sink, None, e, &mut a);
                let last = self.value_in(sink, None, f, &mut b);
                let places = (position_of(e).place, position_of(f).place);
                ranged(places, (first, last), a, b, out)
            }
        }
    }

    /// Puts there what a designator stands for.
    #[cycle(walk)]
    pub fn designator(
        &self,
        sink: &mut FirstRefusal,
        called: &Designator,
        out: &mut Option<Denoted>,
    ) -> Done
        ensures { IfOk result (λ _. Reports (designator_means (here_of self.now.scope) (designator_of called.now)) sink.old sink.new (option_map denoted_of out.new)) }
    {
        self.root(sink, &called.root, out)?;
        self.selected(sink, &called.selectors, out)
    }

    #[cycle(walk)]
    #[inline(never)]
    pub fn root(&self, sink: &mut FirstRefusal, root: &Root, out: &mut Option<Denoted>) -> Done
        ensures { IfOk result (λ _. Reports (root_means (here_of self.now.scope) (root_of root.now)) sink.old sink.new (option_map denoted_of out.new)) }
    {
        match root {
            Root::Named(name) => {
                let text = name.text.as_slice();
                self.name_denoted(sink, text, text, name.position, out)
            }
            Root::String { position } => {
                left_out(sink, Feature::Strings, position.place, out);
                Ok(())
            }
            Root::Bracketed { position, inside } => {
                let mut v = None;
                let done = self.value_in(sink, None, inside, &mut v);
                bracketed(*position, done, v, out)
            }
        }
    }

    /// Puts in the place of what stands in front what is selected of it, from the left.
    #[cycle(walk)]
    #[inline(never)]
    pub fn selected(
        &self,
        sink: &mut FirstRefusal,
        selectors: &[Selector],
        denoted: &mut Option<Denoted>,
    ) -> Done
        ensures { IfOk result (λ _. Reports (selected (here_of self.now.scope) (option_map denoted_of denoted.old) (selectors_of selectors.now)) sink.old sink.new (option_map denoted_of denoted.new)) }
    {
        for selector in selectors {
            self.select(sink, selector, denoted)?;
        }
        Ok(())
    }

    #[cycle(walk)]
    fn select(
        &self,
        sink: &mut FirstRefusal,
        selector: &Selector,
        denoted: &mut Option<Denoted>,
    ) -> Done
        ensures { IfOk result (λ _. Reports (select (here_of self.now.scope) (option_map denoted_of denoted.old) (selector_of selector.now)) sink.old sink.new (option_map denoted_of denoted.new)) }
    {
        match selector {
            Selector::Member(name) => self.member_of(sink, name, denoted),
            Selector::Index { position, indices } => {
                self.element_of(sink, *position, indices, denoted)
            }
            Selector::Call { arguments } => self.call(sink, arguments, denoted),
        }
    }

    /// An element of what stands in front, behind a bracket at a position.
    #[cycle(walk)]
    #[inline(never)]
    fn element_of(
        &self,
        sink: &mut FirstRefusal,
        position: Position,
        indices: &[Expr],
        denoted: &mut Option<Denoted>,
    ) -> Done
        ensures { IfOk result (λ _. Reports (select (here_of self.now.scope) (option_map denoted_of denoted.old) (index position (expressions_of indices.now))) sink.old sink.new (option_map denoted_of denoted.new)) }
    {
        let at = position_of_denoted(denoted);
        let mut a = None;
        let done = self.elements_behind(sink, position.place, indices, denoted, &mut a);
        still_at(at, done, a, denoted)
    }

    /// Puts there an element of what stands in front, index by index, behind a bracket at a place.
    #[cycle(walk)]
    fn elements_behind(
        &self,
        sink: &mut FirstRefusal,
        bracket: Place,
        indices: &[Expr],
        denoted: &mut Option<Denoted>,
        out: &mut Option<Value>,
    ) -> Done
        ensures { IfOk result (λ _. Reports (followed (with_part (settled (here_of self.now.scope)) (option_map denoted_of denoted.old)) (λ a. elements_at (here_of self.now.scope) bracket a (expressions_of indices.now))) sink.old sink.new (option_map value_of out.new)) }
    {
        self.as_value(sink, Ok(()), denoted.take(), out)?;
        self.elements_at(sink, bracket, indices, out)
    }

    /// A call of what stands in front.
    #[cycle(walk)]
    #[inline(never)]
    fn call(
        &self,
        sink: &mut FirstRefusal,
        list: &[Argument],
        denoted: &mut Option<Denoted>,
    ) -> Done
        ensures { IfOk result (λ _. Reports (select (here_of self.now.scope) (option_map denoted_of denoted.old) (call (arguments_of list.now))) sink.old sink.new (option_map denoted_of denoted.new)) }
    {
        let at = position_of_denoted(denoted);
        let plan = self.plan_of(sink, false, denoted, list)?;
        let mut value = None;
        let done = self.called(sink, plan, list, &mut value);
        still_at(at, done, value, denoted)
    }

    /// Puts in the place of a value its element, index by index, behind a bracket at a place.
    #[cycle(walk)]
    #[inline(never)]
    fn elements_at(
        &self,
        sink: &mut FirstRefusal,
        bracket: Place,
        indices: &[Expr],
        a: &mut Option<Value>,
    ) -> Done
        ensures { IfOk result (λ _. Reports (elements_at (here_of self.now.scope) bracket (option_map value_of a.old) (expressions_of indices.now)) sink.old sink.new (option_map value_of a.new)) }
    {
        for e in indices {
            let mut v = None;
            let done = self.value_in(sink, None, e, &mut v);
            self.indexed(sink, bracket, position_of(e).place, a, done, v)?;
        }
        Ok(())
    }

    #[cycle(walk)]
    #[inline(never)]
    pub fn called(
        &self,
        sink: &mut FirstRefusal,
        plan: Option<Plan>,
        list: &[Argument],
        out: &mut Option<Value>,
    ) -> Done
        ensures { IfOk result (λ _. Reports (called (here_of self.now.scope) plan (arguments_of list.now)) sink.old sink.new (option_map value_of out.new)) }
    {
        let Some(what) = plan else {
            return self.given_to(sink, None, list, out);
        };
        match what {
            Plan::Bound(function, of, at) => {
                self.bound_value(sink, function, of, at, out);
                Ok(())
            }
            Plan::Sole(applied, position) => match list.split_first() {
                None => {
                    clear(out);
                    Ok(())
                }
                Some((first, others)) => match others.split_first() {
                    None => self.sole(sink, applied, position, first, out),
                    Some(_) => {
                        clear(out);
                        Ok(())
                    }
                },
            },
            Plan::Routine(id) => self.given_to(sink, Some(Plan::Routine(id)), list, out),
        }
    }

    /// Arguments for the parameters of a routine; for none where nothing is called.
    #[cycle(walk)]
    #[inline(never)]
    fn given_to(
        &self,
        sink: &mut FirstRefusal,
        plan: Option<Plan>,
        list: &[Argument],
        out: &mut Option<Value>,
    ) -> Done
        ensures { IfOk result (λ _. Reports (given_to (here_of self.now.scope) plan (arguments_of list.now)) sink.old sink.new (option_map value_of out.new)) }
    {
        let mut given = given_first(self.alloc, plan);
        let done = self.given_in(sink, self.parameters_for(plan), list, &mut given);
        self.call_of(plan, done, given, out)
    }

    /// Puts arguments for these parameters behind those so far.
    #[cycle(walk)]
    #[inline(never)]
    fn given_in(
        &self,
        sink: &mut FirstRefusal,
        parameters: &[Parameter],
        list: &[Argument],
        given: &mut Given,
    ) -> Done
        ensures { IfOk result (λ _. Reports (given_means (here_of self.now.scope) parameters.now (option_map given_of given.old) (arguments_of list.now)) sink.old sink.new (option_map given_of given.new)) }
    {
        let mut rest = parameters;
        for argument in list {
            let (parameter, others) = first_of(rest);
            let mut more = None;
            let done = self.argument(sink, parameter, argument, &mut more);
            add_given(given, done, more)?;
            rest = others;
        }
        Ok(())
    }

    /// A cast or a function at a position, of the one argument.
    #[cycle(walk)]
    #[inline(never)]
    fn sole(
        &self,
        sink: &mut FirstRefusal,
        what: Applied,
        position: Position,
        first: &Argument,
        out: &mut Option<Value>,
    ) -> Done
        ensures { IfOk result (λ _. Reports (sole (here_of self.now.scope) what position (arguments (argument_of first.now) no_arguments)) sink.old sink.new (option_map value_of out.new)) }
    {
        match first {
            Argument::Value(e) => {
                self.value_in(sink, None, e, out)?;
                used(
                    self.setting(),
                    sink,
                    position,
                    what,
                    position_of(e).place,
                    out,
                )
            }
            _ => {
                clear(out);
                Ok(())
            }
        }
    }

    #[cycle(walk)]
    #[inline(never)]
    fn argument(
        &self,
        sink: &mut FirstRefusal,
        parameter: Option<&Parameter>,
        part: &Argument,
        out: &mut Option<CoreArgument>,
    ) -> Done
        ensures { IfOk result (λ _. Reports (argument (here_of self.now.scope) (option_copied parameter.entry) (argument_of part.now)) sink.old sink.new (option_map tree.argument_of out.new)) }
    {
        match part {
            Argument::Value(e) => {
                let mut v = None;
                let done = self.value_in(sink, type_wanted(parameter), e, &mut v);
                self.passed(sink, parameter, position_of(e), done, v, out)
            }
            Argument::Padded(_, _) => self.formatted(sink, part, out),
            Argument::Rounded(_, _, _) => self.formatted(sink, part, out),
        }
    }

    /// An argument with a width, which no parameter takes; nothing of one without.
    #[cycle(walk)]
    #[inline(never)]
    fn formatted(
        &self,
        sink: &mut FirstRefusal,
        part: &Argument,
        out: &mut Option<CoreArgument>,
    ) -> Done
        ensures { IfOk result (λ _. Reports (formatted (here_of self.now.scope) (argument_of part.now)) sink.old sink.new (option_map tree.argument_of out.new)) }
    {
        match part {
            Argument::Value(_) => {}
            Argument::Padded(e, width) => {
                self.unused(sink, e)?;
                self.unused(sink, width)?;
            }
            Argument::Rounded(e, width, digits) => {
                self.unused(sink, e)?;
                self.unused(sink, width)?;
                self.unused(sink, digits)?;
            }
        }
        clear(out);
        Ok(())
    }

    /// An expression whose value nothing takes.
    #[cycle(walk)]
    #[inline(never)]
    fn unused(&self, sink: &mut FirstRefusal, e: &Expr) -> Done
        ensures { IfOk result (λ _. Reports (unused (here_of self.now.scope) (expr_of e.now)) sink.old sink.new None) }
    {
        let mut v = None;
        let done = self.value_in(sink, None, e, &mut v);
        leave(v);
        done
    }
}

/// Leaves a value to itself.
#[inline(never)]
fn leave(value: Option<Value>) {
    let _ = value;
}

/// Leaves nothing there.
#[inline(never)]
fn clear<T: Drop>(out: &mut Option<T>)
    ensures { out.new ≡ None }
{
    *out = None;
}

/// A part that is left out.
#[inline(never)]
fn left_out<T: Drop>(sink: &mut FirstRefusal, feature: Feature, place: Place, out: &mut Option<T>)
    ensures { Reports (refused (NotInProfile feature) place) sink.old sink.new out.new }
{
    *out = refuse(sink, LanguageRule::NotInProfile(feature), place);
}
