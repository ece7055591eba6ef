//! What statements and declarations are made of.
ghost use Rattle.std.specs.Prelude.{◌≡◌, IfErr, IfOk, None, Some, position};
ghost use Rattle.std.specs.Option.{option_map};
ghost use Rattle.op_core.specs.Expression as typed;
ghost use Rattle.op_tree.specs.Expression.{expr_of, selector_of};
ghost use Rattle.op_tree.specs.Lists.{arguments_of};
ghost use Rattle.op_tree.specs.Statement.{designator_of, selectors_of};
ghost use Rattle.op_judgement.specs.Judgement.{RefusalHasText, Reports, checked, with_part};
ghost use Rattle.op_check_expr.specs.Expressions.{settled};
ghost use Rattle.op_check_expr.specs.Naming.{denoted_of};
ghost use Rattle.op_check_expr.specs.Phrases as means;
ghost use Rattle.op_check_expr.specs.Scopes.{here_of};
ghost use Rattle.op_check_expr.specs.Values.{tree_of, value_of};

use crate::call::{Plan, given_first};
use crate::convert::{as_type, stored};
use crate::denoted::{Denoted, Found, Meant, number_at, variable_tree};
use crate::designator::{position_of, position_of_designator};
use crate::operate::Valued;
use crate::place::{is_writable_variable, target_value, variable_value};
use crate::scope::{Checker, Scope};
use crate::value::Value;
use op_base::{NoMemory, Place};
use op_core::{
    CheckError, Core, CoreExpr, FirstRefusal, Role, Routine, RoutineId, Run, TypeId, Variable,
    VariableId,
};
use op_judgement::{LanguageRule, refuse};
use op_tree::{Argument, Designator, Expr, Name, Position, Root, Selector};
use op_types::{Meaning, assignable};
use std::alloc::Global;

/// A typed expression; None where a rule is broken in it.
pub type Typed = Result<Option<CoreExpr>, NoMemory>;

/// The typed expression, or the first rule that it breaks.
pub fn expr(alloc: Global, scope: &Scope, e: &Expr) -> Result<CoreExpr, CheckError>
    ensures exact { means.ExprIs (checked (means.value (here_of scope.now) None (expr_of e.now))) result }
    ensures law { means.ExprMeans (means.value (here_of scope.now) None (expr_of e.now)) result }
    ensures told { IfErr result RefusalHasText }
{
    let mut sink = FirstRefusal::new();
    let checker = Checker {
        alloc,
        scope: *scope,
    };
    match checker.value(&mut sink, None, e)? {
        Some(value) => sink.or_typed(value.into_tree(alloc)),
        None => Err(failure(sink)),
    }
}

/// Why a part has no type: its first fault, or want of memory where it has none.
fn failure(sink: FirstRefusal) -> CheckError
    ensures { result ≡ means.failure sink.kept }
{
    match sink.kept {
        Some(refusal) => CheckError::Refused(refusal),
        None => CheckError::NoMemory,
    }
}

impl<'a> Checker<'a> {
    /// What an expression means. `wanted` is the type that its use fixes: a set constructor takes its type from that.
    #[tactic(auto, unfolding(crate::specs::Phrases::value))]
    pub fn value(&self, sink: &mut FirstRefusal, wanted: Option<TypeId>, e: &Expr) -> Valued
        ensures { IfOk result (λ v. Reports (means.value (here_of self.now.scope) wanted (expr_of e.now)) sink.old sink.new (option_map value_of v)) }
    {
        let mut value = None;
        self.value_in(sink, wanted, e, &mut value)?;
        Ok(value)
    }

    /// A value that is stored in what has a type; `checked` is whether ranges are. Rule 20 stands at its first token.
    #[tactic(auto, unfolding(crate::specs::Phrases::given, crate::specs::Phrases::value))]
    pub fn given(&self, sink: &mut FirstRefusal, to: TypeId, checked: bool, e: &Expr) -> Typed
        ensures { IfOk result (λ v. Reports (means.given (here_of self.now.scope) to checked (expr_of e.now)) sink.old sink.new (option_map typed.expr_of v)) }
    {
        match self.value(sink, Some(to), e)? {
            Some(value) => {
                let at = position_of(e).place;
                stored(self.alloc, self.scope.core, sink, at, checked, to, value)
            }
            None => Ok(None),
        }
    }

    /// An argument that must be a variable, of the very type where one is given, that may be written: rules 27, 28, 29, 37 at its
    /// first token.
    #[tactic(auto, unfolding(crate::specs::Phrases::variable, crate::specs::Phrases::value))]
    pub fn variable(&self, sink: &mut FirstRefusal, of: Option<TypeId>, e: &Expr) -> Typed
        ensures { IfOk result (λ v. Reports (means.variable (here_of self.now.scope) of (expr_of e.now)) sink.old sink.new (option_map typed.expr_of v)) }
    {
        match self.value(sink, None, e)? {
            Some(value) => {
                let at = position_of(e).place;
                Ok(variable_value(self.scope, sink, at, of, value))
            }
            None => Ok(None),
        }
    }

    /// Whether a variable may be written here: its role, and the loops round the place.
    #[tactic(auto, unfolding(crate::specs::Phrases::is_writable_variable))]
    pub fn is_writable_variable(&self, id: VariableId) -> bool
        ensures { result ≡ means.is_writable_variable (here_of self.now.scope) id }
    {
        is_writable_variable(self.scope, id)
    }

    /// One element for a set of a base: rules 20 and 34 at its first token.
    #[tactic(auto, unfolding(crate::specs::Phrases::element, crate::specs::Phrases::value))]
    pub fn element(&self, sink: &mut FirstRefusal, base: TypeId, e: &Expr) -> Typed
        ensures { IfOk result (λ v. Reports (means.element (here_of self.now.scope) base (expr_of e.now)) sink.old sink.new (option_map typed.expr_of v)) }
    {
        let at = position_of(e).place;
        let Some(value) = self.value(sink, None, e)? else {
            return Ok(None);
        };
        let core = self.scope.core;
        if !assignable(core, value.type_of(), base) {
            return Ok(refuse(sink, LanguageRule::NotAssignable, at));
        }
        if !value.is_small() {
            return Ok(refuse(sink, LanguageRule::NoSetElement, at));
        }
        Ok(Some(as_type(self.alloc, core, true, base, value)?))
    }

    /// What is assigned to: rule 29 at its first token. A function's own name is its result, of which a part may be selected.
    #[tactic(auto, unfolding(crate::specs::Phrases::target))]
    pub fn target(&self, sink: &mut FirstRefusal, called: &Designator) -> Typed
        ensures { IfOk result (λ v. Reports (means.target (here_of self.now.scope) (designator_of called.now)) sink.old sink.new (option_map typed.expr_of v)) }
    {
        let at = position_of_designator(called).place;
        match self.result_first(called)? {
            Some(result) => {
                let mut denoted = Some(result);
                self.selected(sink, &called.selectors, &mut denoted)?;
                self.target_denoted(sink, at, denoted)
            }
            None => self.target_of_others(sink, called),
        }
    }

    /// What is assigned to, where that is no result: no routine's name alone.
    fn target_of_others(&self, sink: &mut FirstRefusal, called: &Designator) -> Typed
        ensures { IfOk result (λ v. Reports (means.target_by (here_of self.now.scope) (designator_of called.now) (means.routine_alone (here_of self.now.scope) (designator_of called.now))) sink.old sink.new (option_map typed.expr_of v)) }
    {
        let at = position_of_designator(called).place;
        match self.routine_alone(called)? {
            Some(_) => Ok(refuse(sink, LanguageRule::NotWritable, at)),
            None => {
                let mut denoted = None;
                self.designator(sink, called, &mut denoted)?;
                self.target_denoted(sink, at, denoted)
            }
        }
    }

    /// What is assigned to, in a statement that begins at a place.
    fn target_denoted(&self, sink: &mut FirstRefusal, at: Place, denoted: Option<Denoted>) -> Typed
        ensures { IfOk result (λ v. Reports (means.target_means (here_of self.now.scope) at (with_part (settled (here_of self.now.scope)) (option_map denoted_of denoted))) sink.old sink.new (option_map typed.expr_of v)) }
    {
        let mut value = None;
        self.as_value(sink, Ok(()), denoted, &mut value)?;
        match value {
            Some(value) => Ok(target_value(self.scope, sink, at, value)),
            None => Ok(None),
        }
    }

    /// The result that a place begins with, by the name of the function whose body this is.
    fn result_first(&self, called: &Designator) -> Found
        ensures { IfOk result (λ r. option_map denoted_of r ≡ means.result_first (here_of self.now.scope) (designator_of called.now)) }
    {
        match (&called.root, called.selectors.split_first()) {
            (Root::Named(_), Some((Selector::Call { .. }, _))) => Ok(None),
            (Root::Named(name), _) => self.result_named(name),
            _ => Ok(None),
        }
    }

    fn result_named(&self, name: &Name) -> Found
        ensures { IfOk result (λ r. option_map denoted_of r ≡ means.result_named (here_of self.now.scope) name.now) }
    {
        match self.scope.visible.look_up(name.text.as_slice())? {
            Some(Meaning::Routine(id)) => Ok(self.result_denoted(name.position, *id)),
            _ => Ok(None),
        }
    }

    fn result_denoted(&self, position: Position, id: RoutineId) -> Option<Denoted>
        ensures { option_map denoted_of result ≡ option_map (means.result_denoted position) (means.own_result (here_of self.now.scope) id) }
    {
        let (id, of) = self.own_result(id)?;
        Some(Denoted {
            position,
            what: Meant::Value(Value::Computed(variable_tree(self.alloc, id, of))),
        })
    }

    /// The routine whose name stands alone.
    fn routine_alone(&self, called: &Designator) -> Result<Option<RoutineId>, NoMemory>
        ensures { IfOk result (λ r. r ≡ means.routine_alone (here_of self.now.scope) (designator_of called.now)) }
    {
        match (&called.root, called.selectors.split_first()) {
            (Root::Named(name), None) => {
                match self.scope.visible.look_up(name.text.as_slice())? {
                    Some(Meaning::Routine(id)) => Ok(Some(*id)),
                    _ => Ok(None),
                }
            }
            _ => Ok(None),
        }
    }

    /// The result of the routine whose body this is, by that routine's name.
    fn own_result(&self, id: RoutineId) -> Option<(VariableId, TypeId)>
        ensures { result ≡ means.own_result (here_of self.now.scope) id }
    {
        if !is_own(self.scope.routine, id) {
            return None;
        }
        let core = self.scope.core;
        match core.routines.as_slice().get(id.0 as usize) {
            Some(routine) => result_in(core, routine),
            None => None,
        }
    }

    /// A call as a statement. Rule 35 stands at its first token where it is no call.
    #[tactic(auto, unfolding(crate::specs::Phrases::call_alone))]
    pub fn alone(&self, sink: &mut FirstRefusal, called: &Designator) -> Typed
        ensures { IfOk result (λ v. Reports (means.call_alone (here_of self.now.scope) (designator_of called.now)) sink.old sink.new (option_map typed.expr_of v)) }
    {
        let start = position_of_designator(called).place;
        let mut denoted = None;
        self.root(sink, &called.root, &mut denoted)?;
        match last_call(&called.selectors) {
            Some((front, arguments)) => {
                self.selected(sink, front, &mut denoted)?;
                let plan = self.plan_of(sink, true, &denoted, arguments)?;
                self.alone_called(sink, start, plan, arguments)
            }
            None => {
                self.selected(sink, &called.selectors, &mut denoted)?;
                self.alone_denoted(sink, start, denoted)
            }
        }
    }

    fn alone_called(
        &self,
        sink: &mut FirstRefusal,
        start: Place,
        plan: Option<Plan>,
        list: &[Argument],
    ) -> Typed
        ensures { IfOk result (λ v. Reports (means.alone_called (here_of self.now.scope) start plan (arguments_of list.now)) sink.old sink.new (option_map typed.expr_of v)) }
    {
        let mut value = None;
        self.called(sink, plan, list, &mut value)?;
        match plan {
            Some(Plan::Bound(..) | Plan::Sole(..)) => Ok(refuse(
                sink,
                LanguageRule::NoStatement,
                start,
            )),
            _ => Ok(into_tree(self.alloc, value)),
        }
    }

    /// What stands alone, with no arguments.
    fn alone_denoted(
        &self,
        sink: &mut FirstRefusal,
        start: Place,
        denoted: Option<Denoted>,
    ) -> Typed
        ensures { IfOk result (λ v. Reports (with_part (means.alone_denoted (here_of self.now.scope) start) (option_map denoted_of denoted)) sink.old sink.new (option_map typed.expr_of v)) }
    {
        let Some(denoted) = denoted else {
            return Ok(None);
        };
        let position = denoted.position;
        match denoted.what {
            Meant::Value(_) => Ok(refuse(sink, LanguageRule::NoStatement, start)),
            Meant::TypeName(_) => Ok(refuse(sink, LanguageRule::WrongKindOfName, position.place)),
            what => {
                let denoted = Some(Denoted { position, what });
                let plan = self.plan_of(sink, true, &denoted, &[])?;
                let value = self.call_value(plan, given_first(self.alloc, plan));
                Ok(into_tree(self.alloc, value))
            }
        }
    }
}

fn into_tree(alloc: Global, value: Option<Value>) -> Option<CoreExpr>
    ensures { option_map typed.expr_of result ≡ option_map tree_of (option_map value_of value) }
{
    match value {
        Some(value) => Some(value.into_tree(alloc)),
        None => None,
    }
}

/// The last selector, if it is a call, with those in front.
fn last_call(list: &[Selector]) -> Option<(&[Selector], &[Argument])>
    ensures { option_map (λ r. (selectors_of r.0.now, arguments_of r.1.now)) result ≡ means.last_call (selectors_of list.now) }
{
    match list.split_last() {
        None => None,
        Some((last, front)) => match call_in(last) {
            Some(arguments) => Some((front, arguments)),
            None => None,
        },
    }
}

fn call_in(selector: &Selector) -> Option<&[Argument]>
    ensures { option_map (λ a. arguments_of a.now) result ≡ means.call_in (selector_of selector.now) }
{
    match selector {
        Selector::Call { arguments } => Some(arguments.as_slice()),
        Selector::Member(_) => None,
        Selector::Index { .. } => None,
    }
}

fn is_own(own: Option<RoutineId>, id: RoutineId) -> bool
    ensures { result ≡ means.is_own own id }
{
    match own {
        Some(own) => own.0 == id.0,
        None => false,
    }
}

fn is_result(role: Role) -> bool
    ensures { result ≡ means.is_result_role role }
{
    matches!(role, Role::Result)
}

/// The result of a routine, among its variables.
fn result_in(core: &Core, routine: &Routine) -> Option<(VariableId, TypeId)>
    ensures { result ≡ means.result_in core.now (Some routine.now) }
{
    let variables = core.variables.rows(routine.variables);
    let k = result_position(variables)?;
    result_at(routine.variables, variables, k)
}

fn result_position(variables: &[Variable]) -> Option<usize>
    ensures { result ≡ position means.is_result variables.now }
{
    variables.iter().position(|v| is_result(v.role))
}

fn result_at(run: Run, variables: &[Variable], k: usize) -> Option<(VariableId, TypeId)>
    ensures { result ≡ means.result_at run variables.now k }
{
    let number = number_at(run, k)?;
    let variable = variables.get(k)?;
    Some((VariableId(number), variable.of))
}
