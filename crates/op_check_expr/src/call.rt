//! What is called, and what it is given.
ghost use Rattle.std.specs.Prelude.{◌≡◌, [], ◌∷◌, IfOk, false, slice_get};
ghost use Rattle.std.specs.List.{list_all};
ghost use Rattle.std.specs.Option.{option_copied, option_map};
ghost use Rattle.op_core.specs.Expression.{argument_of, call as call_root, expr_of, expression, no_steps};
ghost use Rattle.op_core.specs.Typing.{takes_place};
ghost use Rattle.op_tree.specs.Expression as source;
ghost use Rattle.op_tree.specs.Lists as source_lists;
ghost use Rattle.op_judgement.specs.Judgement.{Reports, with_part};
ghost use Rattle.op_check_expr.specs.Calling.{are_given, built_in_plan, call_of, call_tree, first_of, function_plan, given_behind, given_first, given_of, is_plain, others_of, parameters_for, parameters_of, passed, passed_value, plan_of, routine_plan, sole_plan, type_wanted};
ghost use Rattle.op_check_expr.specs.Naming.{denoted_of};
ghost use Rattle.op_check_expr.specs.Parts.{Behind};
ghost use Rattle.op_check_expr.specs.Scopes.{here_of};
ghost use Rattle.op_check_expr.specs.Values.{value_of};
ghost use Rattle.op_types.specs.ConstantParts.{only_value};

use crate::convert::stored;
use crate::denoted::{Denoted, Meant};
use crate::operate::{Done, put};
use crate::place::variable_value;
use crate::scope::Checker;
use crate::tree::make_room;
use crate::value::Value;
use op_base::{NoMemory, Place};
use op_core::{CoreArgument, CoreExpr, FirstRefusal, Function, Parameter, Root, RoutineId, TypeId};
use op_judgement::{LanguageRule, refuse};
use op_tree::{Argument, ParameterMode, Position};
use op_types::{Applied, BuiltIn, only_value};
use std::alloc::Global;

/// What is done with a list of arguments.
#[derive(Clone, Copy)]
pub enum Plan {
    /// Low or High of a type that is named at a place.
    Bound(Function, TypeId, Place),
    /// A cast or a function of one value, at a position.
    Sole(Applied, Position),
    Routine(RoutineId),
}

/// What is given to a routine so far; None where a rule is broken in it.
pub type Given = Option<Vec<CoreArgument>>;

impl<'a> Checker<'a> {
    /// What is done with arguments behind what stands in front of them. `alone` is whether the call is a statement.
    #[inline(never)]
    pub fn plan_of(
        &self,
        sink: &mut FirstRefusal,
        alone: bool,
        denoted: &Option<Denoted>,
        list: &[Argument],
    ) -> Result<Option<Plan>, NoMemory>
        ensures { IfOk result (Reports (plan_of (here_of self.now.scope) alone (option_map denoted_of denoted.now) (source_lists.arguments_of list.now)) sink.old sink.new) }
    {
        let Some(denoted) = denoted else {
            return Ok(None);
        };
        let position = denoted.position;
        match &denoted.what {
            Meant::Routine(id) => Ok(self.routine_plan(sink, alone, position, *id, list)),
            Meant::TypeName(of) => Ok(sole_plan(sink, position, Applied::Cast(*of), list)),
            Meant::BuiltIn(b) => self.built_in_plan(sink, position, *b, list),
            Meant::Value(_) => Ok(refuse(sink, LanguageRule::WrongKindOfName, position.place)),
            Meant::Unit(_) => Ok(refuse(sink, LanguageRule::WrongKindOfName, position.place)),
        }
    }

    fn routine_plan(
        &self,
        sink: &mut FirstRefusal,
        alone: bool,
        position: Position,
        id: RoutineId,
        list: &[Argument],
    ) -> Option<Plan>
        ensures { Reports (with_part (routine_plan (here_of self.now.scope) alone position id (source_lists.arguments_of list.now)) (slice_get (here_of self.now.scope).core.routines id.0)) sink.old sink.new result }
    {
        let core = self.scope.core;
        let Some(routine) = core.routines.as_slice().get(id.0 as usize) else {
            return None;
        };
        if !alone && routine.result.is_none() {
            return refuse(sink, LanguageRule::WrongKindOfName, position.place);
        }
        if are_given(core.parameters.rows(routine.parameters), list) {
            Some(Plan::Routine(id))
        } else {
            refuse(sink, LanguageRule::WrongArguments, position.place)
        }
    }

    fn built_in_plan(
        &self,
        sink: &mut FirstRefusal,
        position: Position,
        b: BuiltIn,
        list: &[Argument],
    ) -> Result<Option<Plan>, NoMemory>
        ensures { IfOk result (Reports (built_in_plan (here_of self.now.scope) position b (source_lists.arguments_of list.now)) sink.old sink.new) }
    {
        match b {
            BuiltIn::Chr => Ok(sole_plan(sink, position, Applied::Cast(TypeId::CHAR), list)),
            BuiltIn::Function(function) => self.function_plan(sink, position, function, list),
            _ => Ok(refuse(sink, LanguageRule::WrongKindOfName, position.place)),
        }
    }

    fn function_plan(
        &self,
        sink: &mut FirstRefusal,
        position: Position,
        function: Function,
        list: &[Argument],
    ) -> Result<Option<Plan>, NoMemory>
        ensures { IfOk result (Reports (function_plan (here_of self.now.scope) position function (source_lists.arguments_of list.now)) sink.old sink.new) }
    {
        match function {
            Function::Low | Function::High => match self.setting().type_named(list)? {
                Some((of, at)) => Ok(Some(Plan::Bound(function, of, at))),
                None => Ok(sole_plan(sink, position, Applied::Function(function), list)),
            },
            _ => Ok(sole_plan(sink, position, Applied::Function(function), list)),
        }
    }

    pub fn parameters_of(&self, id: RoutineId) -> &'a [Parameter]
        ensures { result.now ≡ parameters_of (here_of self.now.scope) id }
    {
        let core = self.scope.core;
        match core.routines.as_slice().get(id.0 as usize) {
            Some(routine) => core.parameters.rows(routine.parameters),
            None => &[],
        }
    }

    pub fn parameters_for(&self, plan: Option<Plan>) -> &'a [Parameter]
        ensures { result.now ≡ parameters_for (here_of self.now.scope) plan }
    {
        match plan {
            Some(Plan::Routine(id)) => self.parameters_of(id),
            _ => &[],
        }
    }

    /// Puts there a value for a parameter, its expression at a position; None of a parameter where there is none.
    #[inline(never)]
    pub fn passed(
        &self,
        sink: &mut FirstRefusal,
        parameter: Option<&Parameter>,
        at: Position,
        done: Done,
        value: Option<Value>,
        out: &mut Option<CoreArgument>,
    ) -> Done
        ensures { IfOk result (λ _. Behind done (Reports (with_part (passed (here_of self.now.scope) (option_copied parameter.entry) at) (option_map value_of value)) sink.old sink.new (option_map argument_of out.new))) }
    {
        done?;
        let (Some(parameter), Some(value)) = (parameter, value) else {
            put(out, None);
            return Ok(());
        };
        let made = self.passed_value(sink, parameter, at, value)?;
        put(out, made);
        Ok(())
    }

    fn passed_value(
        &self,
        sink: &mut FirstRefusal,
        parameter: &Parameter,
        at: Position,
        value: Value,
    ) -> Result<Option<CoreArgument>, NoMemory>
        ensures { IfOk result (λ a. Reports (passed_value (here_of self.now.scope) at (value_of value) parameter.now) sink.old sink.new (option_map argument_of a)) }
    {
        let to = parameter.of;
        if takes_place(parameter.mode) {
            match variable_value(self.scope, sink, at.place, Some(to), value) {
                Some(e) => Ok(Some(CoreArgument::Place(e))),
                None => Ok(None),
            }
        } else {
            let core = self.scope.core;
            match stored(self.alloc, core, sink, at.place, at.switches.r, to, value)? {
                Some(e) => Ok(Some(CoreArgument::Value(e))),
                None => Ok(None),
            }
        }
    }

    /// A call of a routine that is no method.
    fn call_tree(&self, id: RoutineId, given: Vec<CoreArgument>) -> Option<Value>
        ensures { option_map value_of result ≡ option_map (call_tree id (given_of given)) (slice_get (here_of self.now.scope).core.routines id.0) }
    {
        let routine = self.scope.core.routines.as_slice().get(id.0 as usize)?;
        let of = match routine.result {
            Some(of) => of,
            None => TypeId::NOTHING,
        };
        Some(Value::Computed(call_expression(self.alloc, id, given, of)))
    }

    /// Puts there what a routine gives with these arguments.
    #[inline(never)]
    pub fn call_of(
        &self,
        plan: Option<Plan>,
        done: Done,
        given: Given,
        out: &mut Option<Value>,
    ) -> Done
        ensures { IfOk result (λ _. Behind done (option_map value_of out.new ≡ call_of (here_of self.now.scope) plan (option_map given_of given))) }
    {
        done?;
        put(out, self.call_value(plan, given));
        Ok(())
    }

    /// What a routine gives with these arguments.
    pub fn call_value(&self, plan: Option<Plan>, given: Given) -> Option<Value>
        ensures { option_map value_of result ≡ call_of (here_of self.now.scope) plan (option_map given_of given) }
    {
        match plan {
            Some(Plan::Routine(id)) => self.call_tree(id, given?),
            _ => None,
        }
    }
}

fn call_expression(
    alloc: Global,
    routine: RoutineId,
    arguments: Vec<CoreArgument>,
    of: TypeId,
) -> CoreExpr
    ensures { expr_of result ≡ expression (call_root routine (given_of arguments)) of no_steps }
{
    CoreExpr::new(alloc, Root::Call { routine, arguments }, of)
}

/// Whether there is one argument to each parameter, none of them with a width.
fn are_given(parameters: &[Parameter], list: &[Argument]) -> bool
    ensures { result ≡ are_given parameters.now (source_lists.arguments_of list.now) }
{
    let plain = all_plain(list);
    parameters.len() == list.len() && plain
}

fn all_plain(list: &[Argument]) -> bool
    ensures { result ≡ list_all (λ a. is_plain (source.argument_of a)) list.now }
{
    list.iter().all(|a| is_plain(a))
}

fn is_plain(argument: &Argument) -> bool
    ensures { result ≡ is_plain (source.argument_of argument.now) }
{
    matches!(argument, Argument::Value(_))
}

fn takes_place(mode: ParameterMode) -> bool
    ensures { result ≡ takes_place mode }
{
    matches!(mode, ParameterMode::Var | ParameterMode::Out)
}

fn sole_plan(
    sink: &mut FirstRefusal,
    position: Position,
    what: Applied,
    list: &[Argument],
) -> Option<Plan>
    ensures { Reports (sole_plan position what (only_value (source_lists.arguments_of list.now))) sink.old sink.new result }
{
    match only_value(list) {
        Some(_) => Some(Plan::Sole(what, position)),
        None => refuse(sink, LanguageRule::WrongArguments, position.place),
    }
}

pub fn given_first(alloc: Global, plan: Option<Plan>) -> Given
    ensures { option_map given_of result ≡ given_first plan }
{
    match plan {
        Some(Plan::Routine(_)) => Some(Vec::new(alloc)),
        _ => None,
    }
}

pub fn type_wanted(parameter: Option<&Parameter>) -> Option<TypeId>
    ensures { result ≡ type_wanted (option_copied parameter.entry) }
{
    match parameter {
        Some(parameter) => Some(parameter.of),
        None => None,
    }
}

/// The first parameter, and the others.
pub fn first_of(parameters: &[Parameter]) -> (Option<&Parameter>, &[Parameter])
    ensures first { option_copied result.0 ≡ first_of parameters.now }
    ensures others { result.1.now ≡ others_of parameters.now }
{
    match parameters.split_first() {
        Some((first, others)) => (Some(first), others),
        None => (None, &[]),
    }
}

/// Puts one argument more behind what is given so far.
#[inline(never)]
pub fn add_given(given: &mut Given, done: Done, more: Option<CoreArgument>) -> Done
    ensures { IfOk result (λ _. Behind done (option_map given_of given.new ≡ given_behind (option_map given_of given.old) (option_map argument_of more))) }
{
    done?;
    let Some(mut list) = given.take() else {
        return Ok(());
    };
    let Some(more) = more else {
        return Ok(());
    };
    make_room(&mut list)?;
    list.push(more)?;
    put(given, Some(list));
    Ok(())
}
