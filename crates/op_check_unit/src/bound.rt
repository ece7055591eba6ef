//! Constants that types and declarations need, and the bounds of subranges.
ghost use Rattle.op_judgement.specs.Judgement.{Reports, both_typed, with_part};
ghost use Rattle.op_judgement.specs.Steps.{judged};
ghost use Rattle.std.specs.Prelude.{◌≡◌, IfOk};
ghost use Rattle.op_check_unit.specs.Steps.{Leaves, here_of};
ghost use Rattle.op_check_unit.specs.Types.{bounds_of, built, constant_part, is_kind, lower_of, needed, no_constant, subrange_of, whole_type};
ghost use Rattle.op_tree.specs.Expression.{expr_of};
ghost use Rattle.op_types.specs.Folding.{pair};

use crate::Declarer;
use op_base::{NoMemory, Place};
use op_check_expr::{Checker, Scope};
use op_core::{Const, CoreType, FirstRefusal, TypeId};
use op_judgement::{Feature, LanguageRule, refuse};
use op_tree::Expr;
use op_types::{Constant, OrdinalKind, Setting, kind_of, number_of, start_of};

/// The value of an expression that has to be constant, which is rule 30 where it is none and breaks no other rule. `nil` is left out.
#[tactic(auto, unfolding(crate::specs::Types::constant_part))]
pub fn needed_constant(
    setting: Setting,
    sink: &mut FirstRefusal,
    e: &Expr,
) -> Result<Option<Constant>, NoMemory>
    ensures { IfOk result (Reports (constant_part setting.entry.core.now setting.entry.visible.now (expr_of e.now)) sink.old sink.new) }
{
    match needed(setting, sink, e)? {
        Some(constant) => Ok(built(sink, start_of(e), constant)),
        None => Ok(None),
    }
}

/// A constant that begins at a place, unless it is `nil`.
fn built(sink: &mut FirstRefusal, place: Place, constant: Constant) -> Option<Constant>
    ensures { Reports (built place constant) sink.old sink.new result }
{
    match constant.value {
        Const::Nil => refuse(
            sink,
            LanguageRule::NotInProfile(Feature::DynamicArrays),
            place,
        ),
        _ => Some(constant),
    }
}

/// The value of an expression that has to be constant, `nil` among others.
fn needed(setting: Setting, sink: &mut FirstRefusal, e: &Expr) -> Result<Option<Constant>, NoMemory>
    ensures { IfOk result (Reports (needed setting.entry.core.now setting.entry.visible.now (expr_of e.now)) sink.old sink.new) }
{
    let before = *sink;
    match setting.constant(sink, e)? {
        Some(constant) => Ok(constant),
        None => {
            *sink = before;
            no_constant(setting, sink, e)
        }
    }
}

/// What is no constant expression: rule 30, where no rule is broken in it.
fn no_constant(
    setting: Setting,
    sink: &mut FirstRefusal,
    e: &Expr,
) -> Result<Option<Constant>, NoMemory>
    ensures { IfOk result (Reports (no_constant setting.entry.core.now setting.entry.visible.now (expr_of e.now)) sink.old sink.new) }
{
    let scope = Scope {
        core: setting.core,
        visible: setting.visible,
        routine: None,
        around: &[],
    };
    let checker = Checker {
        alloc: setting.alloc,
        scope,
    };
    match checker.value(sink, None, e)? {
        Some(_) => Ok(refuse(sink, LanguageRule::NoConstant, start_of(e))),
        None => Ok(None),
    }
}

impl Declarer {
    /// The value of an expression that has to be constant.
    pub fn constant_part(&mut self, e: &Expr) -> Result<Option<Constant>, NoMemory>
        ensures { IfOk result (Leaves (judged (here_of self.old) (constant_part self.old.core self.old.visible (expr_of e.now))) self.old self.new) }
    {
        let setting = Setting {
            alloc: self.alloc,
            core: &self.core,
            visible: &self.visible,
        };
        needed_constant(setting, &mut self.sink, e)
    }

    /// The subrange between two constants: rule 23 at a lower one that is not ordinal, 20 at an upper one of another kind, 31 at
    /// the lower one where it is above the upper one.
    pub fn subrange(&mut self, first: &Expr, last: &Expr) -> Result<Option<CoreType>, NoMemory>
        ensures { IfOk result (Leaves (judged (here_of self.old) (subrange_of self.old.core self.old.visible (expr_of first.now) (expr_of last.now))) self.old self.new) }
    {
        let low = self.lower_bound(first)?;
        let high = self.constant_part(last)?;
        Ok(self.bounds(start_of(first), start_of(last), low, high))
    }

    /// The kind and the number of a lower bound.
    fn lower_bound(&mut self, e: &Expr) -> Result<Option<(OrdinalKind, i32)>, NoMemory>
        ensures { IfOk result (Leaves (judged (here_of self.old) (lower_of self.old.core self.old.visible (expr_of e.now))) self.old self.new) }
    {
        let Some(constant) = self.constant_part(e)? else {
            return Ok(None);
        };
        match kind_of(&self.core, constant.of) {
            Some(kind) => Ok(Some((kind, number_of(&constant.value)))),
            None => {
                self.refuse(LanguageRule::NotOrdinal, start_of(e));
                Ok(None)
            }
        }
    }

    /// A subrange by its lower bound, which begins at `first`, and its upper one, which begins at `last`.
    fn bounds(
        &mut self,
        first: Place,
        last: Place,
        low: Option<(OrdinalKind, i32)>,
        high: Option<Constant>,
    ) -> Option<CoreType>
        ensures { Leaves (judged (here_of self.old) (with_part (bounds_of self.old.core first last) (both_typed pair low high))) self.old self.new result }
    {
        let (kind, low) = low?;
        let high = high?;
        if !is_kind(kind, kind_of(&self.core, high.of)) {
            self.refuse(LanguageRule::NotAssignable, last);
            return None;
        }
        let high = number_of(&high.value);
        if high < low {
            self.refuse(LanguageRule::EmptyRange, first);
            return None;
        }
        let base = whole_type(kind);
        Some(CoreType::Subrange { base, low, high })
    }
}

/// The type of all values of a kind.
fn whole_type(kind: OrdinalKind) -> TypeId
    ensures { result ≡ whole_type kind }
{
    match kind {
        OrdinalKind::Integer => TypeId::INTEGER,
        OrdinalKind::Boolean => TypeId::BOOLEAN,
        OrdinalKind::Char => TypeId::CHAR,
        OrdinalKind::Enumeration(of) => of,
    }
}

fn is_kind(kind: OrdinalKind, other: Option<OrdinalKind>) -> bool
    ensures { result ≡ is_kind kind other }
{
    match other {
        None => false,
        Some(other) => kind.is_same(other),
    }
}
