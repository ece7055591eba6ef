//! What designators mean, once their parts have a meaning.
ghost use Rattle.std.specs.Prelude.{◌≡◌, IfOk, Some};
ghost use Rattle.std.specs.Option.{option_map};
ghost use Rattle.op_tree.specs.Expression.{expr_of};
ghost use Rattle.op_tree.specs.Statement.{designator_of};
ghost use Rattle.op_judgement.specs.Judgement.{Reports, changed, with_part};
ghost use Rattle.op_check_expr.specs.Expressions.{index_types, indexed, member_of, name_denoted, position_of, position_of_denoted, position_of_designator, settled, still_at_position, text_denoted};
ghost use Rattle.op_check_expr.specs.Naming.{denoted_of, valued};
ghost use Rattle.op_check_expr.specs.Parts.{Behind};
ghost use Rattle.op_check_expr.specs.Scopes.{here_of};
ghost use Rattle.op_check_expr.specs.Values.{constant, in_brackets, value_of};
ghost use Rattle.op_types.specs.ConstantParts.{text_constant};
ghost use Rattle.op_types.specs.Folding.{numeral};
ghost use Rattle.op_types.specs.Names.{lower};

use crate::call::given_first;
use crate::convert::index_at;
use crate::denoted::{Denoted, Meant, field_of, named};
use crate::operate::{Done, Valued, put};
use crate::scope::Checker;
use crate::tree::then;
use crate::value::{Value, constant_value};
use op_base::Place;
use op_core::{Action, Const, CoreType, FirstRefusal, TypeId, type_at};
use op_judgement::{LanguageRule, refuse};
use op_scan::CompactText;
use op_tree::{Designator, Expr, Name, Position, Root};
use op_types::{made, nodes};
use std::alloc::Global;

/// The first token of an expression.
pub fn position_of(e: &Expr) -> Position
    ensures { result ≡ position_of (expr_of e.now) }
{
    match e {
        Expr::Chain { first, .. } => position_of(first),
        Expr::Prefix { position, .. }
        | Expr::Number { position, .. }
        | Expr::Nil { position }
        | Expr::Set { position, .. }
        | Expr::Literal { position, .. }
        | Expr::Inherited { position, .. } => *position,
        Expr::Designator(called) => position_of_designator(called),
    }
}

/// The first token of a designator.
pub fn position_of_designator(called: &Designator) -> Position
    ensures { result ≡ position_of_designator (designator_of called.now) }
{
    match &called.root {
        Root::Named(name) => name.position,
        Root::String { position } => *position,
        Root::Bracketed { position, .. } => *position,
    }
}

/// The types of the index and of the elements of what can be indexed.
fn index_types(of: Option<CoreType>) -> Option<(TypeId, TypeId)>
    ensures { result ≡ index_types of }
{
    match of {
        Some(CoreType::Array { index, element }) => Some((index, element)),
        Some(CoreType::DynamicArray { element } | CoreType::OpenArray { element }) => {
            Some((TypeId::INTEGER, element))
        }
        Some(CoreType::String) => Some((TypeId::INTEGER, TypeId::CHAR)),
        _ => None,
    }
}

/// Where a name stands that something is selected of.
pub fn position_of_denoted(denoted: &Option<Denoted>) -> Option<Position>
    ensures { result ≡ position_of_denoted (option_map denoted_of denoted.now) }
{
    match denoted {
        Some(denoted) => Some(denoted.position),
        None => None,
    }
}

/// Puts there what is made of it, at the same position.
#[inline(never)]
pub fn still_at(
    position: Option<Position>,
    done: Done,
    value: Option<Value>,
    out: &mut Option<Denoted>,
) -> Done
    ensures { IfOk result (λ _. Behind done (option_map denoted_of out.new ≡ still_at_position position (option_map value_of value))) }
{
    done?;
    let made = match (position, value) {
        (Some(position), Some(value)) => {
            let what = Meant::Value(value);
            Some(Denoted { position, what })
        }
        _ => None,
    };
    put(out, made);
    Ok(())
}

/// Puts there a value in brackets that begin at a position.
#[inline(never)]
pub fn bracketed(
    position: Position,
    done: Done,
    value: Option<Value>,
    out: &mut Option<Denoted>,
) -> Done
    ensures { IfOk result (λ _. Behind done (option_map denoted_of out.new ≡ option_map (λ v. valued position (in_brackets v)) (option_map value_of value))) }
{
    done?;
    let made = match value {
        Some(v) => {
            let what = Meant::Value(v.in_brackets()?);
            Some(Denoted { position, what })
        }
        None => None,
    };
    put(out, made);
    Ok(())
}

/// Puts there a text of which something is selected.
#[inline(never)]
pub fn text_denoted(
    alloc: Global,
    position: Position,
    text: &[u8],
    out: &mut Option<Denoted>,
) -> Done
    ensures { IfOk result (λ _. option_map denoted_of out.new ≡ Some (text_denoted position text.now)) }
{
    let value = Const::Text(CompactText::copy_of(alloc, text)?);
    let what = Meant::Value(Value::Constant(made(value, TypeId::STRING, nodes(1))));
    put(out, Some(Denoted { position, what }));
    Ok(())
}

impl<'a> Checker<'a> {
    /// Puts there a text of which nothing is selected.
    #[inline(never)]
    pub fn text_alone(&self, text: &[u8], out: &mut Option<Value>) -> Done
        ensures { IfOk result (λ _. option_map value_of out.new ≡ Some (constant (text_constant text.now))) }
    {
        let made = match self.setting().literal(text, &[])? {
            Some(Some(c)) => Some(Value::Constant(c)),
            Some(None) => None,
            None => None,
        };
        put(out, made);
        Ok(())
    }

    /// Puts there a number at a place, of so many nodes.
    #[inline(never)]
    pub fn number(
        &self,
        sink: &mut FirstRefusal,
        at: Place,
        count: u32,
        n: i64,
        out: &mut Option<Value>,
    )
        ensures { Reports (changed constant (numeral at count n)) sink.old sink.new (option_map value_of out.new) }
    {
        put(
            out,
            constant_value(self.setting().numeral(sink, at, count, n)),
        );
    }

    /// Puts there what a name stands for, spelled so, which is looked up as `key`.
    #[inline(never)]
    pub fn name_denoted(
        &self,
        sink: &mut FirstRefusal,
        key: &[u8],
        text: &[u8],
        position: Position,
        out: &mut Option<Denoted>,
    ) -> Done
        ensures { IfOk result (λ _. Reports (name_denoted (here_of self.now.scope) (lower key.now) text.now position) sink.old sink.new (option_map denoted_of out.new)) }
    {
        let meaning = self.scope.visible.look_up(key)?;
        let made = named(self.setting(), sink, text, position, meaning)?;
        put(out, made);
        Ok(())
    }

    /// Puts there what a name stands for as a value: a function alone is called.
    #[inline(never)]
    pub fn as_value(
        &self,
        sink: &mut FirstRefusal,
        done: Done,
        denoted: Option<Denoted>,
        out: &mut Option<Value>,
    ) -> Done
        ensures { IfOk result (λ _. Behind done (Reports (with_part (settled (here_of self.now.scope)) (option_map denoted_of denoted)) sink.old sink.new (option_map value_of out.new))) }
    {
        done?;
        let made = match denoted {
            Some(denoted) => self.settled(sink, denoted)?,
            None => None,
        };
        put(out, made);
        Ok(())
    }

    pub fn settled(&self, sink: &mut FirstRefusal, denoted: Denoted) -> Valued
        ensures { IfOk result (λ v. Reports (settled (here_of self.now.scope) (denoted_of denoted)) sink.old sink.new (option_map value_of v)) }
    {
        let position = denoted.position;
        match denoted.what {
            Meant::Value(v) => Ok(Some(v)),
            Meant::TypeName(_) => Ok(refuse(sink, LanguageRule::WrongKindOfName, position.place)),
            what => {
                let denoted = Some(Denoted { position, what });
                let plan = self.plan_of(sink, false, &denoted, &[])?;
                Ok(self.call_value(plan, given_first(self.alloc, plan)))
            }
        }
    }

    /// Puts a member of a unit or of a value in its place.
    #[inline(never)]
    pub fn member_of(
        &self,
        sink: &mut FirstRefusal,
        name: &Name,
        denoted: &mut Option<Denoted>,
    ) -> Done
        ensures { IfOk result (λ _. Reports (with_part (member_of (here_of self.now.scope) name.now) (option_map denoted_of denoted.old)) sink.old sink.new (option_map denoted_of denoted.new)) }
    {
        let Some(front) = denoted.take() else {
            return Ok(());
        };
        match front.what {
            Meant::Unit(unit) => {
                let mut key = unit.into_vec();
                key.push(b'.')?;
                key.extend_from_slice(name.text.as_slice())?;
                let text = name.text.as_slice();
                self.name_denoted(sink, key.as_slice(), text, name.position, denoted)
            }
            what => {
                let position = front.position;
                let made = match self.settled(sink, Denoted { position, what })? {
                    Some(v) => field_of(self.alloc, self.scope.core, sink, name, v)?,
                    None => None,
                };
                put(denoted, made);
                Ok(())
            }
        }
    }

    /// Puts an element in its place, at an index that begins at a place, behind a bracket at another.
    #[inline(never)]
    pub fn indexed(
        &self,
        sink: &mut FirstRefusal,
        bracket: Place,
        at: Place,
        a: &mut Option<Value>,
        done: Done,
        index: Option<Value>,
    ) -> Done
        ensures { IfOk result (λ _. Behind done (Reports (indexed (here_of self.now.scope).core bracket at (option_map value_of a.old) (option_map value_of index)) sink.old sink.new (option_map value_of a.new))) }
    {
        done?;
        let made = self.element_at(sink, bracket, at, a.take(), index)?;
        put(a, made);
        Ok(())
    }

    fn element_at(
        &self,
        sink: &mut FirstRefusal,
        bracket: Place,
        at: Place,
        a: Option<Value>,
        index: Option<Value>,
    ) -> Valued
        ensures { IfOk result (λ v. Reports (indexed (here_of self.now.scope).core bracket at (option_map value_of a) (option_map value_of index)) sink.old sink.new (option_map value_of v)) }
    {
        let Some(a) = a else {
            return Ok(None);
        };
        let core = self.scope.core;
        let indexed = type_at(core, a.type_of());
        let Some(of) = index_types(indexed) else {
            return Ok(refuse(sink, LanguageRule::NotIndexed, bracket));
        };
        let Some(index) = index else {
            return Ok(None);
        };
        match index_at(self.alloc, core, sink, at, indexed, of.0, index)? {
            Some(index) => {
                let e = then(a.into_tree(self.alloc), Action::Index(index), of.1)?;
                Ok(Some(Value::Computed(e)))
            }
            None => Ok(None),
        }
    }
}
