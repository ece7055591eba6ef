//! First values of constants and variables (Free Pascal Reference Guide, "Typed constants").
ghost use Rattle.std.specs.Prelude.{◌≡◌, ◌<◌, ◌≤◌, ◌++◌, ℕ, suc, [], ◌∷◌, IfOk, IfErr, IfSome, List, MatchOption, length};
ghost use Rattle.op_base.specs.declared.place.Place.{Place};
ghost use Rattle.op_parse_code.proofs.Refusing.{Seq};
ghost use Rattle.op_parse_code.specs.Opening.{NotTighter};
ghost use Rattle.op_parse_code.specs.Refusal.{Decides, MadeOf, Refuses, RefusesBy, refused_at};
ghost use Rattle.op_parse_decl.specs.Refusal.{RefusesValue, Untold};
ghost use Rattle.op_parse_code.specs.Whole.{Chain, NoMark, Operand};
ghost use Rattle.op_parse_code.specs.declared.mark.Mark.TheVariants as mark;
ghost use Rattle.op_parse_decl.specs.Initials.{Around, AroundFirst, AroundOne, FitsItem, FitsRoom, InitialsBefore, RecordBehind, SomeValue, ValueOf, Within};
ghost use Rattle.op_parse_decl.specs.Types.{NoMoreExpression, SomeInitial};
ghost use Rattle.op_parse_decl.specs.declared.initializer.Room.TheVariants.{Left, Spent};
ghost use Rattle.op_scan.specs.declared.token.TokenKind.TheVariants as kind;
ghost use Rattle.op_tree.specs.Ends.{IsNot, Stops, binds};
ghost use Rattle.op_tree.specs.Expression.{Expression, expr_of, root_of};
ghost use Rattle.op_tree.specs.ExpressionGrammar.{IsRoot};
ghost use Rattle.op_tree.specs.Initial.{field_initials, initial_of, initials, list, record_, value};
ghost use Rattle.op_tree.specs.Lists.{field_initials_of, initials_of};
ghost use Rattle.op_tree.specs.Terminal.{Terminal, ◌at◌, terminals};
ghost use Rattle.op_tree.specs.declared.initializer.FieldInitializer.{FieldInitializer};
ghost use Rattle.op_tree.specs.declared.initializer.Initializer.{Initializer};
ghost use Rattle.op_tree.specs.declared.position.Name.{Name};
ghost use Rattle.op_tree.specs.declared.position.Position.{Position};

use crate::nodes::{list_node, name_alone, record_value_node, unread};
use crate::opening::begins_expression;
use crate::part::{Answer, Setting};
use crate::stops::stop_expression;
use op_base::Place;
use op_parse_code::ParseError;
use op_parse_code::shared::{
    Mark, after_mark, behind_mark, bracketed_node, chain, chain_node, designator_node, enter, name,
    nested, operations, position_of, selectors, syntax,
};
use op_scan::Token;
use op_tree::{Designator, Expr, FieldInitializer, Initializer, Level, Name, Position, Root};
use std::mem::replace;

/// How deep lists and records may stand in one another where brackets may be those of an expression.
#[derive(Clone, Copy)]
enum Room {
    /// So many counted parts may stand in one another there.
    Left(u32),
    /// The bracket at this place would already be too deep.
    Spent(Place),
}

/// A first value, before what belongs to no expression.
pub fn initial<'a>(setting: Setting, tokens: &'a [Token]) -> Answer<'a, Initializer>
    ensures whole { IfOk result (λ f. SomeInitial setting.left (initial_of f.0) (terminals tokens.now) (terminals f.1.now)) }
    ensures refused { IfErr result (RefusesValue SomeInitial setting.left setting.end (terminals tokens.now)) }
    ensures shorter { IfOk result (λ f. length f.1.now < length tokens.now) }
{
    let mut tree = unread(setting.end);
    let rest = read_initial(setting, &mut tree, tokens)?;
    Ok((tree, rest))
}

/// The same into a place of the caller's, so that lists and records within one another keep no first values on the stack.
#[cycle(initializer)]
#[inline(never)]
fn read_initial<'a>(
    setting: Setting,
    tree: &mut Initializer,
    tokens: &'a [Token],
) -> Result<&'a [Token], ParseError>
    ensures whole { IfOk result (λ rest. SomeInitial setting.left (initial_of tree.new) (terminals tokens.now) (terminals rest.now)) }
    ensures refused { IfErr result (RefusesValue SomeInitial setting.left setting.end (terminals tokens.now)) }
    ensures shorter { IfOk result (λ rest. length rest.now < length tokens.now) }
{
    let Some((first, _)) = tokens.split_first() else {
        return Err(syntax(setting.end, tokens));
    };
    if !begins_expression(&first.kind) {
        return Err(syntax(setting.end, tokens));
    }
    let left = enter(setting.left, setting.end, tokens)?;
    in_brackets(
        Setting { left, ..setting },
        Room::Left(setting.left),
        tree,
        tokens,
    )
}

/// A first value inside of brackets that may be those of an expression or of lists: what follows tells. `left` is the depth
/// for an expression, `room` that for a list or a record.
#[cycle(initializer)]
#[inline(never)]
fn in_brackets<'a>(
    setting: Setting,
    room: Room,
    tree: &mut Initializer,
    tokens: &'a [Token],
) -> Result<&'a [Token], ParseError>
    ensures whole { IfOk result (λ rest. Around room setting.left (terminals tokens.now) (λ k. Within k setting.left (initial_of tree.new) (terminals tokens.now) (terminals rest.now))) }
    ensures refused { IfErr result (λ e. Around room setting.left (terminals tokens.now) (λ k. RefusesValue (Within k) setting.left setting.end (terminals tokens.now) e)) }
    ensures shorter { IfOk result (λ rest. length rest.now < length tokens.now) }
{
    match behind_bracket(tokens) {
        None => value(setting, tree, tokens),
        Some((position, inside)) => {
            let left = enter(setting.left, setting.end, tokens)?;
            let room = inside_bracket(room, position);
            let rest = in_brackets(Setting { left, ..setting }, room, tree, inside)?;
            match behind_mark(Mark::CloseParenthesis, rest) {
                Some(after) => closed(setting, position, tree, after),
                None => list_or_record(setting, position, tree, room, inside, rest),
            }
        }
    }
}

/// The position of an opening bracket at the front, and what stands behind it.
fn behind_bracket(tokens: &[Token]) -> Option<(Position, &[Token])>
    ensures bracket { MatchOption result (NoMark mark.OpenParenthesis (terminals tokens.now)) (λ f. terminals tokens.now ≡ kind.OpenParenthesis at f.0 ∷ terminals f.1.now) }
    ensures shorter { IfSome result (λ f. length f.1.now < length tokens.now) }
{
    let inside = behind_mark(Mark::OpenParenthesis, tokens)?;
    let (first, _) = tokens.split_first()?;
    Some((position_of(first), inside))
}

/// The room inside a bracket that stands there.
fn inside_bracket(room: Room, bracket: Position) -> Room
    ensures { (k d : ℕ) (ks : List Terminal) → FitsRoom room k (suc d) (kind.OpenParenthesis at bracket ∷ ks) → FitsRoom result (suc k) d ks }
{
    match room {
        Room::Left(left) => {
            if left < 2 {
                Room::Spent(bracket.place)
            } else {
                Room::Left(left - 2)
            }
        }
        Room::Spent(place) => Room::Spent(place),
    }
}

/// The depth that is left for each part of a list or record.
fn listed(room: Room) -> Result<u32, ParseError>
    ensures left { IfOk result (λ l. room ≡ Left l) }
    ensures refused { IfErr result (λ e. (place : Place) × (room ≡ Spent place) × (e ≡ refused_at 61 0 place [])) }
{
    match room {
        Room::Left(left) => Ok(left),
        Room::Spent(place) => Err(nested(place, &[])),
    }
}

/// An expression, before what belongs to none.
#[inline(never)]
fn value<'a>(
    setting: Setting,
    tree: &mut Initializer,
    tokens: &'a [Token],
) -> Result<&'a [Token], ParseError>
    ensures whole { IfOk result (λ rest. (x : Expression) × (initial_of tree.new ≡ value x) × SomeValue setting.left x (terminals tokens.now) (terminals rest.now)) }
    ensures refused { IfErr result (Refuses SomeValue setting.left setting.end (terminals tokens.now)) }
    ensures shorter { IfOk result (λ rest. length rest.now < length tokens.now) }
{
    let (value, rest) = chain(
        setting.alloc,
        Level::Relational,
        setting.left,
        setting.end,
        tokens,
    )?;
    stop_expression(setting.end, rest)?;
    *tree = Initializer::Value(value);
    Ok(rest)
}

/// What a first value and brackets round it are: the expression in brackets, with what belongs to it, or a list of one.
#[inline(never)]
fn closed<'a>(
    setting: Setting,
    position: Position,
    tree: &mut Initializer,
    tokens: &'a [Token],
) -> Result<&'a [Token], ParseError>
    ensures whole { IfOk result (λ rest. AroundOne position setting.left (initial_of tree.old) (terminals tokens.now) (λ k ks. Within k setting.left (initial_of tree.new) ks (terminals rest.now))) }
    ensures refused { IfErr result (λ e. AroundOne position setting.left (initial_of tree.old) (terminals tokens.now) (λ k ks. RefusesValue (Within k) setting.left setting.end ks e)) }
    ensures shorter { IfOk result (λ rest. length rest.now ≤ length tokens.now) }
{
    match replace(tree, unread(setting.end)) {
        Initializer::Value(expression) => {
            let root = bracketed_node(setting.alloc, position, expression)?;
            let (value, rest) = behind_root(setting, root, tokens)?;
            *tree = Initializer::Value(value);
            Ok(rest)
        }
        item => {
            stop_expression(setting.end, tokens)?;
            let list = list_node(position, item, Vec::new(setting.alloc))?;
            *tree = list;
            Ok(tokens)
        }
    }
}

/// A list or a record, from what follows the first value in its brackets, which is no closing bracket.
#[cycle(initializer)]
#[inline(never)]
fn list_or_record<'a>(
    setting: Setting,
    position: Position,
    tree: &mut Initializer,
    room: Room,
    inside: &'a [Token],
    tokens: &'a [Token],
) -> Result<&'a [Token], ParseError>
    requires closes { NoMark mark.CloseParenthesis (terminals tokens.now) }
    ensures whole { IfOk result (λ rest. AroundFirst position room (initial_of tree.old) (terminals inside.now) (terminals tokens.now) (λ k d ks. Within k d (initial_of tree.new) ks (terminals rest.now))) }
    ensures refused { IfErr result (λ e. AroundFirst position room (initial_of tree.old) (terminals inside.now) (terminals tokens.now) (λ k d ks. RefusesValue (Within k) d setting.end ks e)) }
    ensures shorter { IfOk result (λ rest. length rest.now < length tokens.now) }
{
    match behind_mark(Mark::Colon, tokens) {
        Some(after) => {
            let Some(name) = name_alone(setting.end, tree) else {
                return Err(syntax(setting.end, tokens));
            };
            let left = listed(room)?;
            let mut others = Vec::new(setting.alloc);
            let read = fields(Setting { left, ..setting }, tree, &mut others, after);
            record(setting.end, position, name, tree, others, read)
        }
        None => {
            let after = after_mark(Mark::Comma, setting.end, tokens)?;
            let left = listed(room)?;
            let setting = Setting { left, ..setting };
            fits(setting, tree, inside)?;
            let mut others = Vec::new(setting.alloc);
            let read = items(setting, &mut others, after);
            list(setting.end, position, tree, others, read)
        }
    }
}

/// An expression at the front is not too deep for an item of a list: that is seen when it is read again, to that depth.
#[inline(never)]
fn fits(setting: Setting, first: &Initializer, tokens: &[Token]) -> Result<(), ParseError>
    ensures fits { IfOk result (λ _. FitsItem setting.left (initial_of first.now) (terminals tokens.now)) }
    ensures refused { IfErr result (λ e. (x : Expression) × (initial_of first.now ≡ value x) × RefusesBy Decides Untold ValueOf setting.left setting.end (terminals tokens.now) e) }
{
    match first {
        Initializer::Value(_) => {
            let left = enter(setting.left, setting.end, tokens)?;
            let mut again = unread(setting.end);
            value(Setting { left, ..setting }, &mut again, tokens)?;
            Ok(())
        }
        _ => Ok(()),
    }
}

/// The items of a list behind its first one and a comma, up to the closing bracket, and what stands behind it.
#[cycle(initializer)]
#[inline(never)]
fn items<'a>(
    setting: Setting,
    items: &mut Vec<Initializer>,
    tokens: &'a [Token],
) -> Result<&'a [Token], ParseError>
    ensures whole { IfOk result (λ rest. (read : List Initializer) × (items.new.items ≡ items.old.items ++ read) × InitialsBefore setting.left (initials_of read) (terminals tokens.now) (terminals rest.now) × Stops (terminals rest.now)) }
    ensures refused { IfErr result (RefusesValue (Seq InitialsBefore NoMoreExpression) setting.left setting.end (terminals tokens.now)) }
    ensures shorter { IfOk result (λ rest. length rest.now < length tokens.now) }
{
    let mut rest = tokens;
    loop {
        let mut item = unread(setting.end);
        let read = read_initial(setting, &mut item, rest);
        let behind = append(items, item, read)?;
        match behind_mark(Mark::Comma, behind) {
            Some(after) => rest = after,
            None => {
                let rest = after_mark(Mark::CloseParenthesis, setting.end, behind)?;
                stop_expression(setting.end, rest)?;
                return Ok(rest);
            }
        }
    }
}

/// The value of a record's first field, which is put into a place of the caller's, and the fields behind it, up to the closing
/// bracket, and what stands behind it.
#[cycle(initializer)]
#[inline(never)]
fn fields<'a>(
    setting: Setting,
    tree: &mut Initializer,
    others: &mut Vec<FieldInitializer>,
    tokens: &'a [Token],
) -> Result<&'a [Token], ParseError>
    ensures whole { IfOk result (λ rest. (read : List FieldInitializer) × (others.new.items ≡ others.old.items ++ read) × ((n : Name) (q : Position) → RecordBehind n q setting.left (field_initials n (initial_of tree.new) (field_initials_of read)) (terminals tokens.now) (terminals rest.now))) }
    ensures refused { IfErr result (λ e. (n : Name) (q : Position) → RefusesValue (RecordBehind n q) setting.left setting.end (terminals tokens.now) e) }
    ensures shorter { IfOk result (λ rest. length rest.now < length tokens.now) }
{
    let mut rest = read_initial(setting, tree, tokens)?;
    while let Some(after) = behind_mark(Mark::Semicolon, rest) {
        let (name, behind) = name(setting.alloc, setting.end, after)?;
        let behind = after_mark(Mark::Colon, setting.end, behind)?;
        let value = unread(setting.end);
        let mut field = FieldInitializer { name, value };
        let read = read_initial(setting, &mut field.value, behind);
        rest = append(others, field, read)?;
    }
    let rest = after_mark(Mark::CloseParenthesis, setting.end, rest)?;
    stop_expression(setting.end, rest)?;
    Ok(rest)
}

/// Puts a part that was read behind those of a list.
#[inline(never)]
fn append<'a, T: Drop>(
    list: &mut Vec<T>,
    part: T,
    read: Result<&'a [Token], ParseError>,
) -> Result<&'a [Token], ParseError>
    ensures { MadeOf (λ behind rest. (list.new.items ≡ list.old.items ++ (part ∷ [])) × (rest.now ≡ behind.now)) read.entry result }
{
    match read {
        Ok(rest) => {
            list.push(part)?;
            Ok(rest)
        }
        Err(error) => Err(error),
    }
}

/// Makes the list of a first item and others that were read.
#[inline(never)]
fn list<'a>(
    end: Place,
    position: Position,
    tree: &mut Initializer,
    others: Vec<Initializer>,
    read: Result<&'a [Token], ParseError>,
) -> Result<&'a [Token], ParseError>
    ensures { MadeOf (λ behind rest. (initial_of tree.new ≡ list position (initials (initial_of tree.old) (initials_of others.items))) × (rest.now ≡ behind.now)) read.entry result }
{
    match read {
        Ok(rest) => {
            let first = replace(tree, unread(end));
            let list = list_node(position, first, others)?;
            *tree = list;
            Ok(rest)
        }
        Err(error) => Err(error),
    }
}

/// Makes the record of a first field, its value where the record comes to be, and others that were read.
#[inline(never)]
fn record<'a>(
    end: Place,
    position: Position,
    name: Name,
    tree: &mut Initializer,
    others: Vec<FieldInitializer>,
    read: Result<&'a [Token], ParseError>,
) -> Result<&'a [Token], ParseError>
    ensures { MadeOf (λ behind rest. (initial_of tree.new ≡ record_ position (field_initials name (initial_of tree.old) (field_initials_of others.items))) × (rest.now ≡ behind.now)) read.entry result }
{
    match read {
        Ok(rest) => {
            let value = replace(tree, unread(end));
            let record = record_value_node(position, FieldInitializer { name, value }, others)?;
            *tree = record;
            Ok(rest)
        }
        Err(error) => Err(error),
    }
}

/// The expression that begins with a root in brackets, from the tokens behind the root.
fn behind_root<'a>(setting: Setting, root: Root, tokens: &'a [Token]) -> Answer<'a, Expr>
    ensures whole { IfOk result (λ f. (ks : List Terminal) → IsRoot setting.left (root_of root) ks (terminals tokens.now) → SomeValue setting.left (expr_of f.0) ks (terminals f.1.now)) }
    ensures refused { IfErr result (λ e. (ks : List Terminal) → IsRoot setting.left (root_of root) ks (terminals tokens.now) → Refuses SomeValue setting.left setting.end ks e) }
    ensures shorter { IfOk result (λ f. length f.1.now ≤ length tokens.now) }
{
    let (selectors, rest) = selectors(setting.alloc, setting.left, setting.end, tokens)?;
    let factor = designator_node(Designator { root, selectors });
    let (term, rest) = behind_operand(setting, Level::Multiplicative, factor, rest)?;
    let (simple, rest) = behind_operand(setting, Level::Additive, term, rest)?;
    let (value, rest) = behind_operand(setting, Level::Relational, simple, rest)?;
    stop_expression(setting.end, rest)?;
    Ok((value, rest))
}

/// The chain of a level that begins with an operand, from the tokens behind the operand.
fn behind_operand<'a>(
    setting: Setting,
    level: Level,
    first: Expr,
    tokens: &'a [Token],
) -> Answer<'a, Expr>
    requires follows { NotTighter level (terminals tokens.now) }
    ensures whole { IfOk result (λ f. (ks : List Terminal) → Operand level setting.left (expr_of first) ks (terminals tokens.now) → Chain level setting.left (expr_of f.0) ks (terminals f.1.now)) }
    ensures refused { IfErr result (λ e. (ks : List Terminal) → Operand level setting.left (expr_of first) ks (terminals tokens.now) → Refuses (Chain level) setting.left setting.end ks e) }
    ensures ends { IfOk result (λ f. IsNot (binds level) (terminals f.1.now)) }
    ensures shorter { IfOk result (λ f. length f.1.now ≤ length tokens.now) }
{
    let (others, rest) = operations(setting.alloc, level, setting.left, setting.end, tokens)?;
    let chain = chain_node(setting.alloc, first, others)?;
    Ok((chain, rest))
}
