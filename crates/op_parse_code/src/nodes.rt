//! The nodes of expressions, from their parts.
ghost use Rattle.std.specs.Prelude.{◌≡◌, ◌∷◌, ◌++◌, [], IfOk};
ghost use Rattle.op_parse_code.specs.Refusal.{MadeOf};
ghost use Rattle.op_tree.specs.Expression.{bracketed, call, designated, element_of, expr_of, index, inherited, literal, prefixed, range, root_of, selector_of, set};
ghost use Rattle.op_tree.specs.ExpressionGrammar.{chain_of};
ghost use Rattle.op_tree.specs.Lists.{arguments_of, expressions_of, operations_of};
ghost use Rattle.op_tree.specs.Statement.{designator_of, elements_of, selectors_of};

use crate::ParseError;
use op_base::NoMemory;
use op_scan::{CompactText, Token};
use op_tree::{
    Argument, Designator, Element, Expr, Operation, Position, PrefixOperator, Root, Selector,
};
use std::alloc::Global;

/// The list in a block of its own size, where there is room for one.
pub fn fitted<T>(list: Vec<T>) -> Vec<T>
    ensures { result.items ≡ list.items }
{
    let mut list = list;
    list.shrink_to_fit();
    list
}

/// Puts a value behind those of a list.
#[inline(never)]
pub fn append<T: Drop>(list: &mut Vec<T>, value: T) -> Result<(), NoMemory>
    ensures { IfOk result (λ _. list.new.items ≡ list.old.items ++ (value ∷ [])) }
{
    list.push(value)?;
    Ok(())
}

/// Puts a value that was read behind those of a list.
#[inline(never)]
pub fn appended<'a, T: Drop>(
    read: Result<&'a [Token], ParseError>,
    list: &mut Vec<T>,
    value: T,
) -> Result<&'a [Token], ParseError>
    ensures { MadeOf (λ behind rest. (list.new.items ≡ list.old.items ++ (value ∷ [])) × (rest.now ≡ behind.now)) read.entry result }
{
    match read {
        Ok(rest) => {
            list.push(value)?;
            Ok(rest)
        }
        Err(error) => Err(error),
    }
}

/// An operand and the operations that follow it; where none does, the operand itself.
pub fn chain_node(alloc: Global, first: Expr, rest: Vec<Operation>) -> Result<Expr, NoMemory>
    ensures { IfOk result (λ e. expr_of e ≡ chain_of (expr_of first) (operations_of rest.items)) }
{
    if rest.is_empty() {
        return Ok(first);
    }
    let first = Box::new(alloc, first)?;
    let rest = fitted(rest);
    Ok(Expr::Chain { first, rest })
}

pub fn prefix_node(
    alloc: Global,
    operator: PrefixOperator,
    position: Position,
    operand: Expr,
) -> Result<Expr, NoMemory>
    ensures { IfOk result (λ e. expr_of e ≡ prefixed operator position (expr_of operand)) }
{
    let operand = Box::new(alloc, operand)?;
    Ok(Expr::Prefix {
        operator,
        position,
        operand,
    })
}

pub fn set_node(position: Position, elements: Vec<Element>) -> Expr
    ensures { expr_of result ≡ set position (elements_of elements.items) }
{
    let elements = fitted(elements);
    Expr::Set { position, elements }
}

pub fn literal_node(text: CompactText, position: Position, selectors: Vec<Selector>) -> Expr
    ensures { expr_of result ≡ literal text position (selectors_of selectors.items) }
{
    let selectors = fitted(selectors);
    Expr::Literal {
        text,
        position,
        selectors,
    }
}

pub fn designator_node(designator: Designator) -> Expr
    ensures { expr_of result ≡ designated (designator_of designator) }
{
    Expr::Designator(designator)
}

pub fn inherited_node(
    alloc: Global,
    position: Position,
    designator: Designator,
) -> Result<Expr, NoMemory>
    ensures { IfOk result (λ e. expr_of e ≡ inherited position (designator_of designator)) }
{
    let designator = Box::new(alloc, designator)?;
    Ok(Expr::Inherited {
        position,
        designator,
    })
}

#[inline(never)]
pub fn range_node(alloc: Global, first: Expr, last: Box<Expr>) -> Result<Element, NoMemory>
    ensures { IfOk result (λ e. element_of e ≡ range (expr_of first) (expr_of last.value)) }
{
    let first = Box::new(alloc, first)?;
    Ok(Element::Range(first, last))
}

pub fn bracketed_node(alloc: Global, position: Position, inside: Expr) -> Result<Root, NoMemory>
    ensures { IfOk result (λ root. root_of root ≡ bracketed position (expr_of inside)) }
{
    let inside = Box::new(alloc, inside)?;
    Ok(Root::Bracketed { position, inside })
}

pub fn index_node(position: Position, indices: Vec<Expr>) -> Selector
    ensures { selector_of result ≡ index position (expressions_of indices.items) }
{
    let indices = fitted(indices);
    Selector::Index { position, indices }
}

pub fn call_node(arguments: Vec<Argument>) -> Selector
    ensures { selector_of result ≡ call (arguments_of arguments.items) }
{
    let arguments = fitted(arguments);
    Selector::Call { arguments }
}
