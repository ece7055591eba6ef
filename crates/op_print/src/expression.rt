//! The print of expressions.
ghost use Rattle.std.specs.Prelude.{◌≡◌, IfOk};
ghost use Rattle.op_print.specs.ExpressionDrafts.{argument_draft, argument_drafts, designator_draft, element_draft, element_drafts, expression_draft, expression_drafts, operations_draft, operator_kind, prefix_kind, root_draft, selector_draft, selectors_draft};
ghost use Rattle.op_print.specs.Page.{after, separated};
ghost use Rattle.op_print.specs.Spelling.{spelling};
ghost use Rattle.op_scan.specs.declared.token.TokenKind.TheVariants as kind;
ghost use Rattle.op_tree.specs.Expression.{argument_of, element_of, expr_of, root_of, selector_of};
ghost use Rattle.op_tree.specs.Lists.{arguments_of, expressions_of, operations_of};
ghost use Rattle.op_tree.specs.Statement.{designator_of, elements_of, selectors_of};

use crate::name::name;
use crate::printer::{Printer, number, string_at, tight, tight_at, word, word_at};
use op_base::NoMemory;
use op_tree::{
    Argument, Designator, Element, Expr, Operation, Operator, PrefixOperator, Root, Selector,
};

fn operator_word(operator: Operator) -> &'static [u8]
    ensures { result.now ≡ spelling (operator_kind operator) }
{
    match operator {
        Operator::Equal => b"=",
        Operator::NotEqual => b"<>",
        Operator::Less => b"<",
        Operator::Greater => b">",
        Operator::LessEqual => b"<=",
        Operator::GreaterEqual => b">=",
        Operator::In_ => b"in",
        Operator::Is => b"is",
        Operator::Add => b"+",
        Operator::Subtract => b"-",
        Operator::Or => b"or",
        Operator::Xor => b"xor",
        Operator::Multiply => b"*",
        Operator::Slash => b"/",
        Operator::Div => b"div",
        Operator::Mod_ => b"mod",
        Operator::And => b"and",
        Operator::Shl => b"shl",
        Operator::Shr => b"shr",
        Operator::As_ => b"as",
    }
}

fn prefix_word(operator: PrefixOperator) -> &'static [u8]
    ensures { result.now ≡ spelling (prefix_kind operator) }
{
    match operator {
        PrefixOperator::Not => b"not",
        PrefixOperator::Plus => b"+",
        PrefixOperator::Minus => b"-",
    }
}

#[cycle(expression)]
pub fn expression(page: &mut Printer, expr: &Expr) -> Result<(), NoMemory>
    ensures { IfOk result (λ _. page.new ≡ after page.old (expression_draft (expr_of expr.now))) }
{
    match expr {
        Expr::Chain { first, rest } => print_all!(page: expression(first), operations(rest)),
        Expr::Prefix {
            operator,
            position,
            operand,
        } => {
            print_all!(page: word_at(position.switches, prefix_word(*operator)), expression(operand))
        }
        Expr::Number { value, position } => number(page, position.switches, *value),
        Expr::Nil { position } => word_at(page, position.switches, b"nil"),
        Expr::Set {
            position,
            elements: list,
        } => print_all!(page: word_at(position.switches, b"["), elements(list), tight(b"]")),
        Expr::Literal {
            text,
            position,
            selectors: list,
        } => print_all!(page: string_at(position.switches, text.as_slice()), selectors(list)),
        Expr::Designator(called) => designator(page, called),
        Expr::Inherited {
            position,
            designator: called,
        } => print_all!(page: word_at(position.switches, b"inherited"), designator(called)),
    }
}

#[cycle(expression)]
fn operations(page: &mut Printer, list: &[Operation]) -> Result<(), NoMemory>
    ensures { IfOk result (λ _. page.new ≡ after page.old (operations_draft (operations_of list.now))) }
{
    for each in list {
        word_at(page, each.position.switches, operator_word(each.operator))?;
        expression(page, &each.operand)?;
    }
    Ok(())
}

#[cycle(expression)]
pub fn designator(page: &mut Printer, called: &Designator) -> Result<(), NoMemory>
    ensures { IfOk result (λ _. page.new ≡ after page.old (designator_draft (designator_of called.now))) }
{
    print_all!(page: root(&called.root), selectors(&called.selectors))
}

#[cycle(expression)]
fn root(page: &mut Printer, root: &Root) -> Result<(), NoMemory>
    ensures { IfOk result (λ _. page.new ≡ after page.old (root_draft (root_of root.now))) }
{
    match root {
        Root::Named(named) => name(page, named),
        Root::String { position } => word_at(page, position.switches, b"string"),
        Root::Bracketed { position, inside } => {
            print_all!(page: word_at(position.switches, b"("), expression(inside), tight(b")"))
        }
    }
}

#[cycle(expression)]
fn selectors(page: &mut Printer, list: &[Selector]) -> Result<(), NoMemory>
    ensures { IfOk result (λ _. page.new ≡ after page.old (selectors_draft (selectors_of list.now))) }
{
    for each in list {
        selector(page, each)?;
    }
    Ok(())
}

#[cycle(expression)]
fn selector(page: &mut Printer, selector: &Selector) -> Result<(), NoMemory>
    ensures { IfOk result (λ _. page.new ≡ after page.old (selector_draft (selector_of selector.now))) }
{
    match selector {
        Selector::Member(name) => {
            print_all!(page: tight(b"."), tight_at(name.position.switches, name.text.as_slice()))
        }
        Selector::Index { position, indices } => {
            print_all!(page: tight_at(position.switches, b"["), expressions(indices), tight(b"]"))
        }
        Selector::Call { arguments: list } =>
            print_all!(page: tight(b"("), arguments(list), tight(b")")),
    }
}

#[cycle(expression)]
fn expressions(page: &mut Printer, list: &[Expr]) -> Result<(), NoMemory>
    ensures { IfOk result (λ _. page.new ≡ after page.old (separated kind.Comma (expression_drafts (expressions_of list.now)))) }
{
    print_separated!(page, b",", list, expression)
}

#[cycle(expression)]
pub fn elements(page: &mut Printer, list: &[Element]) -> Result<(), NoMemory>
    ensures { IfOk result (λ _. page.new ≡ after page.old (separated kind.Comma (element_drafts (elements_of list.now)))) }
{
    print_separated!(page, b",", list, element)
}

#[cycle(expression)]
fn element(page: &mut Printer, element: &Element) -> Result<(), NoMemory>
    ensures { IfOk result (λ _. page.new ≡ after page.old (element_draft (element_of element.now))) }
{
    match element {
        Element::One(one) => expression(page, one),
        Element::Range(first, last) =>
            print_all!(page: expression(first), word(b".."), expression(last)),
    }
}

#[cycle(expression)]
fn arguments(page: &mut Printer, list: &[Argument]) -> Result<(), NoMemory>
    ensures { IfOk result (λ _. page.new ≡ after page.old (separated kind.Comma (argument_drafts (arguments_of list.now)))) }
{
    print_separated!(page, b",", list, argument)
}

#[cycle(expression)]
fn argument(page: &mut Printer, argument: &Argument) -> Result<(), NoMemory>
    ensures { IfOk result (λ _. page.new ≡ after page.old (argument_draft (argument_of argument.now))) }
{
    match argument {
        Argument::Value(value) => expression(page, value),
        Argument::Padded(value, width) =>
            print_all!(page: expression(value), tight(b":"), expression(width)),
        Argument::Rounded(value, width, digits) => {
            print_all!(page: expression(value), tight(b":"), expression(width), tight(b":"), expression(digits))
        }
    }
}
