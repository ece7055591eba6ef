//! The print of statements.
ghost use Rattle.std.specs.Prelude.{◌≡◌, Option, IfOk};
ghost use Rattle.op_print.specs.ExpressionDrafts.{element_drafts, expression_draft};
ghost use Rattle.op_print.specs.Page.{after, indented, line, optional, separated, tight, word, ◌&◌};
ghost use Rattle.op_print.specs.Spelling.{spelling};
ghost use Rattle.op_print.specs.StatementDrafts.{begun, block_draft, branches_draft, direction_kind, handlers_draft, on_draft, statement_draft, statement_drafts, variable_draft};
ghost use Rattle.op_scan.specs.declared.token.TokenKind.TheVariants as kind;
ghost use Rattle.op_tree.specs.Expression.{expr_of};
ghost use Rattle.op_tree.specs.Lists.{branches_of, handlers_of};
ghost use Rattle.op_tree.specs.Statement.{elements_of, stmt_of, stmts_of};

use crate::expression::{designator, elements, expression};
use crate::name::{name, qualified_name};
use crate::printer::{Printer, indent, line, outdent, tight, word, word_at};
use op_base::NoMemory;
use op_tree::{Branch, Direction, Expr, Handler, Name, QualifiedName, Stmt};

fn direction_word(direction: Direction) -> &'static [u8]
    ensures { result.now ≡ spelling (direction_kind direction) }
{
    match direction {
        Direction::To => b"to",
        Direction::Downto => b"downto",
    }
}

fn handler_variable(page: &mut Printer, variable: &Option<Name>) -> Result<(), NoMemory>
    ensures { IfOk result (λ _. page.new ≡ after page.old (optional variable_draft variable.now)) }
{
    match variable {
        None => Ok(()),
        Some(variable) => print_all!(page: name(variable), tight(b":")),
    }
}

/// `on variable: class do`, on a line of its own
fn on(page: &mut Printer, variable: &Option<Name>, class: &QualifiedName) -> Result<(), NoMemory>
    ensures { IfOk result (λ _. page.new ≡ after page.old (on_draft variable.now class.now)) }
{
    print_all!(page:
        line(), word(b"on"), handler_variable(variable), qualified_name(class), word(b"do"))
}

/// `case selector of`
fn case_head(page: &mut Printer, selector: &Expr) -> Result<(), NoMemory>
    ensures { IfOk result (λ _. page.new ≡ after page.old (word kind.Case & expression_draft (expr_of selector.now) & word kind.Of)) }
{
    print_all!(page: word(b"case"), expression(selector), word(b"of"))
}

/// A statement begins a line where it has a token.
fn begin_line(page: &mut Printer, stmt: &Stmt) -> Result<(), NoMemory>
    ensures { IfOk result (λ _. page.new ≡ after page.old (begun (stmt_of stmt.now))) }
{
    match stmt {
        Stmt::Empty => Ok(()),
        _ => line(page),
    }
}

#[cycle(statement)]
fn statement(page: &mut Printer, stmt: &Stmt) -> Result<(), NoMemory>
    ensures { IfOk result (λ _. page.new ≡ after page.old (statement_draft (stmt_of stmt.now))) }
{
    match stmt {
        Stmt::Empty => Ok(()),
        Stmt::Block(list) => print_all!(page: word(b"begin"), block_end(list)),
        Stmt::If { condition, then } => {
            print_all!(page: word(b"if"), expression(condition), word(b"then"), statement(then))
        }
        Stmt::IfElse {
            condition,
            then,
            otherwise,
        } => {
            print_all!(page:
                word(b"if"), expression(condition), word(b"then"), statement(then), word(b"else"),
                statement(otherwise))
        }
        Stmt::Case {
            selector,
            branches: list,
        } => print_all!(page: case_head(selector), branches(list), word(b"end")),
        Stmt::CaseElse {
            selector,
            branches: list,
            otherwise,
        } => {
            print_all!(page:
                case_head(selector), branches(list), word(b"else"), block_end(otherwise))
        }
        Stmt::While { condition, body } => {
            print_all!(page: word(b"while"), expression(condition), word(b"do"), statement(body))
        }
        Stmt::Repeat { body, condition } => {
            print_all!(page: word(b"repeat"), block(body), word(b"until"), expression(condition))
        }
        Stmt::For {
            variable,
            first,
            direction,
            last,
            body,
        } => {
            print_all!(page:
                word(b"for"), name(variable), word(b":="), expression(first),
                word(direction_word(*direction)), expression(last), word(b"do"), statement(body))
        }
        Stmt::ForIn {
            variable,
            collection,
            body,
        } => {
            print_all!(page:
                word(b"for"), name(variable), word(b"in"), expression(collection), word(b"do"),
                statement(body))
        }
        Stmt::TryFinally { body, finalization } => {
            print_all!(page: guarded(body), word(b"finally"), block_end(finalization))
        }
        Stmt::TryExcept { body, handler } => {
            print_all!(page: guarded(body), word(b"except"), block_end(handler))
        }
        Stmt::TryOn {
            body,
            handlers: list,
        } => print_all!(page: guarded(body), handlers(list), word(b"end")),
        Stmt::TryOnElse {
            body,
            handlers: list,
            otherwise,
        } => {
            print_all!(page: guarded(body), handlers(list), word(b"else"), block_end(otherwise))
        }
        Stmt::Raise {
            position,
            exception,
        } => print_all!(page: word_at(position.switches, b"raise"), expression(exception)),
        Stmt::Reraise { position } => word_at(page, position.switches, b"raise"),
        Stmt::Inherited { position } => word_at(page, position.switches, b"inherited"),
        Stmt::InheritedCall { position, call } => {
            print_all!(page: word_at(position.switches, b"inherited"), designator(call))
        }
        Stmt::Call(call) => designator(page, call),
        Stmt::Assign {
            target,
            position,
            value,
        } => {
            print_all!(page: designator(target), word_at(position.switches, b":="), expression(value))
        }
    }
}

/// Statements further in, with semicolons between them. What follows begins a line.
#[cycle(statement)]
pub fn block(page: &mut Printer, list: &[Stmt]) -> Result<(), NoMemory>
    ensures { IfOk result (λ _. page.new ≡ after page.old (block_draft (statement_drafts (stmts_of list.now)))) }
{
    print_all!(page: indent(), statements(list), outdent(), line())
}

/// The same up to `end`.
#[cycle(statement)]
fn block_end(page: &mut Printer, list: &[Stmt]) -> Result<(), NoMemory>
    ensures { IfOk result (λ _. page.new ≡ after page.old (block_draft (statement_drafts (stmts_of list.now)) & word kind.End)) }
{
    print_all!(page: block(list), word(b"end"))
}

/// `try` and statements, further in.
#[cycle(statement)]
fn guarded(page: &mut Printer, list: &[Stmt]) -> Result<(), NoMemory>
    ensures { IfOk result (λ _. page.new ≡ after page.old (word kind.Try_ & block_draft (statement_drafts (stmts_of list.now)))) }
{
    print_all!(page: word(b"try"), block(list))
}

/// Statements with semicolons between them.
#[cycle(statement)]
fn statements(page: &mut Printer, list: &[Stmt]) -> Result<(), NoMemory>
    ensures { IfOk result (λ _. page.new ≡ after page.old (separated kind.Semicolon (statement_drafts (stmts_of list.now)))) }
{
    print_separated!(page, b";", list, on_line)
}

#[cycle(statement)]
fn on_line(page: &mut Printer, stmt: &Stmt) -> Result<(), NoMemory>
    ensures { IfOk result (λ _. page.new ≡ after page.old (begun (stmt_of stmt.now) & statement_draft (stmt_of stmt.now))) }
{
    print_all!(page: begin_line(stmt), statement(stmt))
}

/// The branches of a case, further in. What follows begins a line.
#[cycle(statement)]
fn branches(page: &mut Printer, list: &[Branch]) -> Result<(), NoMemory>
    ensures { IfOk result (λ _. page.new ≡ after page.old (indented (branches_draft (branches_of list.now)))) }
{
    indent(page)?;
    for each in list {
        branch(page, each)?;
    }
    print_all!(page: outdent(), line())
}

#[cycle(statement)]
fn branch(page: &mut Printer, branch: &Branch) -> Result<(), NoMemory>
    ensures { IfOk result (λ _. page.new ≡ after page.old (line & separated kind.Comma (element_drafts (elements_of branch.now.labels.items)) & tight kind.Colon & statement_draft (stmt_of branch.now.body) & tight kind.Semicolon)) }
{
    print_all!(page:
        line(), elements(&branch.labels), tight(b":"), statement(&branch.body), tight(b";"))
}

/// `except` and handlers, further in. What follows begins a line.
#[cycle(statement)]
fn handlers(page: &mut Printer, list: &[Handler]) -> Result<(), NoMemory>
    ensures { IfOk result (λ _. page.new ≡ after page.old (word kind.Except & indented (handlers_draft (handlers_of list.now)))) }
{
    word(page, b"except")?;
    indent(page)?;
    for each in list {
        handler(page, each)?;
    }
    print_all!(page: outdent(), line())
}

#[cycle(statement)]
fn handler(page: &mut Printer, handler: &Handler) -> Result<(), NoMemory>
    ensures { IfOk result (λ _. page.new ≡ after page.old (on_draft handler.now.variable handler.now.class & statement_draft (stmt_of handler.now.body) & tight kind.Semicolon)) }
{
    print_all!(page: on(&handler.variable, &handler.class), statement(&handler.body), tight(b";"))
}
