//! The print of lists.
ghost use Rattle.std.specs.Prelude.{◌≡◌, List, IfOk, map};
ghost use Rattle.op_print.specs.Page.{Draft, after, each, enclosed, ended, separated};
ghost use Rattle.op_print.specs.Spelling.{spelling};
ghost use Rattle.op_scan.specs.declared.token.TokenKind.{TokenKind};
ghost use Rattle.op_scan.specs.declared.token.TokenKind.TheVariants as kind;

use crate::printer::{Printer, end, indent, tight};
use op_base::NoMemory;

/// What can be printed by itself.
pub trait Printed {
    ghost draft: { Self → Draft };

    fn print(&self, page: &mut Printer) -> Result<(), NoMemory>
        ensures { IfOk result (λ _. page.new ≡ after page.old (draft self.now)) };
}

/// One after the other.
pub fn all<T: Printed>(page: &mut Printer, list: &[T]) -> Result<(), NoMemory>
    ensures { IfOk result (λ _. page.new ≡ after page.old (each (map T.draft list.now))) }
{
    for part in list {
        part.print(page)?;
    }
    Ok(())
}

/// The same further in, up to `end` on a line of its own.
pub fn ended<T: Printed>(page: &mut Printer, list: &[T]) -> Result<(), NoMemory>
    ensures { IfOk result (λ _. page.new ≡ after page.old (ended (each (map T.draft list.now)))) }
{
    print_all!(page: indent(), all(list), end())
}

/// With a mark between them.
pub fn separated<T: Printed>(page: &mut Printer, mark: &[u8], list: &[T]) -> Result<(), NoMemory>
    ensures { (k : TokenKind) → mark.now ≡ spelling k → IfOk result (λ _. page.new ≡ after page.old (separated k (map T.draft list.now))) }
{
    let Some((first, others)) = list.split_first() else {
        return Ok(());
    };
    first.print(page)?;
    for part in others {
        tight(page, mark)?;
        part.print(page)?;
    }
    Ok(())
}

/// With a mark between them, in brackets, where there are any.
pub fn in_brackets<T: Printed>(page: &mut Printer, mark: &[u8], list: &[T]) -> Result<(), NoMemory>
    ensures { (k : TokenKind) → mark.now ≡ spelling k → IfOk result (λ _. page.new ≡ after page.old (enclosed kind.OpenParenthesis k kind.CloseParenthesis (map T.draft list.now))) }
{
    if list.is_empty() {
        return Ok(());
    }
    print_all!(page: tight(b"("), separated(mark, list), tight(b")"))
}
