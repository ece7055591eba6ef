//! The print of trees: from the tree of a file to a text that spells it.
//!
//! `print` is the one call. Its contract says which text it is.
#![tactic(auto)]

/// Prints parts on a page, one after the other: `f(x)` stands for `f(page, x)?`.
macro_rules! print_all {
    ($page:ident: $($part:ident($($value:expr),*)),+) => {{
        $($part($page $(, $value)*)?;)+
        Ok(())
    }};
}

/// Prints the parts of a list with a mark between them.
macro_rules! print_separated {
    ($page:ident, $mark:expr, $list:ident, $part:ident) => {{
        let Some((first, others)) = $list.split_first() else {
            return Ok(());
        };
        $part($page, first)?;
        for each in others {
            tight($page, $mark)?;
            $part($page, each)?;
        }
        Ok(())
    }};
}

mod class;
mod declaration;
mod denoter;
mod expression;
mod file;
mod heading;
mod initializer;
mod list;
mod name;
mod printer;
mod statement;
mod string;

pub use file::print;
