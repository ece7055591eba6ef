//! The scanner: from the bytes of a file to its tokens, or to the first rule of spelling that the file breaks.
//!
//! `scan` is the one call. Its contract says which tokens stand for which bytes, by whole spellings: blanks, comments and
//! directives between words, and the longest word that stands at each place.
#![tactic(auto)]

mod byte;
mod class;
mod comment;
mod compact_text;
mod directive;
mod effect;
mod keyword;
mod name;
mod number;
mod place;
mod scanner;
mod string;
mod symbol;
mod token;

pub use compact_text::CompactText;
pub use scanner::scan;
pub use token::{ScanError, Switches, Token, TokenKind, TokenList, Tokens};
