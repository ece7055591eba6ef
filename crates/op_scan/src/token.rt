//! Tokens: what the scanner makes of a text.
ghost use Rattle.std.specs.Prelude.{◌≡◌};

use crate::CompactText;
use op_base::{NoMemory, Place, Refusal, Span};
use std::alloc::{AllocError, AllocFailed};
use std::marker::Model;
use thiserror::Error;

/// What a token is: an identifier, a number, a string, a reserved word or a symbol (Free Pascal Reference Guide, chapter
/// "Pascal Tokens"). A reserved word that is one of Rust's too has an underscore at the end of its name.
#[derive(Debug, Drop)]
pub enum TokenKind {
    /// A name of at most 127 bytes, as it is written.
    Identifier(CompactText),
    /// A number without a sign, at most 2147483648.
    Number(u32),
    /// What a string stands for, at most 65,535 bytes: quotes are undoubled and characters by number put in.
    CharacterString(CompactText),
    And,
    Array,
    As_,
    Asm,
    Begin,
    Case,
    Class,
    Const_,
    Constructor,
    Destructor,
    Dispinterface,
    Div,
    Do_,
    Downto,
    Else_,
    End,
    Except,
    Exports,
    File,
    Finalization,
    Finally,
    For_,
    Function,
    Goto,
    If_,
    Implementation,
    In_,
    Inherited,
    Initialization,
    Inline,
    Interface,
    Is,
    Label,
    Library,
    Mod_,
    Nil,
    Not,
    Object,
    Of,
    Operator,
    Or,
    Packed,
    Procedure,
    Program,
    Property,
    Raise,
    Record,
    Repeat,
    Resourcestring,
    Set,
    Shl,
    Shr,
    String,
    Then,
    Threadvar,
    To,
    Try_,
    Type_,
    Unit,
    Until,
    Uses,
    Var,
    While_,
    With,
    Xor,
    /// `+`
    Plus,
    /// `-`
    Minus,
    /// `*`
    Star,
    /// `/`
    Slash,
    /// `=`
    Equal,
    /// `<`
    Less,
    /// `>`
    Greater,
    /// `<=`
    LessEqual,
    /// `>=`
    GreaterEqual,
    /// `<>`
    NotEqual,
    /// `:=`
    Assign,
    /// `(`
    OpenParenthesis,
    /// `)`
    CloseParenthesis,
    /// `[`
    OpenBracket,
    /// `]`
    CloseBracket,
    /// `,`
    Comma,
    /// `;`
    Semicolon,
    /// `:`
    Colon,
    /// `.`
    Dot,
    /// `..`
    DotDot,
}

/// Which of the switches H (long strings), Q (overflow checks) and R (range checks) are on.
#[derive(Clone, Copy)]
pub struct Switches {
    pub h: bool,
    pub q: bool,
    pub r: bool,
}

impl Switches {
    /// All are off where a file begins.
    pub const OFF: Switches = Switches {
        h: false,
        q: false,
        r: false,
    };
}

/// A token, with the bytes of the file that spell it, the place of the first of these, and the switches there.
#[derive(Drop)]
pub struct Token {
    pub kind: TokenKind,
    pub span: Span,
    pub place: Place,
    pub switches: Switches,
}

/// A list of tokens.
#[derive(Drop)]
pub struct TokenList {
    tokens: Vec<Token>,
}

impl Model for TokenList {
    ghost use Rattle.std.specs.Prelude.{List};
    ghost use Rattle.op_scan.specs.declared.token.Token.{Token};

    ghost Value = { List Token };

    ghost view = { λ list. list.tokens.items };
}

impl TokenList {
    /// The tokens, with no copy.
    pub fn into_vec(self) -> Vec<Token>
        ensures { result.items ≡ self }
    {
        self.tokens
    }

    pub fn as_slice(&self) -> &[Token]
        ensures { result.now ≡ self.now }
    {
        self.tokens.as_slice()
    }
}

impl From<Vec<Token>> for TokenList {
    ghost from_gives = { λ tokens list. list ≡ tokens.items };

    fn from(tokens: Vec<Token>) -> TokenList {
        TokenList { tokens }
    }
}

/// The tokens of a file, in order, and the place of the byte that would follow the file's last one.
#[derive(Drop)]
pub struct Tokens {
    pub list: TokenList,
    pub end: Place,
}

/// Why a text has no tokens.
#[derive(Debug, Drop, Error)]
pub enum ScanError {
    /// The first rule that the text breaks: one of 1 to 8, 65, 66, or 13 with feature 23.
    #[error("refused")]
    Refused(Refusal),
    /// The allocator had no room.
    #[error("out of memory")]
    NoMemory,
}

impl From<NoMemory> for ScanError {
    ghost use Rattle.std.specs.Prelude.{◌≡◌};
    ghost use Rattle.op_scan.specs.declared.token.ScanError.{ScanError};

    ghost from_gives = { λ _ error. error ≡ ScanError.NoMemory };

    fn from(_error: NoMemory) -> ScanError {
        ScanError::NoMemory
    }
}

impl From<AllocError> for ScanError {
    ghost use Rattle.std.specs.Prelude.{◌≡◌};
    ghost use Rattle.op_scan.specs.declared.token.ScanError.{ScanError};

    ghost from_gives = { λ _ error. error ≡ ScanError.NoMemory };

    fn from(_error: AllocError) -> ScanError {
        ScanError::NoMemory
    }
}

impl<T: Drop> From<AllocFailed<T>> for ScanError {
    ghost use Rattle.std.specs.Prelude.{◌≡◌};
    ghost use Rattle.op_scan.specs.declared.token.ScanError.{ScanError};

    ghost from_gives = { λ _ error. error ≡ ScanError.NoMemory };

    fn from(_error: AllocFailed<T>) -> ScanError {
        ScanError::NoMemory
    }
}
