//! What stands at the front of a text, and the rules that it can break.
use crate::{Switches, TokenKind};
use op_base::Rule;

/// What a blank, a comment, a directive or a word does.
#[derive(Drop)]
pub enum Effect {
    /// It is passed over, and these switches hold behind it.
    Passes(Switches),
    /// It is a token.
    Gives(TokenKind),
    /// It breaks a rule.
    Breaks(Rule),
}

/// What stands at the front of a text: so many bytes, with this effect. Where nothing does, the length is 0 and the effect
/// is the rule that is broken.
#[derive(Drop)]
pub struct Front {
    pub length: usize,
    pub effect: Effect,
}

pub const NO_TOKEN: Rule = Rule {
    number: 1,
    feature: 0,
};

pub const STRING_NOT_CLOSED: Rule = Rule {
    number: 2,
    feature: 0,
};

pub const COMMENT_NOT_CLOSED: Rule = Rule {
    number: 3,
    feature: 0,
};

pub const BAD_NUMBER: Rule = Rule {
    number: 4,
    feature: 0,
};

pub const BAD_CHARACTER: Rule = Rule {
    number: 5,
    feature: 0,
};

pub const BAD_DIRECTIVE: Rule = Rule {
    number: 6,
    feature: 0,
};

pub const OTHER_MODE: Rule = Rule {
    number: 7,
    feature: 0,
};

pub const CONDITIONAL_DIRECTIVE: Rule = Rule {
    number: 8,
    feature: 0,
};

pub const CORBA_INTERFACES: Rule = Rule {
    number: 13,
    feature: 23,
};

pub const LONG_IDENTIFIER: Rule = Rule {
    number: 65,
    feature: 0,
};

pub const LONG_STRING: Rule = Rule {
    number: 66,
    feature: 0,
};
