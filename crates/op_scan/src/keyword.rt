//! Reserved words (Free Pascal Reference Guide, "Reserved words").
ghost use Rattle.std.specs.Prelude.{◌≡◌, map};
ghost use Rattle.std.specs.Char.{to_ascii_lowercase};
ghost use Rattle.std.specs.Str.{bytes_eq};
ghost use Rattle.op_scan.specs.Keyword.{keyword_of, kind_beside, words_of_two, words_of_three, words_of_four, words_of_five, words_of_six, words_of_seven, words_of_eight, words_of_nine, words_of_ten_up};

use crate::TokenKind;

/// The words are equal but for the case of ASCII letters.
pub fn is_same_word(word: &[u8], lower: &[u8]) -> bool
    ensures { result ≡ bytes_eq (map to_ascii_lowercase word.now) (map to_ascii_lowercase lower.now) }
{
    word.eq_ignore_ascii_case(lower)
}

fn keyword_of_two(word: &[u8]) -> Option<TokenKind>
    ensures { result ≡ kind_beside (map to_ascii_lowercase word.now) words_of_two }
{
    if is_same_word(word, b"as") {
        return Some(TokenKind::As_);
    }
    if is_same_word(word, b"do") {
        return Some(TokenKind::Do_);
    }
    if is_same_word(word, b"if") {
        return Some(TokenKind::If_);
    }
    if is_same_word(word, b"in") {
        return Some(TokenKind::In_);
    }
    if is_same_word(word, b"is") {
        return Some(TokenKind::Is);
    }
    if is_same_word(word, b"of") {
        return Some(TokenKind::Of);
    }
    if is_same_word(word, b"or") {
        return Some(TokenKind::Or);
    }
    if is_same_word(word, b"to") {
        return Some(TokenKind::To);
    }
    None
}

fn keyword_of_three(word: &[u8]) -> Option<TokenKind>
    ensures { result ≡ kind_beside (map to_ascii_lowercase word.now) words_of_three }
{
    if is_same_word(word, b"and") {
        return Some(TokenKind::And);
    }
    if is_same_word(word, b"asm") {
        return Some(TokenKind::Asm);
    }
    if is_same_word(word, b"div") {
        return Some(TokenKind::Div);
    }
    if is_same_word(word, b"end") {
        return Some(TokenKind::End);
    }
    if is_same_word(word, b"for") {
        return Some(TokenKind::For_);
    }
    if is_same_word(word, b"mod") {
        return Some(TokenKind::Mod_);
    }
    if is_same_word(word, b"nil") {
        return Some(TokenKind::Nil);
    }
    if is_same_word(word, b"not") {
        return Some(TokenKind::Not);
    }
    if is_same_word(word, b"set") {
        return Some(TokenKind::Set);
    }
    if is_same_word(word, b"shl") {
        return Some(TokenKind::Shl);
    }
    if is_same_word(word, b"shr") {
        return Some(TokenKind::Shr);
    }
    if is_same_word(word, b"try") {
        return Some(TokenKind::Try_);
    }
    if is_same_word(word, b"var") {
        return Some(TokenKind::Var);
    }
    if is_same_word(word, b"xor") {
        return Some(TokenKind::Xor);
    }
    None
}

fn keyword_of_four(word: &[u8]) -> Option<TokenKind>
    ensures { result ≡ kind_beside (map to_ascii_lowercase word.now) words_of_four }
{
    if is_same_word(word, b"case") {
        return Some(TokenKind::Case);
    }
    if is_same_word(word, b"else") {
        return Some(TokenKind::Else_);
    }
    if is_same_word(word, b"file") {
        return Some(TokenKind::File);
    }
    if is_same_word(word, b"goto") {
        return Some(TokenKind::Goto);
    }
    if is_same_word(word, b"then") {
        return Some(TokenKind::Then);
    }
    if is_same_word(word, b"type") {
        return Some(TokenKind::Type_);
    }
    if is_same_word(word, b"unit") {
        return Some(TokenKind::Unit);
    }
    if is_same_word(word, b"uses") {
        return Some(TokenKind::Uses);
    }
    if is_same_word(word, b"with") {
        return Some(TokenKind::With);
    }
    None
}

fn keyword_of_five(word: &[u8]) -> Option<TokenKind>
    ensures { result ≡ kind_beside (map to_ascii_lowercase word.now) words_of_five }
{
    if is_same_word(word, b"array") {
        return Some(TokenKind::Array);
    }
    if is_same_word(word, b"begin") {
        return Some(TokenKind::Begin);
    }
    if is_same_word(word, b"class") {
        return Some(TokenKind::Class);
    }
    if is_same_word(word, b"const") {
        return Some(TokenKind::Const_);
    }
    if is_same_word(word, b"label") {
        return Some(TokenKind::Label);
    }
    if is_same_word(word, b"raise") {
        return Some(TokenKind::Raise);
    }
    if is_same_word(word, b"until") {
        return Some(TokenKind::Until);
    }
    if is_same_word(word, b"while") {
        return Some(TokenKind::While_);
    }
    None
}

fn keyword_of_six(word: &[u8]) -> Option<TokenKind>
    ensures { result ≡ kind_beside (map to_ascii_lowercase word.now) words_of_six }
{
    if is_same_word(word, b"downto") {
        return Some(TokenKind::Downto);
    }
    if is_same_word(word, b"except") {
        return Some(TokenKind::Except);
    }
    if is_same_word(word, b"inline") {
        return Some(TokenKind::Inline);
    }
    if is_same_word(word, b"object") {
        return Some(TokenKind::Object);
    }
    if is_same_word(word, b"packed") {
        return Some(TokenKind::Packed);
    }
    if is_same_word(word, b"record") {
        return Some(TokenKind::Record);
    }
    if is_same_word(word, b"repeat") {
        return Some(TokenKind::Repeat);
    }
    if is_same_word(word, b"string") {
        return Some(TokenKind::String);
    }
    None
}

fn keyword_of_seven(word: &[u8]) -> Option<TokenKind>
    ensures { result ≡ kind_beside (map to_ascii_lowercase word.now) words_of_seven }
{
    if is_same_word(word, b"exports") {
        return Some(TokenKind::Exports);
    }
    if is_same_word(word, b"finally") {
        return Some(TokenKind::Finally);
    }
    if is_same_word(word, b"library") {
        return Some(TokenKind::Library);
    }
    if is_same_word(word, b"program") {
        return Some(TokenKind::Program);
    }
    None
}

fn keyword_of_eight(word: &[u8]) -> Option<TokenKind>
    ensures { result ≡ kind_beside (map to_ascii_lowercase word.now) words_of_eight }
{
    if is_same_word(word, b"function") {
        return Some(TokenKind::Function);
    }
    if is_same_word(word, b"operator") {
        return Some(TokenKind::Operator);
    }
    if is_same_word(word, b"property") {
        return Some(TokenKind::Property);
    }
    None
}

fn keyword_of_nine(word: &[u8]) -> Option<TokenKind>
    ensures { result ≡ kind_beside (map to_ascii_lowercase word.now) words_of_nine }
{
    if is_same_word(word, b"inherited") {
        return Some(TokenKind::Inherited);
    }
    if is_same_word(word, b"interface") {
        return Some(TokenKind::Interface);
    }
    if is_same_word(word, b"procedure") {
        return Some(TokenKind::Procedure);
    }
    if is_same_word(word, b"threadvar") {
        return Some(TokenKind::Threadvar);
    }
    None
}

fn keyword_of_ten_up(word: &[u8]) -> Option<TokenKind>
    ensures { result ≡ kind_beside (map to_ascii_lowercase word.now) words_of_ten_up }
{
    if is_same_word(word, b"destructor") {
        return Some(TokenKind::Destructor);
    }
    if is_same_word(word, b"constructor") {
        return Some(TokenKind::Constructor);
    }
    if is_same_word(word, b"finalization") {
        return Some(TokenKind::Finalization);
    }
    if is_same_word(word, b"dispinterface") {
        return Some(TokenKind::Dispinterface);
    }
    if is_same_word(word, b"implementation") {
        return Some(TokenKind::Implementation);
    }
    if is_same_word(word, b"initialization") {
        return Some(TokenKind::Initialization);
    }
    if is_same_word(word, b"resourcestring") {
        return Some(TokenKind::Resourcestring);
    }
    None
}

/// The reserved word that these bytes spell in any case of ASCII letters, if they do.
#[tactic(auto, unfolding(crate::specs::Keyword::keyword_of))]
pub fn keyword(word: &[u8]) -> Option<TokenKind>
    ensures { result ≡ keyword_of (map to_ascii_lowercase word.now) }
{
    match word.len() {
        0 | 1 => None,
        2 => keyword_of_two(word),
        3 => keyword_of_three(word),
        4 => keyword_of_four(word),
        5 => keyword_of_five(word),
        6 => keyword_of_six(word),
        7 => keyword_of_seven(word),
        8 => keyword_of_eight(word),
        9 => keyword_of_nine(word),
        _ => keyword_of_ten_up(word),
    }
}
