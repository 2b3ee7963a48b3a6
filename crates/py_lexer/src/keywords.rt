//! The keywords.

ghost use Rattle.std.specs.Prelude.{◌≡◌, length, encode_utf8_all};
ghost use Rattle.py_lexer.specs.Spellings.{is_spelled};
ghost use Rattle.py_lexer.specs.Keywords.{keyword_of, if_spelled, keyword_like, two_letters, three_letters, four_letters, five_letters, six_letters, seven_letters, eight_letters};

use crate::spellings::is_spelled;
use crate::token::Kind;

fn if_spelled(text: &[char], word: &str, keyword: Kind) -> Option<Kind>
    ensures { result ≡ if_spelled text.now word.now keyword }
{
    if is_spelled(text, word) {
        Some(keyword)
    } else {
        None
    }
}

fn two_letters(text: &[char], first: char, last: char) -> Option<Kind>
    ensures { result ≡ two_letters text.now first last }
{
    match (first, last) {
        ('a', 's') => if_spelled(text, "as", Kind::As),
        ('i', 'f') => if_spelled(text, "if", Kind::If),
        ('i', 'n') => if_spelled(text, "in", Kind::In),
        ('i', 's') => if_spelled(text, "is", Kind::Is),
        ('o', 'r') => if_spelled(text, "or", Kind::Or),
        _ => None,
    }
}

fn three_letters(text: &[char], first: char, last: char) -> Option<Kind>
    ensures { result ≡ three_letters text.now first last }
{
    match (first, last) {
        ('a', 'd') => if_spelled(text, "and", Kind::And),
        ('d', 'f') => if_spelled(text, "def", Kind::Def),
        ('d', 'l') => if_spelled(text, "del", Kind::Del),
        ('f', 'r') => if_spelled(text, "for", Kind::For),
        ('n', 't') => if_spelled(text, "not", Kind::Not),
        ('t', 'y') => if_spelled(text, "try", Kind::Try),
        _ => None,
    }
}

fn four_letters(text: &[char], first: char, last: char) -> Option<Kind>
    ensures { result ≡ four_letters text.now first last }
{
    match (first, last) {
        ('N', 'e') => if_spelled(text, "None", Kind::None),
        ('T', 'e') => if_spelled(text, "True", Kind::True),
        ('e', 'f') => if_spelled(text, "elif", Kind::Elif),
        ('e', 'e') => if_spelled(text, "else", Kind::Else),
        ('f', 'm') => if_spelled(text, "from", Kind::From),
        ('p', 's') => if_spelled(text, "pass", Kind::Pass),
        ('w', 'h') => if_spelled(text, "with", Kind::With),
        _ => None,
    }
}

fn five_letters(text: &[char], first: char, last: char) -> Option<Kind>
    ensures { result ≡ five_letters text.now first last }
{
    match (first, last) {
        ('F', 'e') => if_spelled(text, "False", Kind::False),
        ('a', 'c') => if_spelled(text, "async", Kind::Async),
        ('a', 't') => if_spelled(text, "await", Kind::Await),
        ('b', 'k') => if_spelled(text, "break", Kind::Break),
        ('c', 's') => if_spelled(text, "class", Kind::Class),
        ('r', 'e') => if_spelled(text, "raise", Kind::Raise),
        ('w', 'e') => if_spelled(text, "while", Kind::While),
        ('y', 'd') => if_spelled(text, "yield", Kind::Yield),
        _ => None,
    }
}

fn six_letters(text: &[char], first: char, last: char) -> Option<Kind>
    ensures { result ≡ six_letters text.now first last }
{
    match (first, last) {
        ('a', 't') => if_spelled(text, "assert", Kind::Assert),
        ('e', 't') => if_spelled(text, "except", Kind::Except),
        ('g', 'l') => if_spelled(text, "global", Kind::Global),
        ('i', 't') => if_spelled(text, "import", Kind::Import),
        ('l', 'a') => if_spelled(text, "lambda", Kind::Lambda),
        ('r', 'n') => if_spelled(text, "return", Kind::Return),
        _ => None,
    }
}

fn seven_letters(text: &[char], first: char, last: char) -> Option<Kind>
    ensures { result ≡ seven_letters text.now first last }
{
    match (first, last) {
        ('f', 'y') => if_spelled(text, "finally", Kind::Finally),
        _ => None,
    }
}

fn eight_letters(text: &[char], first: char, last: char) -> Option<Kind>
    ensures { result ≡ eight_letters text.now first last }
{
    match (first, last) {
        ('c', 'e') => if_spelled(text, "continue", Kind::Continue),
        ('n', 'l') => if_spelled(text, "nonlocal", Kind::Nonlocal),
        _ => None,
    }
}

fn keyword_like(text: &[char]) -> Option<Kind>
    ensures { result ≡ keyword_like text.now }
{
    match text.len() {
        2 => two_letters(text, text[0], text[1]),
        3 => three_letters(text, text[0], text[2]),
        4 => four_letters(text, text[0], text[3]),
        5 => five_letters(text, text[0], text[4]),
        6 => six_letters(text, text[0], text[5]),
        7 => seven_letters(text, text[0], text[6]),
        8 => eight_letters(text, text[0], text[7]),
        _ => None,
    }
}

/// The keyword that is spelled so (Language Reference, 2.3.1).
///
/// No two keywords have the same length and the same letters at their ends, so that the characters are compared with one.
#[tactic(auto, using(crate::proofs::KeywordLemmas::keyword_found))]
pub fn keyword_of(text: &[char]) -> Option<Kind>
    ensures { result ≡ keyword_of (encode_utf8_all text.now) }
{
    keyword_like(text)
}
