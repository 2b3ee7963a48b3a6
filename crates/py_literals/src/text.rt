ghost use Rattle.std.specs.Prelude.{◌≡◌, ◌+◌, ◌<◌, ◌≤◌, IfSome, false, length, drop, ℕ, List};
ghost use Rattle.std.specs.List.{list_any};
ghost use Rattle.std.specs.Option.{option_map};
ghost use Rattle.py_literals.specs.declared.text.StringKind.{StringKind};
ghost use Rattle.py_literals.specs.Text.{is_quote, lower, one_letter, beside_raw, two_letters, two_quotes, opened, opening, closes, item_len, is_mark, body_len, EndsFirst};

/// So many characters of a long body are looked at together.
const RUN: usize = 16;

/// What the letters before a string's quotes say.
#[derive(Clone, Copy, Debug, PartialEq, Eq, Drop)]
pub struct Prefix {
    pub raw: bool,
    pub bytes: bool,
    pub formatted: bool,
}

/// What kind of string literal stands between the quotes.
#[derive(Clone, Copy, Debug, PartialEq, Eq, Drop)]
pub struct StringKind {
    /// `'` or `"`.
    pub quote: char,
    /// Three quotes on each side.
    pub triple: bool,
    pub raw: bool,
    pub bytes: bool,
    pub formatted: bool,
}

/// The beginning of a string literal: its prefix and its opening quotes.
#[derive(Clone, Copy, Debug, PartialEq, Eq, Drop)]
pub struct Opening {
    pub kind: StringKind,
    /// How many characters the prefix and the quotes have; the body is behind them.
    pub len: usize,
}

fn is_quote_char(c: char) -> bool
    ensures { result ≡ is_quote c }
{
    c == '"' || c == '\''
}

fn plain() -> Prefix
    ensures { result ≡ record { raw = false; bytes = false; formatted = false } }
{
    Prefix {
        raw: false,
        bytes: false,
        formatted: false,
    }
}

fn one_letter_prefix(c: char) -> Option<Prefix>
    ensures { result ≡ one_letter (lower c) }
{
    match c {
        'r' | 'R' => Some(Prefix {
            raw: true,
            ..plain()
        }),
        'u' | 'U' => Some(plain()),
        'f' | 'F' => Some(Prefix {
            formatted: true,
            ..plain()
        }),
        'b' | 'B' => Some(Prefix {
            bytes: true,
            ..plain()
        }),
        _ => None,
    }
}

fn raw_prefix(c: char) -> Option<Prefix>
    ensures { result ≡ beside_raw (lower c) }
{
    match c {
        'b' | 'B' => Some(Prefix {
            raw: true,
            bytes: true,
            formatted: false,
        }),
        'f' | 'F' => Some(Prefix {
            raw: true,
            bytes: false,
            formatted: true,
        }),
        _ => None,
    }
}

fn two_letter_prefix(c: char, d: char) -> Option<Prefix>
    ensures { result ≡ two_letters (lower c) (lower d) }
{
    match (c, d) {
        ('r' | 'R', _) => raw_prefix(d),
        (_, 'r' | 'R') => raw_prefix(c),
        _ => None,
    }
}

fn has_two_quotes(quote: char, chars: &[char]) -> bool
    ensures { result ≡ two_quotes quote chars.now }
{
    match chars {
        [c, d, ..] => *c == quote && *d == quote,
        _ => false,
    }
}

fn opened_by(prefix: Option<Prefix>, letters: usize, quote: char, rest: &[char]) -> Option<Opening>
    requires { letters ≤ 2 }
    ensures { result ≡ opened prefix letters quote rest.now }
{
    let prefix = prefix?;
    let triple = has_two_quotes(quote, rest);
    let kind = StringKind {
        quote,
        triple,
        raw: prefix.raw,
        bytes: prefix.bytes,
        formatted: prefix.formatted,
    };
    let quotes = if triple { 3 } else { 1 };
    Some(Opening {
        kind,
        len: letters + quotes,
    })
}

/// The prefix and the opening quotes of a string literal that begins here.
/// None, where none does: `ur` before a quote is a name, as is each other word that is no prefix.
///
/// Python Language Reference, 2.4.1.
pub fn string_opening(chars: &[char]) -> Option<Opening>
    ensures exact { result ≡ opening chars.now }
    ensures within { IfSome result (λ front. front.len ≤ length chars.now) }
    ensures some { IfSome result (λ front. 0 < front.len) }
{
    match chars {
        [a, rest @ ..] if is_quote_char(*a) => opened_by(Some(plain()), 0, *a, rest),
        [a, b, rest @ ..] if is_quote_char(*b) => opened_by(one_letter_prefix(*a), 1, *b, rest),
        [a, b, c, rest @ ..] if is_quote_char(*c) => opened_by(
            two_letter_prefix(*a, *b),
            2,
            *c,
            rest,
        ),
        _ => None,
    }
}

fn has_closing(kind: &StringKind, chars: &[char]) -> bool
    ensures { result ≡ closes kind.now chars.now }
{
    match chars {
        [c, rest @ ..] => *c == kind.quote && (!kind.triple || has_two_quotes(kind.quote, rest)),
        [] => false,
    }
}

/// How many characters the item of a body has that begins with this one: None, where the body can't go on.
fn item_taken(kind: &StringKind, c: char, rest: &[char]) -> Option<usize>
    ensures value { result ≡ item_len kind.now c rest.now }
    ensures within { IfSome result (λ n. n ≤ 1 + length rest.now) }
    ensures some { IfSome result (λ n. 0 < n) }
{
    if c == '\\' {
        if rest.is_empty() { None } else { Some(2) }
    } else if c == '\n' && !kind.triple {
        None
    } else {
        Some(1)
    }
}

/// Whether one of the characters is the quote or a backslash, or a line end where the body has one line. It looks at each,
/// which is faster than to stop at the first.
fn has_mark(kind: &StringKind, chars: &[char]) -> bool
    ensures { result ≡ list_any (is_mark kind.now) chars.now }
{
    let quote = kind.quote;
    let one_line = !kind.triple;
    let mut found = false;
    for c in chars {
        found |= (*c == quote) | ((*c == '\\') | ((*c == '\n') & one_line));
    }
    found
}

/// What stands behind the next `RUN` characters of a body, where each of these is an item by itself.
#[tactic(auto, using(crate::proofs::Turns::body_run))]
fn behind_run<'a>(kind: &StringKind, chars: &'a [char]) -> Option<&'a [char]>
    ensures within { IfSome result (λ rest. 16 + length rest.now ≡ length chars.now) }
    ensures same { IfSome result (λ rest. body_len kind.now chars.now ≡ option_map (λ m. 16 + m) (body_len kind.now rest.now)) }
{
    if chars.len() < RUN {
        return None;
    }
    let (run, rest) = chars.split_at(RUN);
    if has_mark(kind, run) {
        None
    } else {
        Some(rest)
    }
}

/// How many characters the body of a string has that begins here, behind the opening quotes: up to the
/// first closing quotes that no backslash escapes. None, where the string has no end: the text ends
/// before, or a line does that no backslash takes, in a string that isn't triple-quoted.
///
/// Also in a raw string a backslash takes the next character with it. Python Language Reference, 2.4.1.
/// Linear in the length of the body.
#[tactic(auto, using(crate::proofs::Turns::body_turn, crate::proofs::Turns::body_stuck, crate::proofs::Turns::body_closed, crate::proofs::Turns::further_run, crate::proofs::Turns::further_start, crate::proofs::Turns::further_some, crate::proofs::Turns::further_none, std::proofs::lemmas::Grind::common_steps))]
pub fn string_body(kind: &StringKind, chars: &[char]) -> Option<usize>
    ensures exact { result ≡ body_len kind.now chars.now }
    ensures within { IfSome result (λ n. n < length chars.now) }
{
    let mut rest = chars;
    let mut len = 0;
    // how many characters are looked at alone before the next run
    let mut alone: usize = 0;
    'items: while let [c, after @ ..] = rest {
        if alone == 0 {
            if let Some(behind) = behind_run(kind, rest) {
                rest = behind;
                len += RUN;
                continue 'items;
            }
            alone = RUN;
        }
        if has_closing(kind, rest) {
            return Some(len);
        }
        let taken = item_taken(kind, *c, after)?;
        rest = &rest[taken..];
        len += taken;
        alone = alone.saturating_sub(taken);
    }
    None
}

/// `string_body` ends a body at the first place where the grammar of the Language Reference lets it end,
/// and gives None only where it never does.
pub fn first_end()
    ensures { (kind : StringKind) (cs : List ℕ) → EndsFirst kind cs }
{}
