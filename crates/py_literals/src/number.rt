ghost use Rattle.std.specs.Prelude.{◌≡◌, ◌+◌, ◌*◌, ◌<◌, ◌≤◌, ◌^◌, ℕ, List, IfSome, MatchOption, length};
ghost use Rattle.py_literals.specs.Grammar.{base_of};
ghost use Rattle.py_literals.specs.Number.{IsLongestNumber, number, whole, value_after, integer_value, digits_len, digit_part_len, fraction_len, signed_len, exponent_len, imaginary_len, suffix_len, behind_digits_len, float_len, decimal_len, lettered_len, behind_zero_len, based_len};

use crate::digit::{digit_value_of, is_digit};

/// What a number stands for.
#[derive(Clone, Copy, Debug, PartialEq, Eq, Drop)]
pub enum NumberValue {
    /// A whole number of at most 2^127 - 1.
    Whole(u128),
    /// A whole number above 2^127 - 1.
    Wide,
    /// A floating point or an imaginary number.
    Float,
}

/// The number at the front of a text.
#[derive(Clone, Copy, Debug, PartialEq, Eq, Drop)]
pub struct NumberFront {
    /// How many characters it has.
    pub len: usize,
    pub value: NumberValue,
}

/// How far digits go, each with one `_` before it or none.
fn digits(chars: &[char], base: u32) -> usize
    ensures value { result ≡ digits_len base chars.now }
    ensures within { result ≤ length chars.now }
{
    let mut rest = chars;
    let mut len = 0;
    'runs: loop {
        match rest {
            [c, after @ ..] if is_digit(*c, base) => {
                rest = after;
                len += 1;
            }
            ['_', c, after @ ..] if is_digit(*c, base) => {
                rest = after;
                len += 2;
            }
            _ => return len,
        }
    }
}

fn digit_part(chars: &[char]) -> usize
    ensures value { result ≡ digit_part_len chars.now }
    ensures within { result ≤ length chars.now }
{
    match chars {
        [c, rest @ ..] if is_digit(*c, 10) => 1 + digits(rest, 10),
        _ => 0,
    }
}

fn fraction(chars: &[char], led: bool) -> usize
    ensures value { result ≡ fraction_len led chars.now }
    ensures within { result ≤ length chars.now }
{
    match chars {
        ['.', rest @ ..] => {
            let len = digit_part(rest);
            if led || len > 0 { 1 + len } else { 0 }
        }
        _ => 0,
    }
}

fn signed(chars: &[char]) -> usize
    ensures value { result ≡ signed_len chars.now }
    ensures within { result ≤ length chars.now }
{
    match chars {
        ['+' | '-', rest @ ..] => {
            let len = digit_part(rest);
            if len > 0 { 1 + len } else { 0 }
        }
        _ => digit_part(chars),
    }
}

fn exponent(chars: &[char]) -> usize
    ensures value { result ≡ exponent_len chars.now }
    ensures within { result ≤ length chars.now }
{
    match chars {
        ['e' | 'E', rest @ ..] => {
            let len = signed(rest);
            if len > 0 { 1 + len } else { 0 }
        }
        _ => 0,
    }
}

fn imaginary(chars: &[char]) -> usize
    ensures value { result ≡ imaginary_len chars.now }
    ensures within { result ≤ length chars.now }
{
    match chars {
        ['j' | 'J', ..] => 1,
        _ => 0,
    }
}

fn suffix(chars: &[char]) -> usize
    ensures value { result ≡ suffix_len chars.now }
    ensures within { result ≤ length chars.now }
{
    let len = exponent(chars);
    let (_, rest) = chars.split_at(len);
    len + imaginary(rest)
}

fn behind_digits(chars: &[char], count: usize) -> usize
    ensures value { result ≡ behind_digits_len count chars.now }
    ensures within { result ≤ length chars.now }
{
    let len = fraction(chars, count > 0);
    if count == 0 && len == 0 {
        return 0;
    }
    let (_, rest) = chars.split_at(len);
    len + suffix(rest)
}

fn float(chars: &[char]) -> usize
    ensures value { result ≡ float_len chars.now }
    ensures within { result ≤ length chars.now }
{
    let count = digit_part(chars);
    let (_, rest) = chars.split_at(count);
    let len = behind_digits(rest, count);
    if len > 0 { count + len } else { 0 }
}

fn decimal(chars: &[char]) -> usize
    ensures value { result ≡ decimal_len chars.now }
    ensures within { result ≤ length chars.now }
{
    match chars {
        ['0', rest @ ..] => 1 + digits(rest, 1),
        _ => digit_part(chars),
    }
}

#[tactic(auto, unfolding(crate::specs::Grammar::base_of))]
fn base_at(c: char) -> u32
    ensures value { result ≡ base_of c }
    ensures small { result ≤ 16 }
{
    match c {
        'x' | 'X' => 16,
        'o' | 'O' => 8,
        'b' | 'B' => 2,
        _ => 0,
    }
}

fn lettered(letter: char, rest: &[char]) -> usize
    ensures value { result ≡ lettered_len letter rest.now }
    ensures within { result ≤ 1 + length rest.now }
{
    let len = digits(rest, base_at(letter));
    if len > 0 { 1 + len } else { 0 }
}

fn behind_zero(chars: &[char]) -> usize
    ensures value { result ≡ behind_zero_len chars.now }
    ensures within { result ≤ length chars.now }
{
    match chars {
        [] => 0,
        [letter, rest @ ..] => lettered(*letter, rest),
    }
}

fn based(chars: &[char]) -> usize
    ensures value { result ≡ based_len chars.now }
    ensures within { result ≤ length chars.now }
{
    match chars {
        ['0', rest @ ..] => {
            let len = behind_zero(rest);
            if len > 0 { 1 + len } else { 0 }
        }
        _ => 0,
    }
}

/// The value of digits in a base, each `_` skipped, as far as it is not wide.
#[tactic(auto, using(crate::proofs::Values::wide_turn, std::proofs::lemmas::Grind::common_steps))]
fn value_of(digits: &[char], base: u32) -> NumberValue
    requires { 0 < base }
    ensures { result ≡ whole (value_after base 0 digits.now) }
{
    let mut value: u128 = 0;
    for c in digits {
        if *c != '_' {
            match appended(value, base, digit_value_of(*c)) {
                Some(next) => value = next,
                None => return NumberValue::Wide,
            }
        }
    }
    NumberValue::Whole(value)
}

/// The value with one more digit, unless that is wide.
fn appended(value: u128, base: u32, digit: u32) -> Option<u128>
    ensures { MatchOption result (2 ^ 127 ≤ value * base + digit) (λ v. (v ≡ value * base + digit) × (v < 2 ^ 127)) }
{
    let next = value
        .checked_mul(u128::from(base))?
        .checked_add(u128::from(digit))?;
    if next >> 127 == 0 { Some(next) } else { None }
}

fn integer(chars: &[char]) -> NumberValue
    ensures { result ≡ whole (integer_value chars.now) }
{
    match chars {
        [_, letter, rest @ ..] if base_at(*letter) > 0 => value_of(rest, base_at(*letter)),
        _ => value_of(chars, 10),
    }
}

/// The number at the front of the characters: the longest front that is one. None, where no front is.
/// What may follow it is not looked at: of `01` and `0x` the number is `0`, of `1e` it is `1`.
///
/// Python Language Reference, 2.4.5 (integers), 2.4.6 (floating point) and 2.4.7 (imaginary numbers).
/// Linear in the length of the number.
pub fn number(chars: &[char]) -> Option<NumberFront>
    ensures exact { result ≡ number chars.now }
    ensures within { IfSome result (λ front. front.len ≤ length chars.now) }
    ensures some { IfSome result (λ front. 0 < front.len) }
{
    let float = float(chars);
    let len = based(chars).max(decimal(chars).max(float));
    if len == 0 {
        return None;
    }
    let value = if float == len {
        NumberValue::Float
    } else {
        integer(&chars[..len])
    };
    Some(NumberFront { len, value })
}

/// What `number` finds is a number of the Language Reference, and no longer front is one; a value of
/// `Float` is a floating point or imaginary number, any other one an integer.
pub fn longest_number()
    ensures { (cs : List ℕ) → IsLongestNumber cs }
{}
