ghost use Rattle.std.specs.Prelude.{◌≡◌, ◌<◌, ◌≤◌, true};
ghost use Rattle.std.specs.Char.{digit_value};
ghost use Rattle.py_literals.specs.Grammar.{is_digit_of};

/// The digit that a character is in bases up to 36, letters of either case included; 36 for any other one.
pub(crate) fn digit_value_of(c: char) -> u32
    ensures value { result ≡ digit_value c }
    ensures small { result ≤ 36 }
{
    c.to_digit(36).unwrap_or(36)
}

#[tactic(auto, unfolding(crate::specs::Grammar::is_digit_of))]
pub(crate) fn is_digit(c: char, base: u32) -> bool
    ensures value { result ≡ is_digit_of base c }
    ensures small { result ≡ true → digit_value c < base }
{
    digit_value_of(c) < base
}
