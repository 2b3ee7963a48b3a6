//! What holds of checks. Nothing here runs: a contract is the law.

ghost use Rattle.std.specs.Prelude.{◌≡◌, ◌+◌, ◌<◌, ℕ, List, length, ⊤};
ghost use Rattle.rv_names.specs.Keys.{Bytes};
ghost use Rattle.script.specs.declared.command.Command.{Command};
ghost use Rattle.stream.specs.State.{input_limit};
ghost use Rattle.check_stream.specs.Progress.{Progress, at_first};
ghost use Rattle.check_stream.specs.Acts.{Said};
ghost use Rattle.check_stream.specs.Ends.{Ends};
ghost use Rattle.check_stream.specs.Checks.{Whole};
ghost use Rattle.check_stream_laws.specs.Same.{SameProgress};

use script::Command;

/// Where the source didn't fail and the input isn't too long, a check ends in one way, by what it came to and by the bytes that
/// are left, whether more can come or not: with these last lines and this status.
pub fn one_ending()
    ensures { (place : ℕ) (progress : Progress) (rest a b : Bytes) (m n : ℕ) → place + length rest < input_limit
        → Ends place ⊤ ⊥ progress rest a m → Ends place ⊤ ⊥ progress rest b n → (a ≡ b) × (m ≡ n) }
{}

/// Commands with their texts, from the start of a check on, have one text that is due for them, and come to the same numbers and
/// to files that are the same, wherever their items are kept.
pub fn one_said()
    ensures lines { (commands : List Command) (texts : List Bytes) (a b : Bytes) (p q : Progress) → Said at_first commands texts a p → Said at_first commands texts b q → a ≡ b }
    ensures progress { (commands : List Command) (texts : List Bytes) (a b : Bytes) (p q : Progress) → Said at_first commands texts a p → Said at_first commands texts b q → SameProgress p q }
{}

/// Of one input that isn't too long there is one whole check where the source didn't fail: with this status, and these bytes.
pub fn one_check()
    ensures { (input a b : Bytes) (m n : ℕ) → length input < input_limit → Whole m input a ⊤ ⊥ → Whole n input b ⊤ ⊥ → (m ≡ n) × (a ≡ b) }
{}
