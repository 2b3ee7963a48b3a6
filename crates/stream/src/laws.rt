//! Laws of the commands in a row, with nothing to run.

ghost use Rattle.std.specs.Prelude.{◌≡◌, ◌≤◌, List, [], ◌∷◌, ◌++◌, length, ℕ};
ghost use Rattle.script.specs.declared.command.Command.{Command};
ghost use Rattle.script.specs.Grammar.{Spells};
ghost use Rattle.stream.specs.Commands.{Commands};
ghost use Rattle.stream.specs.State.{State, bytes_of, taken};

/// What `Stream::next` says of one call, of all calls together: where the input so far is the texts of the commands that
/// were given, in a row, and then the bytes that were not acted on, so it is after the next call.
pub fn next_in_row()
    // A command that was given is one text more.
    ensures given { (input : List ℕ) (texts : List (List ℕ)) (commands : List Command) (old new : State) (command : Command)
        → Commands input texts commands old.pending
        → bytes_of new ≡ old.pending ++ taken old new → Spells 0 new.last command
        → Commands (input ++ taken old new) (texts ++ new.last ∷ []) (commands ++ command ∷ []) new.pending }
    // Where none was given, the bytes that were taken wait with the others.
    ensures waits { (input more rest : List ℕ) (texts : List (List ℕ)) (commands : List Command)
        → Commands input texts commands rest → Commands (input ++ more) texts commands (rest ++ more) }
{}

/// Of two readings of one input the longer goes on where the other stops: the texts and the commands that both have are
/// the same.
pub fn same_row()
    ensures { (input rest left : List ℕ) (texts lines : List (List ℕ)) (commands others : List Command)
        → Commands input texts commands rest → Commands input lines others left → length texts ≤ length lines
        → (more : List (List ℕ)) × (further : List Command) × (lines ≡ texts ++ more) × (others ≡ commands ++ further) }
{}
