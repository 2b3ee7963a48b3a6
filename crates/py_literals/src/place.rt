ghost use Rattle.std.specs.Prelude.{◌≡◌, ◌+◌, ◌<◌, ◌≤◌, ◌^◌, length};
ghost use Rattle.py_literals.specs.Place.{after, line_feeds, last_len};

/// A place in a text: line and column, both from 1 on, the column counted in characters.
#[derive(Clone, Copy, Debug, PartialEq, Eq, PartialOrd, Ord, Hash, Drop)]
pub struct Pos {
    pub line: u32,
    pub col: u32,
}

/// How many of the characters are line feeds. It looks at each without a branch.
fn line_feeds(chars: &[char]) -> u32
    requires { length chars.now < 2 ^ 32 }
    ensures value { result ≡ line_feeds chars.now }
    ensures within { result ≤ length chars.now }
{
    let mut lines = 0;
    for c in chars {
        lines += (*c == '\n') as u32;
    }
    lines
}

/// How many characters stand behind the last line feed, or all where there is none.
fn last_len(chars: &[char]) -> usize
    ensures value { result ≡ last_len chars.now }
    ensures within { result ≤ length chars.now }
{
    let mut before = chars.len();
    while before > 0 && chars[before - 1] != '\n' {
        before -= 1;
    }
    chars.len() - before
}

/// The place behind these characters, the first of which stands at `at`.
/// A line feed begins the next line; each other character takes one column.
#[tactic(auto, using(crate::proofs::Places::none_behind, crate::proofs::Places::some_behind))]
pub fn after(at: Pos, chars: &[char]) -> Pos
    requires lines { at.line + length chars.now < 2 ^ 32 }
    requires columns { at.col + length chars.now < 2 ^ 32 }
    ensures { result ≡ after at chars.now }
{
    let lines = line_feeds(chars);
    let len = last_len(chars) as u32;
    if lines == 0 {
        Pos {
            line: at.line,
            col: at.col + len,
        }
    } else {
        Pos {
            line: at.line + lines,
            col: 1 + len,
        }
    }
}
