//! Texts: short ones lie in the value itself, longer ones are shared.

ghost use Rattle.std.specs.Prelude.{◌≡◌, ◌↔◌, ◌≤◌, IfOk, IfSome, IsTrue, length, take, encode_utf8_all, string_bytes};
ghost use Rattle.rv_names.specs.Keys.{bytes_equal, bytes_order};

use crate::Memory;
use crate::inline::Inline;
use std::alloc::{AllocError, Global};
use std::cmp::Ordering;
use std::fmt;
use std::hash::{Hash, Hasher};
use std::marker::Model;
use std::sync::ArcStr;

/// Where the bytes of a text lie: in the value itself, or shared.
#[derive(Drop)]
enum Kept {
    Inline(Inline),
    Shared(ArcStr),
}

/// A text in UTF-8, which contracts see as the list of its bytes.
///
/// A text of at most 22 bytes lies in the value itself, and a copy of it costs its 24 bytes. The bytes of a longer one
/// are shared, and a copy costs a counter. Threads can share both. Texts are equal, and ordered, by their bytes.
#[derive(Drop)]
pub struct Text {
    kept: Kept,
}

impl Model for Text {
    ghost use Rattle.rv_names.specs.Keys.{Bytes};
    ghost use Rattle.rv_names.specs.Kept.{kept_bytes};

    ghost Value = { Bytes };

    ghost view = { λ t. kept_bytes t.kept };
}

/// How many bytes are compared one by one, before all are compared by words.
const EARLY: usize = 8;

/// The order of the bytes, where one of the first few tells it.
fn early_order(one: &[u8], other: &[u8]) -> Option<Ordering>
    ensures { IfSome result (λ order. order ≡ bytes_order one.now other.now) }
{
    let most = one.len().min(other.len()).min(EARLY);
    for i in 0..most {
        if one[i] != other[i] {
            return Some(one[i].cmp(&other[i]));
        }
    }
    None
}

/// The order of two texts. Most differ in one of their first bytes, and the others are compared by words.
fn order(one: &str, other: &str) -> Ordering
    ensures { result ≡ bytes_order one.now other.now }
{
    match early_order(one.as_bytes(), other.as_bytes()) {
        Some(order) => order,
        None => one.cmp(other),
    }
}

impl Text {
    /// The text, with bytes of its own. Linear in its length; one of at most 22 bytes takes no memory, and cannot fail.
    pub fn read(alloc: Global, text: &str) -> Result<Text, Memory>
        ensures { IfOk result (λ t. t ≡ text.now) }
    {
        if let Some(inline) = Inline::read(text) {
            return Ok(Text::of_inline(inline));
        }
        let shared = ArcStr::from_str(alloc, text)?;
        let kept = Kept::Shared(shared);
        Ok(Text { kept })
    }

    /// The text of characters of ASCII, at no cost but their bytes: `None` where one isn't of ASCII, or there are more
    /// than 22.
    pub fn ascii(text: &[char]) -> Option<Text>
        ensures { IfSome result (λ t. t ≡ encode_utf8_all text.now) }
    {
        match Inline::ascii(text) {
            Some(inline) => Some(Text::of_inline(inline)),
            None => None,
        }
    }

    /// The text of the first so many characters, at no cost but their bytes: `None` where they are more than 22, or where one
    /// of them or of the next few isn't of ASCII.
    pub fn front(chars: &[char], len: usize) -> Option<Text>
        requires { len ≤ length chars.now }
        ensures { IfSome result (λ t. t ≡ encode_utf8_all (take len chars.now)) }
    {
        match Inline::front(chars, len) {
            Some(inline) => Some(Text::of_inline(inline)),
            None => None,
        }
    }

    /// The same text.
    pub(crate) fn of_inline(inline: Inline) -> Text
        ensures { result ≡ inline }
    {
        let kept = Kept::Inline(inline);
        Text { kept }
    }

    /// The text of a string, whose bytes it takes over where they are more than 22.
    pub fn from_string(text: String) -> Result<Text, Memory>
        ensures { IfOk result (λ t. t ≡ string_bytes text) }
    {
        if let Some(inline) = Inline::read(text.as_str()) {
            return Ok(Text::of_inline(inline));
        }
        let shared = ArcStr::from_string(text)?;
        let kept = Kept::Shared(shared);
        Ok(Text { kept })
    }

    /// The same text. A copy of a text of at most 22 bytes costs its 24 bytes. The bytes of a longer one both share: it
    /// costs a counter, and fails only where that counter is full.
    pub fn copy(&self) -> Result<Text, Memory>
        ensures { IfOk result (λ t. t ≡ self.now) }
    {
        Ok(self.clone()?)
    }

    /// Its bytes as they are, at no cost.
    pub fn as_str(&self) -> &str
        ensures { result.now ≡ self.now }
    {
        match &self.kept {
            Kept::Inline(inline) => inline.as_str(),
            Kept::Shared(shared) => shared.as_str(),
        }
    }
}

impl Clone for Text {
    ghost use Rattle.std.specs.Prelude.{◌≡◌};

    ghost is_clone = { λ t copy. copy ≡ t };

    fn clone(&self) -> Result<Text, AllocError> {
        match &self.kept {
            Kept::Inline(inline) => Ok(Text::of_inline(inline.copy())),
            Kept::Shared(shared) => {
                let kept = Kept::Shared(shared.clone()?);
                Ok(Text { kept })
            }
        }
    }
}

impl PartialEq for Text {
    ghost use Rattle.std.specs.Cmp.Rules.{comparing};
    ghost use Rattle.std.proofs.Common.{rules};
    ghost use Rattle.rv_names.specs.Keys.{bytes_equal};

    ghost eq = { bytes_equal };

    ghost laws = { Prim.search (comparing, rules) };

    fn eq(&self, other: &Text) -> bool
        ensures value { result ≡ bytes_equal self.now other.now }
        ensures same { IsTrue result ↔ (self.now ≡ other.now) }
    {
        self.as_str() == other.as_str()
    }
}

impl Eq for Text {
    ghost use Rattle.std.specs.Cmp.Rules.{comparing};
    ghost use Rattle.std.proofs.Common.{rules};

    ghost laws = { Prim.search (comparing, rules) };
}

impl Ord for Text {
    ghost use Rattle.std.specs.Cmp.Rules.{comparing};
    ghost use Rattle.std.proofs.Common.{rules};
    ghost use Rattle.rv_names.specs.Keys.{bytes_order};

    ghost cmp = { bytes_order };

    ghost total = { Prim.search (comparing, rules) };

    ghost matches_partial_cmp = { Prim.search (comparing, rules) };

    ghost matches_eq = { Prim.search (comparing, rules) };

    fn cmp(&self, other: &Text) -> Ordering {
        order(self.as_str(), other.as_str())
    }
}

impl PartialOrd for Text {
    ghost use Rattle.std.specs.Ordering.{as_partial_cmp};
    ghost use Rattle.std.specs.Cmp.{partial_order_from_own_ties};
    ghost use Rattle.std.specs.Cmp.Rules.{comparing};
    ghost use Rattle.std.proofs.Common.{rules};
    ghost use Rattle.rv_names.specs.Keys.{bytes_order};

    ghost partial_cmp = { as_partial_cmp bytes_order };

    ghost laws = { partial_order_from_own_ties (Prim.search (comparing, rules)) (Prim.search (comparing, rules)) };

    fn partial_cmp(&self, other: &Text) -> Option<Ordering> {
        Some(self.cmp(other))
    }
}

impl Hash for Text {
    ghost use Rattle.std.specs.Hash as fed;
    ghost use Rattle.std.specs.Cmp.Rules.{hashing};
    ghost use Rattle.std.proofs.Common.{rules};

    ghost hash_input = { fed.str };

    ghost respects_eq = { Prim.search (hashing, rules) };

    fn hash<H: Hasher>(&self, state: &mut H) {
        self.as_str().hash(state);
    }
}

impl fmt::Display for Text {
    ghost use Rattle.std.specs.Prelude.{Some};
    ghost use Rattle.std.specs.Fmt.{styled_text};

    ghost output = { λ t. Some t };

    ghost styled_output = { λ t style. Some (styled_text style t) };

    fn fmt<W: fmt::Write>(&self, f: &mut fmt::Formatter<W>) -> fmt::Result {
        f.pad(self.as_str())
    }
}

impl fmt::Debug for Text {
    ghost use Rattle.std.specs.Fmt.{debug_str};

    ghost debug_output = { debug_str };

    fn fmt<W: fmt::Write>(&self, f: &mut fmt::Formatter<W>) -> fmt::Result {
        let text = self.as_str();
        fmt::Debug::fmt(&text, f)
    }
}
