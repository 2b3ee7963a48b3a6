//! Names: texts that are identifiers.

ghost use Rattle.std.specs.Prelude.{◌≡◌, ◌↔◌, ◌≤◌, IfOk, IfSome, OnOk, IsTrue, chars, Err, length, take, encode_utf8_all};
ghost use Rattle.std.specs.List.{list_all};
ghost use Rattle.rv_names.specs.Identifier.{IsIdentifier, is_identifier_start, is_identifier_continue, is_spelled_as_identifier};
ghost use Rattle.rv_names.specs.Keys.{bytes_equal};
ghost use Rattle.rv_names.specs.declared.faults.NameFault.TheVariants.{NotIdent};

use crate::inline::Inline;
use crate::{Memory, NameFault, Text};
use std::alloc::{AllocError, Global};
use std::cmp::Ordering;
use std::fmt;
use std::hash::{Hash, Hasher};
use std::marker::Model;
use unicode_normalization::is_nfkc;

/// An identifier in NFKC, which contracts see as the list of its bytes. A keyword is a name too.
///
/// Python Language Reference, section 2.3. Its bytes lie where those of a `Text` do, and names are equal, and ordered,
/// by their bytes.
#[derive(Drop)]
pub struct Name {
    text: Text,
}

impl Model for Name {
    ghost use Rattle.std.specs.Prelude.{chars};
    ghost use Rattle.rv_names.specs.Keys.{Bytes};
    ghost use Rattle.rv_names.specs.Identifier.{IsIdentifier};

    ghost Value = { Bytes };

    ghost view = { λ n. n.text };

    ghost invariant = { λ n. IsIdentifier (chars n.text) };
}

/// Whether an identifier may begin with the character: `_`, or one with XID_Start.
///
/// Python Language Reference, section 2.3.
pub fn is_identifier_start(ch: char) -> bool
    ensures { result ≡ is_identifier_start ch }
{
    unicode_ident::is_xid_start(ch) | (ch == '_')
}

/// Whether an identifier may go on with the character: one with XID_Continue.
///
/// Python Language Reference, section 2.3.
pub fn is_identifier_continue(ch: char) -> bool
    ensures { result ≡ is_identifier_continue ch }
{
    unicode_ident::is_xid_continue(ch)
}

fn continues(text: &str) -> bool
    ensures { result ≡ list_all is_identifier_continue (chars text.now) }
{
    text.chars().all(|ch| is_identifier_continue(ch))
}

/// Whether the text is spelled as an identifier, whatever its normalization form.
pub(crate) fn is_spelled_as_identifier(text: &str) -> bool
    ensures { result ≡ is_spelled_as_identifier (chars text.now) }
{
    let mut rest = text.chars();
    match rest.next() {
        None => false,
        Some(first) => is_identifier_start(first) & continues(rest.as_str()),
    }
}

impl Name {
    /// The text as a name: `NotIdent` exactly where it is no identifier, or not in NFKC. Linear in its length.
    pub fn read(alloc: Global, text: &str) -> Result<Name, NameFault>
        ensures name { IfOk result (λ n. n ≡ text.now) }
        ensures identifier { OnOk result (IsIdentifier (chars text.now)) }
        ensures refused { result ≡ Err NotIdent → ¬ (IsIdentifier (chars text.now)) }
    {
        if !is_spelled_as_identifier(text) || !is_nfkc(alloc, text)? {
            return Err(NameFault::NotIdent);
        }
        let text = Text::read(alloc, text)?;
        Ok(Name { text })
    }

    /// The name of characters of ASCII, at no cost but their bytes: `None` where one isn't of ASCII, or there are more
    /// than 22.
    pub fn ascii(text: &[char]) -> Option<Name>
        requires { IsTrue (is_spelled_as_identifier text.now) }
        ensures name { IfSome result (λ n. n ≡ encode_utf8_all text.now) }
        ensures identifier { IfSome result (λ n. IsIdentifier text.now) }
    {
        match Inline::ascii(text) {
            Some(inline) => {
                let text = Text::of_inline(inline);
                Some(Name { text })
            }
            None => None,
        }
    }

    /// The name of the first so many characters, at no cost but their bytes: `None` where they are more than 22, or where one
    /// of them or of the next few isn't of ASCII.
    pub fn front(chars: &[char], len: usize) -> Option<Name>
        requires within { len ≤ length chars.now }
        requires spelled { IsTrue (is_spelled_as_identifier (take len chars.now)) }
        ensures name { IfSome result (λ n. n ≡ encode_utf8_all (take len chars.now)) }
        ensures identifier { IfSome result (λ n. IsIdentifier (take len chars.now)) }
    {
        match Inline::front(chars, len) {
            Some(inline) => {
                let text = Text::of_inline(inline);
                Some(Name { text })
            }
            None => None,
        }
    }

    /// The same name, at the cost of a copy of its text: it fails only where a name of more than 22 bytes has a full
    /// counter.
    pub fn copy(&self) -> Result<Name, Memory>
        ensures { IfOk result (λ n. n ≡ self.now) }
    {
        Ok(self.clone()?)
    }

    /// Its bytes, which are an identifier, at no cost.
    pub fn as_str(&self) -> &str
        ensures value { result.now ≡ self.now }
        ensures identifier { IsIdentifier (chars self.now) }
    {
        self.text.as_str()
    }

    /// The name as a text, at the cost of a copy: it fails only where a name of more than 22 bytes has a full counter.
    pub fn to_text(&self) -> Result<Text, Memory>
        ensures { IfOk result (λ t. t ≡ self.now) }
    {
        self.text.copy()
    }
}

impl Clone for Name {
    ghost use Rattle.std.specs.Prelude.{◌≡◌};

    ghost is_clone = { λ n copy. copy ≡ n };

    fn clone(&self) -> Result<Name, AllocError> {
        let text = self.text.clone()?;
        Ok(Name { text })
    }
}

impl PartialEq for Name {
    ghost use Rattle.std.specs.Cmp.Rules.{comparing};
    ghost use Rattle.std.proofs.Common.{rules};
    ghost use Rattle.rv_names.specs.Keys.{bytes_equal};

    ghost eq = { bytes_equal };

    ghost laws = { Prim.search (comparing, rules) };

    fn eq(&self, other: &Name) -> bool
        ensures value { result ≡ bytes_equal self.now other.now }
        ensures same { IsTrue result ↔ (self.now ≡ other.now) }
    {
        self.text == other.text
    }
}

impl Eq for Name {
    ghost use Rattle.std.specs.Cmp.Rules.{comparing};
    ghost use Rattle.std.proofs.Common.{rules};

    ghost laws = { Prim.search (comparing, rules) };
}

impl Ord for Name {
    ghost use Rattle.std.specs.Cmp.Rules.{comparing};
    ghost use Rattle.std.proofs.Common.{rules};
    ghost use Rattle.rv_names.specs.Keys.{bytes_order};

    ghost cmp = { bytes_order };

    ghost total = { Prim.search (comparing, rules) };

    ghost matches_partial_cmp = { Prim.search (comparing, rules) };

    ghost matches_eq = { Prim.search (comparing, rules) };

    fn cmp(&self, other: &Name) -> Ordering {
        self.text.cmp(&other.text)
    }
}

impl PartialOrd for Name {
    ghost use Rattle.std.specs.Ordering.{as_partial_cmp};
    ghost use Rattle.std.specs.Cmp.{partial_order_from_own_ties};
    ghost use Rattle.std.specs.Cmp.Rules.{comparing};
    ghost use Rattle.std.proofs.Common.{rules};
    ghost use Rattle.rv_names.specs.Keys.{bytes_order};

    ghost partial_cmp = { as_partial_cmp bytes_order };

    ghost laws = { partial_order_from_own_ties (Prim.search (comparing, rules)) (Prim.search (comparing, rules)) };

    fn partial_cmp(&self, other: &Name) -> Option<Ordering> {
        Some(self.cmp(other))
    }
}

impl Hash for Name {
    ghost use Rattle.std.specs.Hash as fed;
    ghost use Rattle.std.specs.Cmp.Rules.{hashing};
    ghost use Rattle.std.proofs.Common.{rules};

    ghost hash_input = { fed.str };

    ghost respects_eq = { Prim.search (hashing, rules) };

    fn hash<H: Hasher>(&self, state: &mut H) {
        self.text.hash(state);
    }
}

impl fmt::Display for Name {
    ghost use Rattle.std.specs.Prelude.{Some};
    ghost use Rattle.std.specs.Fmt.{styled_text};

    ghost output = { λ n. Some n };

    ghost styled_output = { λ n style. Some (styled_text style n) };

    fn fmt<W: fmt::Write>(&self, f: &mut fmt::Formatter<W>) -> fmt::Result {
        fmt::Display::fmt(&self.text, f)
    }
}

impl fmt::Debug for Name {
    ghost use Rattle.std.specs.Fmt.{debug_str};

    ghost debug_output = { debug_str };

    fn fmt<W: fmt::Write>(&self, f: &mut fmt::Formatter<W>) -> fmt::Result {
        fmt::Debug::fmt(&self.text, f)
    }
}
