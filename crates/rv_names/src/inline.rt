//! Short texts, which lie in the value itself.

ghost use Rattle.std.specs.Prelude.{◌≡◌, ◌↔◌, ◌≤◌, length, take, IfSome, IsSome, IsAscii, encode_utf8_all};

use std::marker::Model;
use std::str;

/// How many bytes lie in the value itself: with their number and the mark of a kind they take 24.
const ROOM: usize = 22;

/// A text of at most 22 bytes, which contracts see as the list of its bytes.
#[derive(Drop)]
pub(crate) struct Inline {
    len: u8,
    bytes: [u8; ROOM],
}

impl Model for Inline {
    ghost use Rattle.std.specs.Prelude.{◌≤◌, ◌≡◌, length, take, IsUtf8};
    ghost use Rattle.rv_names.specs.Keys.{Bytes};

    ghost Value = { Bytes };

    ghost view = { λ t. take t.len t.bytes };

    ghost invariant = { λ t. (t.len ≤ 22) × (length t.bytes ≡ 22) × ∥ IsUtf8 (take t.len t.bytes) ∥₁ };
}

impl Inline {
    /// The text, where it has at most 22 bytes.
    pub(crate) fn read(text: &str) -> Option<Inline>
        ensures kept { IfSome result (λ t. t ≡ text.now) }
        ensures fits { IsSome result ↔ (length text.now ≤ 22) }
    {
        let source = text.as_bytes();
        if source.len() > ROOM {
            return None;
        }
        let mut bytes = [0; ROOM];
        bytes[..source.len()].copy_from_slice(source);
        let len = source.len() as u8;
        Some(Inline { len, bytes })
    }

    /// The text of the characters, where all are of ASCII and there are at most 22.
    pub(crate) fn ascii(text: &[char]) -> Option<Inline>
        ensures kept { IfSome result (λ t. t ≡ encode_utf8_all text.now) }
        ensures ascii { IfSome result (λ _. IsAscii text.now) }
    {
        if text.len() > ROOM {
            return None;
        }
        let mut bytes = [0; ROOM];
        for i in 0..text.len() {
            let c = text[i] as u32;
            if c >= 128 {
                return None;
            }
            bytes[i] = c as u8;
        }
        let len = text.len() as u8;
        Some(Inline { len, bytes })
    }

    /// The text of the first so many characters, where there are at most 22 of them. Of a longer list the first 22 characters
    /// are looked at together, which is faster than to stop behind the last one, and all must be of ASCII.
    pub(crate) fn front(chars: &[char], len: usize) -> Option<Inline>
        requires { len ≤ length chars.now }
        ensures kept { IfSome result (λ t. t ≡ encode_utf8_all (take len chars.now)) }
        ensures ascii { IfSome result (λ _. IsAscii (take len chars.now)) }
    {
        if len > ROOM {
            return None;
        }
        if chars.len() < ROOM {
            return Inline::ascii(&chars[..len]);
        }
        let mut bytes = [0; ROOM];
        let mut plain = true;
        for i in 0..ROOM {
            let c = chars[i] as u32;
            plain &= c < 128;
            bytes[i] = (c % 128) as u8;
        }
        if !plain {
            return None;
        }
        let len = len as u8;
        Some(Inline { len, bytes })
    }

    /// The same text: its 24 bytes are copied.
    pub(crate) fn copy(&self) -> Inline
        ensures { result ≡ self.now }
    {
        Inline {
            len: self.len,
            bytes: self.bytes,
        }
    }

    /// Its bytes as they are, at no cost.
    pub(crate) fn as_str(&self) -> &str
        ensures { result.now ≡ self.now }
    {
        unsafe { str::from_utf8_unchecked(&self.bytes[..self.len as usize]) }
    }
}
