//! What no clause says: outside vectors of identifiers, printed text, that each call can succeed, that comparisons can be
//! derived above, and that threads can share the values.

ghost use Rattle.std.specs.Prelude.{◌≡◌, IfOk, chars};

use super::*;
use crate::identifiers::is_spelled_as_identifier;
use std::alloc::{AllocError, Global};
use std::hash::{DefaultHasher, Hash, Hasher};
use std::process::Abort;
use std::test::Fail;
use std::thread;

/// A key as the crates above have them.
#[derive(Drop, Hash, PartialEq, Eq, PartialOrd, Ord)]
struct Key {
    module: QName,
    place: Place,
}

#[derive(Drop, Hash, PartialEq, Eq, PartialOrd, Ord)]
enum Place {
    Top,
    Named(Name),
    Noted(Text),
}

/// The names between the dots of a text.
fn parts_of(alloc: Global, text: &str) -> Result<Vec<Name>, NameFault> {
    let mut parts = Vec::new(alloc);
    for part in text.split('.') {
        let name = Name::read(alloc, part)?;
        parts.push(name).map_err(AllocError::from)?;
    }
    Ok(parts)
}

fn qualified(alloc: Global, text: &str) -> Result<QName, NameFault> {
    Ok(QName::new(parts_of(alloc, text)?))
}

fn make_key(alloc: Global, module: &str, place: Place) -> Result<Key, NameFault> {
    let module = qualified(alloc, module)?;
    Ok(Key { module, place })
}

fn is_name(alloc: Global, text: &str) -> Result<bool, Memory> {
    match Name::read(alloc, text) {
        Ok(_) => Ok(true),
        Err(NameFault::NotIdent) => Ok(false),
        Err(NameFault::Memory) => Err(Memory),
    }
}

/// The items rise strictly, by each comparison.
fn rises<T: Ord>(rt: &impl Abort, items: &[T]) {
    for (i, x) in items.iter().enumerate() {
        for (j, y) in items.iter().enumerate() {
            assert!(rt; x.cmp(y) == i.cmp(&j), "{i} and {j}");
            assert!(rt; (x < y) == (i < j), "{i} and {j}");
            assert!(rt; (x == y) == (i == j), "{i} and {j}");
        }
    }
}

/// The answers are those of CPython 3.11 for `s.isidentifier()` and `unicodedata.normalize("NFKC", s) == s`.
#[test]
fn identifiers(rt: HostRuntime) {
    let cases = [
        ("", false),
        ("x", true),
        ("_", true),
        ("_1", true),
        ("1x", false),
        ("if", true),
        ("__init__", true),
        ("a b", false),
        ("a-b", false),
        ("a.b", false),
        (" a", false),
        ("a\n", false),
        ("$x", false),
        ("café", true),
        ("cafe\u{301}", false),
        ("变量", true),
        ("μ", true),
        ("\u{b5}", false),
        ("\u{aa}", false),
        ("\u{fb01}x", false),
        ("K\u{212a}", false),
        ("\u{17f}", false),
        ("\u{ff21}", false),
        ("\u{1d400}", false),
        ("\u{10400}", true),
        ("\u{2118}", true),
        ("\u{d4e}", true),
        ("x\u{b2}", false),
        ("a\u{b7}", true),
        ("\u{b7}a", false),
        ("a\u{663}", true),
        ("\u{663}a", false),
        ("\u{37a}", false),
        ("\u{345}", false),
        ("\u{e33}", false),
        ("a\u{200b}", false),
        ("\u{1f600}", false),
    ];
    for (text, accepted) in cases {
        assert_eq!(rt; is_name(rt.alloc(), text), Ok(accepted), "{text:?}");
    }
    for (ch, starts, continues) in [
        ('a', true, true),
        ('_', true, true),
        ('7', false, true),
        ('-', false, false),
    ] {
        assert_eq!(rt; is_identifier_start(ch), starts);
        assert_eq!(rt; is_identifier_continue(ch), continues);
    }
}

/// The characters of the text.
#[tactic(auto, using(std::proofs::lemmas::Str::chars_from_encodes))]
fn chars_of(alloc: Global, text: &str) -> Result<Vec<char>, AllocError>
    ensures { IfOk result (λ cs. cs.items ≡ chars text.now) }
{
    text.chars().collect(alloc)
}

fn hash_of<T: Hash>(value: &T) -> u64 {
    let mut state = DefaultHasher::new();
    value.hash(&mut state);
    state.finish()
}

/// Texts of 0, 21, 22 and 23 bytes, and such that end in a character of two bytes, each above the one before it.
#[test]
fn texts(rt: HostRuntime) -> Result<(), Fail> {
    let alloc = rt.alloc();
    let mut rising = Vec::new(alloc);
    for text in [
        "",
        "abcdefghijklmnopqrstu",
        "abcdefghijklmnopqrstuv",
        "abcdefghijklmnopqrstuvw",
        "abcdefghijklmnopqrstué",
        "abcdefghijklmnopqrsté",
        "naïve",
        "naïve words, many of them",
    ] {
        let read = Text::read(alloc, text)?;
        let taken = Text::from_string(String::from_str(alloc, text)?)?;
        assert_eq!(rt; read.as_str(), text);
        assert!(rt; taken == read && read.copy()? == taken, "{text}");
        assert_eq!(rt; hash_of(&read), hash_of(&text), "{text}");
        rising.push(read)?;
    }
    rises(&rt, rising.as_slice());
    Ok(())
}

/// Texts that differ in byte 8 or 9, or by one that is missing.
#[test]
fn texts_in_order(rt: HostRuntime) -> Result<(), Fail> {
    let alloc = rt.alloc();
    let mut rising = Vec::new(alloc);
    for text in ["abcdefg", "abcdefgg", "abcdefgga", "abcdefggb", "abcdefgh"] {
        rising.push(Text::read(alloc, text)?)?;
    }
    rises(&rt, rising.as_slice());
    Ok(())
}

/// Whether the characters of the text give a text, and a name, of the same bytes without memory.
fn is_kept(rt: &(impl Abort + Alloc<A = Global>), text: &str) -> Result<bool, AllocError> {
    let chars = chars_of(rt.alloc(), text)?;
    let kept = Text::ascii(chars.as_slice());
    if let Some(found) = &kept {
        assert_eq!(rt; found.as_str(), text);
    }
    if is_spelled_as_identifier(text) {
        match Name::ascii(chars.as_slice()) {
            Some(name) => assert_eq!(rt; name.as_str(), text),
            None => assert!(rt; kept.is_none(), "{text}"),
        }
    }
    Ok(kept.is_some())
}

#[test]
fn texts_of_ascii(rt: HostRuntime) -> Result<(), Fail> {
    for (text, kept) in [
        ("", true),
        ("x", true),
        ("a b\u{0}\u{7f}", true),
        ("\u{80}", false),
        ("café", false),
        ("变量", false),
        ("abcdefghijklmnopqrstuv", true),
        ("abcdefghijklmnopqrstuvw", false),
    ] {
        assert_eq!(rt; is_kept(&rt, text)?, kept, "{text:?}");
    }
    Ok(())
}

/// The text of the first so many characters, where it lies in the value.
fn front_of(
    rt: &(impl Abort + Alloc<A = Global>),
    text: &str,
    len: usize,
) -> Result<Option<Text>, AllocError> {
    let chars = chars_of(rt.alloc(), text)?;
    assert!(rt; len <= chars.len(), "{text}");
    Ok(Text::front(chars.as_slice(), len))
}

#[test]
fn fronts_of_ascii(rt: HostRuntime) -> Result<(), Fail> {
    for (text, len, front) in [
        ("", 0, ""),
        ("x = 'é'", 1, "x"),
        ("x == y, and more than that", 4, "x =="),
        ("abcdefghijklmnopqrstuvé", 22, "abcdefghijklmnopqrstuv"),
    ] {
        match front_of(&rt, text, len)? {
            Some(found) => assert_eq!(rt; found.as_str(), front),
            None => assert!(rt; false, "{text}"),
        }
    }
    for (text, len) in [
        ("x = 'é', and more than that", 1),
        ("é", 1),
        ("abcdefghijklmnopqrstuvw", 23),
    ] {
        assert!(rt; front_of(&rt, text, len)?.is_none(), "{text}");
    }
    Ok(())
}

#[test]
fn names(rt: HostRuntime) -> Result<(), Fail> {
    for text in ["größe", "größe_in_mehr_als_22_bytes"] {
        let name = Name::read(rt.alloc(), text)?;
        assert_eq!(rt; name.copy()?.to_text()?.as_str(), text);
    }
    // By bytes: capitals, `_`, small letters, a name before one that it begins, and then all that is not ASCII.
    let rising = parts_of(
        rt.alloc(),
        "A.Zebra._.a.a_name_of_more_than_22_bytes.aa.b.é.变",
    )?;
    rises(&rt, rising.as_slice());
    Ok(())
}

#[test]
fn qualified_names(rt: HostRuntime) -> Result<(), Fail> {
    let alloc = rt.alloc();
    let q = qualified(alloc, "pkg.mod.Class")?;
    assert_eq!(rt; q.parts().len(), 3);
    assert!(rt; q == q.copy()?);
    let printed = format!(in alloc; "{q}|{q:?}")?;
    assert_eq!(rt;
        printed.as_str(),
        "pkg.mod.Class|[\"pkg\", \"mod\", \"Class\"]"
    );
    // By the names: `ab` is above `a`, and so above `a.z`.
    let mut rising = vec![in alloc; QName::new(Vec::new(alloc))]?;
    for text in ["a", "a.b", "a.z", "ab", "ab.a", "b"] {
        rising.push(qualified(alloc, text)?)?;
    }
    rises(&rt, rising.as_slice());
    Ok(())
}

/// The number of a name, which is found again by either.
fn number_of(
    rt: &(impl Abort + Alloc<A = Global>),
    names: &mut Names,
    text: &str,
) -> Result<u32, NameFault> {
    let q = qualified(rt.alloc(), text)?;
    assert!(rt; names.len() < 100);
    let number = names.number(&q)?;
    assert!(rt; names.find(&q) == Some(number) && names.name(number) == Some(&q));
    Ok(number)
}

#[test]
fn numbers(rt: HostRuntime) -> Result<(), Fail> {
    let mut names = Names::new(rt.alloc());
    for (text, number) in [
        ("a", 0),
        ("a.b", 1),
        ("b", 2),
        ("a.b", 1),
        ("a", 0),
        ("ab", 3),
        ("b", 2),
    ] {
        assert_eq!(rt; number_of(&rt, &mut names, text)?, number);
    }
    assert!(rt; names.len() == 4 && !names.is_empty());
    assert!(rt; names.name(4).is_none() && names.name(u32::MAX).is_none());
    assert!(rt; names.find(&qualified(rt.alloc(), "a.b.c")?).is_none());
    Ok(())
}

#[test]
fn derived_keys(rt: HostRuntime) -> Result<(), Fail> {
    let alloc = rt.alloc();
    let mut keys = Vec::new(alloc);
    for module in ["a.b", "ab"] {
        keys.push(make_key(alloc, module, Place::Top)?)?;
        keys.push(make_key(alloc, module, Place::Named(Name::read(alloc, "f")?))?)?;
        keys.push(make_key(alloc, module, Place::Noted(Text::read(alloc, "")?))?)?;
    }
    rises(&rt, keys.as_slice());
    Ok(())
}

#[test]
fn threads_share(rt: HostRuntime) -> Result<(), Fail> {
    let names = Names::new(rt.alloc());
    let q = qualified(rt.alloc(), "a.b")?;
    let (number, copy) = thread::join(&rt, || names.find(&q), || q.copy());
    assert!(rt; number.is_none());
    assert!(rt; copy? == q);
    Ok(())
}
