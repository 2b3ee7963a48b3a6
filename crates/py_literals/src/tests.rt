//! Tables whose expected values are CPython's (`tokenize`, `ast.literal_eval`), where it reads the literal;
//! it takes the codes of surrogates for characters, which are refused here.
use crate::escape::{EscapeError, decode};
use crate::formatted::{field_len, has_form, text_len};
use crate::number::{NumberValue, longest_number, number};
use crate::place::{Pos, after};
use crate::text::{Opening, StringKind, string_body, string_opening};
use std::alloc::{AllocError, Global};
use std::process::Abort;
use std::test::Fail;

fn chars_of(alloc: Global, text: &str) -> Result<Vec<char>, AllocError> {
    text.chars().collect(alloc)
}

const NUMBERS: [(&str, Option<(usize, NumberValue)>); 52] = [
    ("0", Some((1, NumberValue::Whole(0)))),
    ("00", Some((2, NumberValue::Whole(0)))),
    ("0_0", Some((3, NumberValue::Whole(0)))),
    ("01", Some((1, NumberValue::Whole(0)))),
    ("09.5", Some((4, NumberValue::Float))),
    ("0_1.5", Some((5, NumberValue::Float))),
    ("007e1", Some((5, NumberValue::Float))),
    ("1__0", Some((1, NumberValue::Whole(1)))),
    ("1_", Some((1, NumberValue::Whole(1)))),
    (
        "170141183460469231731687303715884105727",
        Some((
            39,
            NumberValue::Whole(170141183460469231731687303715884105727),
        )),
    ),
    (
        "170141183460469231731687303715884105728",
        Some((39, NumberValue::Wide)),
    ),
    (
        "17014118346046923173168730371588410572_7",
        Some((
            40,
            NumberValue::Whole(170141183460469231731687303715884105727),
        )),
    ),
    (
        "999999999999999999999999999999999999999999999999999999999999",
        Some((60, NumberValue::Wide)),
    ),
    (
        "0x7fffffffffffffffffffffffffffffff",
        Some((
            34,
            NumberValue::Whole(170141183460469231731687303715884105727),
        )),
    ),
    (
        "0x80000000000000000000000000000000",
        Some((34, NumberValue::Wide)),
    ),
    ("0x_f", Some((4, NumberValue::Whole(15)))),
    ("0x", Some((1, NumberValue::Whole(0)))),
    ("0x_", Some((1, NumberValue::Whole(0)))),
    ("0x__1", Some((1, NumberValue::Whole(0)))),
    ("0b1_0", Some((5, NumberValue::Whole(2)))),
    ("0B102", Some((4, NumberValue::Whole(2)))),
    ("0O_17", Some((5, NumberValue::Whole(15)))),
    ("0o18", Some((3, NumberValue::Whole(1)))),
    (".5", Some((2, NumberValue::Float))),
    (".5e-3j", Some((6, NumberValue::Float))),
    (".", None),
    ("._5", None),
    (".e1", None),
    ("1.", Some((2, NumberValue::Float))),
    ("1..", Some((2, NumberValue::Float))),
    ("1._5", Some((2, NumberValue::Float))),
    ("1.5e", Some((3, NumberValue::Float))),
    ("1e", Some((1, NumberValue::Whole(1)))),
    ("1e5", Some((3, NumberValue::Float))),
    ("1e+", Some((1, NumberValue::Whole(1)))),
    ("1E-0_5", Some((6, NumberValue::Float))),
    ("1e_5", Some((1, NumberValue::Whole(1)))),
    ("1J", Some((2, NumberValue::Float))),
    ("1_0j", Some((4, NumberValue::Float))),
    ("0j", Some((2, NumberValue::Float))),
    ("01j", Some((3, NumberValue::Float))),
    ("1.j", Some((3, NumberValue::Float))),
    ("1ee5", Some((1, NumberValue::Whole(1)))),
    ("1if", Some((1, NumberValue::Whole(1)))),
    ("0xfor", Some((3, NumberValue::Whole(15)))),
    ("0b1e5", Some((3, NumberValue::Whole(1)))),
    ("0xe+1", Some((3, NumberValue::Whole(14)))),
    ("1e5.5", Some((3, NumberValue::Float))),
    ("a1", None),
    ("", None),
    ("_1", None),
    ("-1", None),
];

fn check_numbers(
    rt: &impl Abort,
    alloc: Global,
    rows: &[(&str, Option<(usize, NumberValue)>)],
) -> Result<(), Fail> {
    for (text, expected) in rows {
        let chars = chars_of(alloc, text)?;
        let found = number(&chars).map(|front| (front.len, front.value));
        assert!(rt; found == *expected, "{text}");
    }
    Ok(())
}

#[test]
fn numbers(rt: HostRuntime) -> Result<(), Fail> {
    longest_number();
    check_numbers(&rt, rt.alloc(), &NUMBERS)
}

/// A text, the prefix's marks, whether the quotes are three, the opening's length and the body's.
const STRINGS: [(&str, Option<(&str, bool, usize, Option<usize>)>); 31] = [
    ("'a' 'b'", Some(("", false, 1, Some(1)))),
    ("''", Some(("", false, 1, Some(0)))),
    ("'' '", Some(("", false, 1, Some(0)))),
    ("''''''", Some(("", true, 3, Some(0)))),
    ("'''a''b'c'''d'''", Some(("", true, 3, Some(6)))),
    ("\"'\"", Some(("", false, 1, Some(1)))),
    ("'\\'' ", Some(("", false, 1, Some(2)))),
    ("'\\\\' '", Some(("", false, 1, Some(2)))),
    ("r'\\' ' ", Some(("r", false, 2, Some(3)))),
    ("R'\\\\'", Some(("r", false, 2, Some(2)))),
    ("'a", Some(("", false, 1, None))),
    ("'a\n'", Some(("", false, 1, None))),
    ("'a\\\n'", Some(("", false, 1, Some(3)))),
    ("'''a\n'''", Some(("", true, 3, Some(2)))),
    ("'''a''\\'", Some(("", true, 3, None))),
    ("'''a\\''''", Some(("", true, 3, Some(3)))),
    ("'\\", Some(("", false, 1, None))),
    ("'", Some(("", false, 1, None))),
    ("u'x'", Some(("", false, 2, Some(1)))),
    ("U\"\"\"x\"\"\"", Some(("", true, 4, Some(1)))),
    ("b'x'", Some(("b", false, 2, Some(1)))),
    ("Rb'x'", Some(("rb", false, 3, Some(1)))),
    ("bR'x'", Some(("rb", false, 3, Some(1)))),
    ("F'x'", Some(("f", false, 2, Some(1)))),
    ("fr'''x'''", Some(("rf", true, 5, Some(1)))),
    ("rF'x'", Some(("rf", false, 3, Some(1)))),
    ("ur'x'", None),
    ("bf'x'", None),
    ("rr'x'", None),
    ("x'x'", None),
    ("", None),
];

fn marks(kind: &StringKind) -> &'static str {
    match (kind.raw, kind.bytes, kind.formatted) {
        (true, true, false) => "rb",
        (true, false, true) => "rf",
        (true, false, false) => "r",
        (false, true, false) => "b",
        (false, false, true) => "f",
        (false, false, false) => "",
        _ => "?",
    }
}

fn check_strings(
    rt: &impl Abort,
    alloc: Global,
    rows: &[(&str, Option<(&str, bool, usize, Option<usize>)>)],
) -> Result<(), Fail> {
    for (text, expected) in rows {
        let chars = chars_of(alloc, text)?;
        match (string_opening(&chars), expected) {
            (Some(Opening { kind, len }), Some((letters, triple, opening_len, body))) => {
                let same = marks(&kind) == *letters
                    && kind.triple == *triple
                    && len == *opening_len;
                assert!(rt; same, "{text}");
                assert!(rt; string_body(&kind, &chars[len..]) == *body, "{text}");
            }
            (None, None) => {}
            _ => assert!(rt; false, "{text}"),
        }
    }
    Ok(())
}

#[test]
fn strings(rt: HostRuntime) -> Result<(), Fail> {
    check_strings(&rt, rt.alloc(), &STRINGS)
}

fn kind(marks: &str) -> StringKind {
    StringKind {
        quote: '"',
        triple: true,
        raw: marks == "r" || marks == "rb",
        bytes: marks == "b" || marks == "rb",
        formatted: marks == "f",
    }
}

/// The prefix's marks, a body, and its value or the offset of the bad backslash.
const BODIES: [(&str, &str, Result<&str, usize>); 27] = [
    ("", "plain \u{e9}", Ok("plain \u{e9}")),
    (
        "",
        "\\\\\\\'\\\"\\a\\b\\f\\n\\r\\t\\v",
        Ok("\\'\"\x07\x08\x0c\n\r\t\x0b"),
    ),
    ("", "a\\\nb", Ok("ab")),
    (
        "",
        "\\0\\7\\17\\377\\400\\777\\778\\08\\18",
        Ok("\0\x07\x0f\u{ff}\u{100}\u{1ff}?8\08\x018"),
    ),
    ("", "\\x41\\xfF", Ok("A\u{ff}")),
    ("", "\\x41\\xff\\x7G", Err(8)),
    ("", "\\x4", Err(0)),
    ("", "ab\\x", Err(2)),
    ("", "\\u00e9\\u4E2D", Ok("\u{e9}\u{4e2d}")),
    ("", "\\u123", Err(0)),
    ("", "\\ud7ff\\ue000", Ok("\u{d7ff}\u{e000}")),
    ("", "\\ud800", Err(0)),
    ("", "x\\udfff", Err(1)),
    ("", "\\U0010ffff\\U0001F600", Ok("\u{10ffff}\u{1f600}")),
    ("", "\\U00110000", Err(0)),
    ("", "\\U0000d800", Err(0)),
    ("", "\\U0010fff", Err(0)),
    ("", "\\UFFFFFFFF", Err(0)),
    ("", "a\\\\\\N{DASH}", Err(3)),
    ("", "\\q\\8\\9\\{\\%", Ok("\\q\\8\\9\\{\\%")),
    (
        "b",
        "\\x41\\q\\u1234\\U0010ffff\\N{x}",
        Ok("A\\q\\u1234\\U0010ffff\\N{x}"),
    ),
    ("b", "\\x4", Err(0)),
    ("r", "\\x\\N\\n", Ok("\\x\\N\\n")),
    ("rb", "\\xZZ", Ok("\\xZZ")),
    ("f", "{{a}}\\x7d}}\\{{", Ok("{a}}}\\{")),
    ("", "{{}}", Ok("{{}}")),
    ("", "", Ok("")),
];

fn check_bodies(
    rt: &impl Abort,
    alloc: Global,
    rows: &[(&str, &str, Result<&str, usize>)],
) -> Result<(), Fail> {
    for (letters, body, expected) in rows {
        let chars = chars_of(alloc, body)?;
        match (decode(alloc, &kind(letters), &chars), expected) {
            (Ok(found), Ok(value)) => {
                let value = chars_of(alloc, value)?;
                assert!(rt; found.as_slice() == value.as_slice(), "{body}");
            }
            (Err(EscapeError::Bad(offset)), Err(bad)) => assert!(rt; offset == *bad, "{body}"),
            _ => assert!(rt; false, "{body}"),
        }
    }
    Ok(())
}

#[test]
fn bodies(rt: HostRuntime) -> Result<(), Fail> {
    check_bodies(&rt, rt.alloc(), &BODIES)
}

/// A body, whether it has the form, the length of its first text and of a field at its front.
const FORMS: [(&str, bool, usize, usize); 17] = [
    ("", true, 0, 0),
    ("a {b} c", true, 2, 2),
    ("{{a}}{b}", true, 5, 0),
    ("{{{a}}}", true, 2, 0),
    ("}}{{", true, 4, 0),
    ("{}", true, 0, 0),
    ("\\{a}", true, 1, 0),
    ("\\{{a}}", true, 6, 0),
    ("a}", false, 2, 1),
    ("a}b", false, 3, 1),
    ("{a", false, 0, 0),
    ("{", false, 0, 0),
    ("{a{b}}", false, 0, 0),
    ("{a!r}", false, 0, 0),
    ("x:y!{a:b}", false, 4, 1),
    ("{'a'}", false, 0, 0),
    ("a\nb", false, 3, 1),
];

fn check_forms(
    rt: &impl Abort,
    alloc: Global,
    rows: &[(&str, bool, usize, usize)],
) -> Result<(), Fail> {
    for (body, formed, text, field) in rows {
        let chars = chars_of(alloc, body)?;
        assert!(rt; has_form(&kind("f"), &chars) == *formed, "{body}");
        assert!(rt; !has_form(&kind("r"), &chars), "{body}");
        assert!(rt; text_len(&chars) == *text, "{body}");
        assert!(rt; field_len(&chars) == *field, "{body}");
    }
    Ok(())
}

#[test]
fn forms(rt: HostRuntime) -> Result<(), Fail> {
    check_forms(&rt, rt.alloc(), &FORMS)
}

#[test]
fn places(rt: HostRuntime) {
    let end = after(Pos { line: 3, col: 5 }, &['a', 'b', '\n', '\u{4e2d}', '\t']);
    assert!(rt; end.line == 4 && end.col == 3);
}
