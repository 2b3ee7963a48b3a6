//! What no clause says: each command by hand and cut at every byte; the limits, and one byte either side of each; faults
//! with their places; and that a call can succeed.

use script::*;
use std::alloc::{AllocError, Global};
use std::process::Abort;
use std::test::Fail;

/// Each command in its short forms, and how it is shown. The place of a text is that of the byte behind its line.
const SHORT: [(&str, &str); 20] = [
    (
        "put a.py 3\nx=1\n",
        "Put { path: \"a.py\", from: 11, len: 3 }",
    ),
    (
        "put a/b-c_D.9 0\n\n",
        "Put { path: \"a/b-c_D.9\", from: 16, len: 0 }",
    ),
    ("put t 4\n\nend\n", "Put { path: \"t\", from: 8, len: 4 }"),
    ("drop a.py\n", "Drop { path: \"a.py\" }"),
    ("ask 1 issues\n", "Ask { session: 1, query: Issues }"),
    (
        "ask 16 issues a.py\n",
        "Ask { session: 16, query: IssuesOf { path: \"a.py\" } }",
    ),
    (
        "ask 9 model m.C.f\n",
        "Ask { session: 9, query: Model { name: \"m.C.f\" } }",
    ),
    (
        "ask 4 model é\n",
        "Ask { session: 4, query: Model { name: \"é\" } }",
    ),
    (
        "ask 2 trace 1\n",
        "Ask { session: 2, query: Trace { number: 1 } }",
    ),
    (
        "ask 2 trace 4294967295\n",
        "Ask { session: 2, query: Trace { number: 4294967295 } }",
    ),
    ("ask 3 notes\n", "Ask { session: 3, query: Notes }"),
    ("ask 10 version\n", "Ask { session: 10, query: Version }"),
    ("sync\n", "Sync"),
    (
        "run 1 [[],[]]\n",
        "Run { fuel: 1, calls: Calls { items: [] }, draws: Values { items: [] } }",
    ),
    (
        "run 7 [[], [null]]\n",
        "Run { fuel: 7, calls: Calls { items: [] }, draws: Values { items: [Nothing] } }",
    ),
    (
        "run 1000000 [[[\"m.f\",[1,-2,\"x\",true]],[\"\",[]]],[{},false]]\n",
        "Run { fuel: 1000000, calls: Calls { items: [Entry { name: \"m.f\", args: Values { items: [Int(1), Int(-2), Str(\"x\"), Truth(true)] } }, Entry { name: \"\", args: Values { items: [] } }] }, draws: Values { items: [External, Truth(false)] } }",
    ),
    (
        "run 2 [[],[18446744073709551615,-9223372036854775808]]\n",
        "Run { fuel: 2, calls: Calls { items: [] }, draws: Values { items: [Int(18446744073709551615), Int(-9223372036854775808)] } }",
    ),
    (
        "run 3 [[],[]] \r\n",
        "Run { fuel: 3, calls: Calls { items: [] }, draws: Values { items: [] } }",
    ),
    (
        "run 3 \t[ [],[\"\\n\"]]\n",
        "Run { fuel: 3, calls: Calls { items: [] }, draws: Values { items: [Str(\"\\n\")] } }",
    ),
    ("end\n", "End"),
];

/// Bytes that begin no command, and can't become one.
const MALFORMED: [&str; 62] = [
    "\n",
    " ",
    "x",
    "Put",
    "puT",
    "putt",
    "put\n",
    "put  ",
    "put /a\u{7f}",
    "put a\n",
    "put a b",
    "put a 01",
    "put a 00",
    "put a +",
    "put a 4294967296",
    "put a 99999999999",
    "put a 3 ",
    "put a 1\nab",
    "put a 0\nx",
    "put a 1\n\n\r",
    "put é",
    "put a, 1\n",
    "drop \n",
    "drop a ",
    "drop a b\n",
    "drop a\r\n",
    "drops",
    "ask\n",
    "ask  ",
    "ask 0",
    "ask 17",
    "ask 01",
    "ask 160",
    "ask 1\n",
    "ask 1 x",
    "ask 1 issue\n",
    "ask 1 issuess",
    "ask 1 issues  ",
    "ask 1 issues \n",
    "ask 1 issues a b",
    "ask 1 model\n",
    "ask 1 model \n",
    "ask 1 model a b\n",
    "ask 1 model a\t\n",
    "ask 1 trace 0",
    "ask 1 trace 4294967296",
    "ask 1 trace 1 ",
    "ask 1 trace \n",
    "ask 1 notes ",
    "ask 1 versions",
    "sync ",
    "syncs",
    "run 0",
    "run 1000001",
    "run 05",
    "run 1\n",
    "run 1 \n",
    "run 1 []\n",
    "run 1 [[],[1.5]]\n",
    "run 1 [[],[1e2]]\n",
    "ends",
    "end ",
];

/// JSON texts that spell no calls and draws.
const NO_RUNS: [&str; 22] = [
    "x",
    "null",
    "{}",
    "[]",
    "[[]]",
    "[[],[],[]]",
    "[[],{}]",
    "[{},[]]",
    "[[],[[]]]",
    "[[],[{\"a\":1}]]",
    "[[[]],[]]",
    "[[\"f\"],[]]",
    "[[[\"f\"]],[]]",
    "[[[\"f\",[],[]]],[]]",
    "[[[1,[]]],[]]",
    "[[[\"f\",1]],[]]",
    "[[[\"f\",[[]]]],[]]",
    "[[],[18446744073709551616]]",
    "[[],[-9223372036854775809]]",
    "[[],[-0]]",
    "[[],[]]x",
    "[[],[01]]",
];

/// Places of a stream, and what is read there.
const STREAM: [(usize, &str); 6] = [
    (0, "Put { path: \"a.py\", from: 11, len: 6 } then 18"),
    (18, "Drop { path: \"a.py\" } then 28"),
    (28, "Ask { session: 1, query: Issues } then 41"),
    (41, "End then 45"),
    (45, "malformed 45"),
    (53, "Line { from: 53, until: 1048642 } at 53"),
];

/// What was read, as text.
fn next_text(alloc: Global, next: Next, after: usize) -> Result<String, AllocError> {
    match next {
        Next::Command(command) => format!(in alloc; "{command:?} then {after}"),
        Next::Need(wait) => format!(in alloc; "{wait:?} at {after}"),
    }
}

/// What is read at a place, as text.
fn shown(alloc: Global, bytes: &[u8], at: usize, ended: bool) -> Result<String, AllocError> {
    if at > bytes.len() {
        return format!(in alloc; "past the end");
    }
    match next_command(alloc, bytes, at, ended) {
        Ok((next, after)) => next_text(alloc, next, after),
        Err(error) => format!(in alloc; "{error}"),
    }
}

/// Whether this is read at a place.
fn reads(
    rt: &impl Abort,
    alloc: Global,
    bytes: &[u8],
    at: usize,
    ended: bool,
    want: &str,
) -> Result<(), AllocError> {
    let got = shown(alloc, bytes, at, ended)?;
    assert_eq!(rt; got.as_str(), want);
    Ok(())
}

/// A text behind another.
fn joined(alloc: Global, front: &[u8], text: &[u8]) -> Result<Vec<u8>, AllocError> {
    let mut bytes = Vec::from_slice(alloc, front)?;
    bytes.extend_from_slice(text)?;
    Ok(bytes)
}

fn all_read(rt: &impl Abort, alloc: Global, cases: &[(&str, &str)]) -> Result<(), AllocError> {
    for (text, command) in cases {
        let bytes = text.as_bytes();
        let want = format!(in alloc; "{command} then {}", bytes.len())?;
        reads(rt, alloc, bytes, 0, false, want.as_str())?;
        reads(rt, alloc, bytes, 0, true, want.as_str())?;
        let more = joined(alloc, bytes, b"\nput")?;
        reads(rt, alloc, more.as_slice(), 0, false, want.as_str())?;
    }
    Ok(())
}

#[test]
fn short_commands(rt: HostRuntime) -> Result<(), Fail> {
    all_read(&rt, rt.alloc(), &SHORT)?;
    Ok(())
}

/// The number of bytes at which a line without its end is too long, by its first byte.
fn too_long_at(bytes: &[u8]) -> usize {
    match bytes {
        [b'p', ..] => 271,
        [b'd', ..] => 261,
        [b'a', ..] => 4110,
        [b'r', ..] => 1_048_589,
        [] => 1_048_589,
        [_, ..] => 5,
    }
}

/// What is said of a command that is cut, whose line ends at this place.
fn cut_text(alloc: Global, part: &[u8], line: usize, whole: usize) -> Result<String, AllocError> {
    let len = part.len();
    if len <= line {
        let until = too_long_at(part);
        return format!(in alloc; "Line {{ from: {len}, until: {until} }} at 0");
    }
    format!(in alloc; "Text {{ until: {whole} }} at 0")
}

/// A command that is cut at each byte is waited for, and refused where the input ended.
fn cut_everywhere(rt: &impl Abort, alloc: Global, bytes: &[u8]) -> Result<(), AllocError> {
    let line = bytes.iter().take_while(|byte| **byte != b'\n').count();
    for cut in 0..bytes.len() {
        let part = &bytes[..cut];
        let want = cut_text(alloc, part, line, bytes.len())?;
        reads(rt, alloc, part, 0, false, want.as_str())?;
        reads(rt, alloc, part, 0, true, "malformed 0")?;
    }
    Ok(())
}

fn all_cut(rt: &impl Abort, alloc: Global, cases: &[(&str, &str)]) -> Result<(), AllocError> {
    for (text, _) in cases {
        cut_everywhere(rt, alloc, text.as_bytes())?;
    }
    Ok(())
}

#[test]
fn cut_commands(rt: HostRuntime) -> Result<(), Fail> {
    all_cut(&rt, rt.alloc(), &SHORT)?;
    Ok(())
}

fn all_malformed(rt: &impl Abort, alloc: Global, texts: &[&str]) -> Result<(), AllocError> {
    for text in texts {
        let bytes = joined(alloc, b"sync\n", text.as_bytes())?;
        reads(rt, alloc, bytes.as_slice(), 5, false, "malformed 5")?;
        reads(rt, alloc, bytes.as_slice(), 5, true, "malformed 5")?;
    }
    Ok(())
}

fn no_runs(rt: &impl Abort, alloc: Global, texts: &[&str]) -> Result<(), AllocError> {
    for json in texts {
        let bytes = format!(in alloc; "run 1 {json}\n")?;
        reads(rt, alloc, bytes.as_bytes(), 0, false, "malformed 0")?;
    }
    Ok(())
}

#[test]
fn malformed(rt: HostRuntime) -> Result<(), Fail> {
    all_malformed(&rt, rt.alloc(), &MALFORMED)?;
    no_runs(&rt, rt.alloc(), &NO_RUNS)?;
    Ok(())
}

/// Whether a name or a JSON text is well formed is decided at the end of its line.
fn decided_at_its_end(
    rt: &impl Abort,
    alloc: Global,
    text: &[u8],
    until: usize,
) -> Result<(), AllocError> {
    let want = format!(in alloc; "Line {{ from: {}, until: {until} }} at 0", text.len())?;
    reads(rt, alloc, text, 0, false, want.as_str())?;
    let whole = joined(alloc, text, b"\n")?;
    reads(rt, alloc, whole.as_slice(), 0, false, "malformed 0")
}

#[test]
fn open_lines(rt: HostRuntime) -> Result<(), Fail> {
    let alloc = rt.alloc();
    decided_at_its_end(&rt, alloc, b"ask 1 model \x01\xff \r", 4110)?;
    decided_at_its_end(&rt, alloc, b"run 1 \xff\x00}", 1_048_589)?;
    decided_at_its_end(&rt, alloc, b"ask 1 model \xc3", 4110)?;
    Ok(())
}

/// A front, so many bytes, and an end.
fn long(
    alloc: Global,
    front: &str,
    byte: u8,
    count: usize,
    end: &str,
) -> Result<Vec<u8>, AllocError> {
    let mut bytes = Vec::from_slice(alloc, front.as_bytes())?;
    for _ in 0..count {
        bytes.push(byte)?;
    }
    bytes.extend_from_slice(end.as_bytes())?;
    Ok(bytes)
}

/// A line with the greatest number of bytes in a field is read, or waited for, as this begins; with one byte more it is refused.
fn limited(
    rt: &impl Abort,
    alloc: Global,
    front: &str,
    byte: u8,
    count: usize,
    end: &str,
    want: &str,
) -> Result<(), AllocError> {
    let most = long(alloc, front, byte, count, end)?;
    let got = shown(alloc, most.as_slice(), 0, false)?;
    assert!(rt; got.as_str().starts_with(want), "{want}");
    let mut over = Vec::from_slice(alloc, front.as_bytes())?;
    over.push(byte)?;
    over.extend_from_slice(most.as_slice().get(front.len()..).unwrap_or(b""))?;
    reads(rt, alloc, over.as_slice(), 0, false, "malformed 0")
}

#[test]
fn limits(rt: HostRuntime) -> Result<(), Fail> {
    let alloc = rt.alloc();
    limited(
        &rt,
        alloc,
        "put ",
        b'a',
        255,
        " 0\n\n",
        "Put { path: \"aaaa",
    )?;
    limited(&rt, alloc, "drop ", b'-', 255, "\n", "Drop { path: \"----")?;
    limited(
        &rt,
        alloc,
        "ask 1 issues ",
        b'/',
        255,
        "\n",
        "Ask { session: 1, query: IssuesOf",
    )?;
    limited(
        &rt,
        alloc,
        "ask 1 model ",
        b'!',
        4096,
        "\n",
        "Ask { session: 1, query: Model { name: \"!!!",
    )?;
    limited(
        &rt,
        alloc,
        "run 1 ",
        b' ',
        1_048_569,
        "[[],[]]\n",
        "Run { fuel: 1",
    )?;
    Ok(())
}

#[test]
fn limits_of_unfinished_lines(rt: HostRuntime) -> Result<(), Fail> {
    let alloc = rt.alloc();
    limited(
        &rt,
        alloc,
        "put ",
        b'a',
        255,
        "",
        "Line { from: 259, until: 271 } at 0",
    )?;
    limited(
        &rt,
        alloc,
        "ask 16 model ",
        0xff,
        4096,
        "",
        "Line { from: 4109, until: 4110 } at 0",
    )?;
    limited(
        &rt,
        alloc,
        "run 1000000 ",
        0xff,
        1_048_576,
        "",
        "Line { from: 1048588, until: 1048589 } at 0",
    )?;
    reads(
        &rt,
        alloc,
        b"put a 4294967295\n",
        0,
        false,
        "Text { until: 4294967313 } at 0",
    )?;
    Ok(())
}

fn all_places(
    rt: &impl Abort,
    alloc: Global,
    bytes: &[u8],
    cases: &[(usize, &str)],
) -> Result<(), AllocError> {
    for (at, want) in cases {
        reads(rt, alloc, bytes, *at, false, want)?;
    }
    Ok(())
}

/// A stream in turn, with places from its beginning.
#[test]
fn streams(rt: HostRuntime) -> Result<(), Fail> {
    let alloc = rt.alloc();
    let bytes = b"put a.py 6\nx = 1\n\ndrop a.py\nask 1 issues\nend\nwhatever";
    all_places(&rt, alloc, bytes, &STREAM)?;
    reads(
        &rt,
        alloc,
        b"sync\nput b 2\nx",
        5,
        false,
        "Text { until: 16 } at 5",
    )?;
    reads(
        &rt,
        alloc,
        b"sync\nput b 2\nxy\n",
        5,
        true,
        "Put { path: \"b\", from: 13, len: 2 } then 16",
    )?;
    Ok(())
}
