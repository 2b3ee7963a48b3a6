//! The first example's stream by its exact bytes, with each read failing in turn, and each write.
ghost use Rattle.std.specs.Prelude.{◌<◌};

use crate::calls::review_main;
use rv_io::{MemSink, MemSource, OpenGate};
use std::alloc::Global;
use std::test::Fail;

/// Three puts and the end: `os.system(input())` on the third line of `app.py`. The puts end behind 282, 412 and 471 bytes.
const STREAM: &[u8] =
    b"put taint.config 260\n{\"sources\":[{\"name\":\"UserControlled\"}],\"sinks\":[{\"name\":\"RemoteCodeExecution\"}],\"features\":[],\"rules\":[{\"name\":\"Possible RCE\",\"code\":5001,\"sources\":[\"UserControlled\"],\"sinks\":[\"RemoteCodeExecution\"],\"message_format\":\"Data from {$sources} may reach {$sinks}\"}]}\nput general.pysa 108\ndef input() -> TaintSource[UserControlled]: ...\ndef os.system(command: TaintSink[RemoteCodeExecution]): ...\n\nput app.py 44\nimport os\ndef run():\n    os.system(input())\n\nend\n";

const OUTPUT: &[u8] =
    b"edit 1\nedit 2\nedit 3\nissues 1\napp.py:3:8 5001 app.run UserControlled:input RemoteCodeExecution:os.system Data from UserControlled may reach RemoteCodeExecution\n";

const USAGE: &[u8] = b"usage: review check | serve W | confirm | gen N SIZE | work N SIZE\n";

/// The status and the output of the program for these words and this input.
fn answer_of(
    alloc: Global,
    words: &[&str],
    input: &[u8],
    piece: usize,
    fails: &[u64],
    room: usize,
) -> Result<(u8, Vec<u8>), Fail>
    requires { 0 < piece }
{
    let mut texts = Vec::new(alloc);
    for word in words {
        texts.push(String::from_str(alloc, word)?)?;
    }
    let mut source = MemSource::new(input.to_vec(alloc)?, piece, fails.to_vec(alloc)?);
    let mut sink = MemSink::new(alloc, room)?;
    let status = review_main(&(), alloc, &texts, &mut source, &mut sink, &OpenGate);
    Ok((status, sink.held().to_vec(alloc)?))
}

/// Whatever the pieces are, and where a read or a write fails.
#[test]
fn the_first_example_and_its_faults(rt: HostRuntime) -> Result<(), Fail> {
    let alloc = rt.alloc();
    let table: [(usize, &[u64], usize, u8, &[u8]); 6] = [
        (4096, &[], 1000, 8, OUTPUT),
        (7, &[], 1000, 8, OUTPUT),
        (1, &[], 1000, 8, OUTPUT),
        (300, &[2], 1000, 4, b"edit 1\nread fault\n"),
        (4096, &[], 10, 5, b"edit 1\nedi"),
        (300, &[2], 10, 5, b"edit 1\nrea"),
    ];
    for (piece, fails, room, status, text) in table {
        assert!(rt; piece > 0);
        let (found, held) = answer_of(alloc, &["check"], STREAM, piece, fails, room)?;
        assert_eq!(rt; found, status, "piece {piece}, room {room}");
        assert_eq!(rt; held.as_slice(), text, "piece {piece}, room {room}");
    }
    Ok(())
}

/// What is written where the read behind so many bytes fails: the line of each command that came whole, and the fault.
fn at_fault(alloc: Global, bytes: usize) -> Result<Vec<u8>, Fail> {
    let mut text = Vec::new(alloc);
    let lines: [(usize, &[u8]); 3] = [(282, b"edit 1\n"), (412, b"edit 2\n"), (471, b"edit 3\n")];
    for (end, line) in lines {
        if bytes >= end {
            text.extend_from_slice(line)?;
        }
    }
    text.extend_from_slice(b"read fault\n")?;
    Ok(text)
}

/// In pieces of 7 bytes; the last of them ends the stream.
#[test]
fn each_read_fails_in_turn(rt: HostRuntime) -> Result<(), Fail> {
    let alloc = rt.alloc();
    for read in 0..68u64 {
        let (status, held) = answer_of(alloc, &["check"], STREAM, 7, &[read + 1], 1000)?;
        let text = at_fault(alloc, read as usize * 7)?;
        assert_eq!(rt; status, 4, "read {read}");
        assert_eq!(rt; held.as_slice(), text.as_slice(), "read {read}");
    }
    let (status, held) = answer_of(alloc, &["check"], STREAM, 7, &[69], 1000)?;
    assert_eq!(rt; status, 8);
    assert_eq!(rt; held.as_slice(), OUTPUT);
    Ok(())
}

/// The sink has room for a front of the output alone.
#[test]
fn each_write_fails_in_turn(rt: HostRuntime) -> Result<(), Fail> {
    let alloc = rt.alloc();
    for room in 0..OUTPUT.len() {
        let (status, held) = answer_of(alloc, &["check"], STREAM, 4096, &[], room)?;
        assert_eq!(rt; status, 5, "room {room}");
        assert_eq!(rt; held.as_slice(), &OUTPUT[..room], "room {room}");
    }
    Ok(())
}

#[test]
fn other_words_write_the_usage_line(rt: HostRuntime) -> Result<(), Fail> {
    let alloc = rt.alloc();
    let table: [&[&str]; 6] = [
        &[],
        &["serve", "0"],
        &["serve", "33"],
        &["serve", "01"],
        &["check", "check"],
        &["Check"],
    ];
    for words in table {
        let (status, held) = answer_of(alloc, words, &[], 1, &[], 1000)?;
        assert_eq!(rt; status, 2);
        assert_eq!(rt; held.as_slice(), USAGE);
    }
    Ok(())
}
