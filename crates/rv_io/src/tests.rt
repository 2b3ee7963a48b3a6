//! Tables of pieces, failing calls and rooms, with the exact bytes.
ghost use Rattle.std.specs.Prelude.{◌<◌, ◌≤◌, ◌+◌, ℕ, List, Option, None, min, ◌^◌, ◌-◌};

use super::*;
use std::alloc::{AllocError, Global};
use std::process::Abort;
use std::test::Fail;

/// A source of a text, which gives at most `piece` bytes at a call and fails at the calls of these numbers.
fn source_of(
    alloc: Global,
    text: &[u8],
    piece: usize,
    fails: &[u64],
) -> Result<MemSource, AllocError>
    requires { 0 < piece }
{
    let bytes = text.to_vec(alloc)?;
    Ok(MemSource::new(bytes, piece, fails.to_vec(alloc)?))
}

#[test]
fn a_source_in_memory_gives_pieces_and_fails_at_its_calls(rt: HostRuntime) -> Result<(), Fail> {
    let mut source = source_of(rt.alloc(), b"abcdefghij", 3, &[5, 2, 2, 0])?;
    let table: [(Result<usize, Failed>, &[u8; 4]); 5] = [
        (Ok(3), b"abc."),
        (Err(Failed), b"...."),
        (Ok(3), b"def."),
        (Ok(3), b"ghi."),
        (Err(Failed), b"...."),
    ];
    for (answer, bytes) in table {
        let mut buf = *b"....";
        assert_eq!(rt; source.read(&mut buf), answer);
        assert_eq!(rt; buf.as_slice(), bytes.as_slice());
    }
    let mut short = *b".";
    assert_eq!(rt; source.read(&mut short), Ok(1), "what the buffer allows");
    assert_eq!(rt; short[0], b'j');
    assert_eq!(rt; source.read(&mut short), Ok(0), "the end");
    assert_eq!(rt; source.read(&mut short), Ok(0), "the end again");
    Ok(())
}

/// What a reader sees: a text in pieces, a limit, failing calls, and the answers up to the last.
#[derive(Drop)]
struct Reading<'a> {
    text: &'a [u8],
    piece: usize,
    limit: usize,
    fails: &'a [u64],
    answers: &'a [Result<More, ReadError>],
    read: &'a [u8],
    ghost gives: { 0 < piece },
}

fn check_reading(rt: &impl Abort, alloc: Global, reading: &Reading) -> Result<(), Fail> {
    let mut source = source_of(alloc, reading.text, reading.piece, reading.fails)?;
    let mut buf = Vec::new(alloc);
    for answer in reading.answers {
        let length = buf.len();
        assert!(rt; length <= reading.limit);
        assert_eq!(rt; read_more(&mut source, &mut buf, reading.limit), *answer);
    }
    assert_eq!(rt; buf.as_slice(), reading.read);
    Ok(())
}

#[test]
fn a_buffer_gains_what_the_source_loses(rt: HostRuntime) -> Result<(), Fail> {
    let in_fours = Reading {
        text: b"hello world",
        piece: 4,
        limit: 11,
        fails: &[],
        answers: &[
            Ok(More::Bytes(4)),
            Ok(More::Bytes(4)),
            Ok(More::Bytes(3)),
            Ok(More::End),
            Ok(More::End),
        ],
        read: b"hello world",
    };
    check_reading(&rt, rt.alloc(), &in_fours)?;
    let with_faults = Reading {
        text: b"hello world",
        piece: 100,
        limit: 100,
        fails: &[1, 3],
        answers: &[
            Err(ReadError::Fault),
            Ok(More::Bytes(11)),
            Err(ReadError::Fault),
            Ok(More::End),
        ],
        read: b"hello world",
    };
    check_reading(&rt, rt.alloc(), &with_faults)?;
    let too_long = Reading {
        text: b"hello world",
        piece: 8,
        limit: 10,
        fails: &[3],
        answers: &[
            Ok(More::Bytes(8)),
            Ok(More::Bytes(2)),
            Err(ReadError::Fault),
            Err(ReadError::TooLong),
            Ok(More::End),
        ],
        read: b"hello worl",
    };
    check_reading(&rt, rt.alloc(), &too_long)?;
    let nothing = Reading {
        text: b"",
        piece: 1,
        limit: 0,
        fails: &[],
        answers: &[Ok(More::End)],
        read: b"",
    };
    check_reading(&rt, rt.alloc(), &nothing)
}

#[test]
fn no_piece_is_larger_than_the_largest(rt: HostRuntime) -> Result<(), Fail> {
    let text = vec![in rt.alloc(); 7u8; 65_538]?;
    let reading = Reading {
        text: &text,
        piece: 100_000,
        limit: 65_538,
        fails: &[],
        answers: &[Ok(More::Bytes(65_536)), Ok(More::Bytes(2)), Ok(More::End)],
        read: &text,
    };
    check_reading(&rt, rt.alloc(), &reading)
}

#[test]
fn a_sink_in_memory_takes_what_fits(rt: HostRuntime) -> Result<(), Fail> {
    let mut sink = MemSink::new(rt.alloc(), 10).ok().ok_or("memory")?;
    assert_eq!(rt; write_all(&mut sink, b"hello "), Ok(()));
    assert_eq!(rt; write_all(&mut sink, b""), Ok(()));
    assert_eq!(rt; sink.write(b"w"), Ok(1));
    assert_eq!(rt; write_all(&mut sink, b"orld"), Err(WriteFault { sent: 3 }));
    assert_eq!(rt; sink.held(), b"hello worl".as_slice());
    assert_eq!(rt; write_all(&mut sink, b"d"), Err(WriteFault { sent: 0 }));
    assert_eq!(rt; sink.write(b"d"), Err(Failed));
    assert_eq!(rt; write_all(&mut sink, b""), Ok(()));
    assert_eq!(rt; sink.held(), b"hello worl".as_slice());
    Ok(())
}

/// A sink that takes three bytes at a write, fails at the third write, and forgets what it took.
#[derive(Drop)]
struct SlowSink {
    writes: u64,
    faults: u64,
}

impl Sink for SlowSink {
    ghost held = { λ _. None };

    ghost faults = { λ sink. sink.faults };

    fn write(&mut self, bytes: &[u8]) -> Result<usize, Failed> {
        self.writes = self.writes.saturating_add(1);
        if self.writes == 3 {
            self.faults = self.faults.saturating_add(1);
            return Err(Failed);
        }
        Ok(bytes.len().min(3))
    }
}

#[test]
fn a_text_goes_out_in_several_writes(rt: HostRuntime) {
    let mut sink = SlowSink {
        writes: 0,
        faults: 0,
    };
    assert_eq!(rt;
        write_all(&mut sink, b"hello world"),
        Err(WriteFault { sent: 6 })
    );
    assert_eq!(rt; write_all(&mut sink, b"world"), Ok(()));
    assert_eq!(rt; (sink.writes, sink.faults), (5, 1));
}

fn may_move_to_a_thread<T: Send>(value: T) -> T {
    value
}

fn pass<G: Gate + Drop>(gate: G) {
    gate.before_give(u64::MAX);
}

#[test]
fn the_edge_may_move_to_a_thread(rt: HostRuntime) -> Result<(), Fail> {
    let mut source = may_move_to_a_thread(StdSource::new(rt.stdin()));
    let mut sink = may_move_to_a_thread(StdSink::new(rt.stdout()));
    assert_eq!(rt; write_all(&mut sink, b"written by a test\n"), Ok(()));
    let mut buf = Vec::new(rt.alloc());
    let _more = read_more(&mut source, &mut buf, 3);
    let mut memory = may_move_to_a_thread(source_of(rt.alloc(), b"", 1, &[])?);
    assert_eq!(rt; read_more(&mut memory, &mut buf, 3), Ok(More::End));
    let sink = may_move_to_a_thread(MemSink::new(rt.alloc(), 1).ok().ok_or("memory")?);
    assert_eq!(rt; sink.held().len(), 0);
    pass(&may_move_to_a_thread(OpenGate));
    Ok(())
}

#[test]
fn failures_say_what_failed(rt: HostRuntime) -> Result<(), Fail> {
    let alloc = rt.alloc();
    assert_eq!(rt;
        format!(in alloc; "{Failed}")?.as_str(),
        "the read or write failed"
    );
    assert_eq!(rt; format!(in alloc; "{Memory}")?.as_str(), "out of memory");
    assert_eq!(rt;
        format!(in alloc; "{}", ReadError::Fault)?.as_str(),
        "the read failed"
    );
    assert_eq!(rt;
        format!(in alloc; "{}", ReadError::TooLong)?.as_str(),
        "the input is too long"
    );
    assert_eq!(rt;
        format!(in alloc; "{}", ReadError::Memory)?.as_str(),
        "out of memory"
    );
    assert_eq!(rt;
        format!(in alloc; "{}", WriteFault { sent: 3 })?.as_str(),
        "the write failed after 3 bytes"
    );
    Ok(())
}
