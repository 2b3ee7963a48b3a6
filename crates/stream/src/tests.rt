//! Inputs in pieces, with the bytes of each command.
ghost use Rattle.std.specs.Prelude.{◌<◌};

use super::*;
use rv_io::MemSource;
use script::Command;
use std::alloc::Global;
use std::process::Abort;
use std::test::Fail;

/// An input in pieces of a size, the numbers of the reads that fail, and the answers one by one: the bytes of a
/// command, or a fault.
#[derive(Drop)]
struct Reading<'a> {
    input: &'a [u8],
    piece: usize,
    fails: &'a [u64],
    answers: &'a [Result<&'a [u8], StreamFault>],
    ghost gives: { 0 < piece },
}

fn check_reading(rt: &impl Abort, alloc: Global, reading: &Reading) -> Result<(), Fail> {
    let bytes = reading.input.to_vec(alloc)?;
    let mut source = MemSource::new(bytes, reading.piece, reading.fails.to_vec(alloc)?);
    let mut stream = Stream::new(alloc);
    for answer in reading.answers {
        match stream.next(&mut source) {
            Ok(command) => {
                assert_eq!(rt; Ok(stream.bytes()), *answer);
                if let Command::Put { path: _, from, len } = command {
                    assert_eq!(rt; &stream.bytes()[from..from + len], b"x = 1".as_slice());
                }
            }
            Err(fault) => assert_eq!(rt; Err(fault), *answer),
        }
        let place = stream.place();
        assert!(rt; place <= reading.input.len());
        assert!(rt; reading.input[place..].starts_with(stream.pending()));
    }
    Ok(())
}

#[test]
fn the_pieces_change_no_command(rt: HostRuntime) -> Result<(), Fail> {
    for piece in [1usize, 7, 300] {
        let reading = Reading {
            input: b"put a.py 5\nx = 1\nsync\nask 3 issues\ndrop a.py\nend\nbehind",
            piece: piece.max(1),
            fails: &[],
            answers: &[
                Ok(b"put a.py 5\nx = 1\n"),
                Ok(b"sync\n"),
                Ok(b"ask 3 issues\n"),
                Ok(b"drop a.py\n"),
                Ok(b"end\n"),
                Err(StreamFault::Malformed { at: 49 }),
                Err(StreamFault::Malformed { at: 49 }),
            ],
        };
        check_reading(&rt, rt.alloc(), &reading)?;
    }
    Ok(())
}

#[test]
fn a_read_that_fails_loses_nothing(rt: HostRuntime) -> Result<(), Fail> {
    let in_sevens = Reading {
        input: b"put a.py 5\nx = 1\nsync\nen",
        piece: 7,
        fails: &[2, 3],
        answers: &[
            Err(StreamFault::ReadFault),
            Err(StreamFault::ReadFault),
            Ok(b"put a.py 5\nx = 1\n"),
            Ok(b"sync\n"),
            Err(StreamFault::Malformed { at: 22 }),
        ],
    };
    check_reading(&rt, rt.alloc(), &in_sevens)?;
    // What no command begins with is told before the fault of the read behind it.
    let malformed = Reading {
        input: b"sync\nso\n",
        piece: 7,
        fails: &[2],
        answers: &[
            Ok(b"sync\n"),
            Err(StreamFault::Malformed { at: 5 }),
            Err(StreamFault::Malformed { at: 5 }),
        ],
    };
    check_reading(&rt, rt.alloc(), &malformed)?;
    // After the end nothing is read.
    let empty = Reading {
        input: b"",
        piece: 1,
        fails: &[2],
        answers: &[
            Err(StreamFault::Malformed { at: 0 }),
            Err(StreamFault::Malformed { at: 0 }),
        ],
    };
    check_reading(&rt, rt.alloc(), &empty)?;
    let line = format!(in rt.alloc(); "{}", StreamFault::Malformed { at: 7 })?;
    assert_eq!(rt; line.as_str(), "malformed 7");
    Ok(())
}

#[test]
fn what_is_at_hand_needs_no_read(rt: HostRuntime) -> Result<(), Fail> {
    let input = b"sync\nput a.py 5\nx = 1\nen".to_vec(rt.alloc())?;
    let mut source = MemSource::new(input, 300, Vec::new(rt.alloc()));
    let mut stream = Stream::new(rt.alloc());
    assert!(rt; stream.next_at_hand()?.is_none());
    assert_eq!(rt; stream.peek(&mut source)?, Some(b's'));
    assert!(rt; stream.next_at_hand()?.is_some());
    assert_eq!(rt; stream.bytes(), b"sync\n".as_slice());
    assert!(rt; stream.next_at_hand()?.is_some());
    assert_eq!(rt; stream.bytes(), b"put a.py 5\nx = 1\n".as_slice());
    // Of these bytes an `end` can still come, until the source tells its end.
    assert!(rt; stream.next_at_hand()?.is_none());
    assert_eq!(rt; stream.pending(), b"en".as_slice());
    let malformed = Some(StreamFault::Malformed { at: 22 });
    assert_eq!(rt; stream.next(&mut source).err(), malformed);
    assert_eq!(rt; stream.next_at_hand().err(), malformed);
    Ok(())
}
