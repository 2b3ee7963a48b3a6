//! The two transfers: more bytes into a buffer, and a whole text out.
ghost use Rattle.std.specs.Prelude.{◌≡◌, ◌+◌, ◌<◌, ◌≤◌, ℕ, List, [], Option, length, take, vec_len, IfOk, IfErr, OnOk, OnErr, IsErrOf};
ghost use Rattle.std.specs.Io.KnownBytes.{Appends, Consumes, Keeps, IsAtEnd};
ghost use Rattle.rv_io.specs.Counts.{Rises};
ghost use Rattle.rv_io.specs.Moves.{Moves, LosesOne, TellsEnd};
ghost use Rattle.rv_io.specs.Answers.{count_of, IsPiece};
ghost use Rattle.rv_io.specs.declared.transfer.ReadError.TheVariants.{Memory as OutOfMemory};

use crate::error::Failed;
use crate::sink::Sink;
use crate::source::Source;
use std::alloc::AllocError;
use std::error::Error;
use std::fmt;

/// The most bytes that one `read_more` appends.
pub const LARGEST_PIECE: usize = 65_536;

/// What `read_more` did.
#[derive(Clone, Copy, Debug, PartialEq, Eq)]
pub enum More {
    /// So many bytes were appended: at least 1, and at most `LARGEST_PIECE`.
    Bytes(usize),
    /// The source is at its end, and nothing was appended.
    End,
}

/// Why `read_more` appended nothing.
#[derive(Clone, Copy, Debug, PartialEq, Eq)]
pub enum ReadError {
    /// The source failed, and its count of faults rose. No byte was taken.
    Fault,
    /// The buffer holds as many bytes as it may, and one more came. That byte is lost.
    TooLong,
    /// There was no memory for more bytes. The source wasn't asked.
    Memory,
}

/// The sink failed, and its count of faults rose.
#[derive(Clone, Copy, Debug, PartialEq, Eq)]
pub struct WriteFault {
    /// How many bytes were written before: the first ones, and no others.
    pub sent: usize,
}

impl fmt::Display for ReadError {
    fn fmt<W: fmt::Write>(&self, f: &mut fmt::Formatter<W>) -> fmt::Result {
        match self {
            ReadError::Fault => write!(f, "the read failed"),
            ReadError::TooLong => write!(f, "the input is too long"),
            ReadError::Memory => write!(f, "out of memory"),
        }
    }
}

impl fmt::Display for WriteFault {
    fn fmt<W: fmt::Write>(&self, f: &mut fmt::Formatter<W>) -> fmt::Result {
        let sent = self.sent;
        write!(f, "the write failed after {sent} bytes")
    }
}

impl Error for ReadError {}

impl Error for WriteFault {}

impl From<AllocError> for ReadError {
    ghost from_gives = { λ _ error. error ≡ OutOfMemory };

    fn from(_error: AllocError) -> ReadError {
        ReadError::Memory
    }
}

/// Reads once, and appends what came to `buf`, which holds at most `limit` bytes.
///
/// Where `buf` holds `limit` bytes already, one byte is asked for, to tell the end from `TooLong`.
/// The cost is that of one read and of clearing the room for it, which is at most `LARGEST_PIECE`
/// bytes; the buffer's memory grows by doubling.
pub fn read_more<S: Source>(src: &mut S, buf: &mut Vec<u8>, limit: usize) -> Result<More, ReadError>
    requires { vec_len buf.old ≤ limit }

    // What the source lost, the buffer gained.
    ensures moved { OnOk result (Moves (S.left src.old) (S.left src.new) buf.old.items buf.new.items) }
    ensures count { IfOk result (λ more. vec_len buf.new ≡ vec_len buf.old + count_of more) }
    ensures piece { IfOk result IsPiece }
    ensures within { vec_len buf.new ≤ limit }

    // At the end nothing was appended and, where the source tells its bytes, none is left.
    ensures end { IfOk result (λ more. TellsEnd (S.left src.old) (count_of more)) }
    ensures at_end { result ≡ Ok More.End → IsAtEnd (S.left src.old) }
    ensures end_kept { result ≡ Ok More.End → Keeps (S.left src.old) (S.left src.new) }
    ensures end_unchanged { result ≡ Ok More.End → buf.new.items ≡ buf.old.items }

    // After an error the buffer is as it was.
    ensures err { OnErr result (buf.new.items ≡ buf.old.items) }
    ensures fault { IsErrOf result ReadError.Fault → Rises (S.faults src.old) (S.faults src.new) }
    ensures fault_kept { IsErrOf result ReadError.Fault → Keeps (S.left src.old) (S.left src.new) }
    ensures too_long { IsErrOf result ReadError.TooLong → vec_len buf.old ≡ limit }
    ensures one_more { IsErrOf result ReadError.TooLong → LosesOne (S.left src.old) (S.left src.new) }
    ensures memory { IsErrOf result ReadError.Memory → vec_len buf.old < limit }
    ensures memory_kept { IsErrOf result ReadError.Memory → src.new ≡ src.old }

    ensures never_falls { S.faults src.old ≤ S.faults src.new }
{
    let start = buf.len();
    if start == limit {
        return read_past_limit(src);
    }
    let room = (limit - start).min(LARGEST_PIECE);
    buf.resize(start + room, 0)?;
    match src.read(&mut buf[start..]) {
        Ok(0) => {
            buf.truncate(start);
            Ok(More::End)
        }
        Ok(count) => {
            buf.truncate(start + count);
            Ok(More::Bytes(count))
        }
        Err(Failed) => {
            buf.truncate(start);
            Err(ReadError::Fault)
        }
    }
}

/// Tells the end of the input from one byte more.
fn read_past_limit<S: Source>(src: &mut S) -> Result<More, ReadError>
    ensures end { IfOk result (λ more. more ≡ More.End) }
    ensures at_end { OnOk result (IsAtEnd (S.left src.old)) }
    ensures kept { OnOk result (Keeps (S.left src.old) (S.left src.new)) }
    ensures fault { IsErrOf result ReadError.Fault → Rises (S.faults src.old) (S.faults src.new) }
    ensures fault_kept { IsErrOf result ReadError.Fault → Keeps (S.left src.old) (S.left src.new) }
    ensures one_more { IsErrOf result ReadError.TooLong → LosesOne (S.left src.old) (S.left src.new) }
    ensures memory { IsErrOf result ReadError.Memory → ⊥ }
    ensures never_falls { S.faults src.old ≤ S.faults src.new }
{
    let mut byte = [0u8];
    match src.read(&mut byte) {
        Ok(0) => Ok(More::End),
        Ok(_) => Err(ReadError::TooLong),
        Err(Failed) => Err(ReadError::Fault),
    }
}

/// Writes all of `bytes`, in as many writes as the sink wants.
pub fn write_all<K: Sink>(sink: &mut K, bytes: &[u8]) -> Result<(), WriteFault>
    ensures ok { OnOk result (Appends (K.held sink.old) (K.held sink.new) bytes.now) }
    ensures sent { IfErr result (λ fault. Appends (K.held sink.old) (K.held sink.new) (take fault.sent bytes.now)) }
    ensures short { IfErr result (λ fault. fault.sent < length bytes.now) }
    ensures cause { OnErr result (Rises (K.faults sink.old) (K.faults sink.new)) }
    ensures never_falls { K.faults sink.old ≤ K.faults sink.new }
{
    let mut sent = 0;
    while sent < bytes.len() {
        match sink.write(&bytes[sent..]) {
            Ok(count) => sent += count,
            Err(Failed) => return Err(WriteFault { sent }),
        }
    }
    Ok(())
}
