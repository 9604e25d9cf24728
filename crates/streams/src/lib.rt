// Input and output, whole: calls of `read` and `write` until nothing is left to move, or until one moves nothing.
// To read it: `specs/Transfers.antt` has how many bytes were moved. The clauses `bytes` say which bytes were moved, for a
// reader or a writer whose bytes are known, as one over memory; no contract can say which bytes the system moves.
// The loops count by hand: std's `read_exact` and `write_all` do not say how many bytes moved before an end or a failure.
// A loop that takes the step as a closure is as long as both loops here, and needs a contract on chains of calls.
#![tactic(auto)]

ghost use Rattle.std.specs.Prelude.{◌≡◌, ◌<◌, ◌≤◌, length, take, IfOk, IfErr, MatchResult};
ghost use Rattle.std.specs.Io.KnownBytes.{Appends, Consumes, IsAtEnd};
ghost use Rattle.streams.specs.Transfers.{bytes_read, bytes_written, written_before};

use std::io;
use std::io::{Read, Write};
use thiserror::Error;

// A read failed, after `count` bytes.
#[derive(Clone, Copy, Debug, Error)]
#[error("reading failed after {count} bytes: {error}")]
pub struct ReadError {
    pub count: usize,
    pub error: io::Error,
}

// Why not all was written, and how many bytes were.
#[derive(Clone, Copy, Debug, Error)]
pub enum WriteError {
    // A write failed.
    #[error("writing failed after {count} bytes: {error}")]
    Failed { count: usize, error: io::Error },
    // A write took no byte.
    #[error("writing ended after {count} bytes")]
    Zero { count: usize },
}

// Reads until `input` is full or the reader ends, and answers how many bytes stand at the start of `input`: fewer than it
// holds only at the reader's end.
#[tactic(auto, using(crate::proofs::Moving::consumes_on))]
pub fn read_input<R: Read>(reader: &mut R, input: &mut [u8]) -> Result<usize, ReadError>
    ensures transferred { MatchResult result (λ n. n ≤ length input.old) (λ e. e.count < length input.old) }
    ensures bytes { Consumes (R.remaining reader.old) (R.remaining reader.new) (take (bytes_read result) input.new) }
    ensures end { IfOk result (λ n. n < length input.old → IsAtEnd (R.remaining reader.new)) }
{
    let mut count = 0;
    while count < input.len() {
        match reader.read(&mut input[count..]) {
            Ok(0) => return Ok(count),
            Ok(more) => count += more,
            Err(error) => return Err(ReadError { count, error }),
        }
    }
    Ok(count)
}

// Reads as `read_input` does, and answers how many bytes stand at the start of `input`, after a failure too.
pub fn read_full<R: Read>(reader: &mut R, input: &mut [u8]) -> usize
    ensures in_bounds { result ≤ length input.new }
    ensures bytes { Consumes (R.remaining reader.old) (R.remaining reader.new) (take result input.new) }
{
    read_input(reader, input).unwrap_or_else(|error| error.count)
}

// Writes all of `output`.
#[tactic(auto, using(crate::proofs::Moving::appends_on))]
pub fn write_output<W: Write>(writer: &mut W, output: &[u8]) -> Result<(), WriteError>
    ensures transferred { IfErr result (λ e. written_before e < length output.now) }
    ensures bytes { Appends (W.contents writer.old) (W.contents writer.new) (take (bytes_written (length output.now) result) output.now) }
{
    let mut count = 0;
    while count < output.len() {
        match writer.write(&output[count..]) {
            Ok(0) => return Err(WriteError::Zero { count }),
            Ok(written) => count += written,
            Err(error) => return Err(WriteError::Failed { count, error }),
        }
    }
    Ok(())
}
