//! The player of a script, which does it line by line, and writes each reply before it reads the next line.
ghost use Rattle.std.specs.Prelude.{◌≡◌, ◌≤◌, ◌+◌, ◌⊎◌, ℕ, Bool, Err, false, List, Option, IfErr, IfOk, IfSome, IsSome};
ghost use Rattle.pmg_store.specs.declared.input.TheConstants.{INPUT_LIMIT, MOST_READS};
ghost use Rattle.pmg_store.specs.declared.failure.Failure.TheVariants as failures;
ghost use Rattle.pmg_value.specs.declared.refusal.Refusal.TheVariants as refusals;
ghost use Rattle.pmg_script.specs.Replays.{Replayed, IsGoing, Turned, CountsTurn, no_line};
ghost use Rattle.pmg_script.specs.declared.lines.LineFault.TheVariants as faults;

use crate::lines::{LineFault, content};
use crate::reading::next_line;
use pmg_store::{Failure, INPUT_LIMIT, MOST_READS, WatchedReader};
use pmg_value::{Cause, Refusal, WatchedWriter};
use std::alloc::Global;
use std::io::{BufRead, Write};
use std::mem;

/// The end of a script without a fault.
#[derive(Clone, Copy, Debug, PartialEq, Eq)]
pub enum Ended {
    /// Each of its lines was done.
    AtEnd,
    /// A line was done, and no line is done after it.
    Over,
}

/// A player, which does the lines of a script, one after another.
pub trait Player {
    /// The relation of a line's answer: a state, the line's content, the reply's text, and the next state.
    ghost plays: { Self → List ℕ → List ℕ → Self → Type 0 };

    /// The lines that are not lines of a script.
    ghost stops: { Self → List ℕ → Type 0 };

    /// The states after which no line is done.
    ghost over: { Self → Bool };

    /// Does a line, by its content, and returns the text of its reply, for which it may reuse the room of an earlier one. A line that does
    /// not have the form of a script's line, or is out of order, is malformed.
    fn play(&mut self, line: &[u8], room: Vec<u8>) -> Result<Vec<u8>, LineFault>
        ensures ok { IfOk result (λ text. plays self.old line.now text.items self.new) }
        ensures malformed { result ≡ Err faults.Malformed → stops self.old line.now };

    /// Returns whether no other line is done.
    fn is_over(&self) -> bool
        ensures { result ≡ over self.now };
}

/// Returns the refusal of a line that begins at this byte of the script.
fn no_line(offset: usize) -> Failure
    ensures { result ≡ failures.Refused (refusals.BadFrame (no_line offset)) }
{
    Failure::Refused(Refusal::bad_frame(offset as u64, Cause::Script))
}

/// Returns the failure of a line that begins at this byte and was not done.
fn failure_of(fault: LineFault, offset: usize) -> Failure
    ensures malformed { fault ≡ faults.Malformed → result ≡ failures.Refused (refusals.BadFrame (no_line offset)) }
    ensures memory { fault ≡ faults.NoMemory → result ≡ failures.Refused refusals.NoMemory }
{
    match fault {
        LineFault::Malformed => no_line(offset),
        LineFault::NoMemory => Failure::Refused(Refusal::NoMemory),
    }
}

/// Does the next line, which begins at this byte of the script, and writes its reply. The one list receives the line, and the other one the
/// reply.
fn turn<P: Player, R: BufRead, W: Write>(
    alloc: Global,
    reader: &mut WatchedReader<R>,
    offset: &mut usize,
    line: &mut Vec<u8>,
    reply: &mut Vec<u8>,
    player: &mut P,
    writer: &mut WatchedWriter<W>,
) -> Result<Option<Ended>, Failure>
    requires within { offset.old ≤ INPUT_LIMIT }
    ensures few { CountsTurn reader.old.reads reader.new.reads offset.old offset.new result }
    ensures turned { (start : P) (text : List ℕ) (first : Option (List ℕ))
        → IsGoing P.plays P.stops P.over start text (R.remaining reader.old.reader) first (W.contents writer.old.writer) player.old offset.old
        → Turned P.plays P.stops P.over start text (R.remaining reader.new.reader) first (W.contents writer.new.writer) player.new offset.new result }
    ensures read_fault { IfErr result (λ e. e ≡ failures.Read → IsSome reader.new.failure) }
    ensures failed { IsSome reader.new.failure → IsSome reader.old.failure ⊎ (result
        ≡ Err failures.Read) }
    ensures write_fault { IfErr result (λ e. e ≡ failures.Write → IsSome writer.new.failure) }
{
    line.clear();
    let is_ended = next_line(reader, *offset, line)?;
    if line.is_empty() {
        return Ok(Some(Ended::AtEnd));
    }
    let room = mem::replace(reply, Vec::new(alloc));
    *reply = match player.play(content(line), room) {
        Ok(text) => text,
        Err(fault) => return Err(failure_of(fault, *offset)),
    };
    writer.put_text(reply)?;
    if player.is_over() {
        return Ok(Some(Ended::Over));
    }
    if !is_ended {
        return Ok(Some(Ended::AtEnd));
    }
    *offset += line.len();
    Ok(None)
}

/// Does the lines of a script, and returns how it ended.
///
/// A reply is written before the next line is read. A malformed line ends the script, as `BadFrame` with the cause Script at its first
/// byte. The limit of `INPUT_LIMIT` bytes also ends it, after the lines before the limit are done. The reader is read at most 67,108,865
/// times.
pub fn play_script<P: Player, R: BufRead, W: Write>(
    alloc: Global,
    reader: &mut WatchedReader<R>,
    player: &mut P,
    writer: &mut WatchedWriter<W>,
) -> Result<Ended, Failure>
    requires { P.over player.old ≡ false }
    ensures few { reader.new.reads ≤ reader.old.reads + MOST_READS }
    ensures replayed { IfSome (R.remaining reader.old.reader) (λ text.
        Replayed P.plays P.stops P.over player.old text (R.remaining reader.new.reader) (W.contents writer.old.writer) (W.contents writer.new.writer) result) }
    ensures read_fault { IfErr result (λ e. e ≡ failures.Read → IsSome reader.new.failure) }
    ensures failed { IsSome reader.new.failure → IsSome reader.old.failure ⊎ (result
        ≡ Err failures.Read) }
    ensures write_fault { IfErr result (λ e. e ≡ failures.Write → IsSome writer.new.failure) }
{
    let mut offset = 0;
    let mut line = Vec::new(alloc);
    let mut reply = Vec::new(alloc);
    for _ in 0..MOST_READS {
        let ended = turn(
            alloc,
            reader,
            &mut offset,
            &mut line,
            &mut reply,
            player,
            writer,
        )?;
        if let Some(ended) = ended {
            return Ok(ended);
        }
    }
    unreachable!()
}
