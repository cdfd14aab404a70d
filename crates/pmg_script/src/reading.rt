//! The reader of a script, line by line.
ghost use Rattle.std.specs.Prelude.{◌≡◌, ◌+◌, ◌≤◌, ◌⊎◌, [], length, Err, IfErr, IsSome};
ghost use Rattle.pmg_store.specs.declared.input.TheConstants.{INPUT_LIMIT};
ghost use Rattle.pmg_store.specs.declared.failure.Failure.TheVariants as failures;
ghost use Rattle.pmg_script.specs.Reading.{NextLine, CountsReads};

use crate::lines::LF;
use pmg_store::{Failure, INPUT_LIMIT, MOST_READS, WatchedReader, too_long};
use std::io::BufRead;

/// Reads the next line of a script, which begins at this byte of it, and returns whether an LF ends it; the LF stays in the line.
///
/// Errors: `BadFrame` with the cause Input at the limit if the script has more than `INPUT_LIMIT` bytes. A read fault for any error of the
/// reader. After an error the line has the bytes that were read of it.
pub fn next_line<R: BufRead>(
    reader: &mut WatchedReader<R>,
    start: usize,
    line: &mut Vec<u8>,
) -> Result<bool, Failure>
    requires within { start ≤ INPUT_LIMIT }
    requires empty { line.old.items ≡ [] }
    ensures line { NextLine start (R.remaining reader.old.reader) (R.remaining reader.new.reader) line.new.items result }
    ensures few { CountsReads reader.old.reads reader.new.reads (length line.new.items) result }
    ensures within { start + length line.new.items ≤ INPUT_LIMIT }
    ensures read_fault { IfErr result (λ e. e ≡ failures.Read → IsSome reader.new.failure) }
    ensures failed { IsSome reader.new.failure → IsSome reader.old.failure ⊎ (result
        ≡ Err failures.Read) }
{
    for _ in start..MOST_READS {
        if reader.read_through(LF, MOST_READS - start - line.len(), line)? == 0 {
            return Ok(false);
        }
        if start + line.len() > INPUT_LIMIT {
            line.pop();
            return Err(too_long());
        }
        if line[line.len() - 1] == LF {
            return Ok(true);
        }
    }
    unreachable!()
}
