//! The text of a store's content, written without memory of its own.
ghost use Rattle.std.specs.Prelude.{◌++◌, codes, OnErr, IsSome};
ghost use Rattle.std.specs.List.{flat_map};
ghost use Rattle.std.specs.Ordering.{nat_cmp};
ghost use Rattle.std.specs.Cmp.Lexicographic.{slice_cmp};
ghost use Rattle.std.specs.BTreeMap.{IsOrdered};
ghost use Rattle.pmg_value.specs.Process.{proc_cmp};
ghost use Rattle.pmg_value.specs.Spelling.{spelling};
ghost use Rattle.pmg_value.specs.Written.{Writes};
ghost use Rattle.pmg_lane.specs.Lanes.{known_by};
ghost use Rattle.pmg_store.specs.Dump.{value_text, key_line, proc_line, known_text, dump};
ghost use Rattle.pmg_store.specs.Tables.{lines_of, place_text, rows_told};
ghost use Rattle.pmg_store.specs.Lanes.{data_in};

use pmg_commit::PieceEntry;
use pmg_lane::{Lane, Reads, Stamp};
use pmg_value::{Key, Proc, Value, WatchedWriter, WriteFault};
use std::alloc::Global;
use std::collections::BTreeMap;
use std::io::Write;

// Writes a value's text after two blanks, from its canonical bytes.
fn put_value<W: Write>(writer: &mut WatchedWriter<W>, value: &Value) -> Result<(), WriteFault>
    ensures text { Writes (W.contents writer.old.writer) (W.contents writer.new.writer)
        result (codes "  " ++ value_text (spelling value.now)) }
    ensures failed { OnErr result (IsSome writer.new.failure) }
{
    value.write_indented(writer)
}

fn put_key_line<W: Write>(
    writer: &mut WatchedWriter<W>,
    key: &Key,
    value: &Value,
) -> Result<(), WriteFault>
    ensures text { Writes (W.contents writer.old.writer) (W.contents writer.new.writer)
        result (key_line (key.now, spelling value.now)) }
    ensures failed { OnErr result (IsSome writer.new.failure) }
{
    put_value(writer, value)?;
    writer.put_texts(b" ", key.as_bytes(), b"\n")
}

fn put_key_lines<W: Write>(
    writer: &mut WatchedWriter<W>,
    reads: &BTreeMap<Key, Option<Stamp>, Global>,
) -> Result<(), WriteFault>
    ensures lines { Writes (W.contents writer.old.writer) (W.contents writer.new.writer)
        result (flat_map key_line (lines_of reads.now.entries)) }
    ensures failed { OnErr result (IsSome writer.new.failure) }
    ensures ordered { IsOrdered (slice_cmp nat_cmp) reads.now }
{
    for (key, place) in reads.iter() {
        if let Some(there) = place {
            put_key_line(writer, key, &there.value)?;
        }
    }
    Ok(())
}

fn put_entry_lines<W: Write>(
    writer: &mut WatchedWriter<W>,
    entries: &[PieceEntry],
) -> Result<(), WriteFault>
    ensures lines { Writes (W.contents writer.old.writer) (W.contents writer.new.writer)
        result (flat_map key_line (rows_told entries.now)) }
    ensures failed { OnErr result (IsSome writer.new.failure) }
{
    for entry in entries {
        put_key_line(writer, &entry.key, &entry.value)?;
    }
    Ok(())
}

fn put_proc_line<W: Write>(
    writer: &mut WatchedWriter<W>,
    proc: &Proc,
    level: u64,
) -> Result<(), WriteFault>
    ensures text { Writes (W.contents writer.old.writer) (W.contents writer.new.writer)
        result (proc_line proc.now level) }
    ensures failed { OnErr result (IsSome writer.new.failure) }
{
    writer.put_texts(b"proc ", proc.nspace.as_bytes(), b" ")?;
    writer.put_number(u64::from(proc.rank.number()))?;
    writer.put_number_between(b" level ", level, b"\n")
}

// Writes the lines of the process, from its lane.
fn put_proc<W: Write>(
    writer: &mut WatchedWriter<W>,
    proc: &Proc,
    lane: &Lane,
) -> Result<(), WriteFault>
    ensures text { Writes (W.contents writer.old.writer) (W.contents writer.new.writer)
        result (known_text proc.now (known_by lane.now)) }
    ensures failed { OnErr result (IsSome writer.new.failure) }
{
    let level = lane.level();
    if level == 0 {
        return Ok(());
    }
    put_proc_line(writer, proc, level)?;
    match lane.reads() {
        Reads::Few(entries) => put_entry_lines(writer, entries),
        Reads::Many(reads) => put_key_lines(writer, reads),
    }
}

// Writes the lines of the processes, from their lanes.
fn put_procs<W: Write>(
    writer: &mut WatchedWriter<W>,
    places: &BTreeMap<Proc, Option<Lane>, Global>,
) -> Result<(), WriteFault>
    ensures lines { Writes (W.contents writer.old.writer) (W.contents writer.new.writer)
        result (flat_map place_text places.now.entries) }
    ensures failed { OnErr result (IsSome writer.new.failure) }
    ensures ordered { IsOrdered proc_cmp places.now }
{
    for (proc, place) in places.iter() {
        if let Some(lane) = place {
            put_proc(writer, proc, lane)?;
        }
    }
    Ok(())
}

/// Writes the dump of the lanes, in time in proportion to their content. If the writer fails, a prefix of the dump was written.
pub fn dump_lanes<W: Write>(
    writer: &mut WatchedWriter<W>,
    places: &BTreeMap<Proc, Option<Lane>, Global>,
) -> Result<(), WriteFault>
    ensures text { Writes (W.contents writer.old.writer) (W.contents writer.new.writer)
        result (dump (data_in places.now)) }
    ensures failed { OnErr result (IsSome writer.new.failure) }
{
    put_procs(writer, places)
}
