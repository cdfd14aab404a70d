ghost use Rattle.std.specs.Prelude.{◌≡◌, ◌≤◌, None, length, map};
ghost use Rattle.std.specs.Option.{option_map};
ghost use Rattle.pmg_wire.specs.Many.{many};
ghost use Rattle.pmg_wire.specs.Reading.{Reads};
ghost use Rattle.pmg_commit.specs.Pieces.{entry_of, contribution};
ghost use Rattle.pmg_frame.specs.PieceReading.{is_after, read_entry, is_range, read_range, read_told, read_piece};
ghost use Rattle.pmg_frame.specs.declared.frame.TheConstants.{MAX_BODY_SIZE};

use pmg_commit::{MAX_COMMIT, MAX_ENTRIES, Piece, PieceEntry};
use pmg_value::{Cause, Key, Proc, Refusal};
use pmg_wire::{Admits, Cursor, get_key, get_proc, get_value};
use std::alloc::Global;

/// The fewest bytes that an entry takes: the length of a key, a key of one byte, a number, and a value of two bytes.
const LEAST_ENTRY_SIZE: usize = 13;

// Returns whether the key is greater than the key of the entry before, if there is one.
fn is_key_after(before: Option<&PieceEntry>, key: &Key) -> bool
    ensures { result ≡ is_after (option_map (λ e. entry_of e.now) before.entry) key.now }
{
    match before {
        None => true,
        Some(entry) => entry.key < *key,
    }
}

#[tactic(auto, unfolding(crate::specs::PieceReading::read_entry))]
fn get_entry(
    alloc: Global,
    from: u64,
    to: u64,
    before: Option<&PieceEntry>,
    at: &mut Cursor<'_>,
) -> Result<PieceEntry, Refusal>
    ensures { Reads entry_of result at.new (read_entry from to (option_map (λ e. entry_of e.now) before.entry) at.old) }
{
    let key_at = at.offset();
    let key = get_key(alloc, at)?;
    if !is_key_after(before, &key) {
        return Err(Refusal::bad_frame(key_at, Cause::Order));
    }
    let number_at = at.offset();
    let number = at.get_u64()?;
    if number <= from || to < number {
        return Err(Refusal::bad_frame(number_at, Cause::Number));
    }
    let value = get_value(alloc, at)?;
    Ok(PieceEntry { key, number, value })
}

fn get_entries(
    alloc: Global,
    from: u64,
    to: u64,
    count: u32,
    at: &mut Cursor<'_>,
) -> Result<Vec<PieceEntry>, Refusal>
    ensures { Reads (λ es. map entry_of es.items) result at.new (many (read_entry from to) count None at.old) }
{
    let most = at.rest().len() / LEAST_ENTRY_SIZE;
    let mut entries = Vec::with_capacity(alloc, most.min(count as usize))?;
    for _ in 0..count {
        let entry = get_entry(alloc, from, to, entries.last(), at)?;
        entries.push(entry)?;
    }
    Ok(entries)
}

// Returns whether these are the commits after one up to another: at least one commit, unless there may be none.
fn is_range(none: bool, from: u64, to: u64) -> bool
    ensures { result ≡ is_range none from to }
{
    (from < to || (none && from == to)) && to <= MAX_COMMIT
}

#[tactic(auto, unfolding(crate::specs::PieceReading::read_range))]
fn get_range(none: bool, at: &mut Cursor<'_>) -> Result<(u64, u64), Refusal>
    ensures { Reads (λ r. (r.0, r.1)) result at.new (read_range none at.old) }
{
    let range_at = at.offset();
    let from = at.get_u64()?;
    let to = at.get_u64()?;
    if !is_range(none, from, to) {
        return Err(Refusal::bad_frame(range_at, Cause::Range));
    }
    Ok((from, to))
}

/// Reads some commits, or none if that may be: the process, the last commit before them and their last one, and the entries.
#[tactic(auto, unfolding(crate::specs::PieceReading::read_told))]
pub fn get_told(
    alloc: Global,
    none: bool,
    at: &mut Cursor<'_>,
) -> Result<(Proc, u64, u64, Vec<PieceEntry>), Refusal>
    ensures { Reads (λ t. contribution t.0 t.1 t.2 t.3.items) result at.new (read_told none at.old) }
{
    let process = get_proc(alloc, Admits::ClientsAndHost, at)?;
    let (from, to) = get_range(none, at)?;
    let count_at = at.offset();
    let count = at.get_u32()?;
    if count as usize > MAX_ENTRIES {
        return Err(Refusal::bad_frame(count_at, Cause::Count));
    }
    let entries = get_entries(alloc, from, to, count, at)?;
    Ok((process, from, to, entries))
}

/// Reads the body of a piece, in at most as many bytes as a body may have.
pub fn get_piece(alloc: Global, at: &mut Cursor<'_>) -> Result<Piece, Refusal>
    requires { length at.old.rest ≤ MAX_BODY_SIZE }
    ensures { Reads (λ p. p) result at.new (read_piece at.old) }
{
    // No effect at run time: the proof reads here that what is left are bytes.
    let _start = at.offset();
    let (process, from, to, entries) = get_told(alloc, false, at)?;
    Ok(Piece::from_checked(process, from, to, entries))
}
