ghost use Rattle.std.specs.Prelude.{◌≡◌, ◌≤◌, ◌<◌, ◌||◌, ◌^◌, map, length, slice_get, if◌then◌else◌, IfOk, IsTrue};
ghost use Rattle.std.specs.Option.{option_map};
ghost use Rattle.std.specs.List.{list_all, sum_by};
ghost use Rattle.pmg_value.specs.Lists.{is_chain};
ghost use Rattle.pmg_value.specs.Process.{is_client, is_host};
ghost use Rattle.pmg_value.specs.declared.refusal.Refusal.TheVariants as refusals;
ghost use Rattle.pmg_commit.specs.Entries.{is_readable, is_later};
ghost use Rattle.pmg_commit.specs.Pieces.{body_size, entry_of, contribution, entry_size, is_numbered, is_key_rising, is_small, is_piece};
ghost use Rattle.pmg_scope.specs.declared.sizes.TheConstants.{MAX_ENTRY_SIZE};

use pmg_scope::row_size;
use pmg_value::{Copied, Key, Proc, Refusal, Value, copy_all};
use std::alloc::AllocError;
use std::marker::Model;

/// The greatest number of a commit.
pub const MAX_COMMIT: u64 = 4_294_967_295;

/// The most entries of a piece.
pub const MAX_ENTRIES: usize = 65_536;

/// The most bytes that a piece takes in a frame's body.
pub const MAX_PIECE_SIZE: usize = 16_777_216;

/// The entry of one key: the number of the commit that sealed it, and the value that was put (PMIx Standard 5.0, PMIx_Put and PMIx_Commit).
#[derive(Drop)]
pub struct PieceEntry {
    pub key: Key,
    pub number: u64,
    pub value: Value,
}

impl Copied for PieceEntry {
    fn copy(&self) -> Result<PieceEntry, AllocError> {
        PieceEntry::copy(self)
    }
}

impl PieceEntry {
    /// Returns a copy, equal to this entry.
    pub fn copy(&self) -> Result<PieceEntry, AllocError>
        ensures { IfOk result (λ e. e ≡ self.now) }
    {
        Ok(PieceEntry {
            key: self.key.copy()?,
            number: self.number,
            value: self.value.copy()?,
        })
    }

    /// Returns whether the entry can be read under the key, at that level: its number is at most the level.
    pub fn is_readable(&self, level: u64, key: &Key) -> bool
        ensures { result ≡ is_readable level key.now (entry_of self.now) }
    {
        *key == self.key && self.number <= level
    }

    /// Returns whether the next entry is later: it has a greater number, or an equal number and the greater value.
    pub fn is_earlier_than(&self, next: &PieceEntry) -> bool
        ensures { result ≡ is_later (entry_of self.now) (entry_of next.now) }
    {
        self.number < next.number
            || (self.number == next.number && self.value.cmp(&next.value).is_lt())
    }

    /// Returns whether the entry is of one of the commits from+1 to to.
    fn is_within(&self, from: u64, to: u64) -> bool
        ensures { result ≡ is_numbered from to (entry_of self.now) }
    {
        from < self.number && self.number <= to
    }

    /// Returns whether the other entry's key is greater.
    fn is_before(&self, next: &PieceEntry) -> bool
        ensures { result ≡ is_key_rising (entry_of self.now) (entry_of next.now) }
    {
        self.key < next.key
    }

    /// Returns the number of bytes of the entry in a frame.
    pub fn size(&self) -> usize
        ensures value { result ≡ entry_size (entry_of self.now) }
        ensures bound { result ≤ MAX_ENTRY_SIZE }
    {
        row_size(&self.key, &self.value)
    }
}

/// A contribution: the puts that a process sealed in its commits from+1 to to. It fits into a frame.
pub struct Piece {
    proc: Proc,
    from: u64,
    to: u64,
    entries: Vec<PieceEntry>,
}

impl Drop for Piece {
    fn drop(self) {
        let Self {
            proc,
            from,
            to,
            entries,
        } = self;
    }
}

impl Model for Piece {
    ghost use Rattle.std.specs.Prelude.{IsTrue};
    ghost use Rattle.pmg_commit.specs.Knowledge.{Contribution};

    ghost Value = { Contribution };

    ghost use Rattle.pmg_commit.specs.Pieces.{contribution, is_piece};

    ghost view = { λ a. contribution a.proc a.from a.to a.entries.items };

    ghost invariant = { λ a. IsTrue (is_piece (contribution a.proc a.from a.to a.entries.items)) };
}

/// Returns whether the keys rise strictly.
pub fn are_keys_rising(entries: &[PieceEntry]) -> bool
    ensures { result ≡ is_chain is_key_rising (map entry_of entries.now) }
{
    for i in 1..entries.len() {
        if !entries[i - 1].is_before(&entries[i]) {
            return false;
        }
    }
    true
}

/// Returns whether each entry is of one of the commits from+1 to to.
pub fn are_numbered(from: u64, to: u64, entries: &[PieceEntry]) -> bool
    ensures { result ≡ list_all (is_numbered from to) (map entry_of entries.now) }
{
    for entry in entries {
        if !entry.is_within(from, to) {
            return false;
        }
    }
    true
}

/// Returns the number of bytes of the entries in a frame.
pub fn entries_size(entries: &[PieceEntry]) -> usize
    requires { length entries.now ≤ MAX_ENTRIES }
    ensures value { result ≡ sum_by entry_size (map entry_of entries.now) }
    ensures bound { result < 2 ^ 40 }
{
    let mut size = 0;
    for entry in entries {
        size += entry.size();
    }
    size
}

/// Returns whether a frame can hold as many entries and bytes.
fn are_few(proc: &Proc, entries: &[PieceEntry]) -> bool
    ensures { result ≡ is_small proc.now (map entry_of entries.now) }
{
    entries.len() <= MAX_ENTRIES
        && proc.nspace.as_bytes().len() + 25 + entries_size(entries) <= MAX_PIECE_SIZE
}

/// Returns whether a frame can hold the contribution.
#[tactic(auto, unfolding(crate::specs::Pieces::is_piece))]
fn can_be_framed(proc: &Proc, from: u64, to: u64, entries: &[PieceEntry]) -> bool
    ensures { result ≡ is_piece (contribution proc.now from to entries.now) }
{
    let ranges = from < to && to <= MAX_COMMIT;
    proc.can_commit()
        && ranges
        && are_few(proc, entries)
        && are_keys_rising(entries)
        && are_numbered(from, to, entries)
}

impl Piece {
    /// Returns the contribution of these entries to the knowledge of the process. Errors: `BadParam` if no frame can hold it. The process
    /// has to commit, and the range is not empty and ends at 4294967295 at most. The keys rise strictly, each entry's number is in the
    /// range, and there are at most 65536 entries and 16777216 bytes.
    pub fn new(proc: Proc, from: u64, to: u64, entries: Vec<PieceEntry>) -> Result<Piece, Refusal>
        ensures { result ≡ (if is_piece (contribution proc from to entries.items) then Ok (contribution proc from to entries.items)
            else Err refusals.BadParam) }
    {
        if !can_be_framed(&proc, from, to, &entries) {
            return Err(Refusal::BadParam);
        }
        Ok(Piece::from_checked(proc, from, to, entries))
    }

    /// Returns the contribution of entries that were judged before.
    pub fn from_checked(proc: Proc, from: u64, to: u64, entries: Vec<PieceEntry>) -> Piece
        requires { IsTrue (is_piece (contribution proc from to entries.items)) }
        ensures { result ≡ contribution proc from to entries.items }
    {
        Piece {
            proc,
            from,
            to,
            entries,
        }
    }

    /// Returns the process that committed.
    pub fn proc(&self) -> &Proc
        ensures value { result.now ≡ self.now.proc }
        ensures commits { IsTrue (is_client result.now || is_host result.now) }
    {
        &self.proc
    }

    /// Returns the number of the last commit before the contribution.
    pub fn from(&self) -> u64
        ensures value { result ≡ self.now.from }
        ensures order { result < self.now.to }
    {
        self.from
    }

    /// Returns the number of the contribution's last commit.
    pub fn to(&self) -> u64
        ensures value { result ≡ self.now.to }
        ensures order { self.now.from < result }
        ensures bound { result ≤ MAX_COMMIT }
    {
        self.to
    }

    /// Returns the number of entries.
    pub fn count(&self) -> usize
        ensures value { result ≡ length self.now.entries }
        ensures bound { result ≤ MAX_ENTRIES }
    {
        self.entries.len()
    }

    /// Returns the entry at that index, in the order of the keys, from 0.
    pub fn entry(&self, i: usize) -> Option<&PieceEntry>
        ensures { option_map (λ e. entry_of e.now) result ≡ slice_get self.now.entries i }
    {
        self.entries.get(i)
    }

    /// Returns the number of bytes of the contribution in a frame's body.
    pub fn size(&self) -> usize
        ensures value { result ≡ body_size self.now.proc self.now.entries }
        ensures bound { result ≤ MAX_PIECE_SIZE }
        ensures piece { IsTrue (is_piece self.now) }
    {
        self.proc.nspace.as_bytes().len() + 25 + entries_size(&self.entries)
    }

    /// Returns the entries, in the order of their keys.
    pub fn entries(&self) -> &[PieceEntry]
        ensures { map entry_of result.now ≡ self.now.entries }
    {
        &self.entries
    }

    /// Returns the process, the last commit before the contribution, the contribution's last commit, and the entries.
    pub fn into_parts(self) -> (Proc, u64, u64, Vec<PieceEntry>)
        ensures value { contribution result.0 result.1 result.2 result.3.items ≡ self }
        ensures order { result.1 < result.2 }
        ensures bound { result.2 ≤ MAX_COMMIT }
    {
        let Piece {
            proc,
            from,
            to,
            entries,
        } = self;
        (proc, from, to, entries)
    }

    /// Returns a copy, equal to this piece.
    pub fn copy(&self) -> Result<Piece, AllocError>
        ensures { IfOk result (λ p. p ≡ self.now) }
    {
        Ok(Piece {
            proc: self.proc.copy()?,
            from: self.from,
            to: self.to,
            entries: copy_all(&self.entries)?,
        })
    }
}
