//! What one piece told of a process.
ghost use Rattle.std.specs.Prelude.{◌≡◌, ◌<◌, ◌≤◌, ◌⊎◌, ℕ, suc, true, map, IfOk, IsTrue, OnErr};
ghost use Rattle.std.specs.FinSet as set;
ghost use Rattle.std.specs.List.{list_all};
ghost use Rattle.std.specs.Option.{option_map};
ghost use Rattle.pmg_value.specs.Lists.{is_chain};
ghost use Rattle.pmg_value.specs.Spelling.{spelling};
ghost use Rattle.pmg_join.specs.Ranges.{Between};
ghost use Rattle.pmg_commit.specs.Knowledge.{core, numbers_between, read};
ghost use Rattle.pmg_commit.specs.Levels.{level};
ghost use Rattle.pmg_commit.specs.Pieces.{entry_of, is_key_rising, is_numbered};
ghost use Rattle.pmg_commit.specs.declared.piece.TheConstants.{MAX_COMMIT};
ghost use Rattle.pmg_lane.specs.Lanes.{single_knowledge, single_reading, IsSingle};
ghost use Rattle.pmg_lane.specs.Merged.{merged_knowledge, IsMerged};
ghost use Rattle.pmg_lane.specs.Readings.{seen_entry};

use crate::lane::copies_of;
use crate::merged::Merged;
use crate::readings::{Reading, best_with, level_alone, read_alone};
use pmg_commit::{PieceEntry, are_keys_rising, are_numbered};
use pmg_value::{Key, Value};
use std::alloc::{AllocError, Global};
use std::mem;

/// The most entries that are kept as one piece told them.
const MAX_SINGLE: usize = 16;

/// What one piece told of a process: the commits from+1 to to, and their entries, which are few and whose keys rise.
pub struct Single {
    from: u64,
    to: u64,
    entries: Vec<PieceEntry>,
}

impl Drop for Single {
    fn drop(self) {
        let Self { from, to, entries } = self;
    }
}

/// How far the numbers above a, up to b, and those above c, up to d, go from 1 without a gap.
fn level_of_both(a: u64, b: u64, c: u64, d: u64) -> u64
    requires first { a < b }
    ensures reached { (n : ℕ) → 0 < n → n ≤ result → Between a b n ⊎ Between c d n }
    ensures no_more { Between a b (suc result) ⊎ Between c d (suc result) → ⊥ }
{
    let level = level_alone(a, b);
    if level < c {
        return level;
    }
    let level = level.max(d);
    if level < a { level } else { level.max(b) }
}

impl Single {
    /// Whether entries of the commits from+1 to to can be kept as they are: they are few, their keys rise, and each is of one of
    /// the commits.
    pub fn can_keep(from: u64, to: u64, entries: &[PieceEntry]) -> bool
        ensures rising { IsTrue result → is_chain is_key_rising (map entry_of entries.now) ≡ true }
        ensures numbered { IsTrue result → list_all (is_numbered from to) (map entry_of entries.now) ≡ true }
    {
        entries.len() <= MAX_SINGLE && are_keys_rising(entries) && are_numbered(from, to, entries)
    }

    /// What a piece told of the commits from+1 to to, which are these entries.
    pub fn of(from: u64, to: u64, entries: Vec<PieceEntry>) -> Single
        ensures from { result.from ≡ from }
        ensures to { result.to ≡ to }
        ensures entries { result.entries.items ≡ entries.items }
    {
        Single { from, to, entries }
    }

    /// The last commit before those that it told of, the last of these, and the entries.
    pub fn parts(&self) -> (u64, u64, &[PieceEntry])
        ensures from { result.0 ≡ self.now.from }
        ensures to { result.1 ≡ self.now.to }
        ensures entries { result.2.now ≡ self.now.entries.items }
    {
        (self.from, self.to, &self.entries)
    }

    /// The entries.
    pub fn entries(&self) -> &[PieceEntry]
        ensures { result.now ≡ self.now.entries.items }
    {
        &self.entries
    }

    /// The commits and the entries.
    pub fn into_parts(self) -> (u64, u64, Vec<PieceEntry>)
        ensures { result ≡ (self.from, self.to, self.entries) }
    {
        let Single { from, to, entries } = self;
        (from, to, entries)
    }

    /// The level: how far the commits go from the first without a gap.
    pub fn level(&self) -> u64
        requires { IsSingle self.now }
        ensures value { result ≡ level (single_knowledge self.now).numbers }
        ensures bound { result ≤ MAX_COMMIT }
    {
        level_alone(self.from, self.to)
    }

    /// Whether the commit of that number was taken.
    pub fn taken(&self, n: u64) -> bool
        ensures { result ≡ set.contains (single_knowledge self.now).numbers n }
    {
        self.from < n && n <= self.to
    }

    /// What is read under the key.
    pub fn read(&self, key: &Key) -> Option<&Value>
        ensures { option_map (λ v. spelling v.now) result ≡ read (single_knowledge self.now) key.now }
    {
        read_alone(self.from, self.to, &self.entries, key)
    }

    /// The level once the commits from+1 to to are taken too.
    pub fn level_with(&self, from: u64, to: u64) -> u64
        requires kept { IsSingle self.now }
        requires bound { to ≤ MAX_COMMIT }
        ensures value { result ≡ level (set.union (single_knowledge self.now).numbers (numbers_between from to)) }
        ensures bound { result ≤ MAX_COMMIT }
    {
        level_of_both(self.from, self.to, from, to)
    }

    /// What is read under the key at that level, which may not be reached yet.
    pub fn reading_at(&self, level: u64, key: &Key) -> Option<Reading<'_>>
        ensures { option_map (seen_entry key.now) result ≡ single_reading self.now level key.now }
    {
        best_with(level, key, None, &self.entries)
    }

    /// The same, as what several pieces told, to which the entries go over. Where an allocation fails, they stay.
    pub fn merged(&mut self, alloc: Global) -> Result<Merged, AllocError>
        requires { IsSingle self.old }
        ensures kept { IfOk result IsMerged }
        ensures same { IfOk result (λ merged. core (merged_knowledge merged) ≡ core (single_knowledge self.old)) }
        ensures err { OnErr result (self.new ≡ self.old) }
    {
        let mut merged = Merged::new(alloc);
        merged.make_room(self.from, self.to, &self.entries)?;
        let entries = mem::replace(&mut self.entries, Vec::new(alloc));
        merged.take(self.from, self.to, entries);
        Ok(merged)
    }

    /// A copy, equal to this one.
    pub fn copy(&self, alloc: Global) -> Result<Single, AllocError>
        ensures from { IfOk result (λ copy. copy.from ≡ self.now.from) }
        ensures to { IfOk result (λ copy. copy.to ≡ self.now.to) }
        ensures entries { IfOk result (λ copy. copy.entries.items ≡ self.now.entries.items) }
    {
        Ok(Single {
            from: self.from,
            to: self.to,
            entries: copies_of(alloc, &self.entries)?,
        })
    }
}
