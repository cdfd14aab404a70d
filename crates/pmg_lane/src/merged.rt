//! What several pieces told of one process, in parts that can be given room before they take more.
ghost use Rattle.std.specs.Prelude.{◌≡◌, ◌<◌, ◌≤◌, ℕ, List, map, OnOk, OnErr, IfOk};
ghost use Rattle.std.specs.FinSet as set;
ghost use Rattle.std.specs.Option.{option_map};
ghost use Rattle.pmg_value.specs.Spelling.{spelling};
ghost use Rattle.pmg_commit.specs.Pieces.{entry_of};
ghost use Rattle.pmg_commit.specs.Levels.{level};
ghost use Rattle.pmg_commit.specs.Knowledge.{nothing, union, core, read, numbers_between};
ghost use Rattle.pmg_lane.specs.Merged.{merged_knowledge, merged_level, merged_reading, told, IsMerged, HasMergedRoom, HaveMergedRooms};
ghost use Rattle.pmg_lane.specs.Readings.{seen_entry};
ghost use Rattle.pmg_commit.specs.declared.piece.TheConstants.{MAX_COMMIT};

use crate::entries::{Entries, Stamp};
use crate::readings::Reading;
use crate::waiting::{Waiting, wait_number};
use pmg_commit::PieceEntry;
use pmg_join::Ranges;
use pmg_value::{Key, Value};
use std::alloc::{AllocError, Global};
use std::collections::BTreeMap;

/// What several pieces told of one process: the numbers of the commits that were taken, the entries that are kept, and those that wait
/// until their commits can be read. Where there is room for more, it is taken without memory.
pub struct Merged {
    taken: Ranges,
    entries: Entries,
    waiting: Waiting,
}

impl Drop for Merged {
    fn drop(self) {
        let Self {
            taken,
            entries,
            waiting,
        } = self;
    }
}

impl Merged {
    /// Nothing is known. It keeps the allocator.
    pub fn new(alloc: Global) -> Merged
        ensures kept { IsMerged result }
        ensures nothing { merged_knowledge result ≡ nothing }
    {
        Merged {
            taken: Ranges::new(alloc),
            entries: Entries::new(alloc),
            waiting: Waiting::new(alloc),
        }
    }

    /// The level: how far the commits go from the first without a gap.
    pub fn level(&self) -> u64
        requires { IsMerged self.now }
        ensures value { result ≡ merged_level self.now }
        ensures bound { result ≤ MAX_COMMIT }
    {
        self.taken.level()
    }

    /// Whether the commit of that number was taken.
    pub fn taken(&self, n: u64) -> bool
        requires { IsMerged self.now }
        ensures { result ≡ set.contains (merged_knowledge self.now).numbers n }
    {
        self.taken.contains(n)
    }

    /// What is read under the key.
    pub fn read(&self, key: &Key) -> Option<&Value>
        requires { IsMerged self.now }
        ensures { option_map (λ v. spelling v.now) result ≡ read (merged_knowledge self.now) key.now }
    {
        self.entries.read(key)
    }

    /// The level once the commits from+1 to to are taken too.
    pub fn level_with(&self, from: u64, to: u64) -> u64
        requires kept { IsMerged self.now }
        requires bound { to ≤ MAX_COMMIT }
        ensures value { result ≡ level (set.union (merged_knowledge self.now).numbers (numbers_between from to)) }
        ensures bound { result ≤ MAX_COMMIT }
    {
        self.taken.level_with(from, to)
    }

    /// What is read under the key at that level, which may not be reached yet. It takes time in proportion to the number of the late
    /// entries that are read then, and to the logarithm of what is held.
    pub fn reading_at(&self, level: u64, key: &Key) -> Option<Reading<'_>>
        requires { IsMerged self.now }
        ensures { option_map (seen_entry key.now) result ≡ merged_reading self.now level key.now }
    {
        let kept = self.entries.reading_at(level, key);
        self.waiting.reading_at(level, key, kept)
    }

    /// Makes room for the commits from+1 to to and their entries, and for the late entries that are read then.
    pub fn make_room(
        &mut self,
        from: u64,
        to: u64,
        entries: &[PieceEntry],
    ) -> Result<(), AllocError>
        requires { IsMerged self.old }
        ensures kept { IsMerged self.new }
        ensures same { merged_knowledge self.new ≡ merged_knowledge self.old }
        ensures room { OnOk result (HasMergedRoom self.new from to entries.now) }
    {
        let level = self.taken.level_with(from, to);
        let number = wait_number(from, entries);
        self.waiting
            .make_room(&mut self.entries, level, number, entries)?;
        self.waiting.make_reached_places(&mut self.entries, level)?;
        self.taken.make_room(from)?;
        Ok(())
    }

    /// Takes the commits from+1 to to and their entries, for which there is room.
    pub fn take(&mut self, from: u64, to: u64, entries: Vec<PieceEntry>)
        requires kept { IsMerged self.old }
        requires some { from < to }
        requires bound { to ≤ MAX_COMMIT }
        requires room { HasMergedRoom self.old from to entries.items }
        ensures kept { IsMerged self.new }
        ensures taken { core (merged_knowledge self.new)
            ≡ core (union (merged_knowledge self.old) (told from to (map entry_of entries.items))) }
    {
        self.taken.fill_room(from, to);
        let level = self.taken.level();
        self.entries.promote(level);
        self.waiting.put_reached(&mut self.entries, level);
        let number = wait_number(from, &entries);
        self.waiting.put(&mut self.entries, level, number, entries);
    }

    /// Takes the commits from+1 to to and their entries. Where an allocation fails, it stays as it is.
    pub fn absorb(&mut self, from: u64, to: u64, entries: Vec<PieceEntry>) -> Result<(), AllocError>
        requires kept { IsMerged self.old }
        requires some { from < to }
        requires bound { to ≤ MAX_COMMIT }
        ensures kept { IsMerged self.new }
        ensures taken { OnOk result (core (merged_knowledge self.new)
            ≡ core (union (merged_knowledge self.old) (told from to (map entry_of entries.items)))) }
        ensures same { OnErr result (merged_knowledge self.new ≡ merged_knowledge self.old) }
    {
        self.make_room(from, to, &entries)?;
        self.take(from, to, entries);
        Ok(())
    }

    /// Makes room for all that the other one has, and for the late entries that are read then.
    pub fn make_rooms(&mut self, other: &Merged) -> Result<(), AllocError>
        requires { IsMerged self.old }
        ensures kept { IsMerged self.new }
        ensures same { merged_knowledge self.new ≡ merged_knowledge self.old }
        ensures room { OnOk result (HaveMergedRooms self.new other.now) }
    {
        let level = self.taken.level_with_all(&other.taken);
        self.entries.make_places_of(level, &other.entries)?;
        self.waiting
            .make_rooms(&mut self.entries, level, &other.waiting)?;
        self.waiting.make_reached_places(&mut self.entries, level)?;
        self.taken.make_rooms(&other.taken)?;
        Ok(())
    }

    /// Takes all that the other one has, for which there is room.
    pub fn take_all(&mut self, other: Merged)
        requires kept { IsMerged self.old }
        requires other { IsMerged other }
        requires room { HaveMergedRooms self.old other }
        ensures kept { IsMerged self.new }
        ensures taken { core (merged_knowledge self.new) ≡ core (union (merged_knowledge self.old) (merged_knowledge other)) }
    {
        let Merged {
            taken,
            entries,
            waiting,
        } = other;
        self.taken.fill_rooms(&taken);
        let level = self.taken.level();
        self.entries.promote(level);
        self.waiting.put_reached(&mut self.entries, level);
        self.entries.put_others(level, entries);
        self.waiting.put_others(&mut self.entries, level, waiting);
    }

    /// The keys in their order, with what is read under each where something is.
    pub fn reads(&self) -> &BTreeMap<Key, Option<Stamp>, Global>
        ensures { result.now ≡ self.now.entries.reads }
    {
        self.entries.reads()
    }

    /// A copy, equal to this one.
    pub fn copy(&self, alloc: Global) -> Result<Merged, AllocError>
        requires { IsMerged self.now }
        ensures kept { IfOk result IsMerged }
        ensures same { IfOk result (λ copy. merged_knowledge copy ≡ merged_knowledge self.now) }
    {
        Ok(Merged {
            taken: self.taken.copy()?,
            entries: self.entries.copy(alloc)?,
            waiting: self.waiting.copy()?,
        })
    }
}
