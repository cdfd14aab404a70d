//! What is known of one process.
ghost use Rattle.std.specs.Prelude.{◌≡◌, ◌<◌, ◌≤◌, ℕ, List, map, OnOk, OnErr, IfOk};
ghost use Rattle.std.specs.FinSet as set;
ghost use Rattle.std.specs.Option.{option_map};
ghost use Rattle.pmg_value.specs.Spelling.{spelling};
ghost use Rattle.pmg_commit.specs.Pieces.{entry_of};
ghost use Rattle.pmg_commit.specs.Levels.{level};
ghost use Rattle.pmg_commit.specs.Knowledge.{nothing, union, core, read, numbers_between};
ghost use Rattle.pmg_commit.specs.declared.piece.TheConstants.{MAX_COMMIT};
ghost use Rattle.pmg_lane.specs.Lanes.{known_by, level_of, reading_of, IsMany, IsTrack, HaveRooms, ShowsReads};
ghost use Rattle.pmg_lane.specs.Merged.{merged_knowledge, told, IsMerged};
ghost use Rattle.pmg_lane.specs.Readings.{seen_entry};
ghost use Rattle.pmg_lane.specs.declared.track.Track.TheVariants as tracks;

use crate::entries::Stamp;
use crate::merged::Merged;
use crate::readings::{Reading, best_with, seen_value};
use crate::single::Single;
use pmg_commit::PieceEntry;
use pmg_value::{Key, Value};
use std::alloc::{AllocError, Global};
use std::collections::BTreeMap;

/// What is known of one process: what the one piece told that was taken, while no other was, or what several did.
pub enum Track {
    Single(Single),
    Merged(Merged),
}

impl Drop for Track {
    fn drop(self) {
        match self {
            Track::Single(_) => {}
            Track::Merged(_) => {}
        }
    }
}

/// The keys of a track in their order, with what is read under each where something is: the entries of one piece, or the places of
/// several.
pub enum Reads<'a> {
    Few(&'a [PieceEntry]),
    Many(&'a BTreeMap<Key, Option<Stamp>, Global>),
}

impl Track {
    /// Nothing is known. The track keeps the allocator.
    pub fn new(alloc: Global) -> Track
        ensures kept { IsTrack result }
        ensures nothing { known_by result ≡ nothing }
    {
        Track::Merged(Merged::new(alloc))
    }

    /// What is known from the commits from+1 to to and their entries alone.
    pub fn of(
        alloc: Global,
        from: u64,
        to: u64,
        entries: Vec<PieceEntry>,
    ) -> Result<Track, AllocError>
        requires some { from < to }
        requires bound { to ≤ MAX_COMMIT }
        ensures kept { IfOk result IsTrack }
        ensures taken { IfOk result (λ track. core (known_by track) ≡ core (told from to (map entry_of entries.items))) }
    {
        if Single::can_keep(from, to, &entries) {
            return Ok(Track::Single(Single::of(from, to, entries)));
        }
        let mut merged = Merged::new(alloc);
        merged.absorb(from, to, entries)?;
        Ok(Track::Merged(merged))
    }

    /// The level: how far the commits go from the first without a gap.
    pub fn level(&self) -> u64
        requires { IsTrack self.now }
        ensures value { result ≡ level_of self.now }
        ensures bound { result ≤ MAX_COMMIT }
    {
        match self {
            Track::Single(single) => single.level(),
            Track::Merged(merged) => merged.level(),
        }
    }

    /// Whether the commit of that number was taken.
    pub fn taken(&self, n: u64) -> bool
        requires { IsTrack self.now }
        ensures { result ≡ set.contains (known_by self.now).numbers n }
    {
        match self {
            Track::Single(single) => single.taken(n),
            Track::Merged(merged) => merged.taken(n),
        }
    }

    /// What is read under the key.
    pub fn read(&self, key: &Key) -> Option<&Value>
        requires { IsTrack self.now }
        ensures { option_map (λ v. spelling v.now) result ≡ read (known_by self.now) key.now }
    {
        match self {
            Track::Single(single) => single.read(key),
            Track::Merged(merged) => merged.read(key),
        }
    }

    /// The level once the commits from+1 to to are taken too.
    pub fn level_with(&self, from: u64, to: u64) -> u64
        requires kept { IsTrack self.now }
        requires bound { to ≤ MAX_COMMIT }
        ensures value { result ≡ level (set.union (known_by self.now).numbers (numbers_between from to)) }
        ensures bound { result ≤ MAX_COMMIT }
    {
        match self {
            Track::Single(single) => single.level_with(from, to),
            Track::Merged(merged) => merged.level_with(from, to),
        }
    }

    /// What is read under the key at that level, which may not be reached yet.
    fn reading_at(&self, level: u64, key: &Key) -> Option<Reading<'_>>
        requires { IsTrack self.now }
        ensures { option_map (seen_entry key.now) result ≡ reading_of self.now level key.now }
    {
        match self {
            Track::Single(single) => single.reading_at(level, key),
            Track::Merged(merged) => merged.reading_at(level, key),
        }
    }

    /// What is read under the key once the commits from+1 to to and their entries are taken too. It takes time in
    /// proportion to the number of these entries and of the late ones that are read then, and to the logarithm of what
    /// is held.
    pub fn read_with<'a>(
        &'a self,
        from: u64,
        to: u64,
        entries: &'a [PieceEntry],
        key: &Key,
    ) -> Option<&'a Value>
        requires kept { IsTrack self.now }
        requires bound { to ≤ MAX_COMMIT }
        ensures { option_map (λ v. spelling v.now) result
            ≡ read (union (known_by self.now) (told from to (map entry_of entries.now))) key.now }
    {
        let level = self.level_with(from, to);
        seen_value(best_with(level, key, self.reading_at(level, key), entries))
    }

    /// Keeps what one piece told as what several do, which can take more.
    fn make_merged(&mut self, alloc: Global) -> Result<(), AllocError>
        requires { IsTrack self.old }
        ensures kept { IsTrack self.new }
        ensures same { core (known_by self.new) ≡ core (known_by self.old) }
        ensures many { OnOk result (IsMany self.new) }
    {
        if let Track::Single(single) = self {
            *self = Track::Merged(single.merged(alloc)?);
        }
        Ok(())
    }

    /// Takes the commits from+1 to to and their entries. Where an allocation fails, what is known stays as it is.
    pub fn absorb(
        &mut self,
        alloc: Global,
        from: u64,
        to: u64,
        entries: Vec<PieceEntry>,
    ) -> Result<(), AllocError>
        requires kept { IsTrack self.old }
        requires some { from < to }
        requires bound { to ≤ MAX_COMMIT }
        ensures kept { IsTrack self.new }
        ensures taken { OnOk result (core (known_by self.new)
            ≡ core (union (known_by self.old) (told from to (map entry_of entries.items)))) }
        ensures same { OnErr result (core (known_by self.new) ≡ core (known_by self.old)) }
    {
        self.make_merged(alloc)?;
        match self {
            Track::Merged(merged) => merged.absorb(from, to, entries),
            Track::Single(_) => unreachable!(),
        }
    }

    /// Makes room for all that the other track has, and for the late entries that are read then.
    pub fn make_rooms(&mut self, alloc: Global, other: &Track) -> Result<(), AllocError>
        requires { IsTrack self.old }
        ensures kept { IsTrack self.new }
        ensures same { core (known_by self.new) ≡ core (known_by self.old) }
        ensures room { OnOk result (HaveRooms self.new other.now) }
    {
        self.make_merged(alloc)?;
        match self {
            Track::Merged(merged) => make_rooms_in(merged, other),
            Track::Single(_) => unreachable!(),
        }
    }

    /// Takes all that the other track has, for which there is room.
    pub fn take_all(&mut self, other: Track)
        requires kept { IsTrack self.old }
        requires other { IsTrack other }
        requires room { HaveRooms self.old other }
        ensures kept { IsTrack self.new }
        ensures taken { core (known_by self.new) ≡ core (union (known_by self.old) (known_by other)) }
    {
        match self {
            Track::Merged(merged) => other.give_to(merged),
            Track::Single(_) => unreachable!(),
        }
    }

    /// Gives all that this track has to the other one, which has room for it.
    fn give_to(self, merged: &mut Merged)
        requires kept { IsMerged merged.old }
        requires own { IsTrack self }
        requires room { HaveRooms (tracks.Merged merged.old) self }
        ensures kept { IsMerged merged.new }
        ensures taken { core (merged_knowledge merged.new) ≡ core (union (merged_knowledge merged.old) (known_by self)) }
    {
        match self {
            Track::Single(single) => {
                let (from, to, entries) = single.into_parts();
                merged.take(from, to, entries);
            }
            Track::Merged(own) => merged.take_all(own),
        }
    }

    /// The keys in their order, with what is read under each where something is.
    pub fn reads(&self) -> Reads<'_>
        ensures { ShowsReads self.now result }
    {
        match self {
            Track::Single(single) => Reads::Few(single.entries()),
            Track::Merged(merged) => Reads::Many(merged.reads()),
        }
    }

    /// A copy, equal to this track.
    pub fn copy(&self, alloc: Global) -> Result<Track, AllocError>
        requires { IsTrack self.now }
        ensures kept { IfOk result IsTrack }
        ensures same { IfOk result (λ copy. known_by copy ≡ known_by self.now) }
    {
        match self {
            Track::Single(single) => Ok(Track::Single(single.copy(alloc)?)),
            Track::Merged(merged) => Ok(Track::Merged(merged.copy(alloc)?)),
        }
    }
}

/// Makes room for all that the track has, and for the late entries that are read then.
fn make_rooms_in(merged: &mut Merged, other: &Track) -> Result<(), AllocError>
    requires { IsMerged merged.old }
    ensures kept { IsMerged merged.new }
    ensures same { merged_knowledge merged.new ≡ merged_knowledge merged.old }
    ensures room { OnOk result (HaveRooms (tracks.Merged merged.new) other.now) }
{
    match other {
        Track::Single(single) => {
            let (from, to, entries) = single.parts();
            merged.make_room(from, to, entries)
        }
        Track::Merged(other) => merged.make_rooms(other),
    }
}
