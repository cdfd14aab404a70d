ghost use Rattle.std.specs.Prelude.{◌≡◌, ◌≤◌, nat_lt, Some, None, OnOk, OnErr, IfOk, if◌then◌else◌};
ghost use Rattle.std.specs.FinSet as set;
ghost use Rattle.std.specs.Option.{option_map};
ghost use Rattle.pmg_value.specs.Spelling.{spelling};
ghost use Rattle.pmg_commit.specs.Levels.{level};
ghost use Rattle.pmg_commit.specs.Knowledge.{nothing, knowledge_of, read, union};
ghost use Rattle.pmg_commit.specs.Cores.{core_of, join_cores};
ghost use Rattle.pmg_commit.specs.declared.piece.TheConstants.{MAX_COMMIT};
ghost use Rattle.pmg_lane.specs.Lanes.{core_in, known_by, level_of, IsTrack, ShowsReads};

use crate::track::{Reads, Track};
use pmg_commit::{Piece, PieceEntry};
use pmg_join::{Absorb, Join, TwoPhaseJoin};
use pmg_value::{Key, Value};
use std::alloc::{AllocError, AllocFailed, Global};
use std::marker::Model;

/// What is known of one process: the core of what the pieces that were taken tell of it.
#[derive(Drop)]
pub struct Lane {
    alloc: Global,
    track: Track,
}

impl Model for Lane {
    ghost use Rattle.pmg_lane.specs.Lanes.{IsTrack};
    ghost use Rattle.pmg_lane.specs.declared.track.Track.{Track};
    ghost use Rattle.pmg_lane.specs.contracts.track.Track.{the_row as track_row};

    ghost Value = { Track };

    ghost coded = { track_row.coded };

    ghost view = { λ a. a.track };

    ghost invariant = { λ a. IsTrack a.track };
}

impl Lane {
    /// A lane that has taken nothing. It keeps the allocator.
    pub fn new(alloc: Global) -> Lane
        ensures { core_in result ≡ core_of nothing }
    {
        Lane {
            alloc,
            track: Track::new(alloc),
        }
    }

    /// Takes the piece, which is one of the process. It may come in any order, leave gaps, and say again what is
    /// known. It takes time in proportion to its entries and to the late entries that are read then, and to the logarithm
    /// of what is held. Where memory is wanting, the lane stays as it is.
    pub fn absorb(&mut self, piece: &Piece) -> Result<(), AllocError>
        ensures ok { OnOk result (core_in self.new ≡ join_cores (core_in self.old) (core_of (knowledge_of piece.now))) }
        ensures err { OnErr result (core_in self.new ≡ core_in self.old) }
    {
        self.take_change(piece.copy()?)
    }

    /// The greatest n such that the commits 1 to n were all taken, 0 if the first was not.
    pub fn level(&self) -> u64
        ensures value { result ≡ level_of self.now }
        ensures bound { result ≤ MAX_COMMIT }
    {
        self.track.level()
    }

    /// Whether the commit of that number was taken.
    pub fn taken(&self, n: u64) -> bool
        ensures { result ≡ set.contains (known_by self.now).numbers n }
    {
        self.track.taken(n)
    }

    /// The value under the key: of the entries up to the level, that of the greatest commit, and at equal numbers the
    /// greater one (PMIx Standard 5.0, PMIx_Get; the level is this project's).
    pub fn read(&self, key: &Key) -> Option<&Value>
        ensures { option_map (λ v. spelling v.now) result ≡ read (known_by self.now) key.now }
    {
        self.track.read(key)
    }

    /// The level once the piece, which is one of the process, is taken too.
    pub fn level_with(&self, piece: &Piece) -> u64
        ensures value { result ≡ level (union (known_by self.now) (knowledge_of piece.now)).numbers }
        ensures bound { result ≤ MAX_COMMIT }
    {
        self.track.level_with(piece.from(), piece.to())
    }

    /// What is read under the key once the piece, which is one of the process, is taken too. It takes time in proportion
    /// to the piece's entries and to the late entries that are read then, and to the logarithm of what is held.
    pub fn read_with<'a>(&'a self, piece: &'a Piece, key: &Key) -> Option<&'a Value>
        ensures { option_map (λ v. spelling v.now) result
            ≡ read (union (known_by self.now) (knowledge_of piece.now)) key.now }
    {
        self.track
            .read_with(piece.from(), piece.to(), piece.entries(), key)
    }

    /// The level, where it is below the one that is wanted: the commits after it are missing.
    pub fn missing_after(&self, want: u64) -> Option<u64>
        ensures { result ≡ (if nat_lt (level_of self.now) want then Some (level_of self.now) else None) }
    {
        let level = self.level();
        if level < want { Some(level) } else { None }
    }

    /// The keys in their order, with what is read under each where something is.
    pub fn reads(&self) -> Reads<'_>
        ensures shown { ShowsReads self.now result }
        ensures kept { IsTrack self.now }
    {
        self.track.reads()
    }
}

/// A copy, equal to these entries.
pub fn copies_of(alloc: Global, entries: &[PieceEntry]) -> Result<Vec<PieceEntry>, AllocError>
    ensures { IfOk result (λ es. es.items ≡ entries.now) }
{
    let mut copies = Vec::with_capacity(alloc, entries.len())?;
    for entry in entries {
        copies.push(entry.copy()?)?;
    }
    Ok(copies)
}

impl Join for Lane {
    ghost use Rattle.pmg_commit.specs.Cores.{Core, join_cores};
    ghost use Rattle.pmg_commit.specs.Within.{CoreWithin};
    ghost use Rattle.pmg_lane.specs.Joining.{cores_joined, cores_ordered};
    ghost use Rattle.pmg_lane.specs.Lanes.{core_in};

    ghost Meaning = { Core };

    ghost meaning = { core_in };

    ghost joined = { join_cores };

    ghost Within = { CoreWithin };

    ghost laws = { cores_joined };

    ghost order = { cores_ordered };

    fn copy(&self) -> Result<Lane, AllocError> {
        Ok(Lane {
            alloc: self.alloc,
            track: self.track.copy(self.alloc)?,
        })
    }

    fn join(&mut self, other: Lane) -> Result<(), AllocFailed<Lane>> {
        if let Err(_) = self.make_room(&other) {
            return Err(AllocFailed { value: other });
        }
        self.take(other);
        Ok(())
    }
}

impl TwoPhaseJoin for Lane {
    ghost use Rattle.pmg_lane.specs.Lanes.{HaveRooms};

    ghost HasRoom = { HaveRooms };

    /// It takes time in proportion to what the other one holds and to the late entries that are read then, and to the
    /// logarithm of what this one holds.
    fn make_room(&mut self, other: &Lane) -> Result<(), AllocError> {
        self.track.make_rooms(self.alloc, &other.track)
    }

    fn take(&mut self, other: Lane) {
        let Lane { track, .. } = other;
        self.track.take_all(track);
    }
}

impl Absorb<Piece> for Lane {
    ghost use Rattle.pmg_commit.specs.Cores.{Core, core_of, join_cores};
    ghost use Rattle.pmg_commit.specs.Knowledge.{knowledge_of};
    ghost use Rattle.pmg_lane.specs.Lanes.{core_in};

    ghost Meaning = { Core };

    ghost meaning = { core_in };

    ghost joined = { join_cores };

    ghost told = { λ piece. core_of (knowledge_of piece) };

    /// A lane that has taken the piece alone.
    fn of_change(alloc: Global, piece: Piece) -> Result<Lane, AllocError> {
        let (_, from, to, entries) = piece.into_parts();
        Ok(Lane {
            alloc,
            track: Track::of(alloc, from, to, entries)?,
        })
    }

    /// Takes the piece, which is one of the process, as `absorb` does, without copies of the entries.
    fn take_change(&mut self, piece: Piece) -> Result<(), AllocError> {
        let (_, from, to, entries) = piece.into_parts();
        self.track.absorb(self.alloc, from, to, entries)
    }
}
