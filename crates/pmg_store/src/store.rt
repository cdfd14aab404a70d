ghost use Rattle.std.specs.Prelude.{◌≡◌, ◌≢◌, ◌≤◌, ℕ, Some, None, OnOk, OnErr, IfOk, IfErr, IsSome, is_some};
ghost use Rattle.std.specs.FinMap as finite;
ghost use Rattle.std.specs.Option.{option_map};
ghost use Rattle.std.specs.BTreeMap.{IsOrdered};
ghost use Rattle.pmg_value.specs.Process.{proc_cmp};
ghost use Rattle.pmg_value.specs.Spelling.{spelling};
ghost use Rattle.pmg_scope.specs.Scripts.{term_key};
ghost use Rattle.pmg_commit.specs.Data.{join_data, absorbed, level_at, read_at, taken_at};
ghost use Rattle.pmg_store.specs.Dump.{dump};
ghost use Rattle.pmg_store.specs.Outcomes.{Dumps};
ghost use Rattle.pmg_store.specs.Pieces.{data_of, is_of};
ghost use Rattle.pmg_store.specs.Tables.{procs_of_lanes};
ghost use Rattle.pmg_commit.specs.declared.piece.TheConstants.{MAX_COMMIT};

use crate::dump::dump_lanes;
use crate::failure::Failure;
use pmg_commit::Piece;
use pmg_join::{Join, MapJoin, TwoPhaseJoin, put_change};
use pmg_lane::{Lane, level_alone, read_alone};
use pmg_value::{Key, Proc, Value, WatchedWriter};
use std::alloc::{AllocError, AllocFailed, Global};
use std::collections::BTreeMap;
use std::io::Write;
use std::marker::Model;

/// The knowledge of all processes: for each process, the core of the union of the taken pieces.
#[derive(Drop)]
pub struct Store {
    lanes: MapJoin<Proc, Lane>,
}

impl Model for Store {
    ghost use Rattle.pmg_commit.specs.Data.{Data, coded_data};

    ghost Value = { Data };

    ghost coded = { coded_data };

    ghost use Rattle.pmg_store.specs.Lanes.{data_in};

    ghost view = { λ a. data_in a.lanes.table };
}

/// The value of a process under a key, and whether the process has ended.
#[derive(Clone, Copy)]
pub struct Look<'a> {
    pub value: Option<&'a Value>,
    pub ended: bool,
}

impl Join for Store {
    ghost use Rattle.pmg_commit.specs.Data.{Data, join_data};
    ghost use Rattle.pmg_store.specs.Joining.{DataWithin, data_joined, data_ordered};

    ghost Meaning = { Data };

    ghost meaning = { λ s. s };

    ghost joined = { join_data };

    ghost Within = { DataWithin };

    ghost laws = { data_joined };

    ghost order = { data_ordered };

    fn copy(&self) -> Result<Store, AllocError> {
        Store::copy(self)
    }

    fn join(&mut self, other: Store) -> Result<(), AllocFailed<Store>> {
        Store::join(self, other)
    }
}

impl Store {
    /// Makes an empty store. It keeps the allocator.
    pub fn new(alloc: Global) -> Store
        ensures { result ≡ finite.empty }
    {
        Store {
            lanes: MapJoin::new(alloc),
        }
    }

    /// Takes the piece. Pieces may come in any order, leave gaps, and repeat known entries. It takes time in proportion to the piece's
    /// entries and to the late entries that become readable, and to the logarithm of the stored data. If an allocation fails, the store
    /// stays as it is.
    pub fn absorb(&mut self, piece: &Piece) -> Result<(), AllocError>
        ensures ok { OnOk result (self.new ≡ absorbed self.old piece.now) }
        ensures err { OnErr result (self.new ≡ self.old) }
    {
        self.take(piece.copy()?)
    }

    /// Does what `absorb` does, without copies of the entries. If an allocation fails, the piece is dropped.
    pub fn take(&mut self, piece: Piece) -> Result<(), AllocError>
        ensures ok { OnOk result (self.new ≡ absorbed self.old piece) }
        ensures err { OnErr result (self.new ≡ self.old) }
    {
        let proc = piece.proc().copy()?;
        put_change(&mut self.lanes, proc, piece)
    }

    /// Returns a store of only these pieces, with the allocator of this one.
    pub fn of_pieces(&self, pieces: &[Piece]) -> Result<Store, AllocError>
        ensures { IfOk result (λ s. s ≡ data_of pieces.now) }
    {
        let mut store = Store::new(self.lanes.allocator());
        for piece in pieces {
            store.absorb(piece)?;
        }
        Ok(store)
    }

    /// Takes all pieces that the other store has taken. It takes time in proportion to the other store's content and to the late entries
    /// that become readable, and to the logarithm of this store's content. If an allocation fails, this store stays as it is, and the other
    /// one is handed back.
    pub fn join(&mut self, other: Store) -> Result<(), AllocFailed<Store>>
        ensures ok { OnOk result (self.new ≡ join_data self.old other) }
        ensures err { OnErr result (self.new ≡ self.old) }
        ensures handed_back { IfErr result (λ e. e.value ≡ other) }
    {
        if let Err(_) = self.lanes.make_room(&other.lanes) {
            return Err(AllocFailed { value: other });
        }
        let Store { lanes } = other;
        self.lanes.take(lanes);
        Ok(())
    }

    /// Returns the greatest n such that the commits 1 to n of the process were all taken, 0 if the first was not.
    pub fn level(&self, proc: &Proc) -> u64
        ensures value { result ≡ level_at self.now proc.now }
        ensures bound { result ≤ MAX_COMMIT }
    {
        match self.lanes.get(proc) {
            Some(lane) => lane.level(),
            None => 0,
        }
    }

    /// Returns whether the commit of that number of the process was taken.
    pub fn taken(&self, proc: &Proc, n: u64) -> bool
        ensures { result ≡ taken_at self.now proc.now n }
    {
        match self.lanes.get(proc) {
            Some(lane) => lane.taken(n),
            None => false,
        }
    }

    /// Returns the value of the process under the key. The entry of the greatest commit up to the level counts, and at equal numbers the
    /// greater value (PMIx Standard 5.0, PMIx_Get; the level is this project's).
    pub fn read(&self, proc: &Proc, key: &Key) -> Option<&Value>
        ensures { option_map (λ v. spelling v.now) result ≡ read_at self.now proc.now key.now }
    {
        match self.lanes.get(proc) {
            Some(lane) => lane.read(key),
            None => None,
        }
    }

    /// Returns the level of the process as if the piece were taken too. It takes time in proportion to the logarithm of the stored data.
    pub fn level_with(&self, piece: &Piece, proc: &Proc) -> u64
        ensures value { result ≡ level_at (absorbed self.now piece.now) proc.now }
        ensures bound { result ≤ MAX_COMMIT }
    {
        if !is_of(proc, piece) {
            return self.level(proc);
        }
        match self.lanes.get(proc) {
            Some(lane) => lane.level_with(piece),
            None => level_alone(piece.from(), piece.to()),
        }
    }

    /// Returns the value of the process under the key as if the piece were taken too. It takes time in proportion to the piece's entries
    /// and to the late entries that become readable, and to the logarithm of the stored data.
    pub fn read_with<'a>(&'a self, piece: &'a Piece, proc: &Proc, key: &Key) -> Option<&'a Value>
        ensures { option_map (λ v. spelling v.now) result ≡ read_at (absorbed self.now piece.now) proc.now key.now }
    {
        if !is_of(proc, piece) {
            return self.read(proc, key);
        }
        match self.lanes.get(proc) {
            Some(lane) => lane.read_with(piece, key),
            None => read_alone(piece.from(), piece.to(), piece.entries(), key),
        }
    }

    /// Returns whether the process has ended, as if the piece were taken too.
    pub fn has_ended_with(&self, piece: &Piece, proc: &Proc) -> bool
        ensures { result ≡ is_some (read_at (absorbed self.now piece.now) proc.now term_key) }
    {
        let value = self.read_with(piece, proc, &Key::of_termination());
        value.is_some()
    }

    /// Returns whether the process has ended: its last commit put the reserved key `pmix.term`, and all commits up to it were taken (this
    /// project's key).
    pub fn has_ended(&self, proc: &Proc) -> bool
        ensures { result ≡ is_some (read_at self.now proc.now term_key) }
    {
        let value = self.read(proc, &Key::of_termination());
        value.is_some()
    }

    /// Returns the value of the process under the key, and whether the process has ended, with one look-up of the process.
    pub fn look(&self, proc: &Proc, key: &Key) -> Look<'_>
        ensures value { option_map (λ v. spelling v.now) result.value ≡ read_at self.now proc.now key.now }
        ensures ended { result.ended ≡ is_some (read_at self.now proc.now term_key) }
    {
        match self.lanes.get(proc) {
            Some(lane) => {
                let value = lane.read(key);
                let term = lane.read(&Key::of_termination());
                Look {
                    value,
                    ended: term.is_some(),
                }
            }
            None => Look {
                value: None,
                ended: false,
            },
        }
    }

    /// Returns the processes of the taken pieces, in their order.
    pub fn processes(&self) -> Result<Vec<Proc>, AllocError>
        ensures { IfOk result (λ procs. procs.items ≡ finite.keys self.now) }
    {
        Ok(processes_in(self.lanes.allocator(), self.lanes.places())?)
    }

    /// Writes the dump. Each process of level 1 or more, by namespace and rank, has a line with its level. Then each key with a value, by
    /// its bytes, has a line with the value's text and the key. It takes no memory of its own. If the writer fails, a prefix of the dump
    /// was written.
    pub fn dump<W: Write>(&self, writer: &mut WatchedWriter<W>) -> Result<(), Failure>
        ensures dumps { Dumps (W.contents writer.old.writer) (W.contents writer.new.writer)
            result (Ok (dump self.now)) }
        ensures write_fault { IfErr result (λ e. e ≡ Failure.Write → IsSome writer.new.failure) }
        ensures no_read_fault { IfErr result (λ e. e ≢ Failure.Read) }
    {
        dump_lanes(writer, self.lanes.places())?;
        Ok(())
    }

    /// Returns a copy, equal to this store.
    pub fn copy(&self) -> Result<Store, AllocError>
        ensures { IfOk result (λ s. s ≡ self.now) }
    {
        Ok(Store {
            lanes: self.lanes.copy()?,
        })
    }
}

/// Returns whether the piece is of the process.
fn is_of(proc: &Proc, piece: &Piece) -> bool
    ensures { result ≡ is_of proc.now piece.now }
{
    proc.cmp(piece.proc()).is_eq()
}

/// Returns copies of the processes that have lanes, in their order.
fn processes_in(
    alloc: Global,
    places: &BTreeMap<Proc, Option<Lane>, Global>,
) -> Result<Vec<Proc>, AllocError>
    ensures all { IfOk result (λ procs. procs.items ≡ procs_of_lanes places.now.entries) }
    ensures ordered { IsOrdered proc_cmp places.now }
{
    let mut procs = Vec::new(alloc);
    for (proc, place) in places.iter() {
        if let Some(_) = place {
            procs.push(proc.copy()?)?;
        }
    }
    Ok(procs)
}

/// Joins the others into the two stores, into both or into none: room is made in both before they take anything.
pub fn join_both(
    near: &mut Store,
    near_more: Store,
    far: &mut Store,
    far_more: Store,
) -> Result<(), AllocError>
    ensures near_ok { OnOk result (near.new ≡ join_data near.old near_more) }
    ensures far_ok { OnOk result (far.new ≡ join_data far.old far_more) }
    ensures near_err { OnErr result (near.new ≡ near.old) }
    ensures far_err { OnErr result (far.new ≡ far.old) }
{
    near.lanes.make_room(&near_more.lanes)?;
    far.lanes.make_room(&far_more.lanes)?;
    near.lanes.take(near_more.lanes);
    far.lanes.take(far_more.lanes);
    Ok(())
}
