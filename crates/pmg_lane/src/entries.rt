//! The entries of one process that are not superseded.
ghost use Rattle.std.specs.Prelude.{◌≡◌, ◌⊎◌, ◌↔◌, ◌<◌, ◌≤◌, ℕ, List, map, cond, OnOk, IfOk, IfSome, IfNone, Some, None};
ghost use Rattle.pmg_value.specs.Spelling.{spelling};
ghost use Rattle.pmg_commit.specs.Entries.{Entry, best_of_two};
ghost use Rattle.pmg_lane.specs.Entries.{read_under, late_at, late_list, late_cmp, entry_under, late_entry, beats, exceeds, IsReadIn, IsLateIn, HasEntry, HoldAlike, PlacesStay, HasPlaces, ReadsWithin, IsRoomyTo, LateFrom, LatePast, Settles, NoneLeft, place_count};
ghost use Rattle.pmg_join.specs.Places.{there_at, HasPlace};
ghost use Rattle.pmg_lane.specs.Readings.{seen_entry};
ghost use Rattle.std.specs.Option.{option_map, option_to_list};
ghost use Rattle.std.specs.List.{fold};
ghost use Rattle.std.specs.BTreeMap.{get, is_at, btree_map_len};
ghost use Rattle.pmg_value.specs.Lists.{In};
ghost use Rattle.pmg_commit.specs.Pieces.{entry_of};
ghost use Rattle.std.specs.Ordering.{nat_cmp};
ghost use Rattle.std.specs.Cmp.Lexicographic.{slice_cmp};

use crate::readings::{Reading, better};
use pmg_commit::PieceEntry;
use pmg_join::{make_place, pop_place, put_place};
use pmg_value::{Copied, Key, Value, copy_rows};
use std::alloc::{AllocError, Global};
use std::collections::BTreeMap;

/// What a commit left under a key: the number of the commit, and the value.
#[derive(Drop)]
pub struct Stamp {
    pub number: u64,
    pub value: Value,
}

/// The entries that are not superseded: what is read under each key, and the entries past the level by number and
/// key. A place may be empty, and then it is room.
pub struct Entries {
    reads: BTreeMap<Key, Option<Stamp>, Global>,
    late: BTreeMap<(u64, Key), Option<Value>, Global>,
}

impl Drop for Entries {
    fn drop(self) {
        let Self { reads, late } = self;
    }
}

impl Copied for Stamp {
    fn copy(&self) -> Result<Stamp, AllocError> {
        Ok(Stamp {
            number: self.number,
            value: self.value.copy()?,
        })
    }
}

/// What is read under the key at that level once a late place is seen too, with what is in it.
fn better_late<'a>(
    level: u64,
    key: &Key,
    best: Option<Reading<'a>>,
    place: &'a (u64, Key),
    there: &'a Option<Value>,
) -> Option<Reading<'a>>
    ensures { option_map (seen_entry key.now) result
        ≡ fold (best_of_two level key.now) (option_map (seen_entry key.now) best.entry)
        (option_to_list (option_map (late_entry place.now) there.now)) }
{
    let Some(value) = there else {
        return best;
    };
    let late = Reading {
        number: place.0,
        value,
    };
    better(level, key, best, &place.1, late)
}

impl Entries {
    /// No entries. They keep the allocator.
    pub fn new(alloc: Global) -> Entries
        ensures none { (key : List ℕ) → read_under result key ≡ None }
        ensures none_late { (place : ℕ × List ℕ) → late_at result place ≡ None }
    {
        Entries {
            reads: BTreeMap::new(alloc),
            late: BTreeMap::new(alloc),
        }
    }

    /// The value of the entry that is read under the key.
    pub fn read(&self, key: &Key) -> Option<&Value>
        ensures { option_map (λ v. spelling v.now) result ≡ option_map (λ e. e.bytes) (read_under self.now key.now) }
    {
        match self.reads.get(key) {
            Some(Some(there)) => Some(&there.value),
            _ => None,
        }
    }

    /// What is read under the key, with its number.
    fn reading(&self, key: &Key) -> Option<Reading<'_>>
        ensures { option_map (seen_entry key.now) result ≡ read_under self.now key.now }
    {
        match self.reads.get(key) {
            Some(Some(there)) => Some(Reading {
                number: there.number,
                value: &there.value,
            }),
            _ => None,
        }
    }

    /// What is read under the key at that level, which may not be reached yet: of what is read now and the late entries
    /// up to the level, the latest. It takes time in proportion to the logarithm of the number of keys, and to the
    /// number of those late entries.
    pub fn reading_at(&self, level: u64, key: &Key) -> Option<Reading<'_>>
        ensures { option_map (seen_entry key.now) result
            ≡ fold (best_of_two level key.now) (read_under self.now key.now) (late_list self.now) }
    {
        let mut best = self.reading(key);
        for (place, there) in self.late.iter() {
            if place.0 > level {
                return best;
            }
            best = better_late(level, key, best, place, there);
        }
        best
    }

    /// Makes a place where an entry of the key will be read.
    fn make_read_place(&mut self, key: &Key) -> Result<(), AllocError>
        ensures same { HoldAlike self.old self.new }
        ensures place { OnOk result (HasPlace (slice_cmp nat_cmp) self.new.reads key.now) }
        ensures stay { PlacesStay self.old self.new }
    {
        make_place(&mut self.reads, key)
    }

    /// Makes a late place for an entry of that number and key.
    fn make_late_place(&mut self, number: u64, key: &Key) -> Result<(), AllocError>
        ensures same { HoldAlike self.old self.new }
        ensures place { OnOk result (HasPlace late_cmp self.new.late (number, key.now)) }
        ensures stay { PlacesStay self.old self.new }
    {
        put_place(&mut self.late, (number, key.copy()?))
    }

    /// Makes a place for an entry of that number and key: where it is read, or, past the level, a late one.
    pub fn make_place(&mut self, level: u64, number: u64, key: &Key) -> Result<(), AllocError>
        ensures same { HoldAlike self.old self.new }
        ensures place { OnOk result (HasPlaces self.new level number key.now) }
        ensures stay { PlacesStay self.old self.new }
    {
        if number > level {
            self.make_late_place(number, key)
        } else {
            self.make_read_place(key)
        }
    }

    /// Makes a place for each late entry up to the level where it will be read. It takes time in proportion to their
    /// number, and to the logarithm of what is held.
    pub fn make_promoted_places(&mut self, level: u64) -> Result<(), AllocError>
        ensures same { HoldAlike self.old self.new }
        ensures room { OnOk result (IsRoomyTo level self.new) }
        ensures stay { PlacesStay self.old self.new }
        ensures late { self.new.late ≡ self.old.late }
    {
        make_reached_places(&mut self.reads, &self.late, level)
    }

    /// Puts the entry under its key, where it will be read, unless a later one is there.
    #[inline(always)]
    fn put_read(&mut self, level: u64, key: Key, number: u64, value: Value)
        requires place { HasPlace (slice_cmp nat_cmp) self.old.reads key }
        requires reached { number ≤ level }
        requires within { ReadsWithin level self.old }
        ensures settles { let entry = entry_under key (record { number = number; value = value }) in
            Settles level self.old (λ e. e ≡ entry) self.new NoneLeft }
        ensures within { ReadsWithin level self.new }
        ensures late { self.new.late ≡ self.old.late }
        ensures stay { PlacesStay self.old self.new }
    {
        match self.reads.get_mut(&key) {
            Some(there) => {
                if is_newer(there, number, &value) {
                    *there = Some(Stamp { number, value });
                }
            }
            None => unreachable!(),
        }
    }

    /// Puts the entry, which is past the level, in its late place, unless a greater one is there.
    fn put_late(&mut self, level: u64, key: Key, number: u64, value: Value)
        requires place { HasPlace late_cmp self.old.late (number, key) }
        requires past { level < number }
        ensures settles { let entry = late_entry (number, key) value in
            Settles level self.old (λ e. e ≡ entry) self.new NoneLeft }
        ensures reads { self.new.reads ≡ self.old.reads }
        ensures late { LateFrom level self.old self.new }
        ensures stay { PlacesStay self.old self.new }
    {
        match self.late.get_mut(&(number, key)) {
            Some(there) => {
                if is_greater(there, &value) {
                    *there = Some(value);
                }
            }
            None => unreachable!(),
        }
    }

    /// Puts the entry where it belongs at that level, unless one is there that supersedes it.
    #[inline(always)]
    pub fn put(&mut self, level: u64, key: Key, number: u64, value: Value)
        requires places { HasPlaces self.old level number key }
        requires within { ReadsWithin level self.old }
        ensures settles { let entry = late_entry (number, key) value in
            Settles level self.old (λ e. e ≡ entry) self.new NoneLeft }
        ensures within { ReadsWithin level self.new }
        ensures late { LateFrom level self.old self.new }
        ensures stay { PlacesStay self.old self.new }
    {
        if number <= level {
            self.put_read(level, key, number, value);
        } else {
            self.put_late(level, key, number, value);
        }
    }

    /// Makes places for the entries.
    pub fn make_places(&mut self, level: u64, entries: &[PieceEntry]) -> Result<(), AllocError>
        ensures same { HoldAlike self.old self.new }
        ensures places { OnOk result ((e : PieceEntry) → In e entries.now → HasPlaces self.new level e.number e.key) }
        ensures stay { PlacesStay self.old self.new }
    {
        for entry in entries {
            self.make_place(level, entry.number, &entry.key)?;
        }
        Ok(())
    }

    /// Puts the entries where they belong at that level, but those that are superseded.
    pub fn put_all(&mut self, level: u64, entries: Vec<PieceEntry>)
        requires places { (e : PieceEntry) → In e entries.items → HasPlaces self.old level e.number e.key }
        requires within { ReadsWithin level self.old }
        ensures settles { Settles level self.old (λ e. In e (map entry_of entries.items)) self.new NoneLeft }
        ensures within { ReadsWithin level self.new }
        ensures late { LateFrom level self.old self.new }
        ensures stay { PlacesStay self.old self.new }
    {
        for entry in entries {
            let PieceEntry { key, number, value } = entry;
            self.put(level, key, number, value);
        }
    }

    /// Takes the first late place, where its number is no greater than the level.
    fn pop_reached(&mut self, level: u64) -> Option<((u64, Key), Option<Value>)>
        ensures there { IfSome result (λ p. there_at late_cmp self.old.late p.0 ≡ p.1) }
        ensures reached { IfSome result (λ p. p.0.0 ≤ level) }
        ensures place { IfSome result (λ p. HasPlace late_cmp self.old.late p.0) }
        ensures taken { IfSome result (λ p. (q : ℕ × List ℕ) → get late_cmp self.new.late q
            ≡ cond (is_at (late_cmp p.0) q) None (get late_cmp self.old.late q)) }
        ensures fewer { IfSome result (λ _. btree_map_len self.new.late < btree_map_len self.old.late) }
        ensures reads { self.new.reads ≡ self.old.reads }
        ensures none { IfNone result (self.new.late ≡ self.old.late) }
        ensures past { IfNone result ((q : ℕ × List ℕ) → HasPlace late_cmp self.new.late q → level < q.0) }
    {
        match self.late.first_key_value() {
            Some((place, _)) if place.0 <= level => self.late.pop_first(),
            _ => None,
        }
    }

    /// Puts the late entries whose numbers are no greater than the level where they are read.
    pub fn promote(&mut self, level: u64)
        requires within { ReadsWithin level self.old }
        requires roomy { IsRoomyTo level self.old }
        ensures settles { Settles level self.old NoneLeft self.new NoneLeft }
        ensures within { ReadsWithin level self.new }
        ensures past { LatePast level self.new }
        ensures stay { (n : ℕ) (key : List ℕ) → HasPlaces self.old level n key → HasPlaces self.new level n key }
    {
        while let Some((place, value)) = self.pop_reached(level) {
            if let Some(value) = value {
                self.put_read(level, place.1, place.0, value);
            }
        }
    }

    /// Makes places for what is read in another tree.
    fn make_read_places(
        &mut self,
        level: u64,
        reads: &BTreeMap<Key, Option<Stamp>, Global>,
    ) -> Result<(), AllocError>
        ensures same { HoldAlike self.old self.new }
        ensures places { OnOk result ((e : Entry) → IsReadIn reads.now e → HasPlaces self.new level e.number e.key) }
        ensures stay { PlacesStay self.old self.new }
    {
        for (key, place) in reads.iter() {
            if let Some(there) = place {
                self.make_place(level, there.number, key)?;
            }
        }
        Ok(())
    }

    /// Makes places for the late entries of another tree.
    fn make_late_places(
        &mut self,
        level: u64,
        late: &BTreeMap<(u64, Key), Option<Value>, Global>,
    ) -> Result<(), AllocError>
        ensures same { HoldAlike self.old self.new }
        ensures places { OnOk result ((e : Entry) → IsLateIn late.now e → HasPlaces self.new level e.number e.key) }
        ensures stay { PlacesStay self.old self.new }
    {
        for (place, there) in late.iter() {
            if there.is_some() {
                self.make_place(level, place.0, &place.1)?;
            }
        }
        Ok(())
    }

    /// Makes places for the other entries.
    pub fn make_places_of(&mut self, level: u64, other: &Entries) -> Result<(), AllocError>
        ensures same { HoldAlike self.old self.new }
        ensures places { OnOk result ((e : Entry) → HasEntry other.now e → HasPlaces self.new level e.number e.key) }
        ensures stay { PlacesStay self.old self.new }
    {
        self.make_read_places(level, &other.reads)?;
        self.make_late_places(level, &other.late)?;
        Ok(())
    }

    /// Takes a place out, with its key and the entry in it, if there is one.
    fn pop(&mut self) -> Option<(Key, Option<Stamp>)>
        ensures taken { IfSome result (λ p. (e : Entry) → HasEntry self.old e
            ↔ ((option_map (entry_under p.0) p.1 ≡ Some e) ⊎ HasEntry self.new e)) }
        ensures fewer { IfSome result (λ _. place_count self.new < place_count self.old) }
        ensures none { IfNone result ((e : Entry) → HasEntry self.old e → ⊥) }
    {
        if let Some(read) = pop_place(&mut self.reads) {
            return Some(read);
        }
        match pop_place(&mut self.late) {
            Some((place, there)) => Some((place.1, stamp_of(place.0, there))),
            None => None,
        }
    }

    /// Puts the other entries where they belong at that level, but those that are superseded.
    pub fn put_others(&mut self, level: u64, mut other: Entries)
        requires places { (e : Entry) → HasEntry other e → HasPlaces self.old level e.number e.key }
        requires within { ReadsWithin level self.old }
        ensures settles { Settles level self.old (HasEntry other) self.new NoneLeft }
        ensures within { ReadsWithin level self.new }
        ensures late { LateFrom level self.old self.new }
        ensures stay { PlacesStay self.old self.new }
    {
        while let Some((key, place)) = other.pop() {
            if let Some(there) = place {
                self.put(level, key, there.number, there.value);
            }
        }
    }

    /// The keys in their order, with what is read under each where something is.
    pub fn reads(&self) -> &BTreeMap<Key, Option<Stamp>, Global>
        ensures { result.now ≡ self.now.reads }
    {
        &self.reads
    }

    /// A copy, equal to these entries.
    pub fn copy(&self, alloc: Global) -> Result<Entries, AllocError>
        ensures { IfOk result (λ copy. HoldAlike self.now copy) }
    {
        Ok(Entries {
            reads: copy_rows(alloc, &self.reads)?,
            late: copy_rows(alloc, &self.late)?,
        })
    }
}

/// Makes a place for the key of each late place up to the level.
fn make_reached_places(
    reads: &mut BTreeMap<Key, Option<Stamp>, Global>,
    late: &BTreeMap<(u64, Key), Option<Value>, Global>,
    level: u64,
) -> Result<(), AllocError>
    ensures same { (q : List ℕ) → there_at (slice_cmp nat_cmp) reads.new q ≡ there_at (slice_cmp nat_cmp) reads.old q }
    ensures places { OnOk result ((q : ℕ × List ℕ) → HasPlace late_cmp late.now q → q.0 ≤ level
        → HasPlace (slice_cmp nat_cmp) reads.new q.1) }
    ensures stay { (q : List ℕ) → HasPlace (slice_cmp nat_cmp) reads.old q → HasPlace (slice_cmp nat_cmp) reads.new q }
{
    for (place, _) in late.iter() {
        if level < place.0 {
            return Ok(());
        }
        make_place(reads, &place.1)?;
    }
    Ok(())
}

/// The stamp of that number and the value, if there is one.
fn stamp_of(number: u64, there: Option<Value>) -> Option<Stamp>
    ensures { (key : List ℕ) → option_map (entry_under key) result ≡ option_map (late_entry (number, key)) there }
{
    match there {
        Some(value) => Some(Stamp { number, value }),
        None => None,
    }
}

/// Whether an entry of that number and value is later than the one in the place, if there is one.
#[inline(always)]
fn is_newer(place: &Option<Stamp>, number: u64, value: &Value) -> bool
    ensures { (key : List ℕ) → result ≡ beats (option_map (entry_under key) place.now)
        (record { key = key; number = number; bytes = spelling value.now }) }
{
    match place {
        Some(there) => {
            there.number < number || (there.number == number && there.value.cmp(value).is_lt())
        }
        None => true,
    }
}

/// Whether the value is greater than the one in the place, if there is one.
fn is_greater(place: &Option<Value>, value: &Value) -> bool
    ensures { result ≡ exceeds (option_map spelling place.now) (spelling value.now) }
{
    match place {
        Some(there) => there.cmp(value).is_lt(),
        None => true,
    }
}
