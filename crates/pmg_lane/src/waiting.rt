//! Entries that wait until their commits can be read, in lists as they came.
ghost use Rattle.std.specs.Prelude.{◌≡◌, ◌<◌, ◌≤◌, ℕ, [], map, length, true, false, cond, nat_le, OnOk, IfOk, IfSome, IfNone, IsSome, None};
ghost use Rattle.std.specs.List.{fold, list_all};
ghost use Rattle.std.specs.Option.{option_map};
ghost use Rattle.std.specs.Ordering.{nat_cmp};
ghost use Rattle.std.specs.BTreeMap.{get, is_at, btree_map_len};
ghost use Rattle.pmg_value.specs.Lists.{In};
ghost use Rattle.pmg_commit.specs.Entries.{best_of_two};
ghost use Rattle.pmg_commit.specs.Pieces.{entry_of};
ghost use Rattle.pmg_commit.specs.declared.piece.PieceEntry.{PieceEntry as PieceEntryValue};
ghost use Rattle.pmg_lane.specs.Entries.{HoldAlike, IsRoomyTo, LateFrom, NoneLeft, PlacesStay, ReadsWithin};
ghost use Rattle.pmg_lane.specs.Readings.{seen_entry};
ghost use Rattle.pmg_lane.specs.Waiting.{waiting_at, waiting_list, wait_number, is_free, can_wait, AreFrom, AreAllFrom, HasRoomUnder, HaveReached, IsWaiting, Stocks, WaitPast};

use crate::entries::Entries;
use crate::lane::copies_of;
use crate::readings::{Reading, best_with};
use pmg_commit::{PieceEntry, are_same_entries};
use pmg_value::Key;
use std::alloc::{AllocError, Global};
use std::collections::BTreeMap;

/// Lists of entries of commits past the level, each under a number that none of its entries is below. A list may be empty, and then
/// it is room for one.
pub struct Waiting {
    alloc: Global,
    lists: BTreeMap<u64, Vec<PieceEntry>, Global>,
}

impl Drop for Waiting {
    fn drop(self) {
        let Self { alloc, lists } = self;
    }
}

/// Whether no entry is of a number below this one.
fn are_from(number: u64, entries: &[PieceEntry]) -> bool
    ensures { result ≡ list_all (λ e. nat_le number e.number) entries.now }
{
    for entry in entries {
        if entry.number < number {
            return false;
        }
    }
    true
}

/// The number under which the entries of a piece after that commit may wait: that of the commit, if no entry is of a lower one, and
/// else 0, under which nothing waits.
pub fn wait_number(from: u64, entries: &[PieceEntry]) -> u64
    ensures number { result ≡ wait_number from entries.now }
    ensures lowest { AreFrom result entries.now }
{
    if are_from(from, entries) { from } else { 0 }
}

/// Whether nothing waits there, or the same.
fn is_free(there: &[PieceEntry], entries: &[PieceEntry]) -> bool
    ensures { result ≡ is_free there.now entries.now }
{
    there.is_empty() || are_same_entries(there, entries)
}

impl Waiting {
    /// Nothing waits. It keeps the allocator.
    pub fn new(alloc: Global) -> Waiting
        ensures { (n : ℕ) → waiting_at result.lists n ≡ [] }
    {
        Waiting {
            alloc,
            lists: BTreeMap::new(alloc),
        }
    }

    /// The entries that wait under the number.
    fn at(&self, number: u64) -> &[PieceEntry]
        ensures { result.now ≡ waiting_at self.now.lists number }
    {
        match self.lists.get(&number) {
            Some(list) => list.as_slice(),
            None => &[],
        }
    }

    /// Whether the entries can wait under the number: there are some, it is past the level, and no others wait there.
    fn can_wait(&self, level: u64, number: u64, entries: &[PieceEntry]) -> bool
        ensures { result ≡ can_wait self.now.lists level number entries.now }
    {
        !entries.is_empty() && level < number && is_free(self.at(number), entries)
    }

    /// Makes an empty list under the number, where there is none.
    fn make_list(&mut self, number: u64) -> Result<(), AllocError>
        ensures same { (n : ℕ) → waiting_at self.new.lists n ≡ waiting_at self.old.lists n }
        ensures place { OnOk result (IsSome (get nat_cmp self.new.lists number)) }
        ensures stay { (n : ℕ) → IsSome (get nat_cmp self.old.lists n) → IsSome (get nat_cmp self.new.lists n) }
    {
        self.lists.entry(number)?.or_insert(Vec::new(self.alloc));
        Ok(())
    }

    /// Puts the entries into the list under the number.
    fn put_list(&mut self, number: u64, entries: Vec<PieceEntry>)
        requires { IsSome (get nat_cmp self.old.lists number) }
        ensures put { (n : ℕ) → waiting_at self.new.lists n
            ≡ cond (is_at (nat_cmp number) n) entries.items (waiting_at self.old.lists n) }
        ensures stay { (n : ℕ) → IsSome (get nat_cmp self.old.lists n) → IsSome (get nat_cmp self.new.lists n) }
    {
        match self.lists.get_mut(&number) {
            Some(list) => *list = entries,
            None => unreachable!(),
        }
    }

    /// Takes the first list, with its number.
    fn pop(&mut self) -> Option<(u64, Vec<PieceEntry>)>
        ensures there { IfSome result (λ p. waiting_at self.old.lists p.0 ≡ p.1.items) }
        ensures taken { IfSome result (λ p. (n : ℕ) → get nat_cmp self.new.lists n
            ≡ cond (is_at (nat_cmp p.0) n) None (get nat_cmp self.old.lists n)) }
        ensures fewer { IfSome result (λ _. btree_map_len self.new.lists < btree_map_len self.old.lists) }
        ensures none { IfNone result ((n : ℕ) → get nat_cmp self.old.lists n ≡ None) }
    {
        self.lists.pop_first()
    }

    /// Takes the first list, with its number, where that is no greater than the level.
    fn pop_reached(&mut self, level: u64) -> Option<(u64, Vec<PieceEntry>)>
        ensures there { IfSome result (λ p. waiting_at self.old.lists p.0 ≡ p.1.items) }
        ensures reached { IfSome result (λ p. p.0 ≤ level) }
        ensures taken { IfSome result (λ p. (n : ℕ) → get nat_cmp self.new.lists n
            ≡ cond (is_at (nat_cmp p.0) n) None (get nat_cmp self.old.lists n)) }
        ensures fewer { IfSome result (λ _. btree_map_len self.new.lists < btree_map_len self.old.lists) }
        ensures none { IfNone result (self.new.lists ≡ self.old.lists) }
        ensures past { IfNone result ((n : ℕ) → IsSome (get nat_cmp self.new.lists n) → level < n) }
    {
        match self.lists.first_key_value() {
            Some((number, _)) if *number <= level => self.lists.pop_first(),
            _ => None,
        }
    }

    /// What is read under the key at that level, which may not be reached yet, once those that wait are seen too: of what is read
    /// before and those of them up to the level, the latest. It takes time in proportion to their number.
    pub fn reading_at<'a>(
        &'a self,
        level: u64,
        key: &Key,
        mut best: Option<Reading<'a>>,
    ) -> Option<Reading<'a>>
        requires { AreAllFrom self.now.lists }
        ensures { option_map (seen_entry key.now) result
            ≡ fold (best_of_two level key.now) (option_map (seen_entry key.now) best.entry) (waiting_list self.now.lists) }
    {
        for (number, list) in self.lists.iter() {
            if level < *number {
                return best;
            }
            best = best_with(level, key, best, list);
        }
        best
    }

    /// Makes room for the entries: a list to wait in where they can, and else a place for each.
    pub fn make_room(
        &mut self,
        entries: &mut Entries,
        level: u64,
        number: u64,
        list: &[PieceEntry],
    ) -> Result<(), AllocError>
        ensures alike { HoldAlike entries.old entries.new }
        ensures same { (n : ℕ) → waiting_at self.new.lists n ≡ waiting_at self.old.lists n }
        ensures room { OnOk result (HasRoomUnder entries.new self.new.lists level number list.now) }
        ensures places { PlacesStay entries.old entries.new }
        ensures stay { (n : ℕ) → IsSome (get nat_cmp self.old.lists n) → IsSome (get nat_cmp self.new.lists n) }
    {
        if self.can_wait(level, number, list) {
            self.make_list(number)
        } else {
            entries.make_places(level, list)
        }
    }

    /// Puts the entries into a list to wait in where they can, and else each into its place, but those that are superseded.
    pub fn put(&mut self, entries: &mut Entries, level: u64, number: u64, list: Vec<PieceEntry>)
        requires room { HasRoomUnder entries.old self.old.lists level number list.items }
        requires within { ReadsWithin level entries.old }
        requires numbered { AreAllFrom self.old.lists }
        requires lowest { AreFrom number list.items }
        ensures stocks { Stocks level entries.old self.old.lists (λ e. In e (map entry_of list.items)) entries.new self.new.lists NoneLeft }
        ensures within { ReadsWithin level entries.new }
        ensures late { LateFrom level entries.old entries.new }
        ensures numbered { AreAllFrom self.new.lists }
        ensures past { WaitPast level self.old.lists → WaitPast level self.new.lists }
        ensures places { PlacesStay entries.old entries.new }
        ensures others { (n : ℕ) → is_at (nat_cmp number) n ≡ false → waiting_at self.new.lists n ≡ waiting_at self.old.lists n }
        ensures stay { (n : ℕ) → IsSome (get nat_cmp self.old.lists n) → IsSome (get nat_cmp self.new.lists n) }
    {
        if self.can_wait(level, number, &list) {
            self.put_list(number, list);
        } else {
            entries.put_all(level, list);
        }
    }

    /// Makes a place for each entry that waits under a number up to the level.
    fn make_listed_places(&self, entries: &mut Entries, level: u64) -> Result<(), AllocError>
        ensures alike { HoldAlike entries.old entries.new }
        ensures places { OnOk result (HaveReached entries.new self.now.lists level) }
        ensures stay { PlacesStay entries.old entries.new }
    {
        for (number, list) in self.lists.iter() {
            if level < *number {
                return Ok(());
            }
            entries.make_places(level, list)?;
        }
        Ok(())
    }

    /// Makes a place for each entry that waits under a number up to the level, and where each late entry up to it will be read. It
    /// takes time in proportion to their number, and to the logarithm of what is held.
    pub fn make_reached_places(&self, entries: &mut Entries, level: u64) -> Result<(), AllocError>
        ensures alike { HoldAlike entries.old entries.new }
        ensures promoted { OnOk result (IsRoomyTo level entries.new) }
        ensures reached { OnOk result (HaveReached entries.new self.now.lists level) }
        ensures stay { PlacesStay entries.old entries.new }
    {
        self.make_listed_places(entries, level)?;
        entries.make_promoted_places(level)
    }

    /// Puts each entry that waits under a number up to the level into its place, but those that are superseded.
    pub fn put_reached(&mut self, entries: &mut Entries, level: u64)
        requires room { HaveReached entries.old self.old.lists level }
        requires within { ReadsWithin level entries.old }
        requires numbered { AreAllFrom self.old.lists }
        ensures stocks { Stocks level entries.old self.old.lists NoneLeft entries.new self.new.lists NoneLeft }
        ensures within { ReadsWithin level entries.new }
        ensures late { LateFrom level entries.old entries.new }
        ensures numbered { AreAllFrom self.new.lists }
        ensures past { WaitPast level self.new.lists }
        ensures places { PlacesStay entries.old entries.new }
        ensures others { (n : ℕ) → level < n → get nat_cmp self.new.lists n ≡ get nat_cmp self.old.lists n }
    {
        while let Some((_, list)) = self.pop_reached(level) {
            entries.put_all(level, list);
        }
    }

    /// Makes room for all that wait elsewhere.
    pub fn make_rooms(
        &mut self,
        entries: &mut Entries,
        level: u64,
        other: &Waiting,
    ) -> Result<(), AllocError>
        ensures alike { HoldAlike entries.old entries.new }
        ensures same { (n : ℕ) → waiting_at self.new.lists n ≡ waiting_at self.old.lists n }
        ensures room { OnOk result ((n : ℕ) → HasRoomUnder entries.new self.new.lists level n (waiting_at other.now.lists n)) }
        ensures places { PlacesStay entries.old entries.new }
        ensures stay { (n : ℕ) → IsSome (get nat_cmp self.old.lists n) → IsSome (get nat_cmp self.new.lists n) }
    {
        for (number, list) in other.lists.iter() {
            self.make_room(entries, level, *number, list)?;
        }
        Ok(())
    }

    /// Puts all that wait elsewhere into lists to wait in where they can, and else each into its place, but those that are
    /// superseded.
    pub fn put_others(&mut self, entries: &mut Entries, level: u64, mut other: Waiting)
        requires room { (n : ℕ) → HasRoomUnder entries.old self.old.lists level n (waiting_at other.lists n) }
        requires within { ReadsWithin level entries.old }
        requires numbered { AreAllFrom self.old.lists }
        requires lowest { AreAllFrom other.lists }
        ensures stocks { Stocks level entries.old self.old.lists (IsWaiting other.lists) entries.new self.new.lists NoneLeft }
        ensures within { ReadsWithin level entries.new }
        ensures late { LateFrom level entries.old entries.new }
        ensures numbered { AreAllFrom self.new.lists }
        ensures past { WaitPast level self.old.lists → WaitPast level self.new.lists }
    {
        while let Some((number, list)) = other.pop() {
            self.put(entries, level, number, list);
        }
    }

    /// A copy: the same entries wait.
    pub fn copy(&self) -> Result<Waiting, AllocError>
        ensures { IfOk result (λ copy. (n : ℕ) → waiting_at copy.lists n ≡ waiting_at self.now.lists n) }
    {
        let mut copy = Waiting::new(self.alloc);
        for (number, list) in self.lists.iter() {
            copy.lists.insert(*number, copies_of(self.alloc, list)?)?;
        }
        Ok(copy)
    }
}
