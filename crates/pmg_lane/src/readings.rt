//! What is read under a key, as more entries are seen.
ghost use Rattle.std.specs.Prelude.{◌≡◌, ◌==◌, ◌≤◌, ℕ, List, map, if◌then◌else◌};
ghost use Rattle.std.specs.List.{fold};
ghost use Rattle.std.specs.Option.{option_map};
ghost use Rattle.pmg_value.specs.Spelling.{spelling};
ghost use Rattle.pmg_commit.specs.Entries.{best_of_two, is_later, is_readable};
ghost use Rattle.pmg_commit.specs.Levels.{level};
ghost use Rattle.pmg_commit.specs.Knowledge.{read, numbers_between};
ghost use Rattle.pmg_commit.specs.Pieces.{entry_of};
ghost use Rattle.pmg_lane.specs.Merged.{told};
ghost use Rattle.pmg_lane.specs.Readings.{seen_entry};

use pmg_commit::PieceEntry;
use pmg_value::{Key, Value};

/// What is read under a key: the number of the commit that left it, and the value.
#[derive(Clone, Copy)]
pub struct Reading<'a> {
    pub number: u64,
    pub value: &'a Value,
}

impl<'a> Reading<'a> {
    /// Whether it can be read under the key, at that level, where it is under a key of its own.
    fn is_readable(&self, level: u64, key: &Key, own_key: &Key) -> bool
        ensures { result ≡ is_readable level key.now (seen_entry own_key.now self.now) }
    {
        *key == *own_key && self.number <= level
    }

    /// Whether the next one is later: of a greater number, or of the same one with the greater value.
    fn is_earlier_than(&self, next: &Reading<'a>) -> bool
        ensures { (key : List ℕ) → result ≡ is_later (seen_entry key self.now) (seen_entry key next.now) }
    {
        self.number < next.number
            || (self.number == next.number && self.value.cmp(next.value).is_lt())
    }
}

/// The later one of two readings under a key: the second, where it is later.
fn later_of<'a>(before: Reading<'a>, next: Reading<'a>) -> Reading<'a>
    ensures { (key : List ℕ) → seen_entry key result
        ≡ (if is_later (seen_entry key before.entry) (seen_entry key next.entry) then seen_entry key next.entry else seen_entry key before.entry) }
{
    if before.is_earlier_than(&next) {
        next
    } else {
        before
    }
}

/// What is read under the key at that level once an entry is seen too, which is under a key of its own.
pub fn better<'a>(
    level: u64,
    key: &Key,
    best: Option<Reading<'a>>,
    own_key: &Key,
    entry: Reading<'a>,
) -> Option<Reading<'a>>
    ensures { option_map (seen_entry key.now) result
        ≡ best_of_two level key.now (option_map (seen_entry key.now) best.entry) (seen_entry own_key.now entry.entry) }
{
    if !entry.is_readable(level, key, own_key) {
        return best;
    }
    match best {
        Some(before) => Some(later_of(before, entry)),
        None => Some(entry),
    }
}

/// What is read under the key at that level once the entries are seen too: of all that can be read, the latest.
pub fn best_with<'a>(
    level: u64,
    key: &Key,
    mut best: Option<Reading<'a>>,
    entries: &'a [PieceEntry],
) -> Option<Reading<'a>>
    ensures { option_map (seen_entry key.now) result
        ≡ fold (best_of_two level key.now) (option_map (seen_entry key.now) best.entry) (map entry_of entries.now) }
{
    for entry in entries {
        let there = Reading {
            number: entry.number,
            value: &entry.value,
        };
        best = better(level, key, best, &entry.key, there);
    }
    best
}

/// The value that is read, where something is.
pub fn seen_value<'a>(best: Option<Reading<'a>>) -> Option<&'a Value>
    ensures { (key : List ℕ) → option_map (λ v. spelling v.now) result
        ≡ option_map (λ e. e.bytes) (option_map (seen_entry key) best.entry) }
{
    match best {
        Some(best) => Some(best.value),
        None => None,
    }
}

/// The level where no commits but those from+1 to to were taken.
pub fn level_alone(from: u64, to: u64) -> u64
    ensures value { result ≡ level (numbers_between from to) }
    ensures is { result ≡ (if from == 0 then to else 0) }
    ensures bound { result ≤ to }
{
    if from == 0 { to } else { 0 }
}

/// What is read under the key where no commits but those from+1 to to were taken, of which these are the entries.
pub fn read_alone<'a>(from: u64, to: u64, entries: &'a [PieceEntry], key: &Key) -> Option<&'a Value>
    ensures { option_map (λ v. spelling v.now) result ≡ read (told from to (map entry_of entries.now)) key.now }
{
    seen_value(best_with(level_alone(from, to), key, None, entries))
}
