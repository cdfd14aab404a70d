ghost use Rattle.std.specs.Prelude.{◌≡◌, map};
ghost use Rattle.std.specs.Option.{option_map};
ghost use Rattle.std.specs.List.{fold};
ghost use Rattle.pmg_commit.specs.Entries.{best_of_two};
ghost use Rattle.pmg_commit.specs.Pieces.{entry_of};

use crate::piece::PieceEntry;
use pmg_value::Key;

/// Returns the entry that is read under the key at that level once these entries are seen too: the latest of all readable ones. `best` is
/// the entry that was read of the entries before.
pub fn best_of<'a>(
    entries: &'a [PieceEntry],
    level: u64,
    key: &Key,
    mut best: Option<&'a PieceEntry>,
) -> Option<&'a PieceEntry>
    ensures { option_map (λ e. entry_of e.now) result ≡
        fold (best_of_two level key.now) (option_map (λ e. entry_of e.now) best.entry) (map entry_of entries.now) }
{
    for entry in entries {
        best = better(level, key, best, entry);
    }
    best
}

/// Returns the entry that is read once the entry is seen too.
fn better<'a>(
    level: u64,
    key: &Key,
    best: Option<&'a PieceEntry>,
    entry: &'a PieceEntry,
) -> Option<&'a PieceEntry>
    ensures { option_map (λ e. entry_of e.now) result ≡
        best_of_two level key.now (option_map (λ e. entry_of e.now) best.entry) (entry_of entry.now) }
{
    if !entry.is_readable(level, key) {
        return best;
    }
    match best {
        Some(before) if !before.is_earlier_than(entry) => Some(before),
        _ => Some(entry),
    }
}
