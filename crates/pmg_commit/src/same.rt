//! Comparison of entries.
ghost use Rattle.std.specs.Prelude.{◌≡◌, map};
ghost use Rattle.std.specs.Cmp.Lexicographic.{pointwise};
ghost use Rattle.pmg_commit.specs.Entries.{is_same_entry};
ghost use Rattle.pmg_commit.specs.Pieces.{entry_of};

use crate::piece::PieceEntry;

/// Returns whether the entries are equal.
fn is_same_entry(entry: &PieceEntry, other: &PieceEntry) -> bool
    ensures { result ≡ is_same_entry (entry_of entry.now) (entry_of other.now) }
{
    entry.key == other.key && entry.number == other.number && entry.value.cmp(&other.value).is_eq()
}

/// Returns whether the entries are equal, each with each.
pub fn are_same_entries(entries: &[PieceEntry], others: &[PieceEntry]) -> bool
    ensures { result ≡ pointwise is_same_entry (map entry_of entries.now) (map entry_of others.now) }
{
    if entries.len() != others.len() {
        return false;
    }
    for i in 0..entries.len() {
        if !is_same_entry(&entries[i], &others[i]) {
            return false;
        }
    }
    true
}
