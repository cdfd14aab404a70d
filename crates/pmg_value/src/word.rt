//! Short texts that are compared often.
ghost use Rattle.std.specs.Prelude.{◌≡◌, ◌≤◌, IsTrue, IfOk, Some, length, refl};
ghost use Rattle.std.specs.List.{list_all};
ghost use Rattle.std.specs.Ordering.{nat_cmp};
ghost use Rattle.std.specs.Cmp.Lexicographic.{pointwise, slice_cmp, nat_list_eq_equiv, nat_list_cmp_total, texts_ties, texts_po};
ghost use Rattle.std.specs.Cmp.{partial_equiv_from_equiv};
ghost use Rattle.std.specs.Prelude.{nat_eq};
ghost use Rattle.pmg_value.specs.Names.{is_printable};
ghost use Rattle.pmg_value.specs.Words.{first_eight, second_eight};
ghost use Rattle.pmg_value.specs.declared.small_bytes.TheConstants.{MAX_IN_PLACE};

use crate::small_bytes::{MAX_IN_PLACE, SmallBytes, front_of, second_of};
use std::alloc::{AllocError, Global};
use std::cmp::Ordering;
use std::marker::Model;

/// The number of values of a byte. A multiple of it ends in a zero, which no word has.
const BYTE: u64 = 256;

/// A text of printable ASCII. Its first bytes are kept beside it as two numbers, which tell most words apart without a look at the bytes.
/// Its order is the order of its bytes. A word of at most 22 bytes takes no memory, and copies of a longer word share its bytes.
pub(crate) struct Word {
    first: u64,
    second: u64,
    text: SmallBytes,
}

impl Drop for Word {
    fn drop(self) {
        let Self {
            first,
            second,
            text,
        } = self;
    }
}

impl Model for Word {
    ghost use Rattle.std.specs.Prelude.{◌≡◌, ℕ, List, IsTrue};
    ghost use Rattle.std.specs.List.{list_all};

    ghost Value = { List ℕ };

    ghost use Rattle.pmg_value.specs.Names.{is_printable};
    ghost use Rattle.pmg_value.specs.Words.{first_eight, second_eight};

    ghost view = { λ a. a.text };

    ghost invariant = { λ a. (a.first ≡ first_eight a.text) × (a.second ≡ second_eight a.text) × IsTrue (list_all is_printable a.text) };

    ghost inverse = { λ v. record { first = first_eight v; second = second_eight v; text = v } };
}

impl Word {
    /// Returns the word of these bytes.
    #[inline(always)]
    pub fn of(alloc: Global, bytes: &[u8]) -> Result<Word, AllocError>
        requires { IsTrue (list_all is_printable bytes.now) }
        ensures { IfOk result (λ w. w ≡ bytes.now) }
    {
        let text = SmallBytes::of(alloc, bytes)?;
        Ok(Word {
            first: text.first_eight(),
            second: text.second_eight(),
            text,
        })
    }

    /// Returns the word of these bytes, which are few.
    #[inline(always)]
    pub fn short(bytes: &[u8]) -> Word
        requires printable { IsTrue (list_all is_printable bytes.now) }
        requires few { length bytes.now ≤ MAX_IN_PLACE }
        ensures { result ≡ bytes.now }
    {
        Word {
            first: front_of(bytes),
            second: second_of(bytes),
            text: SmallBytes::few(bytes),
        }
    }

    /// Returns the bytes.
    pub fn as_bytes(&self) -> &[u8]
        ensures { result.now ≡ self.now }
    {
        self.text.as_bytes()
    }

    /// Returns another handle of the same bytes.
    pub fn copy(&self) -> Result<Word, AllocError>
        ensures { IfOk result (λ w. w ≡ self.now) }
    {
        Ok(Word {
            first: self.first,
            second: self.second,
            text: self.text.copy()?,
        })
    }

    /// Compares the words by their bytes.
    fn compare(&self, other: &Word) -> Ordering
        ensures { result ≡ slice_cmp nat_cmp self.now other.now }
    {
        if self.first != other.first {
            return self.first.cmp(&other.first);
        }
        if self.second != other.second {
            return self.second.cmp(&other.second);
        }
        if self.second % BYTE == 0 {
            return Ordering::Equal;
        }
        self.compare_bytes(other)
    }

    /// Compares the words by all their bytes, as few words need it. It is not inlined, so that the common comparison needs no stack frame.
    #[inline(never)]
    fn compare_bytes(&self, other: &Word) -> Ordering
        ensures { result ≡ slice_cmp nat_cmp self.now other.now }
    {
        self.as_bytes().cmp(other.as_bytes())
    }
}

impl PartialEq for Word {
    ghost eq = { pointwise nat_eq };

    ghost laws = { partial_equiv_from_equiv nat_list_eq_equiv };

    fn eq(&self, other: &Word) -> bool {
        self.compare(other).is_eq()
    }
}

impl Eq for Word {
    ghost laws = { nat_list_eq_equiv };
}

impl PartialOrd for Word {
    ghost partial_cmp = { λ x y. Some (slice_cmp nat_cmp x y) };

    ghost laws = { texts_po };

    fn partial_cmp(&self, other: &Word) -> Option<Ordering> {
        Some(self.compare(other))
    }
}

impl Ord for Word {
    ghost cmp = { slice_cmp nat_cmp };

    ghost total = { nat_list_cmp_total };

    ghost matches_partial_cmp = { λ x y. refl };

    ghost matches_eq = { texts_ties };

    fn cmp(&self, other: &Word) -> Ordering {
        self.compare(other)
    }
}
