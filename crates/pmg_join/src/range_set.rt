ghost use Rattle.std.specs.Prelude.{◌≡◌, ◌<◌, ◌≤◌, ◌||◌, ℕ, suc, true, false, OnOk, OnErr};
ghost use Rattle.std.specs.FinSet as set;
ghost use Rattle.pmg_join.specs.Ranges.{is_between};

use crate::join::Join;
use crate::ranges::Ranges;
use std::alloc::{AllocError, AllocFailed, Global};
use std::marker::Model;

/// A set of numbers, kept as ranges with a number missing between each and the next.
#[derive(Drop)]
pub struct RangeSet {
    ranges: Ranges,
}

impl Model for RangeSet {
    ghost use Rattle.std.specs.Ordering.{nat_cmp};
    ghost use Rattle.std.specs.Coded.{coded_ℕ};
    ghost use Rattle.std.specs.FinSet as set;
    ghost use Rattle.pmg_join.specs.Ranges.{set_of, AreApart};

    ghost Value = { set.FinSet nat_cmp };

    ghost coded = { set.code coded_ℕ };

    ghost view = { λ a. set_of a.ranges.ends };

    ghost invariant = { λ a. AreApart a.ranges.ends };
}

impl RangeSet {
    /// Makes a set without numbers. It keeps the allocator.
    pub fn new(alloc: Global) -> RangeSet
        ensures { result ≡ set.empty }
    {
        RangeSet {
            ranges: Ranges::new(alloc),
        }
    }

    /// Adds the numbers above `from`, up to `to`: none if `to` is not above `from`. It takes time in proportion to the number of ranges
    /// that become one with it, and to the logarithm of the number of ranges. If an allocation fails, the set stays as it is.
    pub fn insert(&mut self, from: u64, to: u64) -> Result<(), AllocError>
        ensures ok { OnOk result ((n : ℕ) → set.contains self.new n ≡ (set.contains self.old n || is_between from to n)) }
        ensures err { OnErr result (self.new ≡ self.old) }
    {
        if from < to {
            self.ranges.make_room(from)?;
            self.ranges.fill_room(from, to);
        }
        Ok(())
    }

    /// Returns whether the number is in the set, in time in proportion to the logarithm of the number of ranges.
    pub fn contains(&self, n: u64) -> bool
        ensures { result ≡ set.contains self.now n }
    {
        self.ranges.contains(n)
    }

    /// Returns the greatest n such that 1 to n are all in the set, 0 if 1 is not.
    pub fn level(&self) -> u64
        ensures reached { (n : ℕ) → 0 < n → n ≤ result → set.contains self.now n ≡ true }
        ensures no_more { set.contains self.now (suc result) ≡ false }
    {
        self.ranges.level()
    }
}

impl Join for RangeSet {
    ghost use Rattle.std.specs.Ordering.{nat_cmp};
    ghost use Rattle.std.specs.FinMap.{nat_cmp-IsAntisymmetric};
    ghost use Rattle.std.proofs.lemmas.Cmp.{nat_cmp_total};
    ghost use Rattle.pmg_join.specs.Sets.{SetWithin, sets_joined, sets_ordered};

    ghost Meaning = { set.FinSet nat_cmp };

    ghost meaning = { λ s. s };

    ghost joined = { set.union };

    ghost Within = { SetWithin };

    ghost laws = { sets_joined nat_cmp_total nat_cmp-IsAntisymmetric };

    ghost order = { sets_ordered nat_cmp_total nat_cmp-IsAntisymmetric };

    fn copy(&self) -> Result<RangeSet, AllocError> {
        Ok(RangeSet {
            ranges: self.ranges.copy()?,
        })
    }

    fn join(&mut self, other: RangeSet) -> Result<(), AllocFailed<RangeSet>> {
        if let Err(_) = self.ranges.make_rooms(&other.ranges) {
            return Err(AllocFailed { value: other });
        }
        self.ranges.fill_rooms(&other.ranges);
        Ok(())
    }
}
