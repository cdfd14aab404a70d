ghost use Rattle.std.specs.Prelude.{◌≡◌, max, IsOk, OnOk, OnErr, IfOk, IfErr};

use crate::join::{Join, TwoPhaseJoin};
use std::alloc::{AllocError, AllocFailed};

/// A number that only grows: a join is the greater number.
#[derive(Clone, Copy, PartialEq, Eq, PartialOrd, Ord)]
pub struct MaxU64 {
    value: u64,
}

impl MaxU64 {
    /// Returns the number of this value.
    pub fn new(value: u64) -> MaxU64
        ensures { result.value ≡ value }
    {
        MaxU64 { value }
    }

    /// Returns its value.
    pub fn value(self) -> u64
        ensures { result ≡ self.value }
    {
        self.value
    }
}

impl Join for MaxU64 {
    ghost use Rattle.std.specs.Prelude.{ℕ, max, ◌≤◌};
    ghost use Rattle.pmg_join.specs.Numbers.{numbers_joined, numbers_ordered};

    ghost Meaning = { ℕ };

    ghost meaning = { λ m. m.value };

    ghost joined = { max };

    ghost Within = { λ m n. m ≤ n };

    ghost laws = { numbers_joined };

    ghost order = { numbers_ordered };

    /// Takes no memory, and is never refused.
    fn copy(&self) -> Result<MaxU64, AllocError>
        ensures never_refused { IsOk result }
        ensures value { IfOk result (λ copy. copy.value ≡ self.now.value) }
    {
        Ok(*self)
    }

    /// Takes no memory, and is never refused.
    fn join(&mut self, other: MaxU64) -> Result<(), AllocFailed<MaxU64>>
        ensures never_refused { IsOk result }
        ensures ok { OnOk result (self.new.value ≡ max self.old.value other.value) }
        ensures err { OnErr result (self.new.value ≡ self.old.value) }
        ensures handed_back { IfErr result (λ e. e.value.value ≡ other.value) }
    {
        self.value = self.value.max(other.value);
        Ok(())
    }
}

impl TwoPhaseJoin for MaxU64 {
    ghost HasRoom = { λ m n. Unit {0} };

    fn make_room(&mut self, other: &MaxU64) -> Result<(), AllocError> {
        Ok(())
    }

    fn take(&mut self, other: MaxU64) {
        self.value = self.value.max(other.value);
    }
}
