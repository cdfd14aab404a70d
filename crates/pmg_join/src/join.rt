ghost use Rattle.std.specs.Prelude.{◌≡◌, OnOk, OnErr, IfOk, IfErr};
ghost use Rattle.pmg_join.specs.Joins.{JoinLaws, JoinOrder};

use std::alloc::{AllocError, AllocFailed, Global};

/// Values that can be joined. Contracts speak of a value's meaning. `Within` is an order of meanings, in which the join of two is their
/// least upper bound.
pub trait Join: Drop {
    ghost Meaning: { Type 0 };

    ghost meaning: { Self → Meaning };

    ghost joined: { Meaning → Meaning → Meaning };

    ghost Within: { Meaning → Meaning → Type 0 };

    /// Returns a copy, equal to this one.
    fn copy(&self) -> Result<Self, AllocError>
        ensures { IfOk result (λ copy. meaning copy ≡ meaning self.now) };

    /// Joins the other value into this one. If an allocation fails, this one keeps its meaning, and the other value is handed back with its
    /// own.
    fn join(&mut self, other: Self) -> Result<(), AllocFailed<Self>>
        ensures ok { OnOk result (meaning self.new ≡ joined (meaning self.old) (meaning other)) }
        ensures err { OnErr result (meaning self.new ≡ meaning self.old) }
        ensures handed_back { IfErr result (λ e. meaning e.value ≡ meaning other) };

    ghost laws: { JoinLaws joined };

    ghost order: { JoinOrder joined Within };
}

/// Values that are joined in two phases: `make_room` takes all memory and changes no meaning, and `take` joins without memory. `join` is
/// the two in a row. Several joins are made together or not at all if room is made for each before any of them takes.
pub trait TwoPhaseJoin: Join {
    /// There is room in the first to take the second.
    ghost HasRoom: { Self → Self → Type 0 };

    /// Makes all room to take the other value. The meaning stays, even if an allocation fails.
    fn make_room(&mut self, other: &Self) -> Result<(), AllocError>
        ensures same { Self.meaning self.new ≡ Self.meaning self.old }
        ensures room { OnOk result (HasRoom self.new other.now) };

    /// Joins the other value into this one, which has room for it.
    fn take(&mut self, other: Self)
        requires { HasRoom self.old other }
        ensures { Self.meaning self.new ≡ Self.joined (Self.meaning self.old) (Self.meaning other) };
}

/// Values that can take changes of a kind; a change means what it adds.
pub trait Absorb<C>: Drop {
    ghost Meaning: { Type 0 };

    ghost meaning: { Self → Meaning };

    ghost joined: { Meaning → Meaning → Meaning };

    ghost told: { C → Meaning };

    /// Returns a value that has taken only this change.
    fn of_change(alloc: Global, change: C) -> Result<Self, AllocError>
        ensures { IfOk result (λ one. meaning one ≡ told change) };

    /// Takes the change. If an allocation fails, the meaning stays.
    fn take_change(&mut self, change: C) -> Result<(), AllocError>
        ensures ok { OnOk result (meaning self.new ≡ joined (meaning self.old) (told change)) }
        ensures err { OnErr result (meaning self.new ≡ meaning self.old) };
}

/// States that a join is associative, commutative and idempotent, and in its order the least upper bound.
pub fn join_rules<J: Join>()
    ensures laws { JoinLaws J.joined }
    ensures order { JoinOrder J.joined J.Within }
{}

/// Returns the join of the two values, which stay as they are.
pub fn joined_copies<J: Join>(a: &J, b: &J) -> Result<J, AllocError>
    ensures { IfOk result (λ both. J.meaning both ≡ J.joined (J.meaning a.now) (J.meaning b.now)) }
{
    let mut both = a.copy()?;
    if let Err(_) = both.join(b.copy()?) {
        return Err(AllocError);
    }
    Ok(both)
}
