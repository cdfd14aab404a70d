use crate::join::{Join, joined_copies};
use std::alloc::{AllocError, AllocFailed};

/// Two values that are joined side by side.
#[derive(Drop)]
pub struct PairJoin<A, B> {
    pub first: A,
    pub second: B,
}

impl<A: Join, B: Join> Join for PairJoin<A, B> {
    ghost use Rattle.pmg_join.specs.Pairs.{join_pairs, BothWithin, pairs_joined, pairs_ordered};

    ghost Meaning = { A.Meaning × B.Meaning };

    ghost meaning = { λ p. (A.meaning p.first, B.meaning p.second) };

    ghost joined = { join_pairs A.joined B.joined };

    ghost Within = { BothWithin A.Within B.Within };

    ghost laws = { pairs_joined A.laws B.laws };

    ghost order = { pairs_ordered A.order B.order };

    fn copy(&self) -> Result<PairJoin<A, B>, AllocError> {
        Ok(PairJoin {
            first: self.first.copy()?,
            second: self.second.copy()?,
        })
    }

    fn join(&mut self, other: PairJoin<A, B>) -> Result<(), AllocFailed<PairJoin<A, B>>> {
        let Ok(first) = joined_copies(&self.first, &other.first) else {
            return Err(AllocFailed { value: other });
        };
        let PairJoin {
            first: other_first,
            second: other_second,
        } = other;
        if let Err(refused) = self.second.join(other_second) {
            let value = PairJoin {
                first: other_first,
                second: refused.value,
            };
            return Err(AllocFailed { value });
        }
        self.first = first;
        Ok(())
    }
}
