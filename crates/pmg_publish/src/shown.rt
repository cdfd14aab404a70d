ghost use Rattle.std.specs.Prelude.{◌≡◌, []};
ghost use Rattle.pmg_publish.specs.Boards.{IsMade};

use crate::history::History;
use crate::parts::Parts;
use left_right::Absorb;
use pmg_store::Board;
use std::alloc::{AllocError, Global};

/// The value that viewers read: a board, and the list of publications that made it.
pub struct Shown {
    pub board: Board,
    pub history: History,
}

impl Drop for Shown {
    fn drop(self) {
        let Self { board, history } = self;
    }
}

/// The next publication: the parts, and the list that ends with them.
pub struct Update {
    pub parts: Parts,
    pub history: History,
}

impl Drop for Update {
    fn drop(self) {
        let Self { parts, history } = self;
    }
}

impl Shown {
    /// Makes the board of a list without publications.
    #[tactic(auto, unfolding(crate::specs::Publications::near_of, crate::specs::Publications::far_of))]
    pub fn new(alloc: Global, history: &History) -> Shown
        requires { history.now.log ≡ [] }
        ensures made { IsMade result }
        ensures history { result.history ≡ history.now }
    {
        Shown {
            board: Board::new(alloc),
            history: history.again(),
        }
    }
}

impl Absorb<Update> for Shown {
    ghost use Rattle.pmg_publish.specs.Boards.{applied};

    type State = Shown;

    ghost state = { λ s. s };

    ghost applied = { applied };

    fn absorb_first(&mut self, operation: &Update, _other: &Shown) -> Result<(), AllocError> {
        self.board
            .absorb_all(&operation.parts.near, &operation.parts.far)?;
        self.history = operation.history.again();
        Ok(())
    }
}
