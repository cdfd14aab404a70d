ghost use Rattle.std.specs.Prelude.{◌≡◌, IfOk, OnOk, OnErr};
ghost use Rattle.std.specs.FinMap as finite;
ghost use Rattle.pmg_commit.specs.Data.{absorbed, join_data};
ghost use Rattle.pmg_store.specs.Pieces.{data_of};

use crate::store::{Store, join_both};
use pmg_commit::Piece;
use std::alloc::{AllocError, Global};

/// The two stores of a server. The near store has the commits of the processes of its own node, as these processes read one another. The
/// far store has the commits of the processes of all nodes, as processes on other nodes read them.
pub struct Board {
    near: Store,
    far: Store,
}

impl Drop for Board {
    fn drop(self) {
        let Self { near, far } = self;
    }
}

impl Board {
    /// Makes an empty board. It keeps the allocator.
    pub fn new(alloc: Global) -> Board
        ensures near { result.near ≡ finite.empty }
        ensures far { result.far ≡ finite.empty }
    {
        Board {
            near: Store::new(alloc),
            far: Store::new(alloc),
        }
    }

    /// Returns the near store, with its levels and reads.
    pub fn near(&self) -> &Store
        ensures { result.now ≡ self.now.near }
    {
        &self.near
    }

    /// Returns the far store, with its levels and reads.
    pub fn far(&self) -> &Store
        ensures { result.now ≡ self.now.far }
    {
        &self.far
    }

    /// Takes the piece into the near store.
    pub fn absorb_near(&mut self, piece: &Piece) -> Result<(), AllocError>
        ensures near { OnOk result (self.new.near ≡ absorbed self.old.near piece.now) }
        ensures far { self.new.far ≡ self.old.far }
        ensures err { OnErr result (self.new.near ≡ self.old.near) }
    {
        self.near.absorb(piece)
    }

    /// Takes the piece into the far store.
    pub fn absorb_far(&mut self, piece: &Piece) -> Result<(), AllocError>
        ensures far { OnOk result (self.new.far ≡ absorbed self.old.far piece.now) }
        ensures near { self.new.near ≡ self.old.near }
        ensures err { OnErr result (self.new.far ≡ self.old.far) }
    {
        self.far.absorb(piece)
    }

    /// Takes the pieces into the near store and into the far store, all of them or none. It takes time in proportion to their entries and
    /// to the late entries that become readable, and to the logarithm of the stored data. A call with only one piece for the far store, as
    /// a frame of another node brings it, takes the piece directly.
    pub fn absorb_all(&mut self, near: &[Piece], far: &[Piece]) -> Result<(), AllocError>
        ensures near_ok { OnOk result (self.new.near ≡ join_data self.old.near (data_of near.now)) }
        ensures far_ok { OnOk result (self.new.far ≡ join_data self.old.far (data_of far.now)) }
        ensures near_err { OnErr result (self.new.near ≡ self.old.near) }
        ensures far_err { OnErr result (self.new.far ≡ self.old.far) }
    {
        if let ([], [piece]) = (near, far) {
            return self.absorb_far(piece);
        }
        let near_more = self.near.of_pieces(near)?;
        let far_more = self.far.of_pieces(far)?;
        join_both(&mut self.near, near_more, &mut self.far, far_more)
    }

    /// Returns a copy, equal to this board.
    pub fn copy(&self) -> Result<Board, AllocError>
        ensures near { IfOk result (λ b. b.near ≡ self.now.near) }
        ensures far { IfOk result (λ b. b.far ≡ self.now.far) }
    {
        Ok(Board {
            near: self.near.copy()?,
            far: self.far.copy()?,
        })
    }
}
