//! The effects of a piece of a process of another node.
ghost use Rattle.std.specs.Prelude.{◌≡◌, nat_lt, true, IfOk};
ghost use Rattle.pmg_commit.specs.Data.{absorbed, level_at};
ghost use Rattle.pmg_frame.specs.declared.frame.Frame.TheVariants as frames;
ghost use Rattle.pmg_node_model.specs.Acts.{Act, is_taken};
ghost use Rattle.pmg_node_parts.specs.Calls.{all_instead};
ghost use Rattle.pmg_node_model.specs.Choosing.{due_by};
ghost use Rattle.pmg_node.specs.Servers.{after};

use crate::server::Server;
use pmg_commit::Piece;
use pmg_node_model::ToSend;
use pmg_node_parts::{BoardPreview, Completion, answers_about, asks_again};
use pmg_value::Proc;
use std::alloc::AllocError;

impl Server {
    /// Returns whether the piece is of a process that is not at home at this node.
    #[tactic(auto, unfolding(pmg_node_model::specs::Acts::is_taken))]
    pub(crate) fn is_foreign(&self, piece: &Piece) -> bool
        ensures { result ≡ is_taken self.now.jobs self.now.id self.now.holding.table (frames.Piece piece.now) }
    {
        self.is_known(piece.proc()) && !self.table.registry().is_home(self.id, piece.proc())
    }

    /// Returns the answers of the calls that the piece settles.
    pub(crate) fn answers_to<'a>(
        &'a self,
        piece: &'a Piece,
    ) -> Result<Vec<(Proc, Completion)>, AllocError>
        requires { is_taken self.now.jobs self.now.id self.now.holding.table (frames.Piece piece.now) ≡ true }
        ensures { IfOk result (λ answers. all_instead self.now.holding.calls answers.items
            ≡ (after self.now (Act.deliver (frames.Piece piece.now))).holding.calls) }
    {
        let ahead = BoardPreview {
            board: &self.board,
            near: None,
            far: Some(piece),
        };
        answers_about(&self.table, self.id, &ahead, &self.calls, piece.proc())
    }

    /// Returns whether the piece raises the known level of its process.
    fn rises_by(&self, piece: &Piece) -> bool
        ensures { result ≡ nat_lt (level_at self.now.holding.far piece.now.proc)
            (level_at (absorbed self.now.holding.far piece.now) piece.now.proc) }
    {
        let far = self.board.far();
        far.level(piece.proc()) < far.level_with(piece, piece.proc())
    }

    /// Returns the frames that are due after the piece is taken. If it raises the known level of its process, these are requests to the
    /// process's home, for each get of its keys that still waits. Usually no get waits, and then the levels are not compared.
    pub(crate) fn asks_after<'a>(&'a self, piece: &'a Piece) -> Result<Vec<ToSend>, AllocError>
        requires { is_taken self.now.jobs self.now.id self.now.holding.table (frames.Piece piece.now) ≡ true }
        ensures { IfOk result (λ dues. dues.items ≡ due_by self.now.jobs self.now.id self.now.holding
            (Act.deliver (frames.Piece piece.now)) (after self.now (Act.deliver (frames.Piece piece.now))).holding) }
    {
        let proc = piece.proc();
        let ahead = BoardPreview {
            board: &self.board,
            near: None,
            far: Some(piece),
        };
        let dues = asks_again(&self.table, self.id, &ahead, &self.calls, proc)?;
        if dues.is_empty() {
            return Ok(dues);
        }
        if self.rises_by(piece) {
            return Ok(dues);
        }
        Ok(Vec::new(self.table.registry().allocator()))
    }
}
