//! The stores of a node after a join of pieces.
ghost use Rattle.std.specs.Prelude.{◌≡◌, ◌==◌, ◌≤◌, ℕ, true, is_none, is_some};
ghost use Rattle.std.specs.Option.{option_map};
ghost use Rattle.pmg_value.specs.Spelling.{spelling};
ghost use Rattle.pmg_scope.specs.Scripts.{term_key};
ghost use Rattle.pmg_commit.specs.Data.{level_at, read_at};
ghost use Rattle.pmg_jobinfo.specs.Jobs.{Jobs, home_of};
ghost use Rattle.pmg_get.specs.Gets.{Seen, resolve};
ghost use Rattle.pmg_get.specs.Views.{outcome_of};
ghost use Rattle.pmg_node_parts.specs.BoardPreview.{near_ahead, far_ahead};
ghost use Rattle.pmg_node_parts.specs.Calls.{get_of};
ghost use Rattle.pmg_node_model.specs.Holdings.{joined, plain_seen};
ghost use Rattle.pmg_commit.specs.declared.piece.TheConstants.{MAX_COMMIT};

use pmg_commit::Piece;
use pmg_get::{Answer, Mode, View, resolve};
use pmg_store::{Board, Store};
use pmg_value::{Key, Proc, Value};

/// A node's stores, and the pieces that are about to be joined: for reads from the node itself, and from other nodes.
#[derive(Clone, Copy)]
pub struct BoardPreview<'a> {
    pub board: &'a Board,
    pub near: Option<&'a Piece>,
    pub far: Option<&'a Piece>,
}

/// Returns the value of the process under the key after the join of the piece, if there is one.
fn read<'a>(store: &'a Store, piece: Option<&'a Piece>, proc: &Proc, key: &Key) -> Option<&'a Value>
    ensures { option_map (λ v. spelling v.now) result ≡ read_at (joined store.now (option_map (λ c. c.now) piece.entry)) proc.now key.now }
{
    match piece {
        Some(piece) => store.read_with(piece, proc, key),
        None => store.read(proc, key),
    }
}

/// Returns whether the process has ended after the join of the piece, if there is one; looks at the store only without a value.
fn has_ended(value: Option<&Value>, store: &Store, piece: Option<&Piece>, proc: &Proc) -> bool
    ensures { is_none value.entry ≡ true → result ≡ is_some (read_at (joined store.now (option_map (λ c. c.now) piece.entry)) proc.now term_key) }
{
    match (value, piece) {
        (Some(_), _) => false,
        (None, Some(piece)) => store.has_ended_with(piece, proc),
        (None, None) => store.has_ended(proc),
    }
}

/// Returns the process's level after the join of the piece, if there is one.
fn level(store: &Store, piece: Option<&Piece>, proc: &Proc) -> u64
    ensures value { result ≡ level_at (joined store.now (option_map (λ c. c.now) piece.entry)) proc.now }
    ensures bound { result ≤ MAX_COMMIT }
{
    match piece {
        Some(piece) => store.level_with(piece, proc),
        None => store.level(proc),
    }
}

impl<'a> BoardPreview<'a> {
    /// Returns the process's level for reads from other nodes.
    pub fn far_level(&self, proc: &Proc) -> u64
        ensures value { result ≡ level_at (far_ahead self.now) proc.now }
        ensures bound { result ≤ MAX_COMMIT }
    {
        level(self.board.far(), self.far, proc)
    }

    /// Returns the answer to a get of a key of a process of this node.
    fn answer_near(&self, target: &Proc, key: &Key, mode: Mode) -> Answer<'a>
        ensures { outcome_of result ≡ resolve (Seen.local (read_at (near_ahead self.now) target.now key.now) (read_at (far_ahead self.now) target.now key.now)
            (is_some (read_at (near_ahead self.now) target.now term_key))) mode }
    {
        let board = self.board;
        let near = read(board.near(), self.near, target, key);
        let far = read(board.far(), self.far, target, key);
        let term = has_ended(near, board.near(), self.near, target);
        resolve(View::Near { near, far, term }, mode)
    }

    /// Returns the answer to a get of a key of a process of another node.
    fn answer_far(&self, target: &Proc, key: &Key, mode: Mode) -> Answer<'a>
        ensures { outcome_of result ≡ resolve (Seen.remote (read_at (far_ahead self.now) target.now key.now)
            (is_some (read_at (far_ahead self.now) target.now term_key))) mode }
    {
        let store = self.board.far();
        let far = read(store, self.far, target, key);
        let term = has_ended(far, store, self.far, target);
        resolve(View::Far { far, term }, mode)
    }

    /// Returns the answer to a get of a key that is not reserved, at a node that is the target's home or is not.
    pub fn answer(&self, is_home: bool, target: &Proc, key: &Key, mode: Mode) -> Answer<'a>
        ensures { (jobs : Jobs) (id : ℕ) → is_home ≡ (home_of jobs target.now == id)
            → outcome_of result ≡ resolve (plain_seen jobs id (read_at (near_ahead self.now) target.now) (read_at (far_ahead self.now) target.now)
            (get_of target.now key.now)) mode }
    {
        if is_home {
            self.answer_near(target, key, mode)
        } else {
            self.answer_far(target, key, mode)
        }
    }
}
