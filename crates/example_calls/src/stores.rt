//! A caller of `Store`.
ghost use Rattle.std.specs.Prelude.{◌≡◌, IfOk, OnErr};
ghost use Rattle.pmg_commit.specs.Data.{absorbed, level_at};

use pmg_commit::Piece;
use pmg_store::Store;
use std::alloc::AllocError;

/// Takes a piece that arrived, in whatever order. Returns the level that its process has then.
pub fn learn(store: &mut Store, piece: &Piece) -> Result<u64, AllocError>
    ensures level { IfOk result (λ n. n ≡ level_at (absorbed store.old piece.now) piece.now.proc) }
    ensures err { OnErr result (store.new ≡ store.old) }
{
    store.absorb(piece)?;
    Ok(store.level(piece.proc()))
}
