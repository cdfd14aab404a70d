use pmg_commit::Piece;

/// The pieces of one publication.
#[derive(Drop)]
pub struct Parts {
    pub near: Vec<Piece>,
    pub far: Vec<Piece>,
}
