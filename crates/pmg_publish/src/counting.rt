//! The list of publications, which a word counts. The list exists only in proofs.
use crate::parts::Parts;
use logbook::{Gain, Plain, Play, Rule, Word};
use pmg_commit::Piece;
use std::collections::LinkedList;

/// The pieces that one publication joins into the near and into the far store. No value of this type is made.
pub struct Publication {
    pub near: LinkedList<Piece>,
    pub far: LinkedList<Piece>,
}

/// The word is the length of the list.
pub struct Count;

impl Rule<Publication, u64> for Count {
    ghost use Rattle.std.specs.Prelude.{[]};
    ghost use base.Fml.{ftrue};
    ghost use Rattle.pmg_publish.specs.Counting.{IsCount};

    ghost holds = { λ cells log. IsCount cells log };

    ghost first = { [] };

    ghost hinted = { λ n log. Unit {0} };

    ghost shows = { λ log. [] };

    ghost keeps = { λ names log. ftrue };

    ghost moves = { λ ask before after answer. Unit {0} };
}

/// The word that counts a list of publications.
pub type Counter = Word<Publication, u64, Count>;

/// The gain of a step on the word, which is nothing.
pub struct Nothing;

impl Gain<Publication, u64> for Nothing {
    ghost use base.Fml.{ftrue};

    ghost after = { λ names about answer. ftrue };
}

/// The step that adds a publication.
pub struct Add;

impl Play<Publication, u64> for Add {
    ghost use Rattle.pmg_publish.specs.Counting.{AddsStep};

    ghost then = { AddsStep };
}

impl Plain<Parts, Publication, u64> for Add {
    ghost use Rattle.std.specs.Prelude.{None};
    ghost use Rattle.pmg_publish.specs.Publications.{publication};

    ghost ask = { λ p. publication p.near.items p.far.items };

    ghost state = { λ _. None };
}
