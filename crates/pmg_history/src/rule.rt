//! The rule of a list and of the word that counts it.
use logbook::{Gain, Plain, Play, Rule, Word};

/// The rule of the word: it is the length of the list.
pub struct Length;

impl<E> Rule<E, u64> for Length {
    ghost use Rattle.std.specs.Prelude.{[]};
    ghost use base.Fml.{ftrue};
    ghost use Rattle.pmg_history.specs.Appending.{IsLength};

    ghost holds = { λ cells log. IsLength cells log };

    ghost first = { [] };

    ghost hinted = { λ n log. Unit {0} };

    ghost shows = { λ log. [] };

    ghost keeps = { λ names log. ftrue };

    ghost moves = { λ ask before after answer. Unit {0} };
}

/// The word that counts a list of entries.
pub type Counter<E> = Word<E, u64, Length>;

/// A step on the word trades nothing.
pub struct Nothing;

impl<E> Gain<E, u64> for Nothing {
    ghost use base.Fml.{ftrue};

    ghost after = { λ names about answer. ftrue };
}

/// The step that adds an entry.
pub struct Append;

impl<E> Play<E, u64> for Append {
    ghost use Rattle.pmg_history.specs.Appending.{AppendsStep};

    ghost then = { AppendsStep };
}

impl<E> Plain<E, E, u64> for Append {
    ghost use Rattle.std.specs.Prelude.{None};

    ghost ask = { λ e. e };

    ghost state = { λ _. None };
}
