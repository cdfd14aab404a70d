//! A value that threads may share, and that nobody can read through a shared reference.
ghost use Rattle.std.specs.Prelude.{◌≡◌};

use counted_slot::Fits;
use std::marker::Model;

/// A value that is only ever moved: a reference to it gives no access to the inside. Therefore threads may share it even if the value may
/// only be sent.
pub struct Exclusive<T> {
    value: T,
}

impl<T> Model for Exclusive<T> {
    ghost use base.Fml.{ftrue};

    ghost also_owns = { λ _. ftrue };
}

impl<T> Exclusive<T> {
    /// Wraps the value.
    pub fn new(value: T) -> Exclusive<T>
        ensures { result ≡ record { value = value } }
    {
        Exclusive { value }
    }

    /// Returns the value.
    pub fn into_inner(self) -> T
        ensures { result ≡ self.value }
    {
        let Exclusive { value } = self;
        value
    }
}

/// A fact about the wrapper is a fact about its value only.
impl<T: Fits> Fits for Exclusive<T> {
    type Tag = T::Tag;

    ghost fits = { λ tag alone. T.fits tag alone.value };
}

unsafe impl<T: Send> Send for Exclusive<T> {}

unsafe impl<T: Send> Sync for Exclusive<T> {}
