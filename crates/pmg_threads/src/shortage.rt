//! Whether an allocation failed while the frames of a job were carried.

use pmg_value::Refusal;
use std::sync::{Mutex, Wait};

/// Whether an allocation failed in one of the threads of a job's links.
pub struct Shortage {
    is_noted: Mutex<bool>,
}

impl Drop for Shortage {
    fn drop(self) {
        let Self { is_noted } = self;
    }
}

impl Shortage {
    /// Makes the note of a run without a failed allocation so far.
    pub fn new() -> Shortage {
        Shortage {
            is_noted: Mutex::new(false),
        }
    }

    /// Notes that an allocation failed.
    pub fn note<R: Wait>(&self, rt: &R) {
        *self.is_noted.lock(rt) = true;
    }

    /// Notes that an allocation failed, if the call was refused for that reason.
    pub fn note_refusal<R: Wait>(&self, rt: &R, refusal: Refusal) {
        if refusal == Refusal::NoMemory {
            self.note(rt);
        }
    }

    /// Returns whether an allocation failed.
    pub fn is_noted<R: Wait>(&self, rt: &R) -> bool {
        *self.is_noted.lock(rt)
    }
}
