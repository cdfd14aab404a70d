//! The lines of a script, and the words of a line.
ghost use Rattle.std.specs.Prelude.{◌≡◌, ◌<◌, ◌&&◌, ◌==◌, nat_le, length, slice_index, IfSome, is_none};
ghost use Rattle.std.specs.List.{position};
ghost use Rattle.std.specs.Option.{option_map};
ghost use Rattle.pmg_script.specs.declared.lines.LineFault.TheVariants as faults;
ghost use Rattle.pmg_script.specs.Lines.{content, has_byte, is_blank, parted, read_word, read_end, ReadsWords, ReadsAllWords};

use std::alloc::{AllocError, AllocFailed};
use std::marker::Model;
use thiserror::Error;

pub(crate) const LF: u8 = b'\n';

const CR: u8 = b'\r';

/// The reason why a line was not read.
#[derive(Clone, Copy, Debug, PartialEq, Eq, Error)]
pub enum LineFault {
    /// The line does not have the form of a script's line.
    #[error("malformed line")]
    Malformed,
    /// An allocation failed.
    #[error("no memory")]
    NoMemory,
}

impl From<AllocError> for LineFault {
    ghost from_gives = { λ _ e. e ≡ faults.NoMemory };

    fn from(_e: AllocError) -> LineFault {
        LineFault::NoMemory
    }
}

impl<T: Drop> From<AllocFailed<T>> for LineFault {
    ghost from_gives = { λ _ e. e ≡ faults.NoMemory };

    fn from(_e: AllocFailed<T>) -> LineFault {
        LineFault::NoMemory
    }
}

/// Returns the content of a line: all of it except the LF that ends it, and a CR before the LF.
#[tactic(auto, unfolding(crate::specs::Lines::content))]
pub fn content(line: &[u8]) -> &[u8]
    ensures { result.now ≡ content line.now }
{
    if !has_byte(line, 1, LF) {
        return line;
    }
    if has_byte(line, 2, CR) {
        return &line[..line.len() - 2];
    }
    &line[..line.len() - 1]
}

/// Returns whether the line has this byte so many bytes before its end.
fn has_byte(line: &[u8], back: usize, byte: u8) -> bool
    requires { 0 < back }
    ensures { result ≡ has_byte back byte line.now }
{
    back <= line.len() && line[line.len() - back] == byte
}

/// The rest of a line after some of its words; one blank separates two words.
#[derive(Drop)]
pub struct Words<'a> {
    left: Option<&'a [u8]>,
}

impl<'a> Model for Words<'a> {
    ghost use Rattle.std.specs.Option.{option_map};
    ghost use Rattle.pmg_script.specs.Lines.{Left};

    ghost Value = { Left };

    ghost view = { λ a. option_map (λ text. text.now) a.left };
}

impl<'a> Words<'a> {
    /// Returns the words of a text.
    pub fn of(text: &'a [u8]) -> Words<'a>
        ensures { result ≡ Some text.now }
    {
        Words { left: Some(text) }
    }

    /// Returns the next word. A missing or empty word is malformed.
    #[tactic(auto, unfolding(crate::specs::Lines::read_word))]
    pub fn word(&mut self) -> Result<&'a [u8], LineFault>
        ensures { ReadsWords (λ word. word.now) result self.new (read_word self.old) }
    {
        let Some(text) = self.left else {
            return Err(LineFault::Malformed);
        };
        let (word, left) = part(text);
        if word.is_empty() {
            return Err(LineFault::Malformed);
        }
        self.left = left;
        Ok(word)
    }

    /// Returns the text after the blank that ended the last word. It is malformed if no blank ended the word.
    pub fn rest(&self) -> Result<&'a [u8], LineFault>
        ensures { ReadsAllWords (λ rest. rest.now) result self.now }
    {
        match self.left {
            Some(rest) => Ok(rest),
            None => Err(LineFault::Malformed),
        }
    }

    /// Returns whether nothing is left.
    pub fn is_at_end(&self) -> bool
        ensures { result ≡ is_none self.now }
    {
        self.left.is_none()
    }

    /// Checks that nothing is left; a rest is malformed.
    pub fn end(&self) -> Result<(), LineFault>
        ensures { ReadsAllWords (λ u. u) result (read_end self.now) }
    {
        match self.left {
            Some(_) => Err(LineFault::Malformed),
            None => Ok(()),
        }
    }
}

/// Returns the position of the first blank.
fn first_blank(text: &[u8]) -> Option<usize>
    ensures value { result ≡ position is_blank text.now }
    ensures bound { IfSome result (λ at. at < length text.now) }
{
    text.iter().position(|byte| *byte == b' ')
}

/// Returns the word before the first blank, and the text after the blank.
fn part(text: &[u8]) -> (&[u8], Option<&[u8]>)
    ensures word { result.0.now ≡ (parted text.now (position is_blank text.now)).0 }
    ensures left { option_map (λ left. left.now) result.1 ≡ (parted text.now (position is_blank text.now)).1 }
{
    match first_blank(text) {
        None => (text, None),
        Some(at) => (&text[..at], Some(&text[at + 1..])),
    }
}
