//! Passes over the bodies of values, with the first fault, and without memory.
ghost use Rattle.std.specs.Prelude.{None};
ghost use Rattle.pmg_wire.specs.Many.{many};
ghost use Rattle.pmg_wire.specs.Reading.{Reads};
ghost use Rattle.pmg_wire.specs.Fields.{passed, read_plain, read_array, read_value_body};

use crate::cursor::Cursor;
use crate::fields::get_flag;
use crate::texts::{get_any_proc, get_blob, get_text};
use pmg_value::{Cause, Refusal};

/// The tag of arrays.
pub const ARRAY_TAG: u8 = 19;

// Passes over the body of a value with this tag, which is not an array's tag.
#[tactic(auto, using(crate::proofs::Passing::passed_made), unfolding(crate::specs::Fields::read_plain))]
fn skip_plain(tag: u8, at: &mut Cursor<'_>) -> Result<(), Refusal>
    ensures { Reads (λ u. u) result at.new (passed (read_plain tag at.old)) }
{
    match tag {
        1 => {
            get_flag(at)?;
        }
        3 => {
            get_text(at)?;
        }
        16 => {
            get_any_proc(at)?;
        }
        2 | 5 | 9 => {
            at.get_u8()?;
        }
        6 | 10 => {
            at.get_u16()?;
        }
        7 | 11 | 13 | 14 | 15 | 17 => {
            at.get_u32()?;
        }
        4 | 8 | 12 => {
            at.get_u64()?;
        }
        _ => {
            get_blob(at)?;
        }
    }
    Ok(())
}

// Passes over so many elements of that kind.
fn skip_elements(tag: u8, count: u32, at: &mut Cursor<'_>) -> Result<(), Refusal>
    ensures { Reads (λ u. u) result at.new (passed (many (λ _. read_plain tag) count None at.old)) }
{
    for _ in 0..count {
        skip_plain(tag, at)?;
    }
    Ok(())
}

// Passes over the body of an array.
#[tactic(auto, unfolding(crate::specs::Fields::read_array))]
fn skip_array(at: &mut Cursor<'_>) -> Result<(), Refusal>
    ensures { Reads (λ u. u) result at.new (passed (read_array at.old)) }
{
    let start = at.offset();
    let tag = at.get_u8()?;
    if tag == 0 || tag >= ARRAY_TAG {
        return Err(Refusal::bad_frame(start, Cause::Tag));
    }
    let count = at.get_u32()?;
    skip_elements(tag, count, at)
}

/// Passes over the body of a value with this tag.
#[tactic(auto, using(crate::proofs::Passing::passed_made), unfolding(crate::specs::Fields::read_value_body))]
pub fn skip_body(tag: u8, at: &mut Cursor<'_>) -> Result<(), Refusal>
    ensures { Reads (λ u. u) result at.new (passed (read_value_body tag at.old)) }
{
    if tag == ARRAY_TAG {
        skip_array(at)
    } else {
        skip_plain(tag, at)
    }
}
