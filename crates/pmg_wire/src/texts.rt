//! Reads the strings, byte objects and processes of values, as slices of the bytes.
ghost use Rattle.std.specs.Prelude.{IfOk, IsTrue};
ghost use Rattle.pmg_value.specs.Names.{is_nspace};
ghost use Rattle.pmg_wire.specs.Reading.{Reads};
ghost use Rattle.pmg_wire.specs.Fields.{read_text, read_blob, read_any_proc};

use crate::cursor::Cursor;
use pmg_value::{Cause, Refusal, first_zero, is_nspace_name};

/// Reads a string's bytes.
#[tactic(auto, unfolding(crate::specs::Fields::read_text))]
pub fn get_text<'a>(at: &mut Cursor<'a>) -> Result<&'a [u8], Refusal>
    ensures { Reads (λ s. s.now) result at.new (read_text at.old) }
{
    let len = at.get_u32()? as usize;
    let start = at.offset();
    let text = at.take(len)?;
    if let Some(i) = first_zero(text) {
        return Err(Refusal::bad_frame(start + i as u64, Cause::Text));
    }
    Ok(text)
}

/// Reads a byte object's bytes.
#[tactic(auto, unfolding(crate::specs::Fields::read_blob))]
pub fn get_blob<'a>(at: &mut Cursor<'a>) -> Result<&'a [u8], Refusal>
    ensures { Reads (λ s. s.now) result at.new (read_blob at.old) }
{
    let len = at.get_u32()? as usize;
    at.take(len)
}

/// Reads the namespace and the rank of any process, even one that no group registers.
#[tactic(auto, unfolding(crate::specs::Fields::read_any_proc))]
pub fn get_any_proc<'a>(at: &mut Cursor<'a>) -> Result<(&'a [u8], u32), Refusal>
    ensures read { Reads (λ p. record { nspace = p.0.now; rank = p.1 }) result at.new (read_any_proc at.old) }
    ensures name { IfOk result (λ p. IsTrue (is_nspace p.0.now)) }
{
    let start = at.offset();
    let len = at.get_u8()? as usize;
    if len == 0 {
        return Err(Refusal::bad_frame(start, Cause::Name));
    }
    let name = at.take(len)?;
    if !is_nspace_name(name) {
        return Err(Refusal::bad_frame(start, Cause::Name));
    }
    let rank = at.get_u32()?;
    Ok((name, rank))
}
