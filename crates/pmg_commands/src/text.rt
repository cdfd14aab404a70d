//! Hexadecimal text.
ghost use Rattle.std.specs.Prelude.{◌≡◌, ◌*◌, ◌%◌, drop, length, take, IfOk, IfErr, IfSome, IsErr, IsTrue, OnOk, Ok, MatchOption};
ghost use Rattle.std.specs.List.{position};
ghost use Rattle.pmg_wire.specs.Reading.{FailsReading};
ghost use Rattle.hex.specs.Hex.{decode_of};
ghost use Rattle.pmg_commands.specs.Text.{is_white, is_stray, digits_of, decoded};

use bstr::ByteSlice;
use hex::FromHexError;
use pmg_value::{Cause, Fault, Refusal};
use std::alloc::{AllocError, Global};

/// Decodes the bytes that hexadecimal text spells, two digits each, in either case. Blanks, tabs, CR and LF are ignored everywhere.
///
/// Errors: `BadFrame` with the cause Hex, at the end of the text if an odd number of its bytes is not ignored, else at the first such byte
/// that is not a digit; `NoMemory` if an allocation fails, which ends the call.
pub fn decode_text(alloc: Global, text: &[u8]) -> Result<Vec<u8>, Refusal>
    ensures bytes { IfOk result (λ bytes. decoded text.now ≡ Ok bytes.items) }
    ensures fault { IfErr result (λ refusal. FailsReading refusal (decoded text.now)) }
{
    match decode_lines(alloc, text)? {
        Some(bytes) => Ok(bytes),
        None => decode_digits(alloc, text),
    }
}

/// Returns the answer of `decode_text`, from the digits of the whole text.
fn decode_digits(alloc: Global, text: &[u8]) -> Result<Vec<u8>, Refusal>
    ensures bytes { IfOk result (λ bytes. decoded text.now ≡ Ok bytes.items) }
    ensures fault { IfErr result (λ refusal. FailsReading refusal (decoded text.now)) }
{
    let digits = digits(alloc, text)?;
    if digits.len() % 2 == 1 {
        return Err(hex_fault(text.len()));
    }
    match bytes_of(alloc, &digits)? {
        Some(bytes) => Ok(bytes),
        None => match first_stray(text) {
            Some(offset) => Err(hex_fault(offset)),
            None => unreachable!(),
        },
    }
}

/// Decodes the bytes that digits spell, two each. Returns `None` if the digits spell no bytes.
fn bytes_of(alloc: Global, digits: &[u8]) -> Result<Option<Vec<u8>>, AllocError>
    ensures { IfOk result (λ found. MatchOption found (IsErr (decode_of digits.now))
        (λ bytes. decode_of digits.now ≡ Ok bytes.items)) }
{
    match hex::decode(alloc, digits) {
        Ok(bytes) => Ok(Some(bytes)),
        Err(FromHexError::OutOfMemory) => Err(AllocError),
        Err(_) => Ok(None),
    }
}

/// Decodes the bytes of a text if each of its lines is an even number of digits. Returns `None` for another text.
fn decode_lines(alloc: Global, text: &[u8]) -> Result<Option<Vec<u8>>, AllocError>
    ensures { IfOk result (λ found. IfSome found (λ bytes. decoded text.now ≡ Ok bytes.items)) }
{
    let mut bytes = Vec::with_capacity(alloc, text.len() / 2)?;
    for line in text.lines() {
        if !push_line(&mut bytes, line)? {
            return Ok(None);
        }
    }
    bytes.shrink_to_fit();
    Ok(Some(bytes))
}

/// Appends the bytes that a line spells, and returns whether the line is an even number of digits. If it is not, the appended bytes have
/// no meaning.
fn push_line(bytes: &mut Vec<u8>, line: &[u8]) -> Result<bool, AllocError>
    ensures others { OnOk result (take (length bytes.old.items) bytes.new.items ≡ bytes.old.items) }
    ensures line { IfOk result (λ is_spelled. IsTrue is_spelled → decode_of line.now ≡ Ok (drop (length bytes.old.items) bytes.new.items)) }
    ensures even { IfOk result (λ is_spelled. IsTrue is_spelled → length line.now % 2 ≡ 0) }
{
    let start = bytes.len();
    bytes.resize(start + line.len() / 2, 0)?;
    Ok(line.len() % 2 == 0 && decode_line(line, &mut bytes[start..]))
}

/// Decodes digits, two for each of these bytes, and returns whether all of them are digits.
fn decode_line(digits: &[u8], bytes: &mut [u8]) -> bool
    requires { length digits.now ≡ 2 * length bytes.old }
    ensures { IsTrue result → decode_of digits.now ≡ Ok bytes.new }
{
    hex::decode_to_slice(digits, bytes).is_ok()
}

fn hex_fault(offset: usize) -> Refusal
    ensures { result ≡ Refusal.BadFrame (record { offset = offset; cause = Cause.Hex }) }
{
    Refusal::BadFrame(Fault {
        offset: offset as u64,
        cause: Cause::Hex,
    })
}

fn digits(alloc: Global, text: &[u8]) -> Result<Vec<u8>, AllocError>
    ensures { IfOk result (λ digits. digits.items ≡ digits_of text.now) }
{
    let mut digits = Vec::with_capacity(alloc, text.len())?;
    for byte in text {
        if !is_blank(*byte) {
            digits.push(*byte)?;
        }
    }
    Ok(digits)
}

fn first_stray(text: &[u8]) -> Option<usize>
    ensures { result ≡ position is_stray text.now }
{
    text.iter().position(|byte| is_stray(*byte))
}

fn is_blank(byte: u8) -> bool
    ensures { result ≡ is_white byte }
{
    matches!(byte, b' ' | b'\t' | b'\r' | b'\n')
}

fn is_stray(byte: u8) -> bool
    ensures { result ≡ is_stray byte }
{
    !is_blank(byte) && !byte.is_ascii_hexdigit()
}
