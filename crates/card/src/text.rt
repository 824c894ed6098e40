// Numbers, names and fields, read from the bytes of a line.
ghost use Rattle.std.specs.Prelude.{◌≡◌, ℕ, ◌<◌, ◌≤◌, T, List, length, IfSome, IfOk, Some, vec_items, string_bytes};
ghost use Rattle.std.specs.Option.{option_map, option_copied};
ghost use Rattle.card.specs.Text.{pushed, number, before, after, fields, lines, First, ids_of, cents, weight, name_byte, name, written, Fit};

use std::alloc::{AllocError, Global};

// The largest weight, in hundredths.
const MAX_WEIGHT: u64 = 100000;

// The number so far with one more digit, if it is one and the number fits. `parse` is no help here: it takes a `+` too.
fn push_digit(value: u32, byte: u8) -> Option<u32>
    ensures { result ≡ pushed value byte }
{
    let digit = char::from(byte).to_digit(10)?;
    value.checked_mul(10)?.checked_add(digit)
}

// A decimal number of digits alone, at most 4294967295.
pub fn read_number(bytes: &[u8]) -> Option<u32>
    ensures { result ≡ number bytes.now }
{
    if bytes.is_empty() {
        return None;
    }
    bytes
        .iter()
        .try_fold(0, |value, byte| push_digit(value, *byte))
}

// The bytes before the first `byte`, and those after it, where there is one.
pub fn split_once<'a>(bytes: &'a [u8], byte: u8) -> (&'a [u8], Option<&'a [u8]>)
    ensures front { result.0.now ≡ before byte bytes.now }
    ensures back { option_copied result.1 ≡ after byte bytes.now }
    ensures shorter { IfSome result.1 (λ x. length x.now < length bytes.now) }
{
    match bytes.iter().position(|b| *b == byte) {
        Some(at) => (&bytes[..at], Some(&bytes[at + 1..])),
        None => (bytes, None),
    }
}

// The first field, and what stands behind it.
pub fn split_field<'a>(bytes: &'a [u8]) -> Option<(&'a [u8], &'a [u8])>
    ensures { First fields bytes.now result }
{
    let start = bytes.iter().position(|b| *b != b' ')?;
    let (field, rest) = split_once(&bytes[start..], b' ');
    Some((field, rest.unwrap_or(&[])))
}

// The first line without its line feed, and what stands behind that.
pub fn split_line<'a>(bytes: &'a [u8]) -> Option<(&'a [u8], &'a [u8])>
    ensures { First lines bytes.now result }
{
    if bytes.is_empty() {
        return None;
    }
    let (line, rest) = split_once(bytes, b'\n');
    Some((line, rest.unwrap_or(&[])))
}

fn numbers_of(heap: Global, bytes: &[u8]) -> Result<Option<Vec<u32>>, AllocError>
    ensures { IfOk result (λ o. option_map vec_items o ≡ ids_of bytes.now) }
{
    let mut ids = Vec::new(heap);
    let mut left = bytes;
    while let Some((field, rest)) = split_field(left) {
        let Some(id) = read_number(field) else {
            return Ok(None);
        };
        ids.push(id)?;
        left = rest;
    }
    Ok(Some(ids))
}

// The numbers of a line, or none if one of its fields is no number. What is written is read back. None is an answer and no
// error: only memory fails here, and the caller knows which fault it tells.
pub fn read_ids(heap: Global, bytes: &[u8]) -> Result<Option<Vec<u32>>, AllocError>
    ensures value { IfOk result (λ o. option_map vec_items o ≡ ids_of bytes.now) }
    ensures back { (ns : List ℕ) → Fit ns → bytes.now ≡ written ns → IfOk result (λ o. option_map vec_items o ≡ Some ns) }
{
    // that what is written is read back follows from what `numbers_of` promises
    numbers_of(heap, bytes)
}

// What one or two digits after the point are worth, in hundredths.
fn read_cents(digits: &[u8]) -> Option<u64>
    ensures value { result ≡ cents digits.now }
    ensures small { IfSome result (λ n. n ≤ 42949672950) }
{
    let n = read_number(digits)?;
    match digits.len() {
        1 => Some(n as u64 * 10),
        2 => Some(n as u64),
        _ => None,
    }
}

// A weight from 0 to 1000 with at most two decimals, in hundredths.
pub fn read_weight(bytes: &[u8]) -> Option<u32>
    ensures { result ≡ weight bytes.now }
{
    let (whole, digits) = split_once(bytes, b'.');
    let whole = read_number(whole)?;
    let cents = match digits {
        Some(digits) => read_cents(digits)?,
        None => 0,
    };
    let weight = whole as u64 * 100 + cents;
    if weight > MAX_WEIGHT {
        return None;
    }
    Some(weight as u32)
}

fn is_name_byte(byte: u8) -> bool
    ensures value { result ≡ name_byte byte }
    ensures ascii { T result → byte < 128 }
{
    byte.is_ascii_alphanumeric() || byte == b'-' || byte == b'_'
}

// A name of letters, digits, `-` and `_`, or none if no byte stands there or another one does. As in `read_ids`, None is no error.
pub fn read_name(heap: Global, bytes: &[u8]) -> Result<Option<String>, AllocError>
    ensures { IfOk result (λ o. option_map string_bytes o ≡ name bytes.now) }
{
    if bytes.is_empty() {
        return Ok(None);
    }
    let mut name = String::new(heap);
    for byte in bytes {
        if !is_name_byte(*byte) {
            return Ok(None);
        }
        name.push(char::from(*byte))?;
    }
    Ok(Some(name))
}
