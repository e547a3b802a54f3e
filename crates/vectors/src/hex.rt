//! Bytes in hexadecimal digits.

ghost use Rattle.std.specs.Prelude.{◌≤◌};

use std::alloc::{AllocError, Global};
use std::io::{self, Write};

fn value_of(digit: u8) -> u8
    ensures { result ≤ 15 }
{
    match digit {
        b'0'..=b'9' => digit - b'0',
        b'a'..=b'f' => digit - b'a' + 10,
        _ => 0,
    }
}

/// The bytes of pairs of digits, `0` to `9` and `a` to `f`.
pub fn bytes_of(alloc: Global, digits: &str) -> Result<Vec<u8>, AllocError> {
    let digits = digits.as_bytes();
    let mut bytes = Vec::with_capacity(alloc, digits.len() / 2)?;
    for place in 0..digits.len() / 2 {
        let high = value_of(digits[2 * place]) as u16;
        let low = value_of(digits[2 * place + 1]) as u16;
        bytes.push((high * 16 + low) as u8)?;
    }
    Ok(bytes)
}

/// Tells bytes as pairs of digits.
pub fn tell_bytes<W: Write>(out: &mut W, bytes: &[u8]) -> io::Result<()> {
    for byte in bytes {
        write!(out, "{byte:02x}")?;
    }
    Ok(())
}
