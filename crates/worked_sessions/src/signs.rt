//! Bytes, as text with signs.

use crate::broken::Broken;
use oe_http::{Sink, write_whole};
use std::alloc::Global;

/// A byte stands at most so many times behind one sign.
const MOST_TIMES: u32 = 99_999;

/// The number of a hexadecimal digit.
fn digit(byte: u8) -> Option<u8> {
    match byte {
        b'0'..=b'9' => Some(byte - b'0'),
        b'a'..=b'f' => Some(byte - b'a' + 10),
        _ => None,
    }
}

/// The byte that two hexadecimal digits stand for.
fn byte_of(high: u8, low: u8) -> Option<u8> {
    Some((digit(high)? << 4) | digit(low)?)
}

/// The number of which these are the first digits, and this is the next.
fn longer(number: u32, byte: u8) -> Result<u32, Broken> {
    match byte {
        b'0'..=b'9' if number <= MOST_TIMES / 10 => Ok(number * 10 + u32::from(byte - b'0')),
        _ => Err(Broken),
    }
}

/// Where a byte stands in a line.
#[derive(Clone, Copy)]
enum Place {
    Plain,
    /// Behind a backslash.
    Sign,
    /// Behind `\x`.
    High,
    /// Behind `\x` and this digit.
    Low(u8),
    /// Behind `\*` and the digits of this number.
    Count(u32),
    /// It stands so many times.
    Times(u32),
}

/// Takes one byte of a line, and answers where the next one stands.
fn take_byte(place: Place, byte: u8, bytes: &mut Vec<u8>) -> Result<Place, Broken> {
    match place {
        Place::Plain if byte == b'\\' => return Ok(Place::Sign),
        Place::Plain => bytes.push(byte)?,
        Place::Sign => match byte {
            b'x' => return Ok(Place::High),
            b'*' => return Ok(Place::Count(0)),
            b'r' => bytes.push(b'\r')?,
            b'n' => bytes.push(b'\n')?,
            b'\\' => bytes.push(b'\\')?,
            _ => return Err(Broken),
        },
        Place::High => return Ok(Place::Low(byte)),
        Place::Low(high) => match byte_of(high, byte) {
            Some(meant) => bytes.push(meant)?,
            None => return Err(Broken),
        },
        Place::Count(number) if byte == b';' => return Ok(Place::Times(number)),
        Place::Count(number) => return Ok(Place::Count(longer(number, byte)?)),
        Place::Times(number) => {
            for _ in 0..number {
                bytes.push(byte)?;
            }
        }
    }
    Ok(Place::Plain)
}

/// Appends the bytes that a line stands for.
pub(crate) fn take_signs(line: &[u8], bytes: &mut Vec<u8>) -> Result<(), Broken> {
    let mut place = Place::Plain;
    for byte in line {
        place = take_byte(place, *byte, bytes)?;
    }
    match place {
        Place::Plain => Ok(()),
        _ => Err(Broken),
    }
}

/// The bytes that lines stand for.
pub(crate) fn bytes_of(alloc: Global, lines: &[u8]) -> Result<Vec<u8>, Broken> {
    let mut bytes = Vec::new(alloc);
    take_signs(lines, &mut bytes)?;
    Ok(bytes)
}

/// Writes bytes of a link as text.
pub(crate) fn write_signs<O: Sink>(bytes: &[u8], output: &mut O) -> Result<(), Broken> {
    for byte in bytes {
        match *byte {
            b'\r' => write_whole(output, b"\\r")?,
            b'\n' => write_whole(output, b"\\n\n")?,
            b'\\' => write_whole(output, b"\\\\")?,
            other => write_whole(output, &[other])?,
        }
    }
    Ok(())
}
