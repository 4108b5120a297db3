//! A number by which a thing is found among those that are kept (own, after rustc's FxHash).

use std::simd::{u8x4, u8x8, u32x1, u64x1};

/// What is taken times, so that each bit of a word tells in the high bits of the number.
const FACTOR: u64 = 0x517c_c1b7_2722_0a95;

/// The number that comes of taking a word into another.
#[inline(always)]
fn mixed(code: u64, word: u64) -> u64 {
    (code.rotate_left(5) ^ word).wrapping_mul(FACTOR)
}

/// Eight bytes as one word, in one load.
#[inline(always)]
fn eight(bytes: &[u8; 8]) -> u64 {
    let [word] = u64x1::from_le_bytes(u8x8::from_array(*bytes)).to_array();
    word
}

/// Four bytes as one word, in one load.
#[inline(always)]
fn four(bytes: &[u8; 4]) -> u64 {
    let [word] = u32x1::from_le_bytes(u8x4::from_array(*bytes)).to_array();
    word as u64
}

/// Fewer than eight bytes as one word.
#[inline(always)]
fn few(bytes: &[u8]) -> u64 {
    if let (Some(first), Some(last)) = (bytes.first_chunk::<4>(), bytes.last_chunk::<4>()) {
        return four(first) << 32 | four(last);
    }
    let mut word = 0;
    for byte in bytes {
        word = word << 8 | *byte as u64;
    }
    word
}

/// The number that comes of taking these bytes into another: eight at a time, and the last eight. What tells texts apart
/// is in its high bits.
#[inline(always)]
pub fn hashed(code: u64, bytes: &[u8]) -> u64 {
    let Some(last) = bytes.last_chunk::<8>() else {
        return mixed(code, few(bytes));
    };
    let mut code = code;
    let (words, _rest) = bytes[..bytes.len() - 1].as_chunks::<8>();
    for word in words {
        code = mixed(code, eight(word));
    }
    mixed(code, eight(last))
}
