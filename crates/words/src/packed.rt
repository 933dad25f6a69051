// A packed row from its hexadecimal digits, byte 0 first.
ghost use Rattle.std.specs.Prelude.{◌≡◌, IfOk, vec_items};
ghost use Rattle.std.specs.Option.{option_map};
ghost use Rattle.words.specs.Digits.{byte_written, bytes_of};

use crate::numeral::digit_value;
use std::alloc::{AllocError, Global};

// The byte that two digits write, the high one first.
fn byte_of(high: u8, low: u8) -> Option<u8>
    ensures { result ≡ byte_written high low }
{
    Some(digit_value(high)? * 16 + digit_value(low)?)
}

// The bytes that the digits write, or none for an odd number of them or another character.
pub fn row_of(heap: Global, digits: &[u8]) -> Result<Option<Vec<u8>>, AllocError>
    ensures { IfOk result (λ o. option_map vec_items o ≡ bytes_of digits.now) }
{
    let mut row = Vec::new(heap);
    let (pairs, odd) = digits.as_chunks::<2>();
    for [high, low] in pairs {
        let Some(byte) = byte_of(*high, *low) else {
            return Ok(None);
        };
        row.push(byte)?;
    }
    Ok(odd.is_empty().then_some(row))
}
