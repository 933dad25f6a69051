// The text of an element: its number in hexadecimal digits.
ghost use Rattle.std.specs.Prelude.{◌≡◌, ◌<◌, ◌≤◌, false, length, Some};
ghost use Rattle.std.specs.Fmt.{digit_glyph};
ghost use Rattle.fields.specs.Text.{low_digits, digit_count, hexadecimal};

use super::tower::TowerLevel;
use std::{fmt, str};

const MOST_DIGITS: usize = 32;

// Writes the low 128 bits of an element's number in hexadecimal digits, padded with zeros to the width.
#[derive(Clone, Copy)]
pub struct Hexadecimal<F>(pub F);

impl<F: TowerLevel> fmt::Display for Hexadecimal<F> {
    ghost output = { λ x. Some (hexadecimal F.TowerLevel.level x.0) };

    fn fmt<W: fmt::Write>(&self, f: &mut fmt::Formatter<W>) -> fmt::Result {
        let mut buffer = [0u8; MOST_DIGITS];
        let digits = &mut buffer[..digit_count::<F>()];
        write_digits(self.0.to_number(), digits);
        let Ok(text) = str::from_utf8(digits) else {
            unreachable!();
        };
        f.write_str(text)
    }
}

fn digit_count<F: TowerLevel>() -> usize
    ensures count { result ≡ digit_count F.TowerLevel.level.log_bits }
    ensures most { result ≤ 32 }
{
    1 << F::log_bits().saturating_sub(2).min(5)
}

// Writes the low digits of a number, one in each byte.
fn write_digits(number: u128, text: &mut [u8])
    ensures { text.new ≡ low_digits (length text.old) number }
{
    let mut rest = number;
    for place in (0..text.len()).rev() {
        text[place] = glyph((rest % 16) as u8);
        rest /= 16;
    }
}

fn glyph(digit: u8) -> u8
    requires { digit < 16 }
    ensures { result ≡ digit_glyph false digit }
{
    if digit < 10 {
        b'0' + digit
    } else {
        b'a' + (digit - 10)
    }
}
