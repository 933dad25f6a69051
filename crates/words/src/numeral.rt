// Decimal and hexadecimal numbers.
ghost use Rattle.std.specs.Prelude.{◌≡◌, ◌+◌, ◌*◌, ◌^◌, ◌<◌, ◌≤◌, ◌&&◌, if◌then◌else◌, Some, None, nat_lt};
ghost use Rattle.words.specs.Numerals.{worth, digit, digit_of, numeral_of, decimal_of, hexadecimal_of};

// What a digit of base sixteen is worth, in either case, or none for a byte that is no digit.
pub fn digit_value(byte: u8) -> Option<u8>
    ensures { result ≡ digit_of 16 byte }
{
    match byte {
        b'0'..=b'9' => Some(byte - b'0'),
        b'a'..=b'f' => Some(byte - b'a' + 10),
        b'A'..=b'F' => Some(byte - b'A' + 10),
        _ => None,
    }
}

// The same, with 16 for a byte that is no digit.
pub fn digit_worth(byte: u8) -> u8
    ensures { result ≡ worth byte }
{
    digit_value(byte).unwrap_or(16)
}

// What the digit `byte` of a base is worth, or none where `byte` is no digit of it.
fn digit_in(base: u8, byte: u8) -> Option<u8>
    requires { base ≤ 16 }
    ensures { result ≡ digit_of base byte }
{
    digit_value(byte).filter(|digit| *digit < base)
}

// `value` with the digit `byte` written after it, or none where `byte` is no digit of the base or
// the number does not fit.
fn with_digit(base: u8, value: u64, byte: u8) -> Option<u64>
    requires { base ≤ 16 }
    ensures { result ≡ (if digit base byte && nat_lt (value * base + worth byte) (2 ^ 64) then Some (value * base + worth byte) else None) }
{
    let digit = digit_in(base, byte)?;
    value
        .checked_mul(u64::from(base))?
        .checked_add(u64::from(digit))
}

// The number that `word` writes in a base, with any zeros in front. None where `word` is empty, has
// another byte than a digit, or writes a number of 2^64 or more.
fn numeral_in(base: u8, word: &[u8]) -> Option<u64>
    requires positive { 0 < base }
    requires known { base ≤ 16 }
    ensures { result ≡ numeral_of base word.now }
{
    if word.is_empty() {
        return None;
    }
    let mut value = 0;
    for byte in word {
        value = with_digit(base, value, *byte)?;
    }
    Some(value)
}

// The number that `word` writes in base ten.
pub fn decimal(word: &[u8]) -> Option<u64>
    ensures { result ≡ decimal_of word.now }
{
    numeral_in(10, word)
}

// The number that `word` writes in base sixteen, in digits of either case.
pub fn hexadecimal(word: &[u8]) -> Option<u64>
    ensures { result ≡ hexadecimal_of word.now }
{
    numeral_in(16, word)
}
