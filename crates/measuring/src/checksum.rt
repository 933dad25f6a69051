// A checksum of elements.
ghost use Rattle.std.specs.Prelude.{◌≡◌, ◌%◌, ◌^◌, fold};
ghost use Rattle.measuring.specs.Checksum.{stirred_in, element_in};

use fields::tower::TowerLevel;

// The low 64 bits of a number.
fn low_word(number: u128) -> u64
    ensures { result ≡ number % 2 ^ 64 }
{
    (number % 0x1_0000_0000_0000_0000) as u64
}

// The sum so far with one number more.
fn stirred(sum: u64, number: u64) -> u64
    ensures { result ≡ stirred_in sum number }
{
    (sum.rotate_left(5) ^ number).wrapping_mul(0x517c_c1b7_2722_0a95)
}

// The sum so far with one element more.
fn with_element<F: TowerLevel>(sum: u64, element: F) -> u64
    ensures { result ≡ element_in F.TowerLevel.level sum element }
{
    stirred(sum, low_word(element.to_number()))
}

// The sum so far with more elements.
pub fn checksum<F: TowerLevel>(so_far: u64, elements: &[F]) -> u64
    ensures { result ≡ fold (element_in F.TowerLevel.level) so_far elements.now }
{
    elements
        .iter()
        .fold(so_far, |sum, element| with_element(sum, *element))
}
