// A level of a tower of fields of characteristic two.
ghost use Rattle.std.specs.Prelude.{◌≡◌, ◌%◌, ◌^◌, min, is_some, nat_lt};
ghost use Rattle.fields.specs.Tower.{Level, LevelLaws, NumberForm, Solves, Halves, width, cantor};

use super::field::Field;

pub trait TowerLevel: Field {
    ghost level: { Level Self };

    // LOG_BITS, an element having 2^LOG_BITS bits; 64 if it is more.
    fn log_bits() -> usize
        ensures { result ≡ min level.log_bits 64 };

    // The element whose number is `n`, cut to the width.
    fn from_number(n: u128) -> Self
        ensures { level.number result ≡ n % 2 ^ width level };

    // The low 128 bits of the element's number.
    fn to_number(self) -> u128
        ensures number { result ≡ level.number self % 2 ^ 128 }
        ensures form { NumberForm Self.Field.ops level };

    fn top() -> Self
        ensures top { result ≡ level.top }
        ensures halves { Halves Self.Field.ops level };

    fn times_top(self) -> Self
        ensures { result ≡ Self.Field.ops.product self level.top }
    {
        self.product(Self::top())
    }

    // The y with y·y + y = self whose bit 0 is clear, or None if there is no y.
    fn solve(self) -> Option<Self>
        ensures solution { result ≡ level.solve self }
        ensures solves { Solves Self.Field.ops level self result };

    // Element j of the Cantor basis; None from 2^LOG_BITS on.
    fn cantor_basis(j: usize) -> Option<Self>
        ensures element { result ≡ cantor Self.Field.ops level j }
        ensures within { is_some result ≡ nat_lt j (width level) }
    {
        let mut v = Self::one();
        for _ in 0..j {
            v = v.solve()?;
        }
        Some(v)
    }

    ghost tower: { LevelLaws Self.Field.ops level };
}
