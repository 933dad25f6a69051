// The byte field's arithmetic, by the tables.
ghost use Rattle.std.specs.Prelude.{◌≡◌, refl};
ghost use Rattle.fields.specs.Bytes.{byte, byte_ops, byte_level};
ghost use Rattle.fields.specs.ByteLaws.{byte_field, byte_tower};

use super::{Byte, tables};
use crate::field::Field;
use crate::tower::TowerLevel;

impl Byte {
    // The element whose number is `value`.
    fn new(value: u8) -> Byte
        ensures { result ≡ byte value }
    {
        Byte { value }
    }
}

impl Field for Byte {
    ghost ops = { byte_ops };

    ghost laws = { byte_field };

    ghost equality = { λ x y. refl };

    fn zero() -> Byte {
        Byte::new(0)
    }

    fn one() -> Byte {
        Byte::new(1)
    }

    fn sum(self, other: Byte) -> Byte {
        Byte::new(self.value ^ other.value)
    }

    fn product(self, other: Byte) -> Byte {
        Byte::new(tables::exp(tables::log(self.value) + tables::log(other.value)))
    }

    fn inverse(self) -> Option<Byte> {
        if self.value == 0 {
            return None;
        }
        Some(Byte::new(tables::exp(255 - tables::log(self.value))))
    }
}

impl TowerLevel for Byte {
    ghost level = { byte_level };

    ghost tower = { byte_tower };

    fn log_bits() -> usize {
        3
    }

    fn from_number(n: u128) -> Byte {
        Byte::new((n % 256) as u8)
    }

    fn to_number(self) -> u128 {
        u128::from(self.value)
    }

    fn top() -> Byte {
        Byte::new(128)
    }

    fn times_top(self) -> Byte {
        Byte::new(tables::top_product(self.value))
    }

    fn solve(self) -> Option<Byte> {
        tables::solution(self.value).map(Byte::new)
    }

    fn cantor_basis(j: usize) -> Option<Byte> {
        tables::basis(j).map(Byte::new)
    }
}
