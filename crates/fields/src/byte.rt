// The field of 256 elements, a sum of monomials in one byte.
ghost use Rattle.std.specs.Prelude.{◌<◌};

pub mod arithmetic;
mod tables;

#[derive(Clone, Copy, PartialEq, Eq)]
pub struct Byte {
    value: u8,
    ghost ok: { value < 256 },
}
