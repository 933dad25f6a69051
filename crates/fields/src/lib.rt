// Finite fields of characteristic two: the interfaces with their laws, the fields, and batch inversion.
#![tactic(auto)]

pub mod batch;
pub mod bit;
pub mod byte;
pub mod extension;
pub mod field;
pub mod pair;
pub mod text;
pub mod theorems;
pub mod tower;

use bit::Bit;
use byte::Byte;
use pair::Pair;

// Levels of 16, 32 and 64 bits over Byte.
pub type Pair16 = Pair<Byte>;

pub type Pair32 = Pair<Pair16>;

pub type Pair64 = Pair<Pair32>;

// Levels of 2, 4 and 8 bits over Bit.
pub type Pile2 = Pair<Bit>;

pub type Pile4 = Pair<Pile2>;

pub type Pile8 = Pair<Pile4>;
