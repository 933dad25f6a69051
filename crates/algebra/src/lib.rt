// The algebra of polynomials over a field of characteristic two: roots, interpolation, the points of a Cantor basis and
// their vanishing polynomials. Each function's contract is the theorem that it is named after; its call does nothing.
#![tactic(auto)]

ghost use Rattle.algebra.specs.Theorems.{ZerosDetermine, InterpolationExistsOnce, PointsOfBits, PointsDiffer, PointsAdd, PointsHalve, VanishingIsProduct, VanishingInExtensions, NonzeroProductIsOne, LagrangeByDivision, LagrangeInExtensions, TableRule};

pub mod basis;

use fields::field::Field;
use fields::tower::TowerLevel;

// A polynomial of degree below n that is zero at n different points is zero everywhere.
pub fn zeros_determine<F: Field>()
    ensures { ZerosDetermine F.Field.ops }
{}

// The polynomial of degree below n with given values at n different points exists, and is the only one.
pub fn interpolation_exists_once<F: Field>()
    ensures { InterpolationExistsOnce F.Field.ops }
{}

// A point is the sum of v_r over all set bits r of its number, where a bit that has no v_r adds nothing.
#[tactic(auto, using(crate::proofs::Points::point_bits))]
pub fn points_of_bits<F: TowerLevel>()
    ensures { PointsOfBits F.Field.ops F.TowerLevel.level }
{}

// The points of numbers below 2^(number of basis elements) are different.
pub fn points_differ<F: TowerLevel>()
    ensures { PointsDiffer F.Field.ops F.TowerLevel.level }
{}

// point(a xor b) = point(a) + point(b).
#[tactic(auto, using(crate::proofs::Points::point_xor))]
pub fn points_add<F: TowerLevel>()
    ensures { PointsAdd F.Field.ops F.TowerLevel.level }
{}

// phi(point(j)) = point(j / 2), where phi(x) = x·x + x.
#[tactic(auto, using(crate::proofs::Points::phi_point))]
pub fn points_halve<F: TowerLevel>()
    ensures { PointsHalve F.Field.ops F.TowerLevel.level }
{}

// phi applied k times is the product of x + s over the first 2^k points s, and is zero exactly at them.
pub fn vanishing_is_product<F: TowerLevel>()
    ensures { VanishingIsProduct F.Field.ops F.TowerLevel.level }
{}

// So it is in every field that F is embedded in.
pub fn vanishing_in_extensions<F: TowerLevel, E: Field>()
    ensures { VanishingInExtensions F.Field.ops F.TowerLevel.level E.Field.ops }
{}

// The product of the nonzero points among the first 2^k is one.
pub fn nonzero_product_is_one<F: TowerLevel>()
    ensures { NonzeroProductIsOne F.Field.ops F.TowerLevel.level }
{}

// The Lagrange polynomial of point c over the first 2^k points is one at point c, zero at the others, and elsewhere the
// vanishing polynomial divided by x + point(c).
pub fn lagrange_by_division<F: TowerLevel>()
    ensures { LagrangeByDivision F.Field.ops F.TowerLevel.level }
{}

// So it is in every field that F is embedded in.
pub fn lagrange_in_extensions<F: TowerLevel, E: Field>()
    ensures { LagrangeInExtensions F.Field.ops F.TowerLevel.level E.Field.ops }
{}

// After the first 2^k points, the Lagrange polynomial of point 8b + j at point i is that of point j at point i xor 8b.
pub fn table_rule<F: TowerLevel>()
    ensures { TableRule F.Field.ops F.TowerLevel.level }
{}
