// A skip round's domain: the subspace S on which the round polynomial vanishes, and the points of a
// larger subspace outside S on which it is transmitted. Point j is the sum of the elements of the
// Cantor basis at the set bits of j, so S has the indices below 2^log_size.
ghost use Rattle.std.specs.Prelude.{⊤, ◌≡◌, ℕ, ◌-◌, ◌^◌, ◌≤◌, true, length, take, drop, IfOk, Some, MatchOption, MatchResult, bit_xor};
ghost use Rattle.fields.specs.Tower.{width};
ghost use Rattle.algebra.specs.Interpolation.{Apart};
ghost use Rattle.algebra.specs.Points.{point as cantor_point, nonzero_product};
ghost use Rattle.skip_dimensions.specs.Degrees.{extra, dimensions as dimensions_for, admits, Reaches, Least, Fits};
ghost use Rattle.skip_domain.specs.Domains.{Room, points_of, vanishing_of, transmitted_vanishing, ZeroExactlyOn};
ghost use Rattle.skip_dimensions.specs.Refusals.{reported, wrong_length, building, building_for};

use crate::points::fill_points;
use crate::vanishing::{fill_block, vanishing_poly};
use algebra::basis::{self, basis_or_zero};
use algebra::points_add;
use field_dimensions::over::{dimensions_over, dimensions_over_for_degree};
use fields::field::Field;
use fields::tower::TowerLevel;
use skip_dimensions::degree;
use skip_dimensions::dimensions::Dimensions;
use skip_dimensions::fault::{SkipDomainError, check_length};
use std::alloc::AllocError;
use std::marker::PhantomData;

// The numbers of a domain over F, which has room for its points. The points themselves stand in
// buffers that the caller lends.
pub struct SkipDomain<F> {
    dimensions: Dimensions,
    field: PhantomData<F>,
    ghost room: { Room F (2 ^ dimensions.log_extended) },
}

impl<F> Clone for SkipDomain<F> {
    ghost is_clone = { λ d c. c ≡ d };

    ghost is_infallible = { λ _. ⊤ };

    fn clone(&self) -> Result<SkipDomain<F>, AllocError> {
        Ok(*self)
    }
}

impl<F> Copy for SkipDomain<F> {}

impl<F: TowerLevel> SkipDomain<F> {
    // The domain of these dimensions, whose points are written into the buffer; a buffer of another
    // length stays as it was. The points are different.
    fn build(dimensions: Dimensions, points: &mut [F]) -> Result<SkipDomain<F>, SkipDomainError>
        requires { dimensions.log_extended ≤ width F.TowerLevel.level }
        ensures refused { reported result ≡ wrong_length 1 (2 ^ dimensions.log_extended) (length points.old) }
        ensures dimensions { IfOk result (λ d. d.dimensions ≡ dimensions) }
        ensures points { MatchResult result (λ _. points.new ≡ points_of F.Field.ops F.TowerLevel.level dimensions.log_extended) (λ _. points.new ≡ points.old) }
        ensures different { IfOk result (λ d. Apart (2 ^ d.dimensions.log_extended) (cantor_point F.Field.ops F.TowerLevel.level)) }
    {
        check_length(1, dimensions.extended_size(), points.len())?;
        fill_points(dimensions.log_extended, points);
        Ok(SkipDomain {
            dimensions,
            field: PhantomData,
        })
    }

    // The domain that vanishes on log_size dimensions and transmits on log_extended. The points
    // buffer, of 2^log_extended elements, is filled with point(0), point(1), ..; where the domain
    // cannot be built the buffer stays as it was. The points are different.
    pub fn new(
        log_size: usize,
        log_extended: usize,
        points: &mut [F],
    ) -> Result<SkipDomain<F>, SkipDomainError>
        ensures refused { reported result ≡ building F.TowerLevel.level.log_bits log_size log_extended (length points.old) }
        ensures dimensions { IfOk result (λ d. (d.dimensions.log_size ≡ log_size) × (d.dimensions.log_extended ≡ log_extended)) }
        ensures points { MatchResult result (λ _. points.new ≡ points_of F.Field.ops F.TowerLevel.level log_extended) (λ _. points.new ≡ points.old) }
        ensures different { IfOk result (λ d. Apart (2 ^ d.dimensions.log_extended) (cantor_point F.Field.ops F.TowerLevel.level)) }
    {
        let dimensions = dimensions_over::<F>(log_size, log_extended)?;
        SkipDomain::build(dimensions, points)
    }

    // The smallest domain that carries a rule of that degree.
    pub fn for_degree(
        log_size: usize,
        degree: usize,
        points: &mut [F],
    ) -> Result<SkipDomain<F>, SkipDomainError>
        ensures refused { reported result ≡ building_for F.TowerLevel.level.log_bits log_size degree (length points.old) }
        ensures dimensions { IfOk result (λ d. (d.dimensions.log_size ≡ log_size) × (Some d.dimensions.log_extended ≡ dimensions_for log_size degree)) }
        ensures points { MatchResult result (λ d. points.new ≡ points_of F.Field.ops F.TowerLevel.level d.dimensions.log_extended) (λ _. points.new ≡ points.old) }
        ensures different { IfOk result (λ d. Apart (2 ^ d.dimensions.log_extended) (cantor_point F.Field.ops F.TowerLevel.level)) }
    {
        let dimensions = dimensions_over_for_degree::<F>(log_size, degree)?;
        SkipDomain::build(dimensions, points)
    }

    // Dimensions above the subspace that a rule of that degree needs; none for degree 0.
    pub fn extra_dimensions(degree: usize) -> Option<usize>
        ensures value { result ≡ extra degree }
        ensures least { MatchOption result (degree ≡ 0) (λ e. Least (Reaches degree) e) }
    {
        degree::extra_dimensions(degree)
    }

    // Whether this domain is wide enough for a rule of that degree. A degree that is admitted fits.
    pub fn admits_degree(&self, degree: usize) -> bool
        ensures value { result ≡ admits self.now.dimensions.log_size self.now.dimensions.log_extended degree }
        ensures fits { result ≡ true → Fits self.now.dimensions.log_size self.now.dimensions.log_extended degree }
    {
        self.dimensions.admits_degree(degree)
    }

    // The point of an index: the sum of the basis elements at its set bits; a bit that has no basis
    // element adds nothing. The point of index xor b is this point plus that of b.
    pub fn point(index: usize) -> F
        ensures value { result ≡ cantor_point F.Field.ops F.TowerLevel.level index }
        ensures adds { (b : ℕ) → cantor_point F.Field.ops F.TowerLevel.level (bit_xor index b) ≡ F.Field.ops.sum result (cantor_point F.Field.ops F.TowerLevel.level b) }
    {
        points_add::<F>();
        basis::point(index)
    }

    // Dimension of the subspace on which the round polynomial vanishes.
    pub fn log_size(&self) -> usize
        ensures { result ≡ self.now.dimensions.log_size }
    {
        self.dimensions.log_size
    }

    // Number of points on which it vanishes.
    pub fn size(&self) -> usize
        ensures { result ≡ 2 ^ self.now.dimensions.log_size }
    {
        self.dimensions.size()
    }

    // Dimension of the subspace on which the round polynomial is transmitted. The field has a basis
    // element for each dimension, and the points of that subspace are different.
    pub fn log_extended(&self) -> usize
        ensures value { result ≡ self.now.dimensions.log_extended }
        ensures within { result ≤ width F.TowerLevel.level }
        ensures different { Apart (2 ^ result) (cantor_point F.Field.ops F.TowerLevel.level) }
        ensures room { Room F (2 ^ result) }
    {
        self.dimensions.log_extended
    }

    // Number of transmitted points: those of the extension outside the subspace.
    pub fn num_transmitted(&self) -> usize
        ensures { result ≡ 2 ^ self.now.dimensions.log_extended - 2 ^ self.now.dimensions.log_size }
    {
        self.dimensions.num_transmitted()
    }

    // The points of the subspace, in index order: the first part of the points buffer, as it stands.
    pub fn subspace<'a>(&self, points: &'a [F]) -> Result<&'a [F], SkipDomainError>
        ensures refused { reported result ≡ wrong_length 1 (2 ^ self.now.dimensions.log_extended) (length points.now) }
        ensures part { IfOk result (λ s. s.now ≡ take (2 ^ self.now.dimensions.log_size) points.now) }
    {
        check_length(1, self.dimensions.extended_size(), points.len())?;
        let (subspace, _) = points.split_at(self.size());
        Ok(subspace)
    }

    // The transmitted points, in index order: the rest of the points buffer, as it stands.
    pub fn transmitted<'a>(&self, points: &'a [F]) -> Result<&'a [F], SkipDomainError>
        ensures refused { reported result ≡ wrong_length 1 (2 ^ self.now.dimensions.log_extended) (length points.now) }
        ensures part { IfOk result (λ s. s.now ≡ drop (2 ^ self.now.dimensions.log_size) points.now) }
    {
        check_length(1, self.dimensions.extended_size(), points.len())?;
        let (_, transmitted) = points.split_at(self.size());
        Ok(transmitted)
    }

    // The vanishing polynomial of the subspace at x: the product of x + s over its points s. It is
    // zero exactly on the subspace.
    pub fn vanishing(&self, x: F) -> F
        ensures value { result ≡ vanishing_of F.Field.ops F.TowerLevel.level self.now.dimensions.log_size x }
        ensures zeros { ZeroExactlyOn F.Field.ops (2 ^ self.now.dimensions.log_size) (cantor_point F.Field.ops F.TowerLevel.level) x result }
    {
        vanishing_poly(self.log_size(), x)
    }

    // Fills the output, one element for each transmitted point, with the vanishing polynomial at
    // that point; an output of another length stays as it was. Points that differ by a point of the
    // subspace have one value, so each block of 2^log_size has one.
    pub fn vanishing_on_transmitted(&self, output: &mut [F]) -> Result<(), SkipDomainError>
        ensures refused { reported result ≡ wrong_length 4 (2 ^ self.now.dimensions.log_extended - 2 ^ self.now.dimensions.log_size) (length output.old) }
        ensures output { MatchResult result (λ _. output.new ≡ transmitted_vanishing F.Field.ops F.TowerLevel.level self.now.dimensions.log_size self.now.dimensions.log_extended) (λ _. output.new ≡ output.old) }
    {
        check_length(4, self.num_transmitted(), output.len())?;
        let size = self.size();
        for block in 0..output.len() / size {
            let value = self.vanishing(Self::point((block + 1) * size));
            fill_block(output, block * size, size, value);
        }
        Ok(())
    }

    // The value of the vanishing polynomial's derivative on every point of the subspace: the product
    // of the nonzero ones. It is one. Dimension r adds the points v_r + s for the points s of the r
    // dimensions below, and their product is the vanishing polynomial of these at v_r.
    pub fn derivative_on_subspace(&self) -> F
        ensures value { result ≡ nonzero_product F.Field.ops (2 ^ self.now.dimensions.log_size) (cantor_point F.Field.ops F.TowerLevel.level) }
        ensures one { result ≡ F.Field.ops.one }
    {
        (0..self.log_size()).fold(F::one(), |product, r| {
            product.product(vanishing_poly(r, basis_or_zero(r)))
        })
    }
}
