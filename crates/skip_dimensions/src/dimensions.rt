// The numbers of a domain.
ghost use Rattle.std.specs.Prelude.{◌≡◌, ◌-◌, ◌*◌, ◌/◌, ◌^◌, ◌<◌, ◌≤◌, min, true, IfOk, Some};
ghost use Rattle.skip_dimensions.specs.Degrees.{dimensions, admits, Fits};
ghost use Rattle.skip_dimensions.specs.Refusals.{reported, limit, construction, construction_for};

use crate::degree;
use crate::fault::SkipDomainError;

// The dimensions of the skipped subspace and of the extension, within their limits.
#[derive(Clone, Copy, PartialEq, Eq, Debug)]
pub struct Dimensions {
    pub log_size: usize,
    pub log_extended: usize,
    ghost whole: { 3 ≤ log_size },
    ghost larger: { log_size < log_extended },
    ghost within: { log_extended ≤ 16 },
}

// Number of points of that many dimensions.
fn points(dimensions: usize) -> usize
    requires { dimensions < 64 }
    ensures { result ≡ 2 ^ dimensions }
{
    1 << dimensions
}

// Number of basis elements of a field of 2^log_bits bits, 64 if more.
#[tactic(auto, using(crate::proofs::Widths::power_cut))]
fn basis_len(log_bits: u32) -> usize
    ensures { result ≡ min (2 ^ log_bits) 64 }
{
    points(log_bits.min(6) as usize)
}

impl Dimensions {
    // The dimensions of a domain that vanishes on log_size dimensions and transmits on
    // log_extended, over a field of 2^log_bits bits; or the first cause why there is none.
    pub fn new(
        log_bits: u32,
        log_size: usize,
        log_extended: usize,
    ) -> Result<Dimensions, SkipDomainError>
        ensures refused { reported result ≡ construction log_bits log_size log_extended }
        ensures dimensions { IfOk result (λ d. (d.log_size ≡ log_size) × (d.log_extended ≡ log_extended)) }
        ensures fits_field { IfOk result (λ d. d.log_extended ≤ limit log_bits) }
    {
        if log_extended <= log_size {
            return Err(SkipDomainError::EmptyExtension {
                log_size,
                log_extended,
            });
        }
        let limit = basis_len(log_bits).min(63);
        if log_extended > limit {
            return Err(SkipDomainError::ExtensionTooWide {
                log_extended,
                limit,
            });
        }
        if log_extended > 16 {
            return Err(SkipDomainError::ExtensionBeyondLimit { log_extended });
        }
        if log_size < 3 {
            return Err(SkipDomainError::SubspaceTooNarrow { log_size });
        }
        Ok(Dimensions {
            log_size,
            log_extended,
        })
    }

    // The smallest domain that carries a rule of that degree.
    pub fn for_degree(
        log_bits: u32,
        log_size: usize,
        degree: usize,
    ) -> Result<Dimensions, SkipDomainError>
        ensures refused { reported result ≡ construction_for log_bits log_size degree }
        ensures dimensions { IfOk result (λ d. (d.log_size ≡ log_size) × (Some d.log_extended ≡ dimensions log_size degree)) }
        ensures fits_field { IfOk result (λ d. d.log_extended ≤ limit log_bits) }
    {
        let empty = SkipDomainError::EmptyExtension {
            log_size,
            log_extended: log_size,
        };
        let log_extended = degree::dimensions_for_degree(log_size, degree).ok_or(empty)?;
        Dimensions::new(log_bits, log_size, log_extended)
    }

    // Whether the domain is wide enough for a rule of that degree. A degree that is admitted fits.
    pub fn admits_degree(&self, degree: usize) -> bool
        ensures value { result ≡ admits self.now.log_size self.now.log_extended degree }
        ensures fits { result ≡ true → Fits self.now.log_size self.now.log_extended degree }
    {
        degree::admits_degree(self.log_size, self.log_extended, degree)
    }

    // Number of points of the skipped subspace.
    pub fn size(&self) -> usize
        ensures { result ≡ 2 ^ self.now.log_size }
    {
        points(self.log_size)
    }

    // Number of points of the extension, no fewer than the subspace has.
    #[tactic(auto, using(crate::proofs::Widths::size_bounds))]
    pub fn extended_size(&self) -> usize
        ensures value { result ≡ 2 ^ self.now.log_extended }
        ensures larger { 2 ^ self.now.log_size ≤ result }
    {
        points(self.log_extended)
    }

    // Number of transmitted points: those of the extension outside the subspace, at least a byte's bits.
    #[tactic(auto, using(crate::proofs::Widths::size_bounds))]
    pub fn num_transmitted(&self) -> usize
        ensures value { result ≡ 2 ^ self.now.log_extended - 2 ^ self.now.log_size }
        ensures bounds { (8 ≤ result) × (result < 2 ^ 17) }
    {
        self.extended_size() - self.size()
    }

    // Number of entries of an extension table: for each value of a byte, one for each transmitted point.
    pub fn table_len(&self) -> usize
        ensures { result ≡ 256 * (2 ^ self.now.log_extended - 2 ^ self.now.log_size) }
    {
        256 * self.num_transmitted()
    }

    // Number of bytes of a packed row, which has one bit for each point of the subspace; at least one.
    #[tactic(auto, using(crate::proofs::Widths::size_bounds))]
    pub fn row_bytes(&self) -> usize
        ensures value { result ≡ 2 ^ self.now.log_size / 8 }
        ensures bounds { (1 ≤ result) × (result < 2 ^ 17) }
    {
        self.size() / 8
    }
}
