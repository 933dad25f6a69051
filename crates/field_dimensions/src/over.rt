// Dimensions that a field has a basis element for each of.
ghost use Rattle.std.specs.Prelude.{◌≡◌, ◌≤◌, IfOk, Some};
ghost use Rattle.fields.specs.Tower.{width};
ghost use Rattle.skip_dimensions.specs.Degrees.{dimensions};
ghost use Rattle.skip_dimensions.specs.Refusals.{reported, construction, construction_for};

use fields::tower::TowerLevel;
use skip_dimensions::dimensions::Dimensions;
use skip_dimensions::fault::SkipDomainError;

// The dimensions of a domain over the field F, which has a basis element for each of them.
#[tactic(auto, using(skip_dimensions::proofs::Widths::limit_cut, skip_dimensions::proofs::Widths::construction_cut))]
pub fn dimensions_over<F: TowerLevel>(
    log_size: usize,
    log_extended: usize,
) -> Result<Dimensions, SkipDomainError>
    ensures refused { reported result ≡ construction F.TowerLevel.level.log_bits log_size log_extended }
    ensures dimensions { IfOk result (λ d. (d.log_size ≡ log_size) × (d.log_extended ≡ log_extended)) }
    ensures fits_field { IfOk result (λ d. d.log_extended ≤ width F.TowerLevel.level) }
{
    Dimensions::new(F::log_bits() as u32, log_size, log_extended)
}

// The smallest domain over the field F that carries a rule of that degree.
#[tactic(auto, using(skip_dimensions::proofs::Widths::limit_cut, skip_dimensions::proofs::Widths::construction_for_cut))]
pub fn dimensions_over_for_degree<F: TowerLevel>(
    log_size: usize,
    degree: usize,
) -> Result<Dimensions, SkipDomainError>
    ensures refused { reported result ≡ construction_for F.TowerLevel.level.log_bits log_size degree }
    ensures dimensions { IfOk result (λ d. (d.log_size ≡ log_size) × (Some d.log_extended ≡ dimensions log_size degree)) }
    ensures fits_field { IfOk result (λ d. d.log_extended ≤ width F.TowerLevel.level) }
{
    Dimensions::for_degree(F::log_bits() as u32, log_size, degree)
}
