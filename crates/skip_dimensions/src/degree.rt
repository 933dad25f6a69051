// How many dimensions a rule's degree needs above the skipped subspace, and which degrees a domain admits.
ghost use Rattle.std.specs.Prelude.{◌≡◌, true, MatchOption};
ghost use Rattle.skip_dimensions.specs.Degrees.{bits, extra, dimensions, admits, Reaches, Least, Fits};

// Number of bits of n.
#[tactic(auto, using(crate::proofs::Degrees::bits_leading))]
fn bit_length(n: usize) -> usize
    ensures { result ≡ bits n }
{
    64 - n.leading_zeros() as usize
}

// Dimensions above the subspace that a rule of that degree needs: the number of bits of
// degree - 1, but at least 1; none for degree 0, which no round can carry.
#[tactic(auto, using(crate::proofs::Degrees::bits_least))]
pub fn extra_dimensions(degree: usize) -> Option<usize>
    ensures value { result ≡ extra degree }
    ensures least { MatchOption result (degree ≡ 0) (λ e. Least (Reaches degree) e) }
{
    degree.checked_sub(1).map(|last| bit_length(last).max(1))
}

// Dimensions of the smallest domain that carries the degree over a subspace of log_size
// dimensions; a sum beyond the largest word is taken as that word.
pub fn dimensions_for_degree(log_size: usize, degree: usize) -> Option<usize>
    ensures { result ≡ dimensions log_size degree }
{
    extra_dimensions(degree).map(|extra| log_size.saturating_add(extra))
}

// Whether a domain of these dimensions is wide enough for a rule of that degree. A degree that is
// admitted fits: the round polynomial has fewer coefficients than the domain has points.
#[tactic(auto, using(crate::proofs::Degrees::sum_admits, crate::proofs::Degrees::admits_fits))]
pub fn admits_degree(log_size: usize, log_extended: usize, degree: usize) -> bool
    ensures value { result ≡ admits log_size log_extended degree }
    ensures fits { result ≡ true → Fits log_size log_extended degree }
{
    extra_dimensions(degree)
        .and_then(|extra| log_size.checked_add(extra))
        .is_some_and(|needed| needed <= log_extended)
}
