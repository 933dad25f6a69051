// The plan of a round: for a shape, the sizes of its domain and of every buffer, or why there is none.
ghost use Rattle.std.specs.Prelude.{◌≡◌, ℕ, ◌-◌, ◌*◌, ◌^◌, ◌<◌, Some, IfOk, MatchResult};
ghost use Rattle.skip_dimensions.specs.Degrees.{Fits};
ghost use Rattle.skip_plan.specs.Plans.{Free, lengths_for, plan_for, scratch_for, outcome, planning};
ghost use Rattle.skip_plan.specs.Texts.{shape_text, error_text, lengths_text, scratch_text, plan_text};
ghost use Rattle.skip_composition.specs.Rules.{degree_of};
ghost use Rattle.skip_plan.specs.declared.plan.PlanError.TheVariants.{Domain, UnknownRule};

use skip_composition::rule::{self, Rule};
use skip_dimensions::dimensions::Dimensions;
use skip_dimensions::fault::SkipDomainError;
use skip_dimensions::refusal::Refusal;
use std::error::Error;
use std::fmt;

// What a planner asks about: the dimensions that are skipped, the degree that sizes the domain,
// and the code of the rule.
#[derive(Clone, Copy, PartialEq, Eq, Debug)]
pub struct Shape {
    pub log_size: usize,
    pub degree: usize,
    pub code: usize,
}

// Why a shape has no plan.
#[derive(Clone, Copy, PartialEq, Eq, Debug)]
pub enum PlanError {
    // No rule has that code. This is no cause of the table of refusals.
    UnknownRule { code: usize },
    // The domain cannot be built.
    Domain(SkipDomainError),
    // The domain is too narrow for the rule's degree.
    DegreeNotAdmitted { degree: u16 },
}

impl From<rule::UnknownRule> for PlanError {
    ghost from_gives = { λ e r. r ≡ UnknownRule e.code };

    fn from(e: rule::UnknownRule) -> PlanError {
        PlanError::UnknownRule { code: e.code }
    }
}

impl From<SkipDomainError> for PlanError {
    ghost from_gives = { λ e r. r ≡ Domain e };

    fn from(e: SkipDomainError) -> PlanError {
        PlanError::Domain(e)
    }
}

// Lengths of the buffers, in elements.
#[derive(Clone, Copy, PartialEq, Eq, Debug)]
pub struct Lengths {
    pub points: usize,
    pub extension_table: usize,
    pub message: usize,
    pub selector_table: usize,
    pub vector: usize,
}

// Scratch that each call needs, in elements.
#[derive(Clone, Copy, PartialEq, Eq, Debug)]
pub struct Scratch {
    pub row_call: usize,
    pub claim_call: usize,
    pub evaluate: usize,
    pub selector: usize,
}

// The sizes of a round.
#[derive(Clone, Copy, PartialEq, Eq, Debug)]
pub struct Plan {
    pub rule: Rule,
    pub log_size: usize,
    pub log_extended: usize,
    // points of the skipped subspace, transmitted points, bytes of a packed row
    pub size: usize,
    pub num_transmitted: usize,
    pub row_bytes: usize,
    // the round polynomial's degree is at most this
    pub round_degree: usize,
    pub lengths: Lengths,
    pub scratch: Scratch,
}

impl Lengths {
    // The buffers of a round over these dimensions.
    fn over(dimensions: &Dimensions) -> Lengths
        ensures { result ≡ lengths_for dimensions.now.log_size dimensions.now.log_extended }
    {
        Lengths {
            points: dimensions.extended_size(),
            extension_table: dimensions.table_len(),
            message: dimensions.num_transmitted(),
            selector_table: 256 * dimensions.row_bytes(),
            vector: dimensions.size(),
        }
    }
}

impl Scratch {
    // The scratch of a round over these dimensions, for a rule of that arity.
    fn over(dimensions: &Dimensions, arity: u16) -> Scratch
        ensures { result ≡ scratch_for dimensions.now.log_size dimensions.now.log_extended arity }
    {
        let arity = usize::from(arity);
        let num_transmitted = dimensions.num_transmitted();
        Scratch {
            row_call: arity * (num_transmitted + 1),
            claim_call: arity,
            evaluate: num_transmitted,
            selector: dimensions.size(),
        }
    }
}

impl Plan {
    // The plan of a rule over these dimensions.
    fn over(dimensions: &Dimensions, rule: Rule) -> Plan
        ensures { result ≡ plan_for dimensions.now.log_size dimensions.now.log_extended rule }
    {
        let size = dimensions.size();
        Plan {
            rule,
            log_size: dimensions.log_size,
            log_extended: dimensions.log_extended,
            size,
            num_transmitted: dimensions.num_transmitted(),
            row_bytes: dimensions.row_bytes(),
            round_degree: usize::from(rule.degree()) * (size - 1),
            lengths: Lengths::over(dimensions),
            scratch: Scratch::over(dimensions, rule.arity()),
        }
    }
}

impl Shape {
    // The plan of the shape over a field of 2^log_bits bits, or the first cause why it has none.
    // A plan that is answered is never too narrow for its rule.
    pub fn plan(&self, log_bits: u32) -> Result<Plan, PlanError>
        ensures outcome { outcome result ≡ planning log_bits self.now }
        ensures sizes { IfOk result (λ p. p ≡ plan_for p.log_size p.log_extended p.rule) }
        ensures wide { IfOk result (λ p. Fits p.log_size p.log_extended (degree_of p.rule)) }
        ensures exact { MatchResult result (λ p. Free log_bits self.now p.rule p.log_size p.log_extended) (λ _. (rule : Rule) (s e : ℕ) → Free log_bits self.now rule s e → ⊥) }
    {
        let rule = Rule::try_from(self.code)?;
        let dimensions = Dimensions::for_degree(log_bits, self.log_size, self.degree)?;
        let degree = rule.degree();
        if !dimensions.admits_degree(usize::from(degree)) {
            return Err(PlanError::DegreeNotAdmitted { degree });
        }
        Ok(Plan::over(&dimensions, rule))
    }
}

// The three numbers as a line writes them.
impl fmt::Display for Shape {
    ghost output = { λ h. Some (shape_text h) };

    fn fmt<W: fmt::Write>(&self, f: &mut fmt::Formatter<W>) -> fmt::Result {
        let Shape {
            log_size,
            degree,
            code,
        } = self;
        write!(f, "{log_size} {degree} {code}")
    }
}

// A cause of the table of refusals by its number, its name and its values.
impl fmt::Display for PlanError {
    ghost output = { λ e. Some (error_text e) };

    fn fmt<W: fmt::Write>(&self, f: &mut fmt::Formatter<W>) -> fmt::Result {
        match self {
            PlanError::UnknownRule { code } => write!(f, "no rule has code {code}"),
            PlanError::Domain(fault) => write!(f, "refused {} {fault}", fault.number()),
            PlanError::DegreeNotAdmitted { degree } => {
                write!(f, "refused 8 DegreeNotAdmitted: degree {degree}")
            }
        }
    }
}

impl Error for PlanError {}

impl fmt::Display for Lengths {
    ghost output = { λ l. Some (lengths_text l) };

    fn fmt<W: fmt::Write>(&self, f: &mut fmt::Formatter<W>) -> fmt::Result {
        let Lengths {
            points,
            extension_table,
            message,
            selector_table,
            vector,
        } = self;
        write!(
            f,
            "points {points}, extension table {extension_table}, message {message}, selector table {selector_table}, vector {vector}"
        )
    }
}

impl fmt::Display for Scratch {
    ghost output = { λ s. Some (scratch_text s) };

    fn fmt<W: fmt::Write>(&self, f: &mut fmt::Formatter<W>) -> fmt::Result {
        let Scratch {
            row_call,
            claim_call,
            evaluate,
            selector,
        } = self;
        write!(
            f,
            "row call {row_call}, claim call {claim_call}, evaluate {evaluate}, selector {selector}"
        )
    }
}

// One line for each part, indented.
impl fmt::Display for Plan {
    ghost output = { λ p. Some (plan_text p) };

    #[tactic(auto, using(std::proofs::lemmas::Grind::put_five))]
    fn fmt<W: fmt::Write>(&self, f: &mut fmt::Formatter<W>) -> fmt::Result {
        let (arity, degree) = (self.rule.arity(), self.rule.degree());
        writeln!(f, "  rule {}: operands {arity}, degree {degree}", self.rule)?;
        let (dimensions, skipped, transmitted) = (
            self.log_extended,
            self.size,
            self.num_transmitted,
        );
        writeln!(
            f,
            "  domain: dimensions {dimensions}, skipped {skipped}, transmitted {transmitted}, row bytes {}",
            self.row_bytes
        )?;
        writeln!(
            f,
            "  round polynomial: degree at most {}, carried below {}",
            self.round_degree, self.lengths.points
        )?;
        writeln!(f, "  lengths: {}", self.lengths)?;
        write!(f, "  scratch: {}", self.scratch)
    }
}
