// The matching rules by their codes.
ghost use Rattle.std.specs.Prelude.{◌≡◌, Some};
ghost use Rattle.std.specs.Option.{ok_or};
ghost use Rattle.skip_composition.specs.Declarations.{declared_by};
ghost use Rattle.skip_composition.specs.MonomialSumsLemmas.{declares_ones};
ghost use Rattle.skip_composition.specs.Polynomials.{with_ones};
ghost use Rattle.skip_composition.specs.Rules.{coded, arity_of, degree_of, text_of, unknown_text};
ghost use Rattle.skip_composition.specs.Rules.{monomials as monomials_of};

use crate::composition::Composition;
use crate::conjunction::Conjunction;
use crate::gate::{Gate, one_more};
use crate::monomial_sum::MonomialSum;
use crate::operand::operand;
use fields::extension::ExtensionField;
use fields::field::Field;
use std::error::Error;
use std::fmt;

// A rule of the round file. A row keeps its rule where the rule's value is zero.
#[derive(Clone, Copy, PartialEq, Eq, Debug)]
pub enum Rule {
    // a: the bit is clear
    Zero,
    // a*a + a: the value is a bit
    Boolean,
    // a*b + c: the third operand is the conjunction of the first two
    Conjunction,
    // g*(a*b + c): a stop order's chain, the conjunction where the gate g is open
    StopChain,
}

// A code that no rule has.
#[derive(Clone, Copy, PartialEq, Eq, Debug)]
pub struct UnknownRule {
    pub code: usize,
}

impl Rule {
    // The rule of a code, or none for a code above 3.
    pub fn from_code(code: usize) -> Option<Rule>
        ensures { result ≡ coded code }
    {
        Rule::try_from(code).ok()
    }

    // Number of operands that the rule reads.
    pub fn arity(&self) -> u16
        ensures { result ≡ arity_of self.now }
    {
        match self {
            Rule::Zero | Rule::Boolean => 1,
            Rule::Conjunction => 3,
            Rule::StopChain => one_more(3),
        }
    }

    // Total degree of the rule in its operands.
    pub fn degree(&self) -> u16
        ensures { result ≡ degree_of self.now }
    {
        match self {
            Rule::Zero => 1,
            Rule::Boolean | Rule::Conjunction => 2,
            Rule::StopChain => one_more(2),
        }
    }

    // The rule as a planner writes it.
    pub fn text(&self) -> &'static str
        ensures { result.now ≡ text_of self.now }
    {
        match self {
            Rule::Zero => "a",
            Rule::Boolean => "a*a + a",
            Rule::Conjunction => "a*b + c",
            Rule::StopChain => "g*(a*b + c)",
        }
    }
}

impl TryFrom<usize> for Rule {
    type Error = UnknownRule;

    ghost try_from_gives = { λ code r. r ≡ ok_or (coded code) (record { code = code }) };

    fn try_from(code: usize) -> Result<Rule, UnknownRule> {
        match code {
            0 => Ok(Rule::Zero),
            1 => Ok(Rule::Boolean),
            2 => Ok(Rule::Conjunction),
            3 => Ok(Rule::StopChain),
            _ => Err(UnknownRule { code }),
        }
    }
}

impl fmt::Display for Rule {
    ghost output = { λ r. Some (text_of r) };

    fn fmt<W: fmt::Write>(&self, f: &mut fmt::Formatter<W>) -> fmt::Result {
        f.write_str(self.text())
    }
}

impl fmt::Display for UnknownRule {
    ghost output = { λ e. Some (unknown_text e.code) };

    fn fmt<W: fmt::Write>(&self, f: &mut fmt::Formatter<W>) -> fmt::Result {
        write!(f, "no rule has code {}", self.code)
    }
}

impl Error for UnknownRule {}

impl MonomialSum for Rule {
    ghost monomials = { monomials_of };

    fn arity(&self) -> u16 {
        Rule::arity(self)
    }

    fn degree(&self) -> u16 {
        Rule::degree(self)
    }

    // The stop chain is the gate over the conjunction.
    fn value<E: Field>(&self, values: &[E]) -> E {
        match self {
            Rule::Zero => operand(values, 0),
            Rule::Boolean => {
                let a = operand(values, 0);
                a.product(a).sum(a)
            }
            Rule::Conjunction => Conjunction.value(values),
            Rule::StopChain => Gate { inner: Conjunction }.eval_base(values),
        }
    }
}

impl<F: Field> Composition<F> for Rule {
    ghost polynomial = { λ r. with_ones F.Field.ops (monomials_of r) };

    ghost declared = { λ r. declared_by (monomials_of r) };

    ghost declares = { λ r. declares_ones F.Field.ops (monomials_of r) };

    fn arity(&self) -> u16 {
        MonomialSum::arity(self)
    }

    fn degree(&self) -> u16 {
        MonomialSum::degree(self)
    }

    #[tactic(auto, using(crate::proofs::Values::ones_embed))]
    fn eval_extension<EF: ExtensionField<F, D>, D>(&self, values: &[EF]) -> EF {
        self.value(values)
    }
}
