// A sum of monomials of one's own, as a composition.
ghost use Rattle.std.specs.Prelude.{[], ◌∷◌};

use fields::Pair16;
use fields::byte::Byte;
use fields::extension::{Here, Up};
use fields::field::Field;
use fields::tower::TowerLevel;
use skip_composition::composition::Composition;
use skip_composition::gate::Gate;
use skip_composition::monomial_sum::{LentSum, MonomialSum};
use skip_composition::sum_composition::SumComposition;
use std::test::Fail;

// a·b·b + b
#[derive(Clone, Copy)]
struct Selected;

impl MonomialSum for Selected {
    ghost monomials = { λ _. (0 ∷ 1 ∷ 1 ∷ []) ∷ (1 ∷ []) ∷ [] };

    fn arity(&self) -> u16 {
        2
    }

    fn degree(&self) -> u16 {
        3
    }

    fn value<E: Field>(&self, values: &[E]) -> E {
        let a = values.first().copied().unwrap_or(E::zero());
        let b = values.get(1).copied().unwrap_or(E::zero());
        a.product(b.product(b)).sum(b)
    }
}

// The value of a gate over a sum that is lent.
fn gated<S: MonomialSum, F: TowerLevel>(sum: &S, values: &[F]) -> u128 {
    let gate = Gate {
        inner: SumComposition(LentSum(sum)),
    };
    gate.eval_base(values).to_number()
}

#[test]
fn own_sum_is_a_composition(rt: HostRuntime) -> Result<(), Fail> {
    let sum = SumComposition(Selected);
    assert_eq!(rt; Composition::<Byte>::arity(&sum), 2);
    assert_eq!(rt; Composition::<Byte>::degree(&sum), 3);
    let bytes = [Byte::from_number(0x57), Byte::from_number(0x83)];
    assert_eq!(rt; sum.eval_base(bytes.as_slice()).to_number(), 0xfd);
    let pairs = [Pair16::from_number(0xa157), Pair16::from_number(0x0283)];
    let value = Composition::<Byte>::eval_extension::<Pair16, Up<Here>>(&sum, pairs.as_slice());
    assert_eq!(rt; value.to_number(), 0xaa05);
    Ok(())
}

#[test]
fn lent_sum_takes_a_gate(rt: HostRuntime) {
    let bytes = [
        Byte::from_number(0x01),
        Byte::from_number(0x57),
        Byte::from_number(0x83),
    ];
    let lent = LentSum(&Selected);
    assert_eq!(rt; lent.arity(), 2);
    assert_eq!(rt; lent.degree(), 3);
    assert_eq!(rt; gated(&Selected, bytes.as_slice()), 0xfd);
    assert_eq!(rt; gated(&Selected, &bytes[0..2]), 0);
}
