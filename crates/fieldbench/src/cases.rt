// The cases: an operation on every element of an array, and the inversion of a whole array.
ghost use Rattle.std.specs.Prelude.{◌≡◌, List, length};
ghost use Rattle.std.specs.Option.{unwrap_or};
ghost use Rattle.fields.specs.Batch.{batch_inverses};
ghost use Rattle.fieldbench.specs.Passes.{zipped};

use fields::batch::batch_multiplicative_inverse;
use fields::extension::ExtensionField;
use fields::field::Field;
use fields::tower::TowerLevel;

// What becomes of one value, and an operand.
pub trait Operation<F, X> {
    ghost answer: { F → X → F };

    fn apply(value: F, operand: X) -> F
        ensures { result ≡ answer value operand };
}

pub struct Product;

impl<F: Field> Operation<F, F> for Product {
    ghost answer = { λ x y. F.Field.ops.product x y };

    fn apply(value: F, operand: F) -> F {
        value.product(operand)
    }
}

// The product with an element of the base field, which lies where D says.
pub struct Scale<D> {
    base: D,
}

impl<F: Field, D, E: ExtensionField<F, D>> Operation<E, F> for Scale<D> {
    ghost answer = { λ x y. E.Field.ops.product x (E.ExtensionField.over.embed y) };

    fn apply(value: E, operand: F) -> E {
        value.scale(operand)
    }
}

// The inverse, or the operand where there is none.
pub struct Inverse;

impl<F: Field> Operation<F, F> for Inverse {
    ghost answer = { λ x y. unwrap_or (F.Field.ops.inverse x) y };

    fn apply(value: F, operand: F) -> F {
        value.inverse().unwrap_or(operand)
    }
}

// The solution of y·y + y = t, or t + top where there is none, which has one.
pub struct Solve;

impl<F: TowerLevel> Operation<F, F> for Solve {
    ghost answer = { λ x _. unwrap_or (F.TowerLevel.level.solve x) (F.Field.ops.sum x F.TowerLevel.level.top) };

    fn apply(value: F, _operand: F) -> F {
        value.solve().unwrap_or_else(|| value.sum(F::top()))
    }
}

// What becomes of an array of values, and as many operands.
pub trait Case<F, X> {
    ghost after: { List F → List X → List F };

    fn pass(values: &mut [F], operands: &[X])
        requires { length operands.now ≡ length values.old }
        ensures { values.new ≡ after values.old operands.now };
}

// The operation on every value and its operand.
pub struct Each<O> {
    operation: O,
}

impl<F: Copy, X: Copy, O: Operation<F, X>> Case<F, X> for Each<O> {
    ghost after = { zipped O.Operation.answer };

    #[tactic(auto, using(crate::proofs::Zips::zipped_turn, crate::proofs::Zips::zipped_all))]
    fn pass(values: &mut [F], operands: &[X]) {
        for (i, value) in values.iter_mut().enumerate() {
            *value = O::apply(*value, operands[i]);
        }
    }
}

pub struct BatchInverse;

impl<F: Field> Case<F, F> for BatchInverse {
    ghost after = { λ xs _. batch_inverses F.Field.ops xs };

    fn pass(values: &mut [F], _operands: &[F]) {
        let _ = batch_multiplicative_inverse(values);
    }
}
