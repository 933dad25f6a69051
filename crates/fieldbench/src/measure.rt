// The time of a case, and a checksum of what it leaves.
ghost use Rattle.std.specs.Prelude.{◌≡◌, ◌≢◌, fold, vec_len, All, IfOk, MatchResult};
ghost use Rattle.measuring.specs.Checksum.{element_in};
ghost use Rattle.measuring.specs.Splitmix.{state_after, DrawnInTurn};
ghost use Rattle.fieldbench.specs.Passes.{passes};

use super::cases::Case;
use fields::tower::TowerLevel;
use measuring::checksum::checksum;
use measuring::generator::Generator;
use measuring::timing::{Outcome, Timed};
use std::alloc::{AllocError, Global};
use std::marker::PhantomData;

const SEED: u64 = 2024;

const LENGTH: usize = 4096;

// Passes over the array in each repetition; odd, so that two inversions do not cancel.
const PASSES: usize = 7;

const OPERATIONS: u32 = 7 * 4096;

// Elements, each from a number of the generator. Where memory runs out, none is drawn.
fn elements<F: TowerLevel>(
    source: &mut Generator,
    heap: Global,
    count: usize,
) -> Result<Vec<F>, AllocError>
    ensures state { MatchResult result (λ _. source.new.state ≡ state_after source.old.state count) (λ _. source.new.state ≡ source.old.state) }
    ensures count { IfOk result (λ v. vec_len v ≡ count) }
    ensures values { IfOk result (λ v. DrawnInTurn F.Field.ops F.TowerLevel.level source.old.state count v.items) }
    ensures nonzero { IfOk result (λ v. All (λ x. x ≢ F.Field.ops.zero) v.items) }
{
    let mut drawn = vec![in heap; F::zero(); count]?;
    source.fill_elements(drawn.as_mut_slice());
    Ok(drawn)
}

// An array of values and as many operands, for the passes of a case.
#[derive(Drop)]
struct Passes<F, X, C> {
    values: Vec<F>,
    operands: Vec<X>,
    case: PhantomData<C>,
    ghost paired: { vec_len operands ≡ vec_len values },
}

impl<F: TowerLevel, X: TowerLevel, C: Case<F, X>> Timed for Passes<F, X, C> {
    ghost repeats = { λ s t. (t.values.items ≡ passes (λ xs. C.Case.after xs s.operands.items) 7 s.values.items) × (t.operands ≡ s.operands) };

    ghost sum = { λ s so_far. fold (element_in F.TowerLevel.level) so_far s.values.items };

    fn repeat(&mut self) -> anyhow::Result<()> {
        for _ in 0..PASSES {
            C::pass(self.values.as_mut_slice(), self.operands.as_slice());
        }
        Ok(())
    }

    fn checksum(&self, so_far: u64) -> u64 {
        checksum(so_far, self.values.as_slice())
    }

    fn operations(&self) -> u32 {
        OPERATIONS
    }
}

// Prints a case's checksum, and its nanoseconds an operation.
pub(crate) fn measure<F: TowerLevel, X: TowerLevel, C: Case<F, X>>(
    rt: &HostRuntime,
    name: &str,
    repetitions: u32,
) -> anyhow::Result<()> {
    let mut source = Generator { state: SEED };
    let mut passes = Passes::<F, X, C> {
        values: elements(&mut source, rt.alloc(), LENGTH)?,
        operands: elements(&mut source, rt.alloc(), LENGTH)?,
        case: PhantomData,
    };
    Outcome::of(&mut passes, rt, repetitions)?.print(rt, name)
}
