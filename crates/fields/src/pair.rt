// The pairs a + bX over a level, with X·X = X + top.
ghost use Rattle.std.specs.Prelude.{◌≡◌, if◌then◌else◌, Some, None, nat_lt};
ghost use Rattle.fields.specs.Tower.{width};
ghost use Rattle.fields.specs.Pairs.{norm as norm_of, pair_ops, pair_level, pair_embedding};
ghost use Rattle.fields.specs.Levels.{no_root};
ghost use Rattle.fields.specs.PairLaws.{pair_field, pair_equality};
ghost use Rattle.fields.specs.PairBasis.{pair_tower};
ghost use Rattle.fields.specs.PairExtends.{pair_extends};

use super::extension::{ExtensionField, Up};
use super::field::Field;
use super::tower::TowerLevel;

#[derive(Clone, Copy, PartialEq, Eq)]
pub struct Pair<B> {
    pub low: B,
    pub high: B,
}

// The product of `x` with its conjugate.
fn norm<B: TowerLevel>(x: Pair<B>) -> B
    ensures { result ≡ norm_of B.Field.ops B.TowerLevel.level.top x }
{
    x.low
        .product(x.low.sum(x.high))
        .sum(x.high.product(x.high).times_top())
}

// The number of bits of a half, where it is below 128.
fn half_bits<B: TowerLevel>() -> Option<u32>
    ensures { result ≡ (if nat_lt B.TowerLevel.level.log_bits 7 then Some (width B.TowerLevel.level) else None) }
{
    let log = B::log_bits();
    (log < 7).then(|| 1 << log)
}

impl<B: TowerLevel> Field for Pair<B> {
    ghost ops = { pair_ops B.Field.ops B.TowerLevel.level.top };

    ghost laws = { let L = B.Field.laws in
        pair_field L _ (no_root B.TowerLevel.tower.solving L.ring) };

    ghost equality = { pair_equality B.Field.ops B.TowerLevel.level.top B.Field.equality };

    fn zero() -> Pair<B> {
        Pair {
            low: B::zero(),
            high: B::zero(),
        }
    }

    fn one() -> Pair<B> {
        Pair {
            low: B::one(),
            high: B::zero(),
        }
    }

    fn sum(self, other: Pair<B>) -> Pair<B> {
        Pair {
            low: self.low.sum(other.low),
            high: self.high.sum(other.high),
        }
    }

    // With three products of halves, not four.
    #[tactic(auto, using(crate::specs::PairLaws::three_products))]
    fn product(self, other: Pair<B>) -> Pair<B> {
        let lows = self.low.product(other.low);
        let highs = self.high.product(other.high);
        let both = self.low.sum(self.high).product(other.low.sum(other.high));
        Pair {
            low: lows.sum(highs.times_top()),
            high: both.sum(lows),
        }
    }

    fn inverse(self) -> Option<Pair<B>> {
        norm(self).inverse().map(|n| Pair {
            low: self.low.sum(self.high).product(n),
            high: self.high.product(n),
        })
    }
}

impl<B: TowerLevel> TowerLevel for Pair<B> {
    ghost level = { pair_level B.Field.ops B.TowerLevel.level };

    ghost tower = { pair_tower B.Field.laws B.TowerLevel.tower };

    fn log_bits() -> usize {
        (B::log_bits() + 1).min(64)
    }

    fn from_number(n: u128) -> Pair<B> {
        let high = match half_bits::<B>() {
            Some(bits) => n >> bits,
            None => 0,
        };
        Pair {
            low: B::from_number(n),
            high: B::from_number(high),
        }
    }

    fn to_number(self) -> u128 {
        let low = self.low.to_number();
        match half_bits::<B>() {
            Some(bits) => low + (self.high.to_number() << bits),
            None => low,
        }
    }

    fn top() -> Pair<B> {
        Pair {
            low: B::zero(),
            high: B::top(),
        }
    }

    #[tactic(auto, using(crate::specs::PairLaws::top_product))]
    fn times_top(self) -> Pair<B> {
        Pair {
            low: self.high.times_top().times_top(),
            high: self.low.sum(self.high).times_top(),
        }
    }

    fn solve(self) -> Option<Pair<B>> {
        let high = self.high.solve()?;
        let rest = self.low.sum(high.product(high).times_top());
        match rest.solve() {
            Some(low) => Some(Pair { low, high }),
            None => {
                let low = rest.sum(B::top()).solve()?;
                Some(Pair {
                    low,
                    high: high.sum(B::one()),
                })
            }
        }
    }
}

impl<F: Field, D, B> ExtensionField<F, Up<D>> for Pair<B>
where
    B: TowerLevel + ExtensionField<F, D>,
{
    ghost over = { pair_embedding B.Field.ops B.ExtensionField.over };

    ghost extends = { pair_extends B.Field.laws _ B.ExtensionField.extends };

    fn embed(x: F) -> Pair<B> {
        Pair {
            low: B::embed(x),
            high: B::zero(),
        }
    }

    fn as_base(self) -> Option<F> {
        if self.high == B::zero() {
            self.low.as_base()
        } else {
            None
        }
    }

    #[tactic(auto, using(crate::specs::PairExtends::scale_halves))]
    fn scale(self, x: F) -> Pair<B> {
        Pair {
            low: self.low.scale(x),
            high: self.high.scale(x),
        }
    }
}
