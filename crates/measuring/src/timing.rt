// The time of repetitions, and the checksum of what they leave.
ghost use Rattle.std.specs.Prelude.{◌≡◌, true, ◌<◌, ◌-◌, ◌*◌, ◌/◌, ◌^◌, ℕ, min, IfOk, OnOk};
ghost use Rattle.std.specs.Duration.{as_nanos};
ghost use Rattle.measuring.specs.Repetitions.{Repeated};

use std::rt::Clock;
use std::time::{Duration, Instant};

// What is timed.
pub trait Timed {
    // What stands before a repetition, and what after it.
    ghost repeats: { Self → Self → Type 0 };

    // The checksum of what stands here, from the one before.
    ghost sum: { Self → ℕ → ℕ };

    // One repetition.
    fn repeat(&mut self) -> anyhow::Result<()>
        ensures { OnOk result (repeats self.old self.new) };

    // The checksum with what stands here, from the one after the repetition before.
    fn checksum(&self, so_far: u64) -> u64
        ensures { result ≡ sum self.now so_far };

    // Whether a checksum hangs on what stands alone, and not on the one before. Then only the last is taken.
    fn stands_alone(&self) -> bool
        ensures { result ≡ true → (s : Self) (c d : ℕ) → sum s c ≡ sum s d }
    {
        false
    }

    // How many operations a repetition does.
    fn operations(&self) -> u32
        ensures { 0 < result };
}

// The least time of a repetition, the checksum after the last, and how many operations a repetition does.
#[derive(Clone, Copy)]
pub struct Outcome {
    pub least: Duration,
    pub checksum: u64,
    pub operations: u32,
    ghost some: { 0 < operations },
}

impl Outcome {
    // Repeats what is timed, and reads the clock before and after each repetition.
    pub fn of<T: Timed>(
        timed: &mut T,
        clock: &impl Clock,
        repetitions: u32,
    ) -> anyhow::Result<Outcome>
        ensures { IfOk result (λ o. Repeated T.repeats T.sum repetitions timed.old timed.new o.checksum) }
    {
        let last_alone = timed.stands_alone();
        let mut least = Duration::MAX;
        let mut checksum = 0;
        for i in 0..repetitions {
            let start = Instant::now(clock)?;
            timed.repeat()?;
            least = least.min(start.elapsed(clock)?);
            if !last_alone || i + 1 == repetitions {
                checksum = timed.checksum(checksum);
            }
        }
        Ok(Outcome {
            least,
            checksum,
            operations: timed.operations(),
        })
    }

    // The time of an operation, in thousandths of a nanosecond.
    pub fn thousandths(&self) -> u128
        ensures { result ≡ min (as_nanos self.now.least * 1000) (2 ^ 128 - 1) / self.now.operations }
    {
        self.least.as_nanos().saturating_mul(1000) / u128::from(self.operations)
    }

    // Prints the checksum, and on standard error the nanoseconds of an operation.
    pub fn print(&self, rt: &HostRuntime, name: &str) -> anyhow::Result<()> {
        let Outcome { checksum, .. } = *self;
        println!(rt; "{name} {checksum:016x}")?;
        let thousandths = self.thousandths();
        let (whole, part) = (thousandths / 1000, thousandths % 1000);
        eprintln!(rt; "{name} {whole}.{part:03}")?;
        Ok(())
    }
}
