// Times the extension of packed rows and the construction of tables. Standard output has a checksum for each case,
// standard error the nanoseconds a row or a table. An argument is the number of repetitions.
#![tactic(auto)]

mod measure;

use fields::Pair16;
use fields::byte::Byte;
use measure::{measure_rows, measure_table};
use measuring::arguments::repetitions;
use std::env;

const DEFAULT_REPETITIONS: u32 = 1;

// Small tables that one repetition builds.
const TABLES: u32 = 32;

fn run(rt: &HostRuntime) -> anyhow::Result<()> {
    let repetitions = repetitions(env::args(rt)?.nth(1).as_deref(), DEFAULT_REPETITIONS)?;
    measure_rows::<Byte>(rt, "rows 6 7", 6, 7, repetitions)?;
    measure_rows::<Byte>(rt, "rows 7 8", 7, 8, repetitions)?;
    measure_table::<Byte>(rt, "table 6 7", 6, 7, TABLES, repetitions)?;
    measure_table::<Byte>(rt, "table 7 8", 7, 8, TABLES, repetitions)?;
    measure_table::<Pair16>(rt, "table 15 16", 15, 16, 1, repetitions)
}

fn main(rt: HostRuntime) -> anyhow::Result<()> {
    run(&rt)
}
