// Times the field operations. Standard output has a checksum for each case, standard error the nanoseconds an operation.
// An argument is the number of repetitions.
#![tactic(auto)]

mod cases;
mod measure;

use cases::{BatchInverse, Each, Inverse, Product, Scale, Solve};
use fields::byte::Byte;
use fields::extension::{Here, Up};
use fields::{Pair16, Pair64};
use measure::measure;
use measuring::arguments::repetitions;
use std::env;

const DEFAULT_REPETITIONS: u32 = 4;

fn measure_products(rt: &HostRuntime, repetitions: u32) -> anyhow::Result<()> {
    measure::<Byte, Byte, Each<Product>>(rt, "product 8", repetitions)?;
    measure::<Pair16, Pair16, Each<Product>>(rt, "product 16", repetitions)?;
    measure::<Pair64, Pair64, Each<Product>>(rt, "product 64", repetitions)?;
    measure::<Pair16, Byte, Each<Scale<Up<Here>>>>(rt, "scale 16", repetitions)?;
    measure::<Pair64, Byte, Each<Scale<Up<Up<Up<Here>>>>>>(rt, "scale 64", repetitions)
}

fn measure_solutions(rt: &HostRuntime, repetitions: u32) -> anyhow::Result<()> {
    measure::<Byte, Byte, Each<Inverse>>(rt, "inverse 8", repetitions)?;
    measure::<Pair16, Pair16, Each<Inverse>>(rt, "inverse 16", repetitions)?;
    measure::<Pair64, Pair64, Each<Inverse>>(rt, "inverse 64", repetitions)?;
    measure::<Byte, Byte, Each<Solve>>(rt, "solve 8", repetitions)?;
    measure::<Pair16, Pair16, Each<Solve>>(rt, "solve 16", repetitions)?;
    measure::<Pair64, Pair64, Each<Solve>>(rt, "solve 64", repetitions)?;
    measure::<Pair64, Pair64, BatchInverse>(rt, "batch inverse 64", repetitions)
}

fn run(rt: &HostRuntime) -> anyhow::Result<()> {
    let repetitions = repetitions(env::args(rt)?.nth(1).as_deref(), DEFAULT_REPETITIONS)?;
    measure_products(rt, repetitions)?;
    measure_solutions(rt, repetitions)
}

fn main(rt: HostRuntime) -> anyhow::Result<()> {
    run(&rt)
}
