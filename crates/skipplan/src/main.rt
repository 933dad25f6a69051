// skipplan: reads shapes, one a line, and prints the plan of each over the byte field, or why it
// has none.
#![tactic(auto)]

use lines::line::Line;
use lines::source::LineSource;
use plan_requests::shape::read_shape;
use skip_plan::plan::{Plan, PlanError, Shape};
use std::io::{BufWriter, Write};
use std::{fmt, io};

// The byte field has 2^3 bits.
const LOG_BITS: u32 = 3;

// What became of the lines so far.
#[derive(Clone, Copy, Default)]
struct Tally {
    planned: u64,
    refused: u64,
    unreadable: u64,
}

impl Tally {
    // Counts what came of a shape.
    fn count(&mut self, outcome: &Result<Plan, PlanError>) {
        let lines = match outcome {
            Ok(_) => &mut self.planned,
            Err(_) => &mut self.refused,
        };
        *lines = lines.saturating_add(1);
    }

    // Counts a line that is no shape.
    fn count_unreadable(&mut self) {
        self.unreadable = self.unreadable.saturating_add(1);
    }
}

impl fmt::Display for Tally {
    fn fmt<W: fmt::Write>(&self, f: &mut fmt::Formatter<W>) -> fmt::Result {
        let Tally {
            planned,
            refused,
            unreadable,
        } = self;
        write!(
            f,
            "{planned} planned, {refused} refused, {unreadable} unreadable"
        )
    }
}

// Prints what comes of a shape, and counts it.
fn answer<W: Write>(out: &mut W, shape: &Shape, tally: &mut Tally) -> io::Result<()> {
    writeln!(out, "shape {shape}")?;
    let outcome = shape.plan(LOG_BITS);
    tally.count(&outcome);
    match outcome {
        Ok(plan) => writeln!(out, "{plan}"),
        Err(error) => writeln!(out, "  {error}"),
    }
}

// The shape of a line, or none where the line is unreadable or is no shape.
fn shape_of(line: Line<'_>) -> Option<Shape> {
    match line {
        Line::Text(text) => read_shape(text),
        Line::Passed | Line::Unreadable => None,
    }
}

fn main(rt: HostRuntime) -> io::Result<()> {
    let mut out = BufWriter::new(rt.alloc(), rt.stdout())?;
    let mut source = LineSource::new();
    let mut tally = Tally::default();
    for _ in 0..u64::MAX {
        if !source.advance(&rt)? {
            break;
        }
        if let Line::Passed = source.line() {
            continue;
        }
        match shape_of(source.line()) {
            Some(shape) => answer(&mut out, &shape, &mut tally)?,
            None => {
                tally.count_unreadable();
                writeln!(out, "line {}: not a shape", source.number())?;
            }
        }
    }
    writeln!(out, "{tally}")?;
    out.flush()
}
