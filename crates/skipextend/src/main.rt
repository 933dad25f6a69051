// skipextend: opens domains and extends packed rows of bits to their transmitted points.
#![tactic(auto)]

mod domain;
mod fault;
mod session;

use lines::source::LineSource;
use session::Session;
use std::io::BufWriter;

fn run(rt: &HostRuntime) -> anyhow::Result<()> {
    let out = BufWriter::new(rt.alloc(), rt.stdout())?;
    let mut session = Session::new(rt.alloc(), out);
    let mut source = LineSource::new();
    for _ in 0..u64::MAX {
        if !source.advance(rt)? {
            break;
        }
        session.answer(source.number(), source.line())?;
    }
    session.finish()
}

fn main(rt: HostRuntime) -> anyhow::Result<()> {
    run(&rt)
}
