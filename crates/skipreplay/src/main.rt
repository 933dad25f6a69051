// skipreplay: answers questions about domains, tables, rows and compositions, one a line, and compares
// its answers with those that the input gives. A line `= ANSWER` is the answer that the question before it
// should have; an answer that no such line follows is printed.
#![tactic(auto)]

mod calls;
mod print;
mod question;
mod text;
mod unanswered;

use crate::question::answer_question;
use lines::line::Line;
use lines::source::LineSource;
use std::alloc::Global;
use std::io;
use std::io::{BufWriter, Write};

// The text of an expected answer, or none for a line that is a question.
fn expected(text: &[u8]) -> Option<&[u8]> {
    match text {
        [b'=', b' ', rest @ ..] => Some(rest),
        _ => None,
    }
}

// The last answer, as long as nothing was compared with it, and what was compared so far.
#[derive(Drop)]
struct Replay<W> {
    out: W,
    pending: Vec<u8>,
    compared: u64,
    agreed: u64,
}

impl<W: Write + Drop> Replay<W> {
    // Prints an answer that nothing was compared with.
    fn print_pending(&mut self) -> io::Result<()> {
        if !self.pending.is_empty() {
            self.out.write_all(self.pending.as_slice())?;
            self.out.write_all(b"\n")?;
            self.pending.clear();
        }
        Ok(())
    }

    // Compares the last answer with the one that is expected.
    fn compare(&mut self, number: u64, wanted: &[u8]) -> io::Result<()> {
        self.compared = self.compared.saturating_add(1);
        if self.pending.as_slice() == wanted {
            self.agreed = self.agreed.saturating_add(1);
        } else {
            write!(self.out, "line {number}: ")?;
            self.out.write_all(self.pending.as_slice())?;
            self.out.write_all(b"\n")?;
        }
        self.pending.clear();
        Ok(())
    }

    // Takes a line: an expected answer, or a question.
    fn take(&mut self, heap: Global, number: u64, line: Line) -> anyhow::Result<()> {
        match line {
            Line::Passed => {}
            Line::Unreadable => writeln!(self.out, "line {number}: unreadable")?,
            Line::Text(text) => match expected(text) {
                Some(wanted) => self.compare(number, wanted)?,
                None => {
                    self.print_pending()?;
                    answer_question(&mut self.pending, heap, text)?;
                }
            },
        }
        Ok(())
    }

    fn finish(&mut self) -> io::Result<()> {
        self.print_pending()?;
        let (compared, agreed) = (self.compared, self.agreed);
        if compared > 0 {
            let differed = compared.saturating_sub(agreed);
            writeln!(
                self.out,
                "{compared} answers, {agreed} agreed, {differed} differed"
            )?;
        }
        self.out.flush()
    }
}

fn run(rt: &HostRuntime) -> anyhow::Result<()> {
    let mut source = LineSource::new();
    let mut replay = Replay {
        out: BufWriter::new(rt.alloc(), rt.stdout())?,
        pending: Vec::new(rt.alloc()),
        compared: 0,
        agreed: 0,
    };
    for _ in 0..u64::MAX {
        if !source.advance(rt)? {
            break;
        }
        let number = source.number();
        replay.take(rt.alloc(), number, source.line())?;
    }
    Ok(replay.finish()?)
}

fn main(rt: HostRuntime) -> anyhow::Result<()> {
    run(&rt)
}
