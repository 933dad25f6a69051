// The lines of a session: the domain that is open, and what became of the lines so far.
use crate::domain::Open;
use crate::fault::Fault;
use extension_requests::request::{Domain, Request, read_request};
use lines::line::Line;
use skip_dimensions::refusal::Refusal;
use std::alloc::Global;
use std::fmt;
use std::io::Write;
use words::packed::row_of;

// How many domains were opened, rows extended, and either refused.
#[derive(Clone, Copy, Default)]
struct Tally {
    domains: u64,
    extended: u64,
    refused: u64,
}

impl fmt::Display for Tally {
    fn fmt<W: fmt::Write>(&self, f: &mut fmt::Formatter<W>) -> fmt::Result {
        let Tally {
            domains,
            extended,
            refused,
        } = self;
        write!(
            f,
            "{domains} domains, {extended} rows extended, {refused} refused"
        )
    }
}

#[derive(Drop)]
pub(crate) struct Session<W> {
    heap: Global,
    out: W,
    open: Option<Open>,
    tally: Tally,
}

impl<W: Write> Session<W> {
    pub(crate) fn new(heap: Global, out: W) -> Session<W> {
        Session {
            heap,
            out,
            open: None,
            tally: Tally::default(),
        }
    }

    // Answers a line, or says what is wrong with it.
    pub(crate) fn answer(&mut self, number: u64, line: Line<'_>) -> anyhow::Result<()> {
        let outcome = match line {
            Line::Passed => Ok(()),
            Line::Unreadable => Err(Fault::UnknownLine),
            Line::Text(text) => self.answer_text(text),
        };
        match outcome {
            Ok(()) => {}
            Err(Fault::UnknownLine) => writeln!(self.out, "line {number}: unknown line")?,
            Err(Fault::NotARow) => writeln!(self.out, "line {number}: not a row")?,
            Err(Fault::NoDomain) => writeln!(self.out, "line {number}: no domain")?,
            Err(Fault::Refused(cause)) => {
                let (number, values) = (cause.number(), cause.values());
                self.tally.refused = self.tally.refused.saturating_add(1);
                writeln!(self.out, "refused {number}{values}")?;
            }
            Err(Fault::System(error)) => return Err(error),
        }
        Ok(())
    }

    fn answer_text(&mut self, text: &[u8]) -> Result<(), Fault> {
        match read_request(text).ok_or(Fault::UnknownLine)? {
            Request::Domain(domain) => self.open(domain),
            Request::Row(digits) => self.extend(digits),
        }
    }

    // Opens a domain; one that is refused leaves none open.
    fn open(&mut self, domain: Domain) -> Result<(), Fault> {
        self.open = None;
        self.open = Some(Open::new(self.heap, domain)?);
        self.tally.domains = self.tally.domains.saturating_add(1);
        let Domain {
            field,
            log_size,
            log_extended,
        } = domain;
        writeln!(self.out, "domain {field} {log_size} {log_extended}")?;
        Ok(())
    }

    // Extends the row of these digits in the domain that is open.
    fn extend(&mut self, digits: &[u8]) -> Result<(), Fault> {
        let row = row_of(self.heap, digits)?.ok_or(Fault::NotARow)?;
        let Some(open) = &mut self.open else {
            return Err(Fault::NoDomain);
        };
        open.extend(row.as_slice())?;
        self.tally.extended = self.tally.extended.saturating_add(1);
        writeln!(self.out, "{open}")?;
        Ok(())
    }

    // Prints what became of the lines.
    pub(crate) fn finish(mut self) -> anyhow::Result<()>
    where
        W: Drop,
    {
        let tally = self.tally;
        writeln!(self.out, "{tally}")?;
        self.out.flush()?;
        Ok(())
    }
}
