// How elements, lists of them and refusals are written.
use fields::text::Hexadecimal;
use fields::tower::TowerLevel;
use measuring::checksum::checksum;
use skip_dimensions::refusal::Refusal;
use skip_lde::fault::CompressedLdeError;
use std::fmt;

// A list of more elements is written by its length and a digest.
const WRITTEN_OUT: usize = 32;

// The elements parted by spaces, or their number and digest; `-` for none.
#[derive(Clone, Copy)]
pub(crate) struct Elements<'a, F>(pub(crate) &'a [F]);

impl<F: TowerLevel> fmt::Display for Elements<'_, F> {
    fn fmt<W: fmt::Write>(&self, f: &mut fmt::Formatter<W>) -> fmt::Result {
        let Some((first, rest)) = self.0.split_first() else {
            return write!(f, "-");
        };
        let count = self.0.len();
        if count > WRITTEN_OUT {
            let digest = checksum(0, self.0);
            return write!(f, "{count}:{digest:016x}");
        }
        write!(f, "{}", Hexadecimal(*first))?;
        for element in rest {
            write!(f, " {}", Hexadecimal(*element))?;
        }
        Ok(())
    }
}

// A refusal by its number and its values.
#[derive(Clone, Copy)]
pub(crate) struct Refused(pub(crate) CompressedLdeError);

impl fmt::Display for Refused {
    fn fmt<W: fmt::Write>(&self, f: &mut fmt::Formatter<W>) -> fmt::Result {
        let Refused(fault) = self;
        write!(f, "refused {}{}", fault.number(), fault.values())
    }
}
