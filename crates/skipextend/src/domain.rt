// A domain that is open, over one of the fields.
use crate::fault::Fault;
use extension_requests::request::{Domain, FieldName};
use field_dimensions::over::dimensions_over;
use fields::byte::Byte;
use fields::text::Hexadecimal;
use fields::tower::TowerLevel;
use fields::{Pair16, Pair32, Pile4};
use skip_lde::fault::CompressedLdeError;
use skip_lde::lde::CompressedLde;
use std::alloc::Global;
use std::fmt;

// Its extension, the table, and the row that was extended last.
#[derive(Drop)]
pub(crate) struct Extension<F> {
    lde: CompressedLde<F>,
    table: Vec<F>,
    values: Vec<F>,
}

impl<F: TowerLevel + Clone> Extension<F> {
    fn new(heap: Global, log_size: usize, log_extended: usize) -> Result<Extension<F>, Fault> {
        let dimensions = dimensions_over::<F>(log_size, log_extended)?;
        let mut table = vec![in heap; F::zero(); dimensions.table_len()]?;
        let values = vec![in heap; F::zero(); dimensions.num_transmitted()]?;
        let lde = CompressedLde::from_dimensions(dimensions, table.as_mut_slice())?;
        Ok(Extension { lde, table, values })
    }
}

impl<F: TowerLevel> Extension<F> {
    fn extend(&mut self, row: &[u8]) -> Result<(), CompressedLdeError> {
        let Extension { lde, table, values } = self;
        lde.extend(table.as_slice(), row, values.as_mut_slice())
    }
}

// The row that was extended last.
impl<F: TowerLevel> fmt::Display for Extension<F> {
    fn fmt<W: fmt::Write>(&self, f: &mut fmt::Formatter<W>) -> fmt::Result {
        let Some((first, rest)) = self.values.as_slice().split_first() else {
            return Ok(());
        };
        write!(f, "{}", Hexadecimal(*first))?;
        for x in rest {
            write!(f, " {}", Hexadecimal(*x))?;
        }
        Ok(())
    }
}

// The domain that is open, by its field.
#[derive(Drop)]
pub(crate) enum Open {
    Byte(Extension<Byte>),
    Bits16(Extension<Pair16>),
    Bits32(Extension<Pair32>),
    Pile4(Extension<Pile4>),
}

impl Open {
    // Opens a domain, or says why there is none.
    pub(crate) fn new(heap: Global, domain: Domain) -> Result<Open, Fault> {
        let log_size = domain.log_size as usize;
        let log_extended = domain.log_extended as usize;
        Ok(match domain.field {
            FieldName::Byte => Open::Byte(Extension::new(heap, log_size, log_extended)?),
            FieldName::Bits16 => Open::Bits16(Extension::new(heap, log_size, log_extended)?),
            FieldName::Bits32 => Open::Bits32(Extension::new(heap, log_size, log_extended)?),
            FieldName::Pile4 => Open::Pile4(Extension::new(heap, log_size, log_extended)?),
        })
    }

    // Extends a row to the transmitted points.
    pub(crate) fn extend(&mut self, row: &[u8]) -> Result<(), CompressedLdeError> {
        match self {
            Open::Byte(extension) => extension.extend(row),
            Open::Bits16(extension) => extension.extend(row),
            Open::Bits32(extension) => extension.extend(row),
            Open::Pile4(extension) => extension.extend(row),
        }
    }
}

impl fmt::Display for Open {
    fn fmt<W: fmt::Write>(&self, f: &mut fmt::Formatter<W>) -> fmt::Result {
        match self {
            Open::Byte(extension) => write!(f, "{extension}"),
            Open::Bits16(extension) => write!(f, "{extension}"),
            Open::Bits32(extension) => write!(f, "{extension}"),
            Open::Pile4(extension) => write!(f, "{extension}"),
        }
    }
}
