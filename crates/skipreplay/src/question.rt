// A question: a field, a call and what the call is about, in words; and its answer as it is written.
use crate::print::Refused;
use crate::text::Words;
use crate::unanswered::Unanswered;
use fields::byte::Byte;
use fields::tower::TowerLevel;
use fields::{Pair16, Pair32, Pair64, Pile8};
use std::alloc::{AllocError, Global};
use std::io::Write;
use words::numeral::{decimal, hexadecimal};
use words::packed::row_of;

// The fields by their names in a question: 8, 16, 32, and p8 for three pairs over Bit.
#[derive(Clone, Copy)]
enum FieldName {
    Byte,
    Bits16,
    Bits32,
    Pile8,
}

impl FieldName {
    fn named(word: &[u8]) -> Option<FieldName> {
        match word {
            b"8" => Some(FieldName::Byte),
            b"16" => Some(FieldName::Bits16),
            b"32" => Some(FieldName::Bits32),
            b"p8" => Some(FieldName::Pile8),
            _ => None,
        }
    }
}

#[derive(Clone, Copy)]
pub(crate) enum Call {
    Extra,
    New,
    Degree,
    Admits,
    Vanishing,
    Vanishings,
    Table,
    Extend,
    Batch,
    Conjunction,
    Square,
    Conjunction64,
    Square64,
}

impl Call {
    fn named(word: &[u8]) -> Option<Call> {
        match word {
            b"extra" => Some(Call::Extra),
            b"new" => Some(Call::New),
            b"degree" => Some(Call::Degree),
            b"admits" => Some(Call::Admits),
            b"vanishing" => Some(Call::Vanishing),
            b"vanishings" => Some(Call::Vanishings),
            b"table" => Some(Call::Table),
            b"extend" => Some(Call::Extend),
            b"batch" => Some(Call::Batch),
            b"conjunction" => Some(Call::Conjunction),
            b"square" => Some(Call::Square),
            b"conjunction64" => Some(Call::Conjunction64),
            b"square64" => Some(Call::Square64),
            _ => None,
        }
    }
}

// The dimensions and the length that most calls begin with.
#[derive(Clone, Copy)]
pub(crate) struct Numbers {
    pub(crate) first: usize,
    pub(crate) second: usize,
    pub(crate) third: usize,
}

// No buffer that a question lends is longer.
const LONGEST: usize = 1 << 24;

// The words that are not read yet, and the answer so far.
#[derive(Drop)]
pub(crate) struct Question<'a> {
    words: Words<'a>,
    pub(crate) answer: &'a mut Vec<u8>,
    heap: Global,
}

impl Question<'_> {
    // The next word.
    fn word(&mut self) -> Result<&[u8], Unanswered> {
        self.words.next().ok_or(Unanswered::Unknown)
    }

    pub(crate) fn number(&mut self) -> Result<usize, Unanswered> {
        let number = decimal(self.word()?).ok_or(Unanswered::Unknown)?;
        Ok(number as usize)
    }

    pub(crate) fn numbers(&mut self) -> Result<Numbers, Unanswered> {
        Ok(Numbers {
            first: self.number()?,
            second: self.number()?,
            third: self.number()?,
        })
    }

    pub(crate) fn element<F: TowerLevel>(&mut self) -> Result<F, Unanswered> {
        let number = hexadecimal(self.word()?).ok_or(Unanswered::Unknown)?;
        Ok(F::from_number(u128::from(number)))
    }

    // The elements that the other words write.
    pub(crate) fn elements<F: TowerLevel>(&mut self) -> Result<Vec<F>, Unanswered> {
        let mut values = Vec::new(self.heap);
        for word in self.words.by_ref() {
            let number = hexadecimal(word).ok_or(Unanswered::Unknown)?;
            values.push(F::from_number(u128::from(number)))?;
        }
        Ok(values)
    }

    // The packed bytes that digits write; `-` writes none.
    pub(crate) fn row(&mut self) -> Result<Vec<u8>, Unanswered> {
        let digits = match self.words.next().ok_or(Unanswered::Unknown)? {
            b"-" => &[],
            digits => digits,
        };
        row_of(self.heap, digits)?.ok_or(Unanswered::Unknown)
    }

    // A buffer filled with the element of number a5a5a5a5, cut to the width.
    pub(crate) fn lent<F: TowerLevel + Clone>(&self, len: usize) -> Result<Vec<F>, AllocError> {
        vec![in self.heap; F::from_number(0xa5a5_a5a5); len.min(LONGEST)]
    }

    // Reads the field and the call, and answers. The questions on an extension are not asked over p8.
    fn respond(&mut self) -> Result<(), Unanswered> {
        let field = self.words.next().and_then(FieldName::named);
        let call = self.words.next().and_then(Call::named);
        let (Some(field), Some(call)) = (field, call) else {
            return Err(Unanswered::Unknown);
        };
        match field {
            FieldName::Byte => self.respond_over::<Byte, Pair64, _>(call),
            FieldName::Bits16 => self.respond_over::<Pair16, Pair64, _>(call),
            FieldName::Bits32 => self.respond_over::<Pair32, Pair64, _>(call),
            FieldName::Pile8 => self.respond_in::<Pile8>(call),
        }
    }
}

// Answers a question into the buffer; a line that is no question gets `unknown`.
pub(crate) fn answer_question(
    answer: &mut Vec<u8>,
    heap: Global,
    text: &[u8],
) -> anyhow::Result<()> {
    let mut question = Question {
        words: Words(text),
        answer,
        heap,
    };
    match question.respond() {
        Ok(()) => {}
        Err(Unanswered::Unknown) => write!(question.answer, "unknown")?,
        Err(Unanswered::Refused(fault)) => write!(question.answer, "{}", Refused(fault))?,
        Err(Unanswered::OutOfMemory(error)) => return Err(anyhow::Error::from(error)),
        Err(Unanswered::Unwritten(error)) => return Err(anyhow::Error::from(error)),
    }
    Ok(())
}
