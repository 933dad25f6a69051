// What a line asks for: a field, an operation, and its operands.
ghost use Rattle.std.specs.Prelude.{◌≡◌, ◌^◌, ◌≤◌, MatchResult, Some, Ok, Err};
ghost use Rattle.words.specs.Words.{words};
ghost use Rattle.field_requests.specs.Requests.{named_field, bits_of, scales_of, reason_text, none_of, one_word, two_words, element_of, one_of, two_of, index_of, question_for, request_for, requested};

use crate::calculation::Question;
use std::error::Error;
use std::fmt;
use words::numeral::{decimal, hexadecimal};
use words::word::split_word;

// The fields, each by its name on a line: 1, 8, 16, 32, 64, and p2, p4, p8 for piles of pairs over Bit.
#[derive(Clone, Copy)]
pub enum FieldName {
    Bit,
    Byte,
    Bits16,
    Bits32,
    Bits64,
    Pile2,
    Pile4,
    Pile8,
}

// A question about elements by their numbers, the product of an element and a byte, or the number of bits.
#[derive(Clone, Copy)]
pub enum Request {
    Question(Question<u64>),
    Scale(u64, u64),
    Bits,
}

// Why a line has no answer, in the order in which it is found.
#[derive(Clone, Copy, PartialEq, Eq, Debug)]
pub enum Reason {
    UnknownField,
    UnknownOperation,
    WrongOperands,
    NotAnElement,
    NotANumber,
}

impl fmt::Display for Reason {
    ghost output = { λ reason. Some (reason_text reason) };

    fn fmt<W: fmt::Write>(&self, f: &mut fmt::Formatter<W>) -> fmt::Result {
        f.write_str(match self {
            Reason::UnknownField => "unknown field",
            Reason::UnknownOperation => "unknown operation",
            Reason::WrongOperands => "wrong operands",
            Reason::NotAnElement => "not an element",
            Reason::NotANumber => "not a number",
        })
    }
}

impl Error for Reason {}

fn field_named(word: &[u8]) -> Option<FieldName>
    ensures { result ≡ named_field word.now }
{
    match word {
        b"1" => Some(FieldName::Bit),
        b"8" => Some(FieldName::Byte),
        b"16" => Some(FieldName::Bits16),
        b"32" => Some(FieldName::Bits32),
        b"64" => Some(FieldName::Bits64),
        b"p2" => Some(FieldName::Pile2),
        b"p4" => Some(FieldName::Pile4),
        b"p8" => Some(FieldName::Pile8),
        _ => None,
    }
}

impl FieldName {
    // Number of bits of an element.
    pub fn bits(&self) -> u32
        ensures value { result ≡ bits_of self.now }
        ensures within { result ≤ 64 }
    {
        match self {
            FieldName::Bit => 1,
            FieldName::Pile2 => 2,
            FieldName::Pile4 => 4,
            FieldName::Byte | FieldName::Pile8 => 8,
            FieldName::Bits16 => 16,
            FieldName::Bits32 => 32,
            FieldName::Bits64 => 64,
        }
    }

    // Whether the field has Byte below it, so that an element can be scaled by a byte.
    fn scales(&self) -> bool
        ensures { result ≡ scales_of self.now }
    {
        matches!(
            self,
            FieldName::Bits16 | FieldName::Bits32 | FieldName::Bits64
        )
    }
}

// The words after an operation that takes none, one or two; another number of them is wrong.
fn no_operand(operands: &[u8]) -> Result<(), Reason>
    ensures { result ≡ none_of (words operands.now) }
{
    match split_word(operands) {
        None => Ok(()),
        Some(_) => Err(Reason::WrongOperands),
    }
}

fn one_operand(operands: &[u8]) -> Result<&[u8], Reason>
    ensures { MatchResult result (λ word. one_word (words operands.now) ≡ Ok word.now) (λ e. one_word (words operands.now) ≡ Err e) }
{
    let (word, rest) = split_word(operands).ok_or(Reason::WrongOperands)?;
    no_operand(rest)?;
    Ok(word)
}

fn two_operands(operands: &[u8]) -> Result<(&[u8], &[u8]), Reason>
    ensures { MatchResult result (λ p. two_words (words operands.now) ≡ Ok (p.0.now, p.1.now)) (λ e. two_words (words operands.now) ≡ Err e) }
{
    let (first, rest) = split_word(operands).ok_or(Reason::WrongOperands)?;
    Ok((first, one_operand(rest)?))
}

// The number of an element of the field.
fn element(field: FieldName, word: &[u8]) -> Result<u64, Reason>
    ensures { result ≡ element_of field word.now }
{
    let bits = field.bits();
    hexadecimal(word)
        .filter(|n| u128::from(*n) < 1 << bits)
        .ok_or(Reason::NotAnElement)
}

#[tactic(auto, unfolding(crate::specs::Requests::one_of))]
fn one_element(field: FieldName, operands: &[u8]) -> Result<u64, Reason>
    ensures { result ≡ one_of field (words operands.now) }
{
    element(field, one_operand(operands)?)
}

// Two elements, each of a field of its own.
#[tactic(auto, unfolding(crate::specs::Requests::two_of))]
fn two_elements(first: FieldName, second: FieldName, operands: &[u8]) -> Result<(u64, u64), Reason>
    ensures { result ≡ two_of first second (words operands.now) }
{
    let (x, y) = two_operands(operands)?;
    Ok((element(first, x)?, element(second, y)?))
}

// A place in a list: any decimal.
fn index(operands: &[u8]) -> Result<usize, Reason>
    ensures { result ≡ index_of (words operands.now) }
{
    let word = one_operand(operands)?;
    let index = decimal(word).ok_or(Reason::NotANumber)?;
    Ok(index as usize)
}

// The question of an operation that every field has.
#[tactic(auto, unfolding(crate::specs::Requests::question_for))]
fn question_of(field: FieldName, operation: &[u8], operands: &[u8]) -> Result<Question<u64>, Reason>
    ensures { result ≡ question_for field operation.now (words operands.now) }
{
    match operation {
        b"sum" => two_elements(field, field, operands).map(|(x, y)| Question::Sum(x, y)),
        b"product" => two_elements(field, field, operands).map(|(x, y)| Question::Product(x, y)),
        b"equal" => two_elements(field, field, operands).map(|(x, y)| Question::Equal(x, y)),
        b"inverse" => one_element(field, operands).map(Question::Inverse),
        b"solve" => one_element(field, operands).map(Question::Solve),
        b"top" => no_operand(operands).map(|()| Question::Top),
        b"basis" => index(operands).map(Question::Basis),
        b"point" => index(operands).map(Question::Point),
        _ => Err(Reason::UnknownOperation),
    }
}

// The request of an operation at a field that has it, with its operands.
fn request_of(field: FieldName, operation: &[u8], operands: &[u8]) -> Result<Request, Reason>
    ensures { result ≡ request_for field operation.now (words operands.now) }
{
    match operation {
        b"scale" if field.scales() => {
            two_elements(field, FieldName::Byte, operands).map(|(x, byte)| Request::Scale(x, byte))
        }
        b"bits" => no_operand(operands).map(|()| Request::Bits),
        _ => question_of(field, operation, operands).map(Request::Question),
    }
}

// What a line asks for, or the first reason why it cannot be answered.
pub fn read_request(text: &[u8]) -> Result<(FieldName, Request), Reason>
    ensures { result ≡ requested (words text.now) }
{
    let (name, rest) = split_word(text).ok_or(Reason::UnknownField)?;
    let field = field_named(name).ok_or(Reason::UnknownField)?;
    let (operation, operands) = split_word(rest).ok_or(Reason::UnknownOperation)?;
    Ok((field, request_of(field, operation, operands)?))
}
