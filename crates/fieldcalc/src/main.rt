// fieldcalc: reads lines of field arithmetic and prints one answer for each, so that an exchange can
// check its own arithmetic against ours.
#![tactic(auto)]

use field_requests::calculation::{Question, calculate, element, scale_by_byte};
use field_requests::request::{FieldName, Reason, Request, read_request};
use fields::bit::Bit;
use fields::byte::Byte;
use fields::extension::ExtensionField;
use fields::text::Hexadecimal;
use fields::tower::TowerLevel;
use fields::{Pair16, Pair32, Pair64, Pile2, Pile4, Pile8};
use lines::line::Line;
use lines::source::LineSource;
use std::io;
use std::io::{BufWriter, Write};

// Answers a question in the field F.
fn answer_in<F: TowerLevel, W: Write>(out: &mut W, question: Question<u64>) -> io::Result<()> {
    writeln!(out, "{}", calculate(question.in_field::<F>()))
}

// Answers with the product of an element of F and a byte.
fn scale_in<F: TowerLevel + ExtensionField<Byte, D>, D, W: Write>(
    out: &mut W,
    number: u64,
    byte: u64,
) -> io::Result<()> {
    let product: F = scale_by_byte(element(number), element(byte));
    writeln!(out, "{}", Hexadecimal(product))
}

fn answer_question<W: Write>(
    out: &mut W,
    field: FieldName,
    question: Question<u64>,
) -> io::Result<()> {
    match field {
        FieldName::Bit => answer_in::<Bit, _>(out, question),
        FieldName::Byte => answer_in::<Byte, _>(out, question),
        FieldName::Bits16 => answer_in::<Pair16, _>(out, question),
        FieldName::Bits32 => answer_in::<Pair32, _>(out, question),
        FieldName::Bits64 => answer_in::<Pair64, _>(out, question),
        FieldName::Pile2 => answer_in::<Pile2, _>(out, question),
        FieldName::Pile4 => answer_in::<Pile4, _>(out, question),
        FieldName::Pile8 => answer_in::<Pile8, _>(out, question),
    }
}

// The fields above Byte alone have products with bytes.
fn answer_scale<W: Write>(out: &mut W, field: FieldName, number: u64, byte: u64) -> io::Result<()> {
    match field {
        FieldName::Bits16 => scale_in::<Pair16, _, _>(out, number, byte),
        FieldName::Bits32 => scale_in::<Pair32, _, _>(out, number, byte),
        FieldName::Bits64 => scale_in::<Pair64, _, _>(out, number, byte),
        _ => writeln!(out, "{}", Reason::UnknownOperation),
    }
}

fn answer<W: Write>(out: &mut W, field: FieldName, request: Request) -> io::Result<()> {
    match request {
        Request::Question(question) => answer_question(out, field, question),
        Request::Scale(number, byte) => answer_scale(out, field, number, byte),
        Request::Bits => writeln!(out, "{}", field.bits()),
    }
}

fn answer_text<W: Write>(out: &mut W, number: u64, text: &[u8]) -> io::Result<()> {
    match read_request(text) {
        Ok((field, request)) => answer(out, field, request),
        Err(reason) => writeln!(out, "line {number}: {reason}"),
    }
}

fn main(rt: HostRuntime) -> io::Result<()> {
    let mut out = BufWriter::new(rt.alloc(), rt.stdout())?;
    let mut source = LineSource::new();
    for _ in 0..u64::MAX {
        if !source.advance(&rt)? {
            break;
        }
        let number = source.number();
        match source.line() {
            Line::Passed => {}
            Line::Unreadable => writeln!(out, "line {number}: unreadable")?,
            Line::Text(text) => answer_text(&mut out, number, text)?,
        }
    }
    out.flush()
}
