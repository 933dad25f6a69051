// What a line asks for: a domain, or a row to extend.
ghost use Rattle.std.specs.Prelude.{◌≡◌, [], ◌∷◌, Some, MatchOption};
ghost use Rattle.words.specs.Words.{words};
ghost use Rattle.extension_requests.specs.Requests.{named_field, field_name, shown, domain_written, only_word, requested};

use std::fmt;
use words::numeral::decimal;
use words::word::split_word;

// The fields by their names on a line: 8, 16, 32, and p4 for two pairs over Bit.
#[derive(Clone, Copy)]
pub enum FieldName {
    Byte,
    Bits16,
    Bits32,
    Pile4,
}

// A domain by its field and its dimensions.
#[derive(Clone, Copy)]
pub struct Domain {
    pub field: FieldName,
    pub log_size: u64,
    pub log_extended: u64,
}

// A domain to open, or the digits of a row.
#[derive(Clone, Copy)]
pub enum Request<'a> {
    Domain(Domain),
    Row(&'a [u8]),
}

impl fmt::Display for FieldName {
    ghost output = { λ f. Some (field_name f) };

    fn fmt<W: fmt::Write>(&self, f: &mut fmt::Formatter<W>) -> fmt::Result {
        f.write_str(match self {
            FieldName::Byte => "8",
            FieldName::Bits16 => "16",
            FieldName::Bits32 => "32",
            FieldName::Pile4 => "p4",
        })
    }
}

fn field_named(word: &[u8]) -> Option<FieldName>
    ensures { result ≡ named_field word.now }
{
    match word {
        b"8" => Some(FieldName::Byte),
        b"16" => Some(FieldName::Bits16),
        b"32" => Some(FieldName::Bits32),
        b"p4" => Some(FieldName::Pile4),
        _ => None,
    }
}

// The word of a text that has no other, or none where there is another number of them.
fn single_word(text: &[u8]) -> Option<&[u8]>
    ensures { MatchOption result (only_word (words text.now) ≡ None) (λ word. words text.now ≡ word.now ∷ []) }
{
    let (word, rest) = split_word(text)?;
    split_word(rest).is_none().then_some(word)
}

// The field and the two dimensions that follow `domain`, if they and nothing else do.
#[tactic(auto, unfolding(crate::specs::Requests::domain_written))]
fn domain_of(rest: &[u8]) -> Option<Domain>
    ensures { result ≡ domain_written (words rest.now) }
{
    let (field, rest) = split_word(rest)?;
    let (log_size, rest) = split_word(rest)?;
    let log_extended = single_word(rest)?;
    Some(Domain {
        field: field_named(field)?,
        log_size: decimal(log_size)?,
        log_extended: decimal(log_extended)?,
    })
}

// What a line asks for, or none where it is no request.
pub fn read_request(text: &[u8]) -> Option<Request<'_>>
    ensures { shown result ≡ requested (words text.now) }
{
    let (word, rest) = split_word(text)?;
    match word {
        b"domain" => Some(Request::Domain(domain_of(rest)?)),
        b"row" => Some(Request::Row(single_word(rest)?)),
        _ => None,
    }
}
