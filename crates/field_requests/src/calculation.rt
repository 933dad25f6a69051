// The answers of the field interfaces, for any level.
ghost use Rattle.std.specs.Prelude.{◌≡◌, ◌%◌, ◌^◌, Some};
ghost use Rattle.fields.specs.Tower.{width};
ghost use Rattle.field_requests.specs.Calculations.{calculated, mapped, answer_text};

use algebra::basis::point;
use fields::byte::Byte;
use fields::extension::ExtensionField;
use fields::field::Field;
use fields::text::Hexadecimal;
use fields::tower::TowerLevel;
use std::fmt;

// A question to a field, about its elements or about their numbers.
#[derive(Clone, Copy)]
pub enum Question<E> {
    Sum(E, E),
    Product(E, E),
    Equal(E, E),
    Inverse(E),
    Solve(E),
    Top,
    Basis(usize),
    Point(usize),
}

// Its answer: an element or none, or whether two elements are the same.
#[derive(Clone, Copy)]
pub enum Answer<F> {
    Element(Option<F>),
    Truth(bool),
}

impl<F: TowerLevel> fmt::Display for Answer<F> {
    ghost output = { λ answer. Some (answer_text F.TowerLevel.level answer) };

    fn fmt<W: fmt::Write>(&self, f: &mut fmt::Formatter<W>) -> fmt::Result {
        match self {
            Answer::Element(Some(x)) => write!(f, "{}", Hexadecimal(*x)),
            Answer::Element(None) => f.write_str("none"),
            Answer::Truth(same) => write!(f, "{same}"),
        }
    }
}

// The element with that number, cut to the field's width.
pub fn element<F: TowerLevel>(number: u64) -> F
    ensures { F.TowerLevel.level.number result ≡ number % 2 ^ width F.TowerLevel.level }
{
    F::from_number(u128::from(number))
}

impl Question<u64> {
    // The question about the elements with these numbers.
    pub fn in_field<F: TowerLevel>(self) -> Question<F>
        ensures { mapped F.TowerLevel.level.number result ≡ mapped (λ n. n % 2 ^ width F.TowerLevel.level) self }
    {
        match self {
            Question::Sum(x, y) => Question::Sum(element(x), element(y)),
            Question::Product(x, y) => Question::Product(element(x), element(y)),
            Question::Equal(x, y) => Question::Equal(element(x), element(y)),
            Question::Inverse(x) => Question::Inverse(element(x)),
            Question::Solve(x) => Question::Solve(element(x)),
            Question::Top => Question::Top,
            Question::Basis(j) => Question::Basis(j),
            Question::Point(j) => Question::Point(j),
        }
    }
}

// What the field answers.
pub fn calculate<F: TowerLevel>(question: Question<F>) -> Answer<F>
    ensures { result ≡ calculated F.Field.ops F.TowerLevel.level question }
{
    match question {
        Question::Sum(x, y) => Answer::Element(Some(x.sum(y))),
        Question::Product(x, y) => Answer::Element(Some(x.product(y))),
        Question::Equal(x, y) => Answer::Truth(x == y),
        Question::Inverse(x) => Answer::Element(x.inverse()),
        Question::Solve(x) => Answer::Element(x.solve()),
        Question::Top => Answer::Element(Some(F::top())),
        Question::Basis(j) => Answer::Element(F::cantor_basis(j)),
        Question::Point(j) => Answer::Element(Some(point::<F>(j))),
    }
}

// The product with a byte that is embedded.
pub fn scale_by_byte<F: Field + ExtensionField<Byte, D>, D>(x: F, byte: Byte) -> F
    ensures { result ≡ F.Field.ops.product x (F.ExtensionField.over.embed byte) }
{
    x.scale(byte)
}
