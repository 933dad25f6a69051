// A shape as a line writes it.
ghost use Rattle.std.specs.Prelude.{◌≡◌};
ghost use Rattle.plan_requests.specs.Shapes.{shape_of};

use skip_plan::plan::Shape;
use words::numeral::decimal;
use words::word::split_word;

// The shape of a line: three decimals, or none where the line is anything else.
pub fn read_shape(text: &[u8]) -> Option<Shape>
    ensures { result ≡ shape_of text.now }
{
    let (log_size, rest) = split_word(text)?;
    let (degree, rest) = split_word(rest)?;
    let (code, rest) = split_word(rest)?;
    if split_word(rest).is_some() {
        return None;
    }
    Some(Shape {
        log_size: decimal(log_size)? as usize,
        degree: decimal(degree)? as usize,
        code: decimal(code)? as usize,
    })
}
