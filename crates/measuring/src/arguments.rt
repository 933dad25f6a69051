// The argument of a bench.
ghost use Rattle.std.specs.Prelude.{◌<◌, IfOk};
ghost use Rattle.std.specs.Option.{option_map};
ghost use Rattle.measuring.specs.Arguments.{Asked};

use anyhow::anyhow;

// The number of repetitions that the word asks for, if there is one.
pub fn repetitions(word: Option<&str>, default: u32) -> anyhow::Result<u32>
    ensures some { IfOk result (λ count. 0 < count) }
    ensures asked { Asked (option_map (λ text. text.now) word.entry) default result }
{
    let count = match word {
        Some(word) => word.parse::<u32>()?,
        None => default,
    };
    if count == 0 {
        return Err(anyhow!("the number of repetitions is 0"));
    }
    Ok(count)
}
