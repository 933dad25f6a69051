// The words of a text: the longest runs of bytes other than space.
ghost use Rattle.std.specs.Prelude.{◌≡◌, [], ◌∷◌, MatchOption};
ghost use Rattle.std.specs.List.{position};
ghost use Rattle.std.specs.Str.{bytes_eq};
ghost use Rattle.words.specs.Pieces.{other};
ghost use Rattle.words.specs.Words.{words, is_space, first_word, after_word};

// Where the first word of `text` begins.
fn word_start(text: &[u8]) -> Option<usize>
    ensures { result ≡ position (other 32) text.now }
{
    text.iter().position(|byte| *byte != b' ')
}

// Where the first space of `text` stands.
fn next_space(text: &[u8]) -> Option<usize>
    ensures { result ≡ position is_space text.now }
{
    text.iter().position(|byte| *byte == b' ')
}

// The first word of `text` and what follows it, or none where `text` has no word.
pub fn split_word(text: &[u8]) -> Option<(&[u8], &[u8])>
    ensures words { MatchOption result (words text.now ≡ []) (λ p. words text.now ≡ p.0.now ∷ words p.1.now) }
    ensures parts { MatchOption result (first_word text.now ≡ []) (λ p. (p.0.now ≡ first_word text.now) × (p.1.now ≡ after_word text.now)) }
{
    let start = word_start(text)?;
    let (_, rest) = text.split_at(start);
    let length = next_space(rest).unwrap_or(rest.len());
    Some(rest.split_at(length))
}

// Whether `word` is that name.
pub fn is_word(word: &[u8], name: &str) -> bool
    ensures { result ≡ bytes_eq word.now name.now }
{
    word == name.as_bytes()
}
