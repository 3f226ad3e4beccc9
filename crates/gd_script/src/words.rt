//! A line as its words, parted by single spaces.

ghost use Rattle.std.specs.Prelude.{◌≡◌, ◌==◌, ◌∷◌, option_map, option_copied, position};
ghost use Rattle.gd_script.specs.Reading.{only_word, word_pair, words, words_behind};

use crate::limits::SPACE;

/// The first word of a text, and what stands behind its space, or none where it has no space.
pub(crate) fn split_first(text: &[u8]) -> (&[u8], Option<&[u8]>)
    ensures { words text.now ≡ result.0.now ∷ words_behind (option_copied result.1) }
{
    match first_space(text) {
        None => (text, None),
        Some(at) => (&text[..at], Some(&text[at + 1..])),
    }
}

/// The place of the first space.
fn first_space(text: &[u8]) -> Option<usize>
    ensures { result ≡ position (λ b. b == SPACE) text.now }
{
    text.iter().position(|byte| *byte == SPACE)
}

/// The one word that a text is, or none where it is more.
pub(crate) fn only_word(text: &[u8]) -> Option<&[u8]>
    ensures { option_copied result ≡ only_word (words text.now) }
{
    match split_first(text) {
        (word, None) => Some(word),
        (_, Some(_)) => None,
    }
}

/// The two words that a text is, or none where it is fewer or more.
pub(crate) fn word_pair(text: &[u8]) -> Option<(&[u8], &[u8])>
    ensures { option_map (λ p. (p.0.now, p.1.now)) result ≡ word_pair (words text.now) }
{
    let (first, rest) = split_first(text);
    let second = only_word(rest?)?;
    Some((first, second))
}
