//! The words that are fixed: the first of each row, and the names of the texts that are shown.

ghost use Rattle.std.specs.Prelude.{◌≡◌};
ghost use Rattle.std.specs.Str.{bytes_eq};
ghost use Rattle.gd_words.specs.Names.{keyword_of, keyword_word, what_of, what_word};

use crate::keyword::{KEYWORDS, Keyword, SHOWN};
use gd_base::What;

/// The keyword that the word is, or none.
pub(crate) fn read_keyword(word: &str) -> Option<Keyword>
    ensures { result ≡ keyword_of word.now }
{
    KEYWORDS
        .iter()
        .copied()
        .find(|keyword| is_keyword(*keyword, word))
}

/// The text that the word names, or none.
pub(crate) fn read_what(word: &str) -> Option<What>
    ensures { result ≡ what_of word.now }
{
    SHOWN.iter().copied().find(|what| is_what(*what, word))
}

/// Whether the word is the keyword.
fn is_keyword(keyword: Keyword, word: &str) -> bool
    ensures { result ≡ bytes_eq (keyword_word keyword) word.now }
{
    let name = match keyword {
        Keyword::Init => "init",
        Keyword::Trial => "trial",
        Keyword::Run => "run",
        Keyword::Show => "show",
        Keyword::Check => "check",
        Keyword::Soak => "soak",
    };
    name == word
}

/// Whether the word names the text.
fn is_what(what: What, word: &str) -> bool
    ensures { result ≡ bytes_eq (what_word what) word.now }
{
    let name = match what {
        What::Meters => "meters",
        What::State => "state",
        What::Recall => "recall",
        What::Events => "events",
        What::Order => "order",
    };
    name == word
}
