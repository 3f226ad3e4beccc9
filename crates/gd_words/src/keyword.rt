//! The first words of the rows, and the texts that are shown.

use gd_base::What;

/// The first word of a row.
#[derive(Clone, Copy)]
pub(crate) enum Keyword {
    Init,
    Trial,
    Run,
    Show,
    Check,
    Soak,
}

/// All of them.
pub(crate) const KEYWORDS: [Keyword; 6] = [
    Keyword::Init,
    Keyword::Trial,
    Keyword::Run,
    Keyword::Show,
    Keyword::Check,
    Keyword::Soak,
];

/// The texts that are shown.
pub(crate) const SHOWN: [What; 5] = [
    What::Meters,
    What::State,
    What::Recall,
    What::Events,
    What::Order,
];
