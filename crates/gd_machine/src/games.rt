//! The paytable of both games.

ghost use Rattle.std.specs.Prelude.{◌≡◌};

use gd_base::{Block, Choices, Game, Setup, Stage};
use gd_games::stage;
use gd_play::Paytable;

/// Both games under a setup.
#[derive(Drop)]
pub(crate) struct Games {
    pub(crate) setup: Setup,
}

impl Paytable for Games {
    ghost setup = { λ g. g.setup };

    fn stage(&self, game: Game, bet: u8, words: &Block, choices: &Choices) -> Stage {
        stage(&self.setup, game, bet, words, choices)
    }
}
