//! What a game pays.

ghost use Rattle.std.specs.Prelude.{◌≡◌, IsTrue};
ghost use Rattle.gd_base.specs.declared.setup.Setup.{Setup};
ghost use Rattle.gd_base.specs.Games.Stage.{stage, is_bet, are_choices};

use gd_base::{Block, Choices, Game, Stage};

/// The games of a setup: what is open in a play and what it wins, by its words and choices alone.
pub trait Paytable {
    /// The setup that it pays by.
    ghost setup: { Self → Setup };

    /// The stage of a play. The bet is in credits, 1 to 9 in reels and 1 to 5 in poker; the choices
    /// are such as the stages of the play allow, in order.
    fn stage(&self, game: Game, bet: u8, words: &Block, choices: &Choices) -> Stage
        requires bet { IsTrue (is_bet game bet) }
        requires choices { IsTrue (are_choices (setup self.now) game bet words.now choices.now) }
        ensures { result ≡ stage (setup self.now) game bet words.now choices.now };
}
