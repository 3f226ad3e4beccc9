//! Games, and what cards show.

ghost use Rattle.std.specs.Prelude.{◌≡◌, ◌≤◌, length, IfSome, Some};
ghost use Rattle.gd_base.specs.declared.game.Game.{Game};
ghost use Rattle.gd_base.specs.Texts.Names.{game_name};
ghost use Rattle.gd_base.specs.Histories.Numbers.{game_number};

/// A game. Poker is five-card draw.
#[derive(Clone, Copy, PartialEq, Eq, Debug)]
pub enum Game {
    /// Five reels of three rows and nine lines.
    Reels,
    /// Five-card draw.
    Poker,
}

impl Game {
    /// The game's number: 1 for the reels, 2 for poker.
    pub fn number(&self) -> u8
        ensures { result ≡ game_number self.now }
    {
        match self {
            Game::Reels => 1,
            Game::Poker => 2,
        }
    }

    /// The game of this number, or none.
    pub fn of_number(number: u8) -> Option<Game>
        ensures own { IfSome result (λ g. game_number g ≡ number) }
        ensures each { (g : Game) → game_number g ≡ number → result ≡ Some g }
    {
        match number {
            1 => Some(Game::Reels),
            2 => Some(Game::Poker),
            _ => None,
        }
    }

    /// The game's name in the lines of a play, as `reels`.
    pub fn name(&self) -> &'static str
        ensures value { result.now ≡ game_name self.now }
        ensures short { length result.now ≤ 5 }
    {
        match self {
            Game::Reels => "reels",
            Game::Poker => "poker",
        }
    }
}

/// The colour of a card: diamonds and hearts are red, clubs and spades black.
#[derive(Clone, Copy, PartialEq, Eq, Debug)]
pub enum Colour {
    /// Diamonds and hearts.
    Red,
    /// Clubs and spades.
    Black,
}

/// A hand of five cards, the best first. The nine that pay stand in the order of the pays of a setup.
#[derive(Clone, Copy, PartialEq, Eq, Debug)]
pub enum Rank {
    RoyalFlush,
    StraightFlush,
    Four,
    FullHouse,
    Flush,
    Straight,
    Three,
    TwoPair,
    /// A pair of jacks, queens, kings or aces.
    Jacks,
    Nothing,
}
