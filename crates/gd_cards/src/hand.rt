//! A hand of cards.

ghost use Rattle.std.specs.Prelude.{IsTrue};
ghost use Rattle.gd_cards.specs.Hands.{are_distinct, are_of_deck};

/// Five distinct cards from 0 to 51, from left to right: whoever makes a hand shows that they are. The rank of a card
/// is its remainder by 13, from the two, which is 0, to the ace; its quotient is the suit: clubs, diamonds, hearts,
/// spades. docs/FORMATS.md has how a card is written.
#[derive(Clone, Copy, PartialEq, Eq, Debug)]
pub struct Hand {
    pub cards: [u8; 5],
    pub ghost has_distinct: { IsTrue (are_distinct cards) },
    pub ghost has_cards: { IsTrue (are_of_deck cards) },
}
