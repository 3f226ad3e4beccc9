//! The colours of cards.

ghost use Rattle.std.specs.Prelude.{◌≡◌};
ghost use Rattle.gd_base.specs.Games.Chance.{colour as colour_of};

use gd_base::Colour;

/// The colour of a card, from 0 to 51: diamonds and hearts are red, clubs and spades black. docs/FORMATS.md numbers the
/// suits.
pub fn colour(card: u8) -> Colour
    ensures colour { result ≡ colour_of card }
{
    let suit = card / 13;
    if suit == 1 || suit == 2 {
        Colour::Red
    } else {
        Colour::Black
    }
}
