//! A deal, and the replacement of the cards that aren't held.

ghost use Rattle.std.specs.Prelude.{◌≡◌, ◌<◌};
ghost use Rattle.gd_base.specs.Games.Chance.{exchanged_cards, final_hand, hand as hand_of, has_bit};
ghost use Rattle.gd_cards.specs.Hands.{replaced_hand};

use crate::deck::{cards_left, draw_five, full_deck};
use crate::hand::Hand;
use gd_base::Block;

/// The hand that words 0 to 4 of a block deal, from left to right. docs/FORMATS.md has the words of a play.
pub fn deal(words: &Block) -> Hand
    ensures cards { result.cards ≡ hand_of words.now }
{
    let cards = draw_five(full_deck(), &words[..5]);
    Hand { cards }
}

/// Any hand with the next cards in the place of those that a mask doesn't hold. Bit 0 of the mask holds the first card
/// from the left; bits above the fifth hold none. Word 5 takes the first card that replaces one, and words 6 to 9 the
/// others in their order from left to right, each from the cards that are neither in the hand nor taken before.
pub fn replace(dealt: &Hand, mask: u8, words: &Block) -> Hand
    ensures cards { result.cards ≡ replaced_hand dealt.now.cards mask words.now }
    ensures of_deal { dealt.now.cards ≡ hand_of words.now → result.cards ≡ final_hand words.now mask }
{
    let next = draw_five(cards_left(&dealt.cards), &words[5..10]);
    let cards = exchanged(&dealt.cards, mask, &next);
    Hand { cards }
}

/// The cards of a hand with the next ones in the place of those that a mask doesn't hold.
fn exchanged(dealt: &[u8; 5], mask: u8, next: &[u8; 5]) -> [u8; 5]
    ensures cards { result ≡ exchanged_cards mask 0 dealt.now next.now }
{
    let mut cards = *dealt;
    let mut used = 0usize;
    for place in 0..5usize {
        if !is_held(mask, place) {
            cards[place] = next[used];
            used += 1;
        }
    }
    cards
}

/// Whether a mask holds the card at a place, from 0.
fn is_held(mask: u8, place: usize) -> bool
    requires { place < 8 }
    ensures held { result ≡ has_bit mask place }
{
    (mask >> place) % 2 == 1
}
