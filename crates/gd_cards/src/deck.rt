//! The deck, and the cards that are drawn from it.

ghost use Rattle.std.specs.Prelude.{◌≡◌, ◌<◌, ◌≤◌, ◌+◌, length, slice_index, remove};
ghost use Rattle.arrayvec.specs.ArrayVec.{array_vec_len};
ghost use Rattle.gd_base.specs.Games.Chance.{cards_from as cards_of, pick as pick_of};
ghost use Rattle.gd_base.specs.Setups.Tables.{deck as deck_of};
ghost use Rattle.gd_cards.specs.Hands.{cards_left as cards_left_of, has_card as has_card_of};

use arrayvec::ArrayVec;
use gd_base::pick;

/// All cards in rising order.
const DECK: [u8; 52] = [
    0, 1, 2, 3, 4, 5, 6, 7, 8, 9, 10, 11, 12, 13, 14, 15, 16, 17, 18, 19, 20, 21, 22, 23, 24, 25,
    26, 27, 28, 29, 30, 31, 32, 33, 34, 35, 36, 37, 38, 39, 40, 41, 42, 43, 44, 45, 46, 47, 48, 49,
    50, 51,
];

/// All cards in rising order.
pub(crate) fn full_deck() -> ArrayVec<u8, 52>
    ensures cards { result.items ≡ deck_of }
    ensures count { array_vec_len result ≡ 52 }
{
    ArrayVec::from(DECK)
}

/// The cards of the deck that are not in a hand, in rising order.
pub(crate) fn cards_left(hand: &[u8; 5]) -> ArrayVec<u8, 52>
    ensures cards { result.items ≡ cards_left_of hand.now }
    ensures count { 5 ≤ array_vec_len result }
{
    let mut left = full_deck();
    left.retain(|card| !has_card(hand, *card));
    left
}

/// Whether a card is among those of a hand.
fn has_card(hand: &[u8; 5], card: u8) -> bool
    ensures found { result ≡ has_card_of hand.now card }
{
    hand.contains(&card)
}

/// Takes the card that a word picks of those that are left.
fn draw(left: &mut ArrayVec<u8, 52>, word: u64) -> u8
    requires some { 0 < array_vec_len left.old }
    ensures card { result ≡ slice_index left.old.items (pick_of word (length left.old.items)) }
    ensures left { left.new.items ≡ remove left.old.items (pick_of word (length left.old.items)) }
    ensures count { array_vec_len left.new + 1 ≡ array_vec_len left.old }
{
    let place = pick(word, left.len() as u8);
    left.remove(usize::from(place))
}

/// The cards that five words take, one after another, of those that are left.
pub(crate) fn draw_five(mut left: ArrayVec<u8, 52>, words: &[u64]) -> [u8; 5]
    requires enough { 5 ≤ array_vec_len left }
    requires five { length words.now ≡ 5 }
    ensures cards { result ≡ cards_of left.items words.now }
{
    [
        draw(&mut left, words[0]),
        draw(&mut left, words[1]),
        draw(&mut left, words[2]),
        draw(&mut left, words[3]),
        draw(&mut left, words[4]),
    ]
}
