//! The rank of a hand. docs/DEFINITIONS.md has the hands.

ghost use Rattle.std.specs.Prelude.{◌≡◌, ◌≤◌, ◌/◌, ◌%◌, ◌==◌, ◌&&◌, ◌∷◌, [], count_by, nat_le};
ghost use Rattle.std.specs.List.{list_all, list_any};
ghost use Rattle.gd_base.specs.Games.Chance.{are_one_suit as are_one_suit_of, count_of_rank as count_of, has_ranks as has_ranks_of, is_run as is_run_of, groups as groups_of, rank as rank_of, suit as suit_of};
ghost use Rattle.gd_base.specs.Setups.Tables.{ranks};
ghost use Rattle.gd_cards.specs.Hands.{lower_rank, middle_rank};

use crate::hand::Hand;
use gd_base::{RUNS, Rank};

/// Whether cards are of one suit.
fn are_of(suit: u8, cards: &[u8]) -> bool
    ensures { result ≡ list_all (λ c. suit_of c == suit) cards.now }
{
    cards.iter().all(|card| *card / 13 == suit)
}

/// Whether all cards are of one suit.
fn are_one_suit(cards: &[u8; 5]) -> bool
    ensures { result ≡ are_one_suit_of cards.now }
{
    are_of(cards[0] / 13, &cards[1..])
}

/// How many cards have a rank.
fn count_of_rank(cards: &[u8; 5], rank: u8) -> usize
    ensures count { result ≡ count_of cards.now rank }
    ensures most { result ≤ 5 }
{
    cards.iter().filter(|card| **card % 13 == rank).count()
}

/// Whether each of these ranks is among the cards.
fn has_ranks(cards: &[u8; 5], wanted: &[u8]) -> bool
    ensures { result ≡ has_ranks_of cards.now wanted.now }
{
    wanted.iter().all(|rank| count_of_rank(cards, *rank) >= 1)
}

/// Whether the ranks are five in a row.
fn is_run(cards: &[u8; 5]) -> bool
    ensures { result ≡ is_run_of cards.now }
{
    RUNS.iter().any(|run| has_ranks(cards, run))
}

/// How many of some ranks have exactly so many cards.
fn groups(n: usize, cards: &[u8; 5], among: &[u8]) -> usize
    ensures { result ≡ groups_of n cards.now among.now }
{
    among
        .iter()
        .filter(|rank| count_of_rank(cards, **rank) == n)
        .count()
}

/// The ranks from the two to the ace.
const RANKS: [u8; 13] = [0, 1, 2, 3, 4, 5, 6, 7, 8, 9, 10, 11, 12];

/// A hand without five of a suit or in a row, and without four of a rank or a full house.
fn lower_hand(cards: &[u8; 5]) -> Rank
    ensures rank { result ≡ lower_rank cards.now }
{
    if groups(3, cards, &RANKS) == 1 {
        Rank::Three
    } else if groups(2, cards, &RANKS) == 2 {
        Rank::TwoPair
    } else if groups(2, cards, &[9, 10, 11, 12]) == 1 {
        Rank::Jacks
    } else {
        Rank::Nothing
    }
}

/// Whether there are three of one rank and two of another.
fn is_full_house(cards: &[u8; 5]) -> bool
    ensures { result ≡ ((groups_of 3 cards.now ranks == 1) && (groups_of 2 cards.now ranks == 1)) }
{
    groups(3, cards, &RANKS) == 1 && groups(2, cards, &RANKS) == 1
}

/// Whether the cards are ten to ace.
fn is_royal(cards: &[u8; 5]) -> bool
    ensures { result ≡ (are_one_suit_of cards.now && has_ranks_of cards.now (8 ∷ 9 ∷ 10 ∷ 11 ∷ 12 ∷ [])) }
{
    are_one_suit(cards) && has_ranks(cards, &[8, 9, 10, 11, 12])
}

/// Whether the cards are of one suit and in a row.
fn is_straight_flush(cards: &[u8; 5]) -> bool
    ensures { result ≡ (are_one_suit_of cards.now && is_run_of cards.now) }
{
    are_one_suit(cards) && is_run(cards)
}

/// A hand without a straight flush, four of a rank or a full house.
fn middle_hand(cards: &[u8; 5]) -> Rank
    ensures rank { result ≡ middle_rank cards.now }
{
    if are_one_suit(cards) {
        Rank::Flush
    } else if is_run(cards) {
        Rank::Straight
    } else {
        lower_hand(cards)
    }
}

/// The rank of a hand, in any order of its cards: the first of docs/DEFINITIONS.md that applies. In a straight the ace
/// stands above the king or below the two, and nowhere between.
pub fn rank(hand: &Hand) -> Rank
    ensures rank { result ≡ rank_of hand.now.cards }
{
    let cards = &hand.cards;
    if is_royal(cards) {
        Rank::RoyalFlush
    } else if is_straight_flush(cards) {
        Rank::StraightFlush
    } else if groups(4, cards, &RANKS) == 1 {
        Rank::Four
    } else if is_full_house(cards) {
        Rank::FullHouse
    } else {
        middle_hand(cards)
    }
}
