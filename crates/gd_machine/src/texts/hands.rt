//! Cards, and what was dealt and held.

ghost use Rattle.std.specs.Prelude.{◌≡◌, ◌≤◌, ◌<◌, ◌+◌, ◌++◌, ◌∷◌, [], IsTrue, codes, Some, if◌then◌else◌, length, map, slice_index};
ghost use Rattle.std.specs.List.{list_all};
ghost use Rattle.arrayvec.specs.ArrayString.{array_string_len};
ghost use Rattle.gd_base.specs.declared.game.Game.{Game};
ghost use Rattle.gd_base.specs.Games.Chance.{final_hand, has_bit, hand};
ghost use Rattle.gd_base.specs.Payloads.ViewRules.{is_choice_value};
ghost use Rattle.gd_base.specs.Texts.Names.{card_name, rank_name};
ghost use Rattle.gd_base.specs.Texts.OfViews.{bits, held_line, spaced_texts};
ghost use Rattle.gd_cards.specs.Hands.{are_of_deck};

use gd_base::{Block, PlayRecord, Rank, TEXT_LEN, Text};
use gd_cards::{Hand, rank, replace};

/// The letter of a card's rank, from the two to the ace.
fn rank_letter(rank: u8) -> &'static str
    requires { rank < 13 }
    ensures letter { result.now ≡ slice_index (codes "23456789TJQKA") rank ∷ [] }
    ensures one { length result.now ≡ 1 }
{
    match rank {
        0 => "2",
        1 => "3",
        2 => "4",
        3 => "5",
        4 => "6",
        5 => "7",
        6 => "8",
        7 => "9",
        8 => "T",
        9 => "J",
        10 => "Q",
        11 => "K",
        _ => "A",
    }
}

/// The letter of a suit: clubs, diamonds, hearts, spades.
fn suit_letter(suit: u8) -> &'static str
    requires { suit < 4 }
    ensures letter { result.now ≡ slice_index (codes "cdhs") suit ∷ [] }
    ensures one { length result.now ≡ 1 }
{
    match suit {
        0 => "c",
        1 => "d",
        2 => "h",
        _ => "s",
    }
}

/// Appends a card as `Ac`, the ace of clubs: 2 bytes.
pub(crate) fn push_card(text: &mut Text, card: u8)
    requires card { card < 52 }
    requires room { array_string_len text.old + 2 ≤ TEXT_LEN }
    ensures bytes { text.new.bytes ≡ text.old.bytes ++ card_name card }
    ensures room { array_string_len text.new ≤ array_string_len text.old + 2 }
{
    text.push_str(rank_letter(card % 13));
    text.push_str(suit_letter(card / 13));
}

/// Appends the cards of a hand, each behind a space: 15 bytes.
fn push_cards(text: &mut Text, cards: &[u8; 5])
    requires deck { IsTrue (are_of_deck cards.now) }
    requires room { array_string_len text.old + 15 ≤ TEXT_LEN }
    ensures bytes { text.new.bytes ≡ text.old.bytes ++ spaced_texts (map card_name cards.now) }
    ensures room { array_string_len text.new ≤ array_string_len text.old + 15 }
{
    for card in cards {
        text.push_str(" ");
        push_card(text, *card);
    }
}

/// Appends the line of a hand that was dealt: 21 bytes.
pub(crate) fn push_dealt(text: &mut Text, dealt: &Hand)
    requires room { array_string_len text.old + 21 ≤ TEXT_LEN }
    ensures bytes { text.new.bytes ≡ text.old.bytes ++ (codes "dealt" ++ spaced_texts (map card_name dealt.now.cards) ++ codes "\n") }
    ensures room { array_string_len text.new ≤ array_string_len text.old + 21 }
{
    text.push_str("dealt");
    push_cards(text, &dealt.cards);
    text.push_str("\n");
}

/// Appends 1 where a mask holds the card at a place, and else 0.
fn push_bit(text: &mut Text, mask: u8, place: u8)
    requires place { place < 8 }
    requires room { array_string_len text.old + 1 ≤ TEXT_LEN }
    ensures bytes { text.new.bytes ≡ text.old.bytes ++ (if has_bit mask place then 49 else 48) ∷ [] }
    ensures room { array_string_len text.new ≤ array_string_len text.old + 1 }
{
    text.push_str(if (mask >> place) % 2 == 1 { "1" } else { "0" });
}

/// Appends which cards a mask holds, from left to right: 5 bytes.
fn push_mask(text: &mut Text, mask: u8)
    requires room { array_string_len text.old + 5 ≤ TEXT_LEN }
    ensures bytes { text.new.bytes ≡ text.old.bytes ++ bits mask 0 5 }
    ensures room { array_string_len text.new ≤ array_string_len text.old + 5 }
{
    push_bit(text, mask, 0);
    push_bit(text, mask, 1);
    push_bit(text, mask, 2);
    push_bit(text, mask, 3);
    push_bit(text, mask, 4);
}

/// The name of a rank, as `full-house`.
fn name_of_rank(rank: Rank) -> &'static str
    ensures name { result.now ≡ rank_name rank }
    ensures short { length result.now ≤ 14 }
{
    match rank {
        Rank::RoyalFlush => "royal-flush",
        Rank::StraightFlush => "straight-flush",
        Rank::Four => "four",
        Rank::FullHouse => "full-house",
        Rank::Flush => "flush",
        Rank::Straight => "straight",
        Rank::Three => "three",
        Rank::TwoPair => "two-pair",
        Rank::Jacks => "jacks",
        Rank::Nothing => "nothing",
    }
}

/// The final hand of a play, by the hand that was dealt in it and the mask of its hold.
fn hand_after(words: &Block, dealt: &Hand, mask: u8) -> Hand
    requires { dealt.now.cards ≡ hand words.now }
    ensures { result.cards ≡ final_hand words.now mask }
{
    replace(dealt, mask, words)
}

/// Appends the line of a hold: the mask, the final hand and its rank. At most 47 bytes.
fn push_hold(text: &mut Text, play: &PlayRecord, dealt: &Hand, mask: u8)
    requires dealt { dealt.now.cards ≡ hand play.now.words }
    requires room { array_string_len text.old + 47 ≤ TEXT_LEN }
    ensures bytes { text.new.bytes ≡ text.old.bytes ++ held_line play.now (Some mask) }
    ensures room { array_string_len text.new ≤ array_string_len text.old + 47 }
{
    let drawn = hand_after(&play.words, dealt, mask);
    text.push_str("held ");
    push_mask(text, mask);
    text.push_str(" final");
    push_cards(text, &drawn.cards);
    text.push_str(" ");
    text.push_str(name_of_rank(rank(&drawn)));
    text.push_str("\n");
}

/// Appends the line of the hold, where there was one. At most 47 bytes.
pub(crate) fn push_held(text: &mut Text, play: &PlayRecord, dealt: &Hand)
    requires dealt { dealt.now.cards ≡ hand play.now.words }
    requires room { array_string_len text.old + 47 ≤ TEXT_LEN }
    ensures bytes { text.new.bytes ≡ text.old.bytes ++ held_line play.now play.now.choice }
    ensures room { array_string_len text.new ≤ array_string_len text.old + 47 }
{
    if let Some(mask) = play.choice {
        push_hold(text, play, dealt, mask);
    }
}
