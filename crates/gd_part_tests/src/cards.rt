//! What no clause of gd_cards says: the ranks of hands that were written out by hand, each with its nearest miss, and cards
//! that were computed outside of the program.

use gd_base::Block;
use gd_cards::{Colour, Hand, Rank, colour, deal, rank, replace};

/// Hands and their ranks.
#[rattlefmt::skip]
const HANDS: [(Hand, Rank); 29] = [
    // Th Jh Qh Kh Ah
    (Hand { cards: [34, 35, 36, 37, 38] }, Rank::RoyalFlush),
    // Ks Ts As Js Qs
    (Hand { cards: [50, 47, 51, 48, 49] }, Rank::RoyalFlush),
    // Th Jh Qh Kh As
    (Hand { cards: [34, 35, 36, 37, 51] }, Rank::Straight),
    // 9h Th Jh Qh Kh
    (Hand { cards: [33, 34, 35, 36, 37] }, Rank::StraightFlush),
    // Ac 2c 3c 4c 5c
    (Hand { cards: [12, 0, 1, 2, 3] }, Rank::StraightFlush),
    // Ac 2c 3c 4c 6c
    (Hand { cards: [12, 0, 1, 2, 4] }, Rank::Flush),
    // Kd Ad 2d 3d 4d
    (Hand { cards: [24, 25, 13, 14, 15] }, Rank::Flush),
    // 2d 3d 4d 5d 6d
    (Hand { cards: [13, 14, 15, 16, 17] }, Rank::StraightFlush),
    // 7c 7d 7h 7s 2c
    (Hand { cards: [5, 18, 31, 44, 0] }, Rank::Four),
    // 7c 7d 7h 8s 8c
    (Hand { cards: [5, 18, 31, 45, 6] }, Rank::FullHouse),
    // 7c 7d 7h 8s 9c
    (Hand { cards: [5, 18, 31, 45, 7] }, Rank::Three),
    // 2s 2h As Ah Ad
    (Hand { cards: [39, 26, 51, 38, 25] }, Rank::FullHouse),
    // 2s 5s 9s Js As
    (Hand { cards: [39, 42, 46, 48, 51] }, Rank::Flush),
    // 2s 5s 9s Js Ah
    (Hand { cards: [39, 42, 46, 48, 38] }, Rank::Nothing),
    // Ac 2d 3h 4s 5c
    (Hand { cards: [12, 13, 27, 41, 3] }, Rank::Straight),
    // Qc Kd Ah 2s 3c
    (Hand { cards: [10, 24, 38, 39, 1] }, Rank::Nothing),
    // Kc Ad 2h 3s 4c
    (Hand { cards: [11, 25, 26, 40, 2] }, Rank::Nothing),
    // Td Jc Qh Ks Ad
    (Hand { cards: [21, 9, 36, 50, 25] }, Rank::Straight),
    // 9d 5c 8h 6s 7d
    (Hand { cards: [20, 3, 32, 43, 18] }, Rank::Straight),
    // 9d 5c 8h 6s Td
    (Hand { cards: [20, 3, 32, 43, 21] }, Rank::Nothing),
    // 2c 9d 2h Js 2s
    (Hand { cards: [0, 20, 26, 48, 39] }, Rank::Three),
    // 2c 9d 2h 9s 3s
    (Hand { cards: [0, 20, 26, 46, 40] }, Rank::TwoPair),
    // 2c 9d 2h Ts 3s
    (Hand { cards: [0, 20, 26, 47, 40] }, Rank::Nothing),
    // Jc 9d Jh 2s 3s
    (Hand { cards: [9, 20, 35, 39, 40] }, Rank::Jacks),
    // Tc 9d Th 2s 3s
    (Hand { cards: [8, 20, 34, 39, 40] }, Rank::Nothing),
    // Qc 9d 2h Qs 3s
    (Hand { cards: [10, 20, 26, 49, 40] }, Rank::Jacks),
    // 5c Kd 2h Ks 3s
    (Hand { cards: [3, 24, 26, 50, 40] }, Rank::Jacks),
    // Ac 9d 2h As 3s
    (Hand { cards: [12, 20, 26, 51, 40] }, Rank::Jacks),
    // Ac Kd Qh Js 9s
    (Hand { cards: [12, 24, 36, 48, 46] }, Rank::Nothing),
];

#[test]
fn each_rank_and_its_nearest_miss(rt: HostRuntime) {
    for (hand, wanted) in HANDS {
        assert_eq!(rt; rank(&hand), wanted);
    }
}

#[test]
fn red_suits_lie_between_black_ones(rt: HostRuntime) {
    // The ace of clubs, the two of diamonds, the ace of hearts and the two of spades.
    assert_eq!(rt; colour(12), Colour::Black);
    assert_eq!(rt; colour(13), Colour::Red);
    assert_eq!(rt; colour(38), Colour::Red);
    assert_eq!(rt; colour(39), Colour::Black);
}

/// Words that deal 9s Ac Kc Tc As, and then 7s 5c 9c Qs 3c. They show a black card at each gamble turn.
pub(crate) const ACES: Block = [
    0xe71b_9592_244e_ceca,
    0x3fcb_4b70_f79a_7ffc,
    0x3bce_14ab_261d_b1d4,
    0x2a43_8f2a_3172_f442,
    0xff3f_3f8c_fe53_b312,
    0xe427_f474_114d_9fce,
    0x15d2_5341_edc5_fe85,
    0x23eb_7164_3ac5_c727,
    0xf4a3_cc30_5280_0e04,
    0x09c9_c31a_e2f9_3909,
    0,
    0,
    0,
    0,
    0,
    0,
];

#[test]
fn words_deal_and_replace_cards(rt: HostRuntime) {
    let dealt = deal(&ACES);
    assert_eq!(rt; dealt.cards, [46, 12, 11, 8, 51]);
    assert_eq!(rt; replace(&dealt, 0b11111, &ACES), dealt);
    assert_eq!(rt; replace(&dealt, 0, &ACES).cards, [44, 3, 7, 49, 1]);
    // The first card is bit 0 of the mask, and the cards that are not held are replaced from the left.
    assert_eq!(rt; replace(&dealt, 0b01101, &ACES).cards, [46, 44, 11, 8, 3]);
    assert_eq!(rt; replace(&dealt, 0b10000, &ACES).cards, [44, 3, 7, 49, 51]);
}

#[test]
fn any_hand_is_replaced_from_the_others(rt: HostRuntime) {
    let hand = Hand {
        cards: [12, 0, 51, 25, 38],
    };
    assert_eq!(rt; replace(&hand, 0, &ACES).cards, [45, 4, 8, 49, 2]);
    assert_eq!(rt; replace(&hand, 0, &[0; 16]).cards, [1, 2, 3, 4, 5]);
    assert_eq!(rt;
        replace(&hand, 0b01101, &[u64::MAX; 16]).cards,
        [12, 50, 51, 25, 49]
    );
}
