//! The items of a soak run. The module `Generated` of specs/ has the rule.

ghost use Rattle.std.specs.Prelude.{◌≡◌, ◌<◌, ◌≤◌, ◌+◌, ◌%◌};
ghost use Rattle.gd_script.specs.Generated.{attendance_by, bill_by, cut_by, door_by, folded, generated, item_by_kind, random_word};
ghost use Rattle.gd_script.specs.Grammar.{InGrammar, IsLineEvent, NamesNoOrder};

use crate::item::{Item, OrderWord};
use crate::limits::MOST_GENERATED;
use gd_base::{
    Colour, Door, Event, Game, MOST_HOLD, MOST_PICK, MOST_POKER_BET, MOST_REELS_BET, Tilt,
};
use gd_disk::{CutUnit, MOST_TORN};

/// What is added to the state of SplitMix64 at each word.
const WORD_STEP: u64 = 0x9E37_79B9_7F4A_7C15;

/// The factor of the first mixing of SplitMix64.
const FIRST_FACTOR: u64 = 0xBF58_476D_1CE4_E5B9;

/// The factor of the second one.
const SECOND_FACTOR: u64 = 0x94D0_49BB_1331_11EB;

/// The kinds that a word chooses among. The rest of the word decides the fields.
const KINDS: u64 = 32;

/// One item among so many is a cut of the power.
const CUT_EVERY: u64 = 500;

/// The place of the cut among them, from 0.
const CUT_PLACE: u64 = 250;

/// The most syncs after which a cut comes: those of a commit.
const MOST_GENERATED_SYNCS: u64 = 6;

/// The bills, in cents.
const GENERATED_BILLS: [u32; 6] = [100, 500, 1_000, 2_000, 5_000, 10_000];

/// The coin, in cents.
const GENERATED_COIN: u32 = 25;

/// The greatest voucher, in cents.
const MOST_GENERATED_VOUCHER: u64 = 10_000;

/// The item at place k of a soak run, from 0, by the run's seed. It is one that `read_line` gives for some line. The
/// module `Generated` of specs/ has the rule.
#[tactic(auto, unfolding(crate::specs::Generated::generated))]
pub fn generate(seed: u64, k: u64) -> Item
    requires place { k < MOST_GENERATED }
    ensures item { result ≡ generated seed k }
    ensures grammar { InGrammar result }
{
    let word = random_word(seed, k);
    let rest = word / KINDS;
    if k % CUT_EVERY == CUT_PLACE {
        return cut_by(rest);
    }
    item_by_kind(k, (word % KINDS) as u8, rest)
}

/// Word k of SplitMix64 from a seed, from 0.
#[tactic(auto, unfolding(crate::specs::Generated::random_word))]
fn random_word(seed: u64, k: u64) -> u64
    requires { k < MOST_GENERATED }
    ensures { result ≡ random_word seed k }
{
    let start = seed.wrapping_add((k + 1).wrapping_mul(WORD_STEP));
    let once = folded(start, 30).wrapping_mul(FIRST_FACTOR);
    let twice = folded(once, 27).wrapping_mul(SECOND_FACTOR);
    folded(twice, 31)
}

/// The word, combined by exclusive or with itself, moved down by so many bits.
fn folded(word: u64, places: u32) -> u64
    requires { places < 64 }
    ensures { result ≡ folded word places }
{
    word ^ (word >> places)
}

/// A cut of the power in one of the next syncs, by the rest of a word.
fn cut_by(rest: u64) -> Item
    ensures item { result ≡ cut_by rest }
    ensures grammar { InGrammar result }
{
    Item::Cut {
        unit: CutUnit::Sync,
        count: 1 + (rest % MOST_GENERATED_SYNCS) as u32,
        torn: (rest % (u64::from(MOST_TORN) + 1)) as u8,
    }
}

/// The item of place k by its kind, 0 to 31, and by the rest of a word.
#[rattlefmt::skip]
#[tactic(auto, unfolding(crate::specs::Generated::item_by_kind))]
fn item_by_kind(k: u64, kind: u8, rest: u64) -> Item
    requires { k < MOST_GENERATED }
    ensures item { result ≡ item_by_kind k kind rest }
    ensures grammar { InGrammar result }
{
    match kind {
        0..=5 => Item::Event(bill_by(rest)),
        6 => Item::Event(Event::Coin { value: GENERATED_COIN }),
        7 => Item::Event(Event::VoucherIn { id: k + 1, value: 1 + (rest % MOST_GENERATED_VOUCHER) as u32 }),
        8..=13 => Item::Event(Event::Play { game: Game::Reels, bet: one_to(MOST_REELS_BET, rest) }),
        14..=17 => Item::Event(Event::Play { game: Game::Poker, bet: one_to(MOST_POKER_BET, rest) }),
        18..=20 => Item::Event(Event::Hold { mask: (rest % (u64::from(MOST_HOLD) + 1)) as u8 }),
        21..=22 => Item::Event(Event::Pick { door: one_to(MOST_PICK, rest) }),
        23 => Item::Event(Event::Gamble { colour: Colour::Black }),
        24 => Item::Event(Event::Gamble { colour: Colour::Red }),
        25..=26 => Item::Event(Event::Take),
        27 => Item::Event(Event::CashOut),
        28 => Item::OrderEvent { kind: OrderWord::Printed, order: None },
        29 => Item::OrderEvent { kind: OrderWord::CoinPaid, order: None },
        30 => Item::Event(door_by(rest)),
        _ => Item::Event(attendance_by(rest)),
    }
}

/// One of the bills, by the rest of a word.
fn bill_by(rest: u64) -> Event
    ensures item { result ≡ bill_by rest }
    ensures grammar { IsLineEvent result × NamesNoOrder result }
{
    Event::Bill {
        value: GENERATED_BILLS[rest as usize % GENERATED_BILLS.len()],
    }
}

/// A number from 1 to `most`, by the rest of a word.
fn one_to(most: u8, rest: u64) -> u8
    requires { 0 < most }
    ensures value { result ≡ 1 + rest % most }
    ensures most { result ≤ most }
{
    (rest % u64::from(most)) as u8 + 1
}

/// The main door, opened or shut, by the rest of a word.
fn door_by(rest: u64) -> Event
    ensures item { result ≡ door_by rest }
    ensures grammar { IsLineEvent result × NamesNoOrder result }
{
    if rest % 2 == 0 {
        Event::DoorOpen { door: Door::Main }
    } else {
        Event::DoorShut { door: Door::Main }
    }
}

/// A stuck bill, or what the attendant does, by the rest of a word.
fn attendance_by(rest: u64) -> Event
    ensures item { result ≡ attendance_by rest }
    ensures grammar { IsLineEvent result × NamesNoOrder result }
{
    match rest % 3 {
        0 => Event::BillJam,
        1 => Event::ClearTilt {
            tilt: Tilt::BillJam,
        },
        _ => Event::HandpayDone,
    }
}
