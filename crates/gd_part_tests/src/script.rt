//! What no clause of gd_script says: that the definitions are the grammar of docs/FORMATS.md. Each row of it once and at the
//! ends of its ranges, read and printed back, and lines that are nearly of it. And that the definition of a soak run's items is
//! their rule.

use gd_base::{Colour, Device, Door, Event, Game, Text, Tilt, What};
use gd_disk::CutUnit;
use gd_script::{
    Item, LineFault, MOST_GENERATED, OrderWord, Side, generate, print_item, read_line,
};

/// Lines, and the items that they say.
#[rattlefmt::skip]
const ROWS: &[(&str, Item)] = &[
    // Money.
    ("bill 500", Item::Event(Event::Bill { value: 500 })),
    ("bill 0", Item::Event(Event::Bill { value: 0 })),
    ("bill 100000000", Item::Event(Event::Bill { value: 100_000_000 })),
    ("coin 500", Item::Event(Event::Coin { value: 500 })),
    ("coin 0", Item::Event(Event::Coin { value: 0 })),
    ("coin 100000000", Item::Event(Event::Coin { value: 100_000_000 })),
    ("voucher 7 500", Item::Event(Event::VoucherIn { id: 7, value: 500 })),
    ("voucher 0 0", Item::Event(Event::VoucherIn { id: 0, value: 0 })),
    ("voucher 18446744073709551615 100000000", Item::Event(Event::VoucherIn { id: u64::MAX, value: 100_000_000 })),
    // Orders, by their number or by the word `open`.
    ("printed 7", Item::OrderEvent { kind: OrderWord::Printed, order: Some(7) }),
    ("printed 0", Item::OrderEvent { kind: OrderWord::Printed, order: Some(0) }),
    ("printed 18446744073709551615", Item::OrderEvent { kind: OrderWord::Printed, order: Some(u64::MAX) }),
    ("printed open", Item::OrderEvent { kind: OrderWord::Printed, order: None }),
    ("print-fail 7", Item::OrderEvent { kind: OrderWord::PrintFail, order: Some(7) }),
    ("print-fail 0", Item::OrderEvent { kind: OrderWord::PrintFail, order: Some(0) }),
    ("print-fail 18446744073709551615", Item::OrderEvent { kind: OrderWord::PrintFail, order: Some(u64::MAX) }),
    ("print-fail open", Item::OrderEvent { kind: OrderWord::PrintFail, order: None }),
    ("coin-paid 7", Item::OrderEvent { kind: OrderWord::CoinPaid, order: Some(7) }),
    ("coin-paid 0", Item::OrderEvent { kind: OrderWord::CoinPaid, order: Some(0) }),
    ("coin-paid 18446744073709551615", Item::OrderEvent { kind: OrderWord::CoinPaid, order: Some(u64::MAX) }),
    ("coin-paid open", Item::OrderEvent { kind: OrderWord::CoinPaid, order: None }),
    ("hopper-empty 7", Item::OrderEvent { kind: OrderWord::HopperEmpty, order: Some(7) }),
    ("hopper-empty 0", Item::OrderEvent { kind: OrderWord::HopperEmpty, order: Some(0) }),
    ("hopper-empty 18446744073709551615", Item::OrderEvent { kind: OrderWord::HopperEmpty, order: Some(u64::MAX) }),
    ("hopper-empty open", Item::OrderEvent { kind: OrderWord::HopperEmpty, order: None }),
    // Tilts, doors and the attendant.
    ("bill-jam", Item::Event(Event::BillJam)),
    ("stacker-full", Item::Event(Event::StackerFull)),
    ("coin-jam", Item::Event(Event::CoinJam)),
    ("paper-out", Item::Event(Event::PaperOut)),
    ("open logic", Item::Event(Event::DoorOpen { door: Door::Logic })),
    ("open main", Item::Event(Event::DoorOpen { door: Door::Main })),
    ("open cashbox", Item::Event(Event::DoorOpen { door: Door::Cashbox })),
    ("open drop", Item::Event(Event::DoorOpen { door: Door::Drop })),
    ("shut logic", Item::Event(Event::DoorShut { door: Door::Logic })),
    ("shut main", Item::Event(Event::DoorShut { door: Door::Main })),
    ("shut cashbox", Item::Event(Event::DoorShut { door: Door::Cashbox })),
    ("shut drop", Item::Event(Event::DoorShut { door: Door::Drop })),
    ("clear-tilt bill-jam", Item::Event(Event::ClearTilt { tilt: Tilt::BillJam })),
    ("clear-tilt coin-jam", Item::Event(Event::ClearTilt { tilt: Tilt::CoinJam })),
    ("clear-tilt stacker-full", Item::Event(Event::ClearTilt { tilt: Tilt::StackerFull })),
    ("clear-tilt paper-out", Item::Event(Event::ClearTilt { tilt: Tilt::PaperOut })),
    ("clear-tilt print-fail", Item::Event(Event::ClearTilt { tilt: Tilt::PrintFail })),
    ("clear-tilt hopper-empty", Item::Event(Event::ClearTilt { tilt: Tilt::HopperEmpty })),
    ("handpay", Item::Event(Event::HandpayDone)),
    // The player.
    ("play reels 3", Item::Event(Event::Play { game: Game::Reels, bet: 3 })),
    ("play reels 0", Item::Event(Event::Play { game: Game::Reels, bet: 0 })),
    ("play reels 255", Item::Event(Event::Play { game: Game::Reels, bet: 255 })),
    ("play poker 3", Item::Event(Event::Play { game: Game::Poker, bet: 3 })),
    ("play poker 0", Item::Event(Event::Play { game: Game::Poker, bet: 0 })),
    ("play poker 255", Item::Event(Event::Play { game: Game::Poker, bet: 255 })),
    ("pick 3", Item::Event(Event::Pick { door: 3 })),
    ("pick 1", Item::Event(Event::Pick { door: 1 })),
    ("pick 5", Item::Event(Event::Pick { door: 5 })),
    ("hold 01101", Item::Event(Event::Hold { mask: 22 })),
    ("hold 10000", Item::Event(Event::Hold { mask: 1 })),
    ("hold 00001", Item::Event(Event::Hold { mask: 16 })),
    ("hold 00000", Item::Event(Event::Hold { mask: 0 })),
    ("hold 11111", Item::Event(Event::Hold { mask: 31 })),
    ("red", Item::Event(Event::Gamble { colour: Colour::Red })),
    ("black", Item::Event(Event::Gamble { colour: Colour::Black })),
    ("take", Item::Event(Event::Take)),
    ("cashout", Item::Event(Event::CashOut)),
    // Repeats, and events under a number of their own.
    ("again bill", Item::Again(Device::Bill)),
    ("again coin", Item::Again(Device::Coin)),
    ("again reader", Item::Again(Device::Reader)),
    ("again printer", Item::Again(Device::Printer)),
    ("again hopper", Item::Again(Device::Hopper)),
    ("again doors", Item::Again(Device::Doors)),
    ("again player", Item::Again(Device::Player)),
    ("again attendant", Item::Again(Device::Attendant)),
    ("as 7 bill 500", Item::As { number: 7, event: Event::Bill { value: 500 } }),
    ("as 0 take", Item::As { number: 0, event: Event::Take }),
    ("as 1 open main", Item::As { number: 1, event: Event::DoorOpen { door: Door::Main } }),
    ("as 2 printed 3", Item::As { number: 2, event: Event::Printed { order: 3 } }),
    ("as 18446744073709551615 voucher 18446744073709551615 100000000",
     Item::As { number: u64::MAX, event: Event::VoucherIn { id: u64::MAX, value: 100_000_000 } }),
    ("as 4 play poker 5", Item::As { number: 4, event: Event::Play { game: Game::Poker, bet: 5 } }),
    // The power, the copies and the texts.
    ("off", Item::Off),
    ("on", Item::On),
    ("clear", Item::Clear),
    ("cut call 7 2", Item::Cut { unit: CutUnit::Call, count: 7, torn: 2 }),
    ("cut call 1 0", Item::Cut { unit: CutUnit::Call, count: 1, torn: 0 }),
    ("cut sync 100000 3", Item::Cut { unit: CutUnit::Sync, count: 100_000, torn: 3 }),
    ("alter a 1073 1", Item::Alter { side: Side::A, at: 1_073, mask: 1 }),
    ("alter b 0 0", Item::Alter { side: Side::B, at: 0, mask: 0 }),
    ("alter a 17456 255", Item::Alter { side: Side::A, at: 17_456, mask: 255 }),
    ("show meters", Item::Show(What::Meters)),
    ("show state", Item::Show(What::State)),
    ("show recall", Item::Show(What::Recall)),
    ("show events", Item::Show(What::Events)),
    ("order", Item::Show(What::Order)),
];

/// Lines that are no line of the grammar, though none is too long.
#[rattlefmt::skip]
const NO_ROWS: &[&[u8]] = &[
    // Bytes that no line has, and words that are parted otherwise.
    b"bill\t500",
    b"bill 500\r",
    b"bill 500\n",
    b"bill 500 ",
    b" bill 500",
    b"bill  500",
    b"bill",
    b"bill ",
    b" ",
    b"Bill 500",
    b"BILL-JAM",
    b"bill-Jam",
    b"bill-jam ",
    b"# \x7f",
    b"# \xff",
    b"#\t",
    b"# \x1f",
    b"#\r",
    b" # ",
    // Numbers out of their ranges, or written otherwise.
    b"bill +500",
    b"bill -5",
    b"bill 0500",
    b"bill 00",
    b"bill 5x",
    b"bill 100000001",
    b"coin 100000001",
    b"voucher 1 100000001",
    b"voucher 18446744073709551616 5",
    b"voucher 100000000000000000000 5",
    b"printed 18446744073709551616",
    b"coin-paid 07",
    b"play reels 256",
    b"pick 0",
    b"pick 6",
    b"hold 1000",
    b"hold 100000",
    b"hold 10020",
    b"as 18446744073709551616 take",
    b"cut call 0 0",
    b"cut sync 0 0",
    b"cut call 100001 0",
    b"cut sync 1 4",
    b"alter a 17457 0",
    b"alter a 0 256",
    // Words of other lines.
    b"bill 5 5",
    b"voucher 5",
    b"voucher 5 5 5",
    b"500 bill",
    b"play 3 reels",
    b"play cards 3",
    b"play reels",
    b"open bill-jam",
    b"open",
    b"shut open",
    b"clear-tilt main",
    b"clear-tilt",
    b"again power",
    b"again",
    b"as 1",
    b"as take",
    b"as 1 printed open",
    b"as 1 again bill",
    b"as 1 as 2 take",
    b"as 1 off",
    b"as 1 show meters",
    b"as 1 order",
    b"as 1 # take",
    b"cut 1 0",
    b"cut call 1",
    b"cut call 1 0 0",
    b"alter c 0 0",
    b"alter a 0",
    b"show",
    b"show order",
    b"order none",
    b"off off",
    b"take 1",
    b"start",
    b"red black",
    b"printed",
    b"printed none",
];

/// Comments and empty lines.
const COMMENTS: &[&[u8]] = &[
    b"",
    b"#",
    b"# ~ a comment of printable bytes",
    b"#bill 500",
    &[b'#'; 120],
];

/// Seeds and places of soak runs, and the lines of the items there, computed from the rule by another program, whose
/// words were compared with known ones of SplitMix64. Each of the 32 kinds is among them, each bill, bet, pick and door,
/// each thing that the attendant does, each count and each loss of a cut, and both ends of the places.
#[rattlefmt::skip]
const GENERATED: &[(u64, u64, &str)] = &[
    (0, 0, "play poker 1"),
    (0, 29_271, "voucher 29272 10000"),
    (0, 99_750, "cut sync 1 0"),
    (0, 99_999, "play poker 5"),
    (7, 0, "black"),
    (7, 1, "printed open"),
    (7, 2, "bill 1000"),
    (7, 3, "play reels 9"),
    (7, 4, "take"),
    (7, 6, "pick 4"),
    (7, 7, "shut main"),
    (7, 8, "bill 10000"),
    (7, 9, "play reels 2"),
    (7, 10, "play reels 8"),
    (7, 11, "play reels 9"),
    (7, 12, "play poker 4"),
    (7, 13, "play poker 5"),
    (7, 14, "coin 25"),
    (7, 16, "play poker 2"),
    (7, 17, "voucher 18 5063"),
    (7, 18, "pick 4"),
    (7, 21, "play reels 6"),
    (7, 22, "coin-paid open"),
    (7, 24, "play poker 3"),
    (7, 25, "play reels 7"),
    (7, 27, "clear-tilt bill-jam"),
    (7, 31, "play reels 5"),
    (7, 32, "play reels 3"),
    (7, 33, "hold 01100"),
    (7, 34, "bill 5000"),
    (7, 37, "pick 5"),
    (7, 39, "cashout"),
    (7, 40, "bill 2000"),
    (7, 49, "play reels 4"),
    (7, 50, "play reels 8"),
    (7, 64, "take"),
    (7, 67, "bill 5000"),
    (7, 69, "pick 3"),
    (7, 74, "bill 5000"),
    (7, 78, "hold 01001"),
    (7, 83, "pick 2"),
    (7, 86, "pick 1"),
    (7, 90, "play reels 1"),
    (7, 125, "hold 00000"),
    (7, 126, "open main"),
    (7, 128, "bill 100"),
    (7, 141, "handpay"),
    (7, 232, "hold 10000"),
    (7, 249, "take"),
    (7, 250, "cut sync 6 3"),
    (7, 251, "coin-paid open"),
    (7, 386, "hold 00001"),
    (7, 500, "red"),
    (7, 503, "hold 11111"),
    (7, 749, "take"),
    (7, 750, "cut sync 4 1"),
    (7, 751, "red"),
    (7, 1_000, "play reels 3"),
    (7, 1_750, "cut sync 2 1"),
    (7, 2_750, "cut sync 1 0"),
    (7, 3_250, "cut sync 5 2"),
    (7, 4_250, "cut sync 3 2"),
    (7, 99_750, "cut sync 3 2"),
    (7, 99_999, "hold 10110"),
    (1_234_567, 0, "bill 1000"),
    (1_234_567, 1, "bill 500"),
    (1_234_567, 2, "black"),
    (1_234_567, 3, "bill-jam"),
    (1_234_567, 4, "play reels 9"),
    (1_234_567, 99_999, "play poker 5"),
    (u64::MAX, 0, "bill 500"),
    (u64::MAX, 99_750, "cut sync 6 3"),
    (u64::MAX, 99_999, "red"),
];

#[test]
fn each_row_is_read_and_printed_back(rt: HostRuntime) {
    // What stands in the text of the row before is gone with the next one.
    let mut text = Text::new();
    for (line, item) in ROWS {
        let read = read_line(line.as_bytes());
        assert_eq!(rt; read, Ok(*item), "{line}");
        if let Ok(read) = read {
            print_item(&read, &mut text);
            assert_eq!(rt; text.as_str().strip_suffix('\n'), Some(*line));
        }
    }
}

#[test]
fn no_other_line_is_read(rt: HostRuntime) {
    for line in NO_ROWS {
        assert_eq!(rt; read_line(line), Err(LineFault::NotALine));
    }
    assert_eq!(rt; read_line(&[b'x'; 120]), Err(LineFault::NotALine));
    assert_eq!(rt; read_line(&[b'x'; 121]), Err(LineFault::TooLong));
    assert_eq!(rt; read_line(&[b'#'; 121]), Err(LineFault::TooLong));
}

#[test]
fn comments_are_read_as_one_item(rt: HostRuntime) {
    for line in COMMENTS {
        assert_eq!(rt; read_line(line), Ok(Item::Skip));
    }
}

#[test]
fn a_text_with_something_in_it_is_emptied(rt: HostRuntime) {
    let mut text = Text::new();
    text.push_str("cut call 7 2\n");
    print_item(&Item::Skip, &mut text);
    assert_eq!(rt; text.as_str(), "#\n");
}

#[test]
fn items_of_a_soak_run(rt: HostRuntime) {
    for (seed, place, line) in GENERATED {
        assert!(rt; *place < MOST_GENERATED);
        let item = generate(*seed, *place);
        assert_eq!(rt; read_line(line.as_bytes()), Ok(item), "{seed} {place}");
    }
}
