//! Worked rows over a platform, through the bound of a core.

ghost use Rattle.std.specs.Prelude.{◌≤◌};

use super::{platform, written};
use crate::blocks::royal_flush;
use gd_base::{
    Block, COUNT_AT, Condition, Core, Event, Game, KEPT_AT, Loaded, Numbered, Refusal, Reply,
    Setup, Stepped, Text, What,
};
use gd_games::built_in;
use gd_image::Platform;
use std::process::Abort;
use std::test::Fail;

/// What a new event is answered, where a play has these words.
fn answered<C: Core>(core: &mut C, number: u64, event: Event, words: &Block) -> Stepped {
    let e = Numbered { number, event };
    if core.needs_draw(&e) {
        let index = core.draw_index();
        core.step(&e, Some((index, *words)))
    } else {
        core.step(&e, None)
    }
}

// ================ a royal flush, on both sides of the handpay limit

/// The built-in setup with another handpay limit.
fn setup_with(handpay_limit: u32) -> Setup
    requires low { 1 ≤ handpay_limit }
    requires high { handpay_limit ≤ 100000000 }
{
    let mut setup = built_in();
    setup.handpay_limit = handpay_limit;
    setup
}

/// A start and a bill of 500 cents; a poker play of five credits that wins 6,250 cents, all cards held, and taken.
const PLAYED: [(u64, Event); 5] = [
    (1, Event::Start),
    (1, Event::Bill { value: 500 }),
    (
        1,
        Event::Play {
            game: Game::Poker,
            bet: 5,
        },
    ),
    (2, Event::Hold { mask: 31 }),
    (3, Event::Take),
];

/// Whether all of it is taken.
fn has_played<C: Core>(core: &mut C) -> bool {
    let words = royal_flush();
    for (number, event) in PLAYED {
        if answered(core, number, event, &words) != Stepped::New(Reply::Taken) {
            return false;
        }
    }
    true
}

#[test]
fn a_royal_flush_below_the_handpay_limit(rt: HostRuntime) -> Result<(), Fail> {
    let mut core = Platform::new(rt.alloc(), setup_with(6251))?;
    assert!(rt; has_played(&mut core));
    assert_eq!(rt; (core.count(), core.credit()), (5, 6725));
    Ok(())
}

/// The meters of the row at their end.
const METERS: &str =
    "BillIn 0000000500\nCoinIn 0000000000\nVoucherIn 0000000000\nWagered 0000000025\nWon 0000006250\nVoucherOut 0000000000\nCoinOut 0000000000\nHandWin 0000006250\nHandCancel 0000000000\nGamesPlayed 0000000001\nGamesWon 0000000001\nPowerUps 0000000001\nLogicOpen 0000000000\nMainOpen 0000000000\nCashboxOpen 0000000000\nDropOpen 0000000000\n";

#[test]
fn a_royal_flush_at_the_handpay_limit(rt: HostRuntime) -> Result<(), Fail> {
    let mut core = Platform::new(rt.alloc(), setup_with(6250))?;
    assert!(rt; has_played(&mut core));
    assert_eq!(rt; (core.count(), core.credit()), (5, 475));
    let locked = Stepped::New(Reply::Refused(Refusal::LockedUp(Condition::Handpay)));
    let words = royal_flush();
    assert_eq!(rt; answered(&mut core, 4, Event::CashOut, &words), locked);
    let paid = answered(&mut core, 1, Event::HandpayDone, &words);
    assert_eq!(rt; paid, Stepped::New(Reply::Taken));
    assert_eq!(rt; core.count(), 7);
    let mut text = Text::new();
    core.show(What::Meters, &mut text);
    assert_eq!(rt; text.as_str(), METERS);
    Ok(())
}

// ================ a full history

#[test]
fn a_full_history(rt: HostRuntime) -> Result<(), Fail> {
    let mut core = platform(rt.alloc())?;
    let mut payload = written(&core);
    // 2^36 entries, all of them of the bill validator, the last one taken.
    payload[COUNT_AT + 3] = 16;
    payload[KEPT_AT + 3] = 16;
    payload[KEPT_AT + 8] = 1;
    assert_eq!(rt; core.load(&payload), Loaded::Read);
    let bill = Event::Bill { value: 100 };
    let last = 68_719_476_736;
    let rows = [
        (last + 1, Stepped::HistoryFull),
        (last, Stepped::Again(Reply::Taken)),
        (7, Stepped::OutOfStep { expected: last + 1 }),
    ];
    for (number, wanted) in rows {
        let stepped = answered(&mut core, number, bill, &[0; 16]);
        assert_eq!(rt; stepped, wanted);
    }
    assert_eq!(rt; core.count(), last);
    Ok(())
}
