//! What no clause of gd_image says: that a platform is to be had, and which bytes of a payload are looked at. The core is called
//! through its bound.

mod rows;

use crate::blocks::three_scatters;
use gd_base::{
    Core, Door, Event, Game, Loaded, Numbered, OPEN_AT, Order, OrderKind, PAYLOAD_LEN, Reply,
    Setup, Stepped, Text, What,
};
use gd_games::{built_in, setup_digest};
use gd_image::Platform;
use std::alloc::{AllocError, Global};
use std::process::Abort;
use std::test::Fail;

/// Whether a new event was taken.
fn taken<C: Core>(core: &mut C, number: u64, event: Event) -> bool {
    let e = Numbered { number, event };
    let stepped = if core.needs_draw(&e) {
        let index = core.draw_index();
        core.step(&e, Some((index, three_scatters())))
    } else {
        core.step(&e, None)
    };
    stepped == Stepped::New(Reply::Taken)
}

/// Whether money came in at each device, and a play was begun: a start, a bill, a voucher and a coin, 825 cents.
fn has_begun<C: Core>(core: &mut C) -> bool {
    taken(core, 1, Event::Start)
        && taken(core, 1, Event::Bill { value: 500 })
        && taken(core, 1, Event::VoucherIn { id: 7, value: 300 })
        && taken(core, 1, Event::Coin { value: 25 })
        && taken(
            core,
            1,
            Event::Play {
                game: Game::Reels,
                bet: 9,
            },
        )
}

/// Whether that play was ended with its win, and the balance of 1,230 cents was cashed out.
fn has_ended<C: Core>(core: &mut C) -> bool {
    taken(core, 2, Event::Pick { door: 2 })
        && taken(core, 3, Event::Take)
        && taken(core, 4, Event::CashOut)
}

/// The payload of a core.
fn written<C: Core>(core: &C) -> [u8; PAYLOAD_LEN] {
    let mut payload = [0; PAYLOAD_LEN];
    core.write_image(&mut payload);
    payload
}

/// Whether two cores show the same.
fn show_the_same<C: Core>(core: &C, other: &C) -> bool {
    let mut text = Text::new();
    let mut again = Text::new();
    for what in [
        What::Meters,
        What::State,
        What::Recall,
        What::Events,
        What::Order,
    ] {
        core.show(what, &mut text);
        other.show(what, &mut again);
        if text.as_str() != again.as_str() {
            return false;
        }
    }
    true
}

/// Whether another core loads what this one writes, and then shows and writes the same.
fn is_taken_over<C: Core>(core: &C, other: &mut C) -> bool {
    let payload = written(core);
    other.load(&payload) == Loaded::Read
        && other.count() == core.count()
        && show_the_same(core, other)
        && written(other) == payload
}

/// What a core makes of a payload with other bits at a place.
fn loaded_with<C: Core>(
    core: &mut C,
    payload: &[u8; PAYLOAD_LEN],
    place: usize,
    bits: u8,
) -> Loaded {
    let mut altered = *payload;
    if let Some(byte) = altered.get_mut(place) {
        *byte ^= bits;
    }
    core.load(&altered)
}

/// Whether a payload is unreadable with each of these bits changed at its place.
fn are_unreadable<C: Core>(
    core: &mut C,
    payload: &[u8; PAYLOAD_LEN],
    changes: &[(usize, u8)],
) -> bool {
    for (place, bits) in changes {
        if loaded_with(core, payload, *place, *bits) != Loaded::Unreadable || core.count() != 0 {
            return false;
        }
    }
    true
}

fn platform(alloc: Global) -> Result<Platform, AllocError> {
    Platform::new(alloc, built_in())
}

#[test]
fn a_machine_is_written_and_loaded_again(rt: HostRuntime) -> Result<(), Fail> {
    let mut core = platform(rt.alloc())?;
    let mut other = platform(rt.alloc())?;
    assert!(rt; is_taken_over(&core, &mut other));
    assert!(rt; has_begun(&mut core));
    assert!(rt; is_taken_over(&core, &mut other));
    assert_eq!(rt; other.credit(), 780);
    assert_eq!(rt; other.open_order(), 0);
    assert!(rt; has_ended(&mut core));
    assert!(rt; taken(&mut core, 1, Event::CoinPaid { order: 1 }));
    assert!(rt; taken(&mut core, 1, Event::DoorOpen { door: Door::Main }));
    assert!(rt; taken(&mut core, 2, Event::StackerFull));
    assert!(rt; is_taken_over(&core, &mut other));
    assert_eq!(rt; other.credit(), 5);
    assert_eq!(rt;
        other.order(),
        Some(Order {
            number: 1,
            kind: OrderKind::Hopper,
            amount: 1200
        })
    );
    Ok(())
}

// The empty history's payload is the setup's digest and zeros, so zeros alone are that of a setup with such a digest.
#[test]
fn the_empty_history(rt: HostRuntime) -> Result<(), Fail> {
    let mut core = platform(rt.alloc())?;
    let mut expected = [0; PAYLOAD_LEN];
    expected[..32].copy_from_slice(&setup_digest(&built_in()));
    assert!(rt; written(&core) == expected);
    assert_eq!(rt; core.credit(), 0);
    assert_eq!(rt; core.order(), None);
    assert_eq!(rt;
        core.load(&[0; PAYLOAD_LEN]),
        Loaded::Differs { kept: [0; 32] }
    );
    Ok(())
}

// The fields of the head in their order. An order to the hopper is open.
#[test]
fn a_byte_of_the_head(rt: HostRuntime) -> Result<(), Fail> {
    let mut core = platform(rt.alloc())?;
    assert!(rt; has_begun(&mut core) && has_ended(&mut core));
    let payload = written(&core);
    let fields = [
        (39, 1),
        (47, 1),
        (55, 1),
        (120, 1),
        (176, 16),
        (177, 64),
        (178, 1),
        (179, 1),
        (187, 1),
        (188, 4),
        (189, 1),
        (192, 1),
        (207, 1),
        (215, 1),
        (216, 2),
        (217, 1),
        (218, 1),
        (219, 1),
    ];
    assert!(rt; are_unreadable(&mut core, &payload, &fields));
    assert_eq!(rt; core.load(&payload), Loaded::Read);
    Ok(())
}

// The numbers of the lists, zeros, the mark of an open play where none is, a record of each list, and the end.
#[test]
fn a_byte_of_a_list(rt: HostRuntime) -> Result<(), Fail> {
    let mut core = platform(rt.alloc())?;
    assert!(rt; has_begun(&mut core) && has_ended(&mut core));
    let payload = written(&core);
    let places = [
        (317, 1),
        (319, 1),
        (321, 1),
        (323, 1),
        (344, 1),
        (OPEN_AT, 1),
        (4095, 1),
        (4096 + 178, 1),
        (5956, 1),
        (7656, 1),
        (7716, 1),
        (16_383, 1),
    ];
    assert!(rt; are_unreadable(&mut core, &payload, &places));
    assert_eq!(rt; core.load(&payload), Loaded::Read);
    Ok(())
}

// Of the open play: its game, bet, wager, choice, turns, colours, the zero, its win, its balance after, and its place.
#[test]
fn a_byte_of_the_open_play(rt: HostRuntime) -> Result<(), Fail> {
    let mut core = platform(rt.alloc())?;
    assert!(rt; has_begun(&mut core));
    let payload = written(&core);
    let record = OPEN_AT + 1;
    let fields = [
        (OPEN_AT, 2),
        (record + 144, 4),
        (record + 145, 16),
        (record + 149, 1),
        (record + 150, 8),
        (record + 151, 1),
        (record + 152, 1),
        (record + 153, 1),
        (record + 161, 1),
        (record + 177, 1),
        (record + 178, 1),
    ];
    assert!(rt; are_unreadable(&mut core, &payload, &fields));
    assert_eq!(rt; core.load(&payload), Loaded::Read);
    Ok(())
}

/// The built-in setup with credits of another value.
fn other_setup() -> Setup {
    let mut setup = built_in();
    setup.denom = 1;
    setup
}

// The rules of this setup aren't tried on the view of another, whose wager is 9 cents, and a view of another that breaks
// any other rule is none.
#[test]
fn the_payload_of_another_setup(rt: HostRuntime) -> Result<(), Fail> {
    let mut core = platform(rt.alloc())?;
    let mut other = Platform::new(rt.alloc(), other_setup())?;
    assert!(rt; has_begun(&mut other));
    let payload = written(&other);
    let kept = setup_digest(&other_setup());
    assert_eq!(rt; core.load(&payload), Loaded::Differs { kept });
    assert_eq!(rt; core.count(), 0);
    assert!(rt;
        are_unreadable(
            &mut core,
            &payload,
            &[(39, 1), (47, 1), (344, 1), (16_383, 1)]
        )
    );
    Ok(())
}
