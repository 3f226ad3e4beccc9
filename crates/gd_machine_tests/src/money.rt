//! Histories of gd_machine: money that comes in, repeats, and doors and tilts.

use crate::tested::{TAKEN, Tested, refused};
use gd_base::{Condition, Door, Event, Meter, Refusal, Reply, Stepped, Tilt, What};
use gd_games::built_in;
use std::alloc::AllocError;

#[test]
fn money_in_is_noted(rt: HostRuntime) -> Result<(), AllocError> {
    let mut tested = Tested::new(rt.alloc(), built_in(), [0; 16])?;
    tested.steps(
        &rt,
        &[
            (1, Event::Bill { value: 500 }, TAKEN),
            (1, Event::Coin { value: 25 }, TAKEN),
            (1, Event::VoucherIn { id: 9, value: 100 }, TAKEN),
            (
                2,
                Event::VoucherIn { id: 9, value: 100 },
                refused(Refusal::VoucherSeen),
            ),
            (
                3,
                Event::VoucherIn { id: 9, value: 0 },
                refused(Refusal::ValueNotEnabled),
            ),
        ],
    );
    tested.shows(
        &rt,
        What::Events,
        "events 0\nbills 1\n1 500\nvouchers 1\n3 in 9 100\n",
    );
    assert_eq!(rt; tested.machine.account().balance(), 625);
    tested.counts(
        &rt,
        &[
            (Meter::BillIn, 500),
            (Meter::CoinIn, 25),
            (Meter::VoucherIn, 100),
        ],
    );
    Ok(())
}

#[test]
fn vouchers_and_limits(rt: HostRuntime) -> Result<(), AllocError> {
    let mut tested = Tested::new(rt.alloc(), built_in(), [0; 16])?;
    tested.steps(
        &rt,
        &[
            (1, Event::Start, TAKEN),
            (
                1,
                Event::VoucherIn {
                    id: 7,
                    value: 1_000_000,
                },
                TAKEN,
            ),
            (
                2,
                Event::VoucherIn { id: 8, value: 1 },
                refused(Refusal::CreditLimit),
            ),
            // That it was seen comes before the limit.
            (
                3,
                Event::VoucherIn { id: 7, value: 5 },
                refused(Refusal::VoucherSeen),
            ),
            (
                1,
                Event::Bill { value: 300 },
                refused(Refusal::ValueNotEnabled),
            ),
        ],
    );
    tested.shows(
        &rt,
        What::Events,
        "events 1\n1 start\nbills 0\nvouchers 1\n2 in 7 1000000\n",
    );
    assert_eq!(rt; tested.machine.account().balance(), 1_000_000);
    assert_eq!(rt; tested.machine.count(), 5);
    Ok(())
}

#[test]
fn repeats_and_steps(rt: HostRuntime) -> Result<(), AllocError> {
    let mut tested = Tested::new(rt.alloc(), built_in(), [0; 16])?;
    tested.steps(
        &rt,
        &[
            (1, Event::Bill { value: 500 }, TAKEN),
            (1, Event::Bill { value: 500 }, Stepped::Again(Reply::Taken)),
            // What a repeat tells isn't looked at.
            (1, Event::BillJam, Stepped::Again(Reply::Taken)),
            (
                5,
                Event::Bill { value: 500 },
                Stepped::OutOfStep { expected: 2 },
            ),
            (0, Event::CashOut, Stepped::OutOfStep { expected: 1 }),
            (1, Event::HandpayDone, refused(Refusal::NoHandpay)),
            (
                1,
                Event::HandpayDone,
                Stepped::Again(Reply::Refused(Refusal::NoHandpay)),
            ),
        ],
    );
    tested.shows(
        &rt,
        What::State,
        "credit 500\ncondition none\norder none\nhandpay none\nplay none\n",
    );
    assert_eq!(rt; tested.machine.count(), 2);
    Ok(())
}

#[test]
fn doors_and_tilts_are_noted(rt: HostRuntime) -> Result<(), AllocError> {
    let locked = refused(Refusal::LockedUp(Condition::CashboxDoor));
    let cashbox = Door::Cashbox;
    let tilt = Tilt::BillJam;
    let mut tested = Tested::new(rt.alloc(), built_in(), [0; 16])?;
    tested.steps(
        &rt,
        &[
            (1, Event::BillJam, TAKEN),
            // A tilt that stands is noted again.
            (2, Event::BillJam, TAKEN),
            (1, Event::DoorOpen { door: cashbox }, TAKEN),
            (
                2,
                Event::DoorOpen { door: cashbox },
                refused(Refusal::DoorAlready),
            ),
            // A door is shown before a tilt.
            (3, Event::Bill { value: 500 }, locked),
            (1, Event::ClearTilt { tilt }, TAKEN),
            (2, Event::ClearTilt { tilt }, refused(Refusal::NoSuchTilt)),
            (3, Event::DoorShut { door: cashbox }, TAKEN),
            (4, Event::Bill { value: 500 }, TAKEN),
        ],
    );
    tested.shows(
        &rt,
        What::Events,
        "events 5\n8 door-shut cashbox\n6 tilt-cleared bill-jam\n3 door-opened cashbox\n2 tilt-raised bill-jam\n1 tilt-raised bill-jam\nbills 1\n9 500\nvouchers 0\n",
    );
    tested.counts(&rt, &[(Meter::CashboxOpen, 1), (Meter::BillIn, 500)]);
    Ok(())
}
