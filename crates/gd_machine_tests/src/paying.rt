//! Histories of gd_machine: money that is paid out.

use crate::tested::{TAKEN, Tested, refused};
use gd_base::{Event, Meter, Refusal, Tilt, What};
use gd_games::built_in;
use std::alloc::AllocError;

#[test]
fn hopper_runs_empty(rt: HostRuntime) -> Result<(), AllocError> {
    let mut tested = Tested::new(rt.alloc(), built_in(), [0; 16])?;
    tested.steps(
        &rt,
        &[
            (1, Event::VoucherIn { id: 1, value: 1975 }, TAKEN),
            (1, Event::CashOut, TAKEN),
        ],
    );
    tested.shows(&rt, What::Order, "order 1 hopper 79 coins 1975\n");
    tested.steps(
        &rt,
        &[
            (1, Event::CoinPaid { order: 1 }, TAKEN),
            (2, Event::CoinPaid { order: 1 }, TAKEN),
            (1, Event::Bill { value: 500 }, refused(Refusal::OrderOpen)),
            (3, Event::CoinPaid { order: 1 }, TAKEN),
            (4, Event::HopperEmpty { order: 1 }, TAKEN),
        ],
    );
    tested.shows(
        &rt,
        What::State,
        "credit 1900\ncondition hopper-empty\norder none\nhandpay none\nplay none\n",
    );
    tested.counts(&rt, &[(Meter::VoucherIn, 1975), (Meter::CoinOut, 75)]);
    let tilt = Tilt::HopperEmpty;
    tested.steps(
        &rt,
        &[
            (1, Event::ClearTilt { tilt }, TAKEN),
            (2, Event::Bill { value: 500 }, TAKEN),
        ],
    );
    assert_eq!(rt; tested.machine.account().balance(), 2400);
    Ok(())
}

#[test]
fn voucher_is_printed(rt: HostRuntime) -> Result<(), AllocError> {
    let mut tested = Tested::new(rt.alloc(), built_in(), [0; 16])?;
    let tilt = Tilt::PrintFail;
    tested.steps(
        &rt,
        &[
            (1, Event::Bill { value: 2000 }, TAKEN),
            (1, Event::CashOut, TAKEN),
            (1, Event::PrintFail { order: 1 }, TAKEN),
            (1, Event::ClearTilt { tilt }, TAKEN),
            (2, Event::CashOut, TAKEN),
            (2, Event::PaperOut, TAKEN),
        ],
    );
    // Without paper an order stays open.
    tested.shows(
        &rt,
        What::State,
        "credit 0\ncondition paper-out\norder 2 printer 2000\nhandpay none\nplay none\n",
    );
    tested.steps(
        &rt,
        &[
            (
                3,
                Event::Printed { order: 1 },
                refused(Refusal::NoSuchOrder),
            ),
            (4, Event::Printed { order: 2 }, TAKEN),
        ],
    );
    tested.shows(
        &rt,
        What::Events,
        "events 3\n6 tilt-raised paper-out\n4 tilt-cleared print-fail\n3 tilt-raised print-fail\nbills 1\n1 2000\nvouchers 1\n8 out 2 2000\n",
    );
    tested.counts(&rt, &[(Meter::BillIn, 2000), (Meter::VoucherOut, 2000)]);
    Ok(())
}

#[test]
fn cancelled_credit_handpay(rt: HostRuntime) -> Result<(), AllocError> {
    let mut tested = Tested::new(rt.alloc(), built_in(), [0; 16])?;
    let value = 400_000;
    tested.steps(
        &rt,
        &[
            (1, Event::Start, TAKEN),
            (1, Event::VoucherIn { id: 1, value }, TAKEN),
            (1, Event::CashOut, TAKEN),
        ],
    );
    tested.shows(
        &rt,
        What::State,
        "credit 0\ncondition handpay\norder none\nhandpay cancel 400000\nplay none\n",
    );
    tested.steps(&rt, &[(1, Event::HandpayDone, TAKEN)]);
    tested.shows(
        &rt,
        What::Events,
        "events 3\n4 handpay-done 400000\n3 handpay-cancel 400000\n1 start\nbills 0\nvouchers 1\n2 in 1 400000\n",
    );
    tested.counts(&rt, &[(Meter::HandCancel, 400_000), (Meter::HandWin, 0)]);
    Ok(())
}
