//! What no clause of gd_doors says: which condition each door and each tilt makes, and which of several is shown, by name.

use gd_base::{Condition, Door, Refusal, Tilt};
use gd_doors::Conditions;

/// The doors, with the condition of each.
#[rattlefmt::skip]
const DOORS: [(Door, Condition); 4] = [
    (Door::Logic, Condition::LogicDoor),
    (Door::Main, Condition::MainDoor),
    (Door::Cashbox, Condition::CashboxDoor),
    (Door::Drop, Condition::DropDoor),
];

/// The tilts, with the condition of each.
#[rattlefmt::skip]
const TILTS: [(Tilt, Condition); 6] = [
    (Tilt::BillJam, Condition::BillJam),
    (Tilt::CoinJam, Condition::CoinJam),
    (Tilt::StackerFull, Condition::StackerFull),
    (Tilt::PaperOut, Condition::PaperOut),
    (Tilt::PrintFail, Condition::PrintFail),
    (Tilt::HopperEmpty, Condition::HopperEmpty),
];

/// All doors are shut and no tilt stands.
fn quiet() -> Conditions {
    Conditions::from_parts([false; 4], [false; 6])
}

#[test]
fn a_door_opens_once_and_shuts_once(rt: HostRuntime) {
    for (door, shown) in DOORS {
        let mut conditions = quiet();
        assert_eq!(rt;
            conditions.door(door, false),
            Err(Refusal::DoorAlready),
            "{door:?}"
        );
        assert_eq!(rt; conditions.parts(), ([false; 4], [false; 6]), "{door:?}");
        assert_eq!(rt; conditions.door(door, true), Ok(()), "{door:?}");
        assert_eq!(rt;
            conditions.door(door, true),
            Err(Refusal::DoorAlready),
            "{door:?}"
        );
        // It is shown alone, and before a handpay.
        assert_eq!(rt; conditions.shown_condition(false), Some(shown));
        assert_eq!(rt; conditions.shown_condition(true), Some(shown));
        assert_eq!(rt; conditions.door(door, false), Ok(()), "{door:?}");
        assert_eq!(rt;
            conditions.door(door, false),
            Err(Refusal::DoorAlready),
            "{door:?}"
        );
        assert_eq!(rt; conditions.shown_condition(false), None, "{door:?}");
    }
}

#[test]
fn a_tilt_stands_until_it_is_cleared(rt: HostRuntime) {
    for (tilt, shown) in TILTS {
        let mut conditions = quiet();
        assert_eq!(rt;
            conditions.clear(tilt),
            Err(Refusal::NoSuchTilt),
            "{tilt:?}"
        );
        assert_eq!(rt; conditions.parts(), ([false; 4], [false; 6]), "{tilt:?}");
        // Raised twice it is cleared by one call.
        conditions.raise(tilt);
        conditions.raise(tilt);
        // It is shown alone, and before a handpay.
        assert_eq!(rt; conditions.shown_condition(false), Some(shown));
        assert_eq!(rt; conditions.shown_condition(true), Some(shown));
        assert_eq!(rt; conditions.clear(tilt), Ok(()), "{tilt:?}");
        assert_eq!(rt;
            conditions.clear(tilt),
            Err(Refusal::NoSuchTilt),
            "{tilt:?}"
        );
        assert_eq!(rt; conditions.shown_condition(false), None, "{tilt:?}");
    }
}

#[test]
fn a_door_is_shown_before_an_older_tilt(rt: HostRuntime) {
    for (tilt, tilt_shown) in TILTS {
        for (door, door_shown) in DOORS {
            let mut conditions = quiet();
            conditions.raise(tilt);
            assert_eq!(rt; conditions.door(door, true), Ok(()), "{door:?}");
            assert_eq!(rt; conditions.shown_condition(true), Some(door_shown));
            assert_eq!(rt; conditions.door(door, false), Ok(()), "{door:?}");
            assert_eq!(rt; conditions.shown_condition(true), Some(tilt_shown));
        }
    }
}

#[test]
fn the_first_condition_in_their_order_is_shown(rt: HostRuntime) {
    // A handpay is shown only where nothing else stands.
    assert_eq!(rt; quiet().shown_condition(false), None);
    assert_eq!(rt; quiet().shown_condition(true), Some(Condition::Handpay));
    // Raised and opened from the last to the first, each is shown in its turn.
    let mut conditions = quiet();
    for place in 0..6usize {
        let (tilt, shown) = TILTS[5 - place];
        conditions.raise(tilt);
        assert_eq!(rt; conditions.shown_condition(true), Some(shown));
    }
    for place in 0..4usize {
        let (door, shown) = DOORS[3 - place];
        assert_eq!(rt; conditions.door(door, true), Ok(()), "{door:?}");
        assert_eq!(rt; conditions.shown_condition(true), Some(shown));
    }
    assert_eq!(rt; conditions.parts(), ([true; 4], [true; 6]));
}
