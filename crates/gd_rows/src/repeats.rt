//! Repeats of an event, numbers out of step, and devices of which nothing was taken, through the whole program.

use crate::trials::{Trial, expect};
use gd_runs::draws::three_scatters;
use gd_runs::runs::zeros;
use gd_top::Status;
use std::test::Fail;

/// A repeat gets the kept reply, whatever it says, and is no entry. So do a number out of step and a device of which
/// nothing was taken.
#[test]
fn repeats_and_steps(rt: HostRuntime) -> Result<(), Fail> {
    let wanted = Trial {
        script: &[
            "bill 500",
            "again bill",
            "again reader",
            "as 5 bill 500",
            "as 1 bill 100",
        ],
        status: Status::Done,
        report: &[
            "ack bill 1 taken at 2",
            "again bill 1 taken at 2",
            "none reader",
            "step bill expected 2",
            "again bill 1 taken at 2",
            "end at 2 credit 500",
        ],
        entries: Some(2),
    };
    expect(&rt, rt.alloc(), zeros(rt.alloc()), &wanted)
}

/// Scripts with repeats: the lines, those of the report, and the count that is left. Each block is of zeros, by which
/// nine lines win nothing.
#[rattlefmt::skip]
const REPEATS: &[(&[&str], &[&str], u64)] = &[
    // Nothing was taken of any device.
    (&["again bill", "again coin", "again reader", "again printer", "again hopper", "again doors", "again player", "again attendant"],
        &["none bill", "none coin", "none reader", "none printer", "none hopper", "none doors", "none player", "none attendant", "end at 1 credit 0"], 1),
    // The number 0 is out of step at first too, and so is every other but 1.
    (&["as 0 bill 500", "as 2 bill 500", "as 18446744073709551615 bill 500", "as 1 bill 500", "as 0 bill 500"],
        &["step bill expected 1", "step bill expected 1", "step bill expected 1", "ack bill 1 taken at 2", "step bill expected 2", "end at 2 credit 500"], 2),
    // The next number is new, and the line behind it has the one after.
    (&["as 1 bill 500", "as 2 bill 100", "bill 100", "as 3 bill 500"],
        &["ack bill 1 taken at 2", "ack bill 2 taken at 3", "ack bill 3 taken at 4", "again bill 3 taken at 4", "end at 4 credit 700"], 4),
    // The latest number alone is repeated.
    (&["bill 500", "bill 100", "as 1 bill 500", "again bill", "as 2 bill 100"],
        &["ack bill 1 taken at 2", "ack bill 2 taken at 3", "step bill expected 3", "again bill 2 taken at 3", "again bill 2 taken at 3", "end at 3 credit 600"], 3),
    // A refusal is kept, also where the repeat says what would be taken, and the other way round.
    (&["bill 300", "again bill", "as 1 bill 500", "bill 500", "as 2 bill 300"],
        &["ack bill 1 refused 3 value-not-enabled at 2", "again bill 1 refused 3 value-not-enabled at 2", "again bill 1 refused 3 value-not-enabled at 2",
            "ack bill 2 taken at 3", "again bill 2 taken at 3", "end at 3 credit 500"], 3),
    // Each device has its own numbers.
    (&["bill 500", "play reels 1", "again bill", "again player", "as 1 play reels 9", "as 2 bill 100", "as 2 take", "as 2 pick 1", "as 4 take"],
        &["ack bill 1 taken at 2", "ack player 1 taken at 3", "again bill 1 taken at 3", "again player 1 taken at 3", "again player 1 taken at 3",
            "ack bill 2 taken at 4", "ack player 2 refused 8 no-play at 5", "again player 2 refused 8 no-play at 5", "step player expected 3", "end at 5 credit 595"], 5),
    (&["as 1 coin 25", "again coin", "as 1 coin 50", "as 3 coin 25", "as 2 coin 50", "again coin"],
        &["ack coin 1 taken at 2", "again coin 1 taken at 2", "again coin 1 taken at 2", "step coin expected 2", "ack coin 2 refused 3 value-not-enabled at 3",
            "again coin 2 refused 3 value-not-enabled at 3", "end at 3 credit 25"], 3),
    (&["voucher 7 100", "again reader", "hopper-empty 5", "again hopper", "open main", "again doors", "shut main", "as 2 open main",
        "paper-out", "again printer", "clear-tilt paper-out", "again attendant"],
        &["ack reader 1 taken at 2", "again reader 1 taken at 2", "ack hopper 1 refused 12 no-such-order at 3", "again hopper 1 refused 12 no-such-order at 3",
            "ack doors 1 taken at 4", "again doors 1 taken at 4", "ack doors 2 taken at 5", "again doors 2 taken at 5", "ack printer 1 taken at 6",
            "again printer 1 taken at 6", "ack attendant 1 taken at 7", "again attendant 1 taken at 7", "end at 7 credit 100"], 7),
    // With a refusal the condition is kept, also where it stands no more.
    (&["coin-jam", "coin 25", "clear-tilt coin-jam", "again coin", "coin 25"],
        &["ack coin 1 taken at 2", "ack coin 2 refused 1 locked-up coin-jam at 3", "ack attendant 1 taken at 4",
            "again coin 2 refused 1 locked-up coin-jam at 4", "ack coin 3 taken at 5", "end at 5 credit 25"], 5),
    // Over a loss of power the reply is kept. The count is then that of the start.
    (&["bill 500", "off", "on", "again bill", "as 1 bill 100", "as 3 bill 500", "as 2 bill 100", "as 1 bill 500"],
        &["ack bill 1 taken at 2", "off", "power 2: a sound 2, b sound 2", "start at 3", "again bill 1 taken at 3", "again bill 1 taken at 3", "step bill expected 2",
            "ack bill 2 taken at 4", "step bill expected 3", "end at 4 credit 600"], 4),
    (&["bill 300", "off", "on", "again bill", "off", "on", "again bill", "again player", "bill 500"],
        &["ack bill 1 refused 3 value-not-enabled at 2", "off", "power 2: a sound 2, b sound 2", "start at 3", "again bill 1 refused 3 value-not-enabled at 3",
            "off", "power 3: a sound 3, b sound 3", "start at 4", "again bill 1 refused 3 value-not-enabled at 4", "none player", "ack bill 2 taken at 5", "end at 5 credit 500"], 5),
];

#[test]
fn repeats(rt: HostRuntime) -> Result<(), Fail> {
    for (script, report, entries) in REPEATS {
        let wanted = Trial {
            script,
            status: Status::Done,
            report,
            entries: Some(*entries),
        };
        expect(&rt, rt.alloc(), zeros(rt.alloc()), &wanted)?;
    }
    Ok(())
}

/// A play and its pick are repeated over losses of power. The play keeps its one block, and the door that was picked
/// first: behind door 2 is 10 times 9 credits, which are 450 cents.
#[test]
fn repeats_of_an_open_play(rt: HostRuntime) -> Result<(), Fail> {
    let wanted = Trial {
        script: &[
            "bill 500",
            "play reels 9",
            "again player",
            "off",
            "on",
            "again player",
            "as 1 play reels 1",
            "pick 2",
            "as 2 pick 5",
            "off",
            "on",
            "again player",
            "show state",
            "as 3 take",
            "as 3 take",
            "again player",
        ],
        status: Status::Done,
        report: &[
            "ack bill 1 taken at 2",
            "ack player 1 taken at 3",
            "again player 1 taken at 3",
            "off",
            "power 2: a sound 3, b sound 3",
            "start at 4",
            "again player 1 taken at 4",
            "again player 1 taken at 4",
            "ack player 2 taken at 5",
            "again player 2 taken at 5",
            "off",
            "power 3: a sound 5, b sound 5",
            "start at 6",
            "again player 2 taken at 6",
            "credit 455",
            "condition none",
            "order none",
            "handpay none",
            "play 1 block 1 reels bet 9 wager 45",
            "window SSSFC AFACF BEDEB",
            "pick 2 prize 90",
            "stage gamble win 450",
            "ack player 3 taken at 7",
            "again player 3 taken at 7",
            "again player 3 taken at 7",
            "end at 7 credit 905",
        ],
        entries: Some(7),
    };
    expect(&rt, rt.alloc(), three_scatters(rt.alloc())?, &wanted)
}

/// Scripts with a faulty repeat: the lines, those of the report, and the count that is left. None where the power is off.
#[rattlefmt::skip]
const FAULTY: &[(&[&str], &[&str], Option<u64>)] = &[
    // The power supply can't repeat, and a repeat names just a device.
    (&["again power"], &["line 1"], Some(1)),
    (&["again"], &["line 1"], Some(1)),
    (&["again bill 1"], &["line 1"], Some(1)),
    (&["again main"], &["line 1"], Some(1)),
    // A number has no leading zero, and is below 2^64.
    (&["as 01 bill 500"], &["line 1"], Some(1)),
    (&["as 18446744073709551616 bill 500"], &["line 1"], Some(1)),
    (&["as -1 bill 500"], &["line 1"], Some(1)),
    (&["as bill 500"], &["line 1"], Some(1)),
    // Only an event has a number.
    (&["as 1"], &["line 1"], Some(1)),
    (&["as 1 off"], &["line 1"], Some(1)),
    (&["as 1 show meters"], &["line 1"], Some(1)),
    (&["as 1 again bill"], &["line 1"], Some(1)),
    (&["as 1 as 1 bill 500"], &["line 1"], Some(1)),
    (&["as 1 # a comment"], &["line 1"], Some(1)),
    (&["as 1 bill 0500"], &["line 1"], Some(1)),
    // An order that has no number yet has none behind `as` either.
    (&["as 1 printed open"], &["line 1"], Some(1)),
    // While the power is off nothing is repeated.
    (&["off", "again bill"], &["off", "line 2"], None),
    (&["off", "as 1 bill 500"], &["off", "line 2"], None),
    // What stands before the fault was carried out.
    (&["bill 500", "again bill", "again power"], &["ack bill 1 taken at 2", "again bill 1 taken at 2", "line 3"], Some(2)),
];

#[test]
fn faulty_repeats(rt: HostRuntime) -> Result<(), Fail> {
    for (script, report, entries) in FAULTY {
        let wanted = Trial {
            script,
            status: Status::ScriptFault,
            report,
            entries: *entries,
        };
        expect(&rt, rt.alloc(), zeros(rt.alloc()), &wanted)?;
    }
    Ok(())
}
