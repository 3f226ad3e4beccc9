//! Alterations of a closed memory of which one copy stays sound, and those that no power-on has found yet.

use gd_runs::draws::three_scatters;
use gd_runs::left::{Altered, Left, SHUT, SOUND_1, expect, expect_whole, push_words};
use gd_runs::runs::{lines, report, zeros};
use gd_store::{CopyState, Found, Why};
use gd_top::Status;
use std::test::Fail;

/// A copy that was altered is written anew from the other.
#[test]
fn one_page_altered(rt: HostRuntime) -> Result<(), Fail> {
    let wanted = Altered {
        script: &["off", "alter a 2000 1", "on"],
        status: Status::Done,
        report: &[
            "off",
            "altered a 2000",
            "power 2: a page 1, b sound 1",
            "start at 2 repaired a",
            "end at 2 credit 0",
        ],
        left: Left::Sound(2),
    };
    expect(rt.alloc(), zeros(rt.alloc()), &wanted)
}

/// Places of a copy, and what the copy is found to be where one bit there was altered: the gate, the name, the version, the
/// number of pages, the sequence, the first and the last digest, the seal, and the first and last bytes of pages.
#[rattlefmt::skip]
const PLACES: &[(&str, &str)] = &[
    ("0", "shut"),
    ("1", "header"), ("6", "header"), ("8", "header"),
    ("16", "root"), ("17", "root"), ("1040", "root"), ("1041", "root"), ("1072", "root"),
    ("1073", "page 0"), ("1584", "page 0"), ("1585", "page 1"), ("17456", "page 31"),
];

/// Each state of an altered copy, in either copy. What was taken before stands.
#[test]
fn a_byte_of_each_part_altered(rt: HostRuntime) -> Result<(), Fail> {
    let alloc = rt.alloc();
    for (place, state) in PLACES {
        let mut script = lines(alloc, &["bill 500", "off"])?;
        let mut wanted = report(alloc, &["ack bill 1 taken at 2", "off"])?;
        push_words(&mut script, &["alter b ", *place, " 128\non\n"])?;
        push_words(
            &mut wanted,
            &["altered b ", *place, "\npower 2: a sound 2, b ", *state],
        )?;
        push_words(
            &mut wanted,
            &["\nstart at 3 repaired b\nend at 3 credit 500\n"],
        )?;
        expect_whole(
            alloc,
            zeros(alloc),
            script,
            Status::Done,
            &wanted,
            Left::Sound(3),
        )?;
    }
    Ok(())
}

/// Masks on one byte that cancel, and a mask of no bit: nothing is altered.
#[test]
fn alterations_cancel(rt: HostRuntime) -> Result<(), Fail> {
    let wanted = Altered {
        script: &[
            "off",
            "alter a 2000 1",
            "alter a 2000 1",
            "on",
            "off",
            "alter a 2000 1",
            "alter b 2000 0",
            "alter a 2000 2",
            "alter a 2000 3",
            "on",
        ],
        status: Status::Done,
        report: &[
            "off",
            "altered a 2000",
            "altered a 2000",
            "power 2: a sound 1, b sound 1",
            "start at 2",
            "off",
            "altered a 2000",
            "altered b 2000",
            "altered a 2000",
            "altered a 2000",
            "power 3: a sound 2, b sound 2",
            "start at 3",
            "end at 3 credit 0",
        ],
        left: Left::Sound(3),
    };
    expect(rt.alloc(), zeros(rt.alloc()), &wanted)
}

/// What was altered ends where the copies are read: the same mask in the next off-period alters the repaired copy again.
#[test]
fn altered_in_two_off_periods(rt: HostRuntime) -> Result<(), Fail> {
    let wanted = Altered {
        script: &["off", "alter a 2000 1", "on", "off", "alter a 2000 1", "on"],
        status: Status::Done,
        report: &[
            "off",
            "altered a 2000",
            "power 2: a page 1, b sound 1",
            "start at 2 repaired a",
            "off",
            "altered a 2000",
            "power 3: a page 1, b sound 2",
            "start at 3 repaired a",
            "end at 3 credit 0",
        ],
        left: Left::Sound(3),
    };
    expect(rt.alloc(), zeros(rt.alloc()), &wanted)
}

/// A win that waits for the player stands where copy a is altered in one off-period and copy b in the next.
#[test]
fn altered_over_an_open_play(rt: HostRuntime) -> Result<(), Fail> {
    let wanted = Altered {
        script: &[
            "bill 500",
            "play reels 9",
            "off",
            "alter a 1585 1",
            "on",
            "pick 2",
            "off",
            "alter b 1585 1",
            "on",
            "again player",
            "show state",
            "take",
        ],
        status: Status::Done,
        report: &[
            "ack bill 1 taken at 2",
            "ack player 1 taken at 3",
            "off",
            "altered a 1585",
            "power 2: a page 1, b sound 3",
            "start at 4 repaired a",
            "ack player 2 taken at 5",
            "off",
            "altered b 1585",
            "power 3: a sound 5, b page 1",
            "start at 6 repaired b",
            "again player 2 taken at 6",
            "credit 455",
            "condition none",
            "order none",
            "handpay none",
            "play 1 block 1 reels bet 9 wager 45",
            "window SSSFC AFACF BEDEB",
            "pick 2 prize 90",
            "stage gamble win 450",
            "ack player 3 taken at 7",
            "end at 7 credit 905",
        ],
        left: Left::Sound(7),
    };
    expect(rt.alloc(), three_scatters(rt.alloc())?, &wanted)
}

/// The script ends with the power off over two altered copies: it is told as done, and a power-on finds the masks.
#[test]
fn altered_at_the_end(rt: HostRuntime) -> Result<(), Fail> {
    let wanted = Altered {
        script: &["bill 500", "off", "alter a 2000 1", "alter b 0 90"],
        status: Status::Done,
        report: &[
            "ack bill 1 taken at 2",
            "off",
            "altered a 2000",
            "altered b 0",
            "end off",
        ],
        left: Left::Off(Found {
            a: CopyState::Bad(Why::BadPage(1)),
            b: SHUT,
        }),
    };
    expect(rt.alloc(), zeros(rt.alloc()), &wanted)
}

/// Faulty lines that alter: the lines, those of the report, and what is left.
#[rattlefmt::skip]
const FAULTY: &[(&[&str], &[&str], Left)] = &[
    // The power is on.
    (&["alter a 0 1"], &["line 1"], Left::Sound(1)),
    (&["bill 500", "alter a 0 1"], &["ack bill 1 taken at 2", "line 2"], Left::Sound(2)),
    (&["off", "on", "alter b 0 1"], &["off", "power 2: a sound 1, b sound 1", "start at 2", "line 3"], Left::Sound(2)),
    // No such copy, place or mask.
    (&["off", "alter c 0 1"], &["off", "line 2"], Left::Off(SOUND_1)),
    (&["off", "alter a 17457 1"], &["off", "line 2"], Left::Off(SOUND_1)),
    (&["off", "alter a 0 256"], &["off", "line 2"], Left::Off(SOUND_1)),
    (&["off", "alter a 0"], &["off", "line 2"], Left::Off(SOUND_1)),
    // What stands before the fault was carried out.
    (&["off", "alter a 0 1", "bill 500"], &["off", "altered a 0", "line 3"], Left::Off(Found { a: SHUT, b: CopyState::Sound(1) })),
];

/// With the power on nothing is altered, nor by a line outside the grammar.
#[test]
fn altered_with_the_power_on(rt: HostRuntime) -> Result<(), Fail> {
    for (script, report, left) in FAULTY {
        let wanted = Altered {
            script,
            status: Status::ScriptFault,
            report,
            left: *left,
        };
        expect(rt.alloc(), zeros(rt.alloc()), &wanted)?;
    }
    Ok(())
}
