//! Histories of gd_machine: plays, from their draw to their end.

use crate::blocks::{ace_first, royal_flush, three_scatters};
use crate::tested::{TAKEN, Tested, refused};
use gd_base::{Colour, Condition, Door, Event, Game, Meter, Refusal, What};
use gd_games::built_in;
use std::alloc::AllocError;

#[test]
fn pick_waits_for_the_door(rt: HostRuntime) -> Result<(), AllocError> {
    let game = Game::Reels;
    let main = Door::Main;
    let mut tested = Tested::new(rt.alloc(), built_in(), three_scatters())?;
    tested.steps(
        &rt,
        &[
            (1, Event::Start, TAKEN),
            (1, Event::Bill { value: 500 }, TAKEN),
            (1, Event::Play { game, bet: 9 }, TAKEN),
            (1, Event::DoorOpen { door: main }, TAKEN),
            (
                2,
                Event::Pick { door: 2 },
                refused(Refusal::LockedUp(Condition::MainDoor)),
            ),
        ],
    );
    tested.shows(
        &rt,
        What::State,
        "credit 455\ncondition main-door\norder none\nhandpay none\nplay 1 block 1 reels bet 9 wager 45\nwindow SSSFC AFACF BEDEB\nstage pick win 0\n",
    );
    tested.steps(
        &rt,
        &[
            (2, Event::DoorShut { door: main }, TAKEN),
            (3, Event::CashOut, refused(Refusal::PlayOpen)),
            (4, Event::Pick { door: 2 }, TAKEN),
            (5, Event::Take, TAKEN),
        ],
    );
    tested.shows(
        &rt,
        What::Recall,
        "recall 1\nplay 1 block 1 reels bet 9 wager 45\nwindow SSSFC AFACF BEDEB\npick 2 prize 90\nwin 450 before 500 after 905\n",
    );
    assert_eq!(rt; tested.machine.account().balance(), 905);
    Ok(())
}

#[test]
fn held_hand_is_gambled(rt: HostRuntime) -> Result<(), AllocError> {
    let game = Game::Poker;
    let mut tested = Tested::new(rt.alloc(), built_in(), ace_first())?;
    tested.steps(
        &rt,
        &[
            (1, Event::Start, TAKEN),
            (1, Event::Bill { value: 500 }, TAKEN),
            (1, Event::Play { game, bet: 5 }, TAKEN),
            (2, Event::Hold { mask: 31 }, TAKEN),
            (
                3,
                Event::Gamble {
                    colour: Colour::Black,
                },
                TAKEN,
            ),
            (4, Event::Take, TAKEN),
            (5, Event::Take, refused(Refusal::NoPlay)),
        ],
    );
    // The first card of the gamble is the two of clubs.
    tested.shows(
        &rt,
        What::Recall,
        "recall 1\nplay 1 block 1 poker bet 5 wager 25\ndealt Ac 2c 3c 4c 5c\nheld 11111 final Ac 2c 3c 4c 5c straight-flush\ngamble black 2c win 2500\nwin 2500 before 500 after 2975\n",
    );
    tested.counts(
        &rt,
        &[
            (Meter::Wagered, 25),
            (Meter::Won, 2500),
            (Meter::GamesPlayed, 1),
            (Meter::GamesWon, 1),
        ],
    );
    Ok(())
}

#[test]
fn royal_flush_and_handpay(rt: HostRuntime) -> Result<(), AllocError> {
    let mut setup = built_in();
    setup.handpay_limit = 6250;
    let game = Game::Poker;
    let mut tested = Tested::new(rt.alloc(), setup, royal_flush())?;
    tested.steps(
        &rt,
        &[
            (1, Event::Start, TAKEN),
            (1, Event::Bill { value: 500 }, TAKEN),
            (1, Event::Play { game, bet: 5 }, TAKEN),
            (2, Event::Hold { mask: 31 }, TAKEN),
            (3, Event::Take, TAKEN),
            (
                4,
                Event::CashOut,
                refused(Refusal::LockedUp(Condition::Handpay)),
            ),
            (1, Event::HandpayDone, TAKEN),
        ],
    );
    tested.shows(
        &rt,
        What::Events,
        "events 3\n7 handpay-done 6250\n5 handpay-win 6250\n1 start\nbills 1\n2 500\nvouchers 0\n",
    );
    assert_eq!(rt; tested.machine.account().balance(), 475);
    tested.counts(
        &rt,
        &[
            (Meter::Wagered, 25),
            (Meter::Won, 6250),
            (Meter::HandWin, 6250),
            (Meter::HandCancel, 0),
        ],
    );
    Ok(())
}
