//! What no clause of gd_games says of a play: plays of poker with gamble turns that were worked out by hand. The cards were
//! computed outside of the program.

ghost use Rattle.std.specs.Prelude.{◌≤◌};

use crate::cards::ACES;
use gd_base::{Block, Choices, Game, PlayRecord, Stage, StageOpen};
use gd_games::{built_in, played, stage};

/// Words that deal a royal flush of clubs, and show a black card at each turn.
const ROYAL: Block = [
    0x2762_7627_6276_2763,
    0x2828_2828_2828_2829,
    0x28f5_c28f_5c28_f5c3,
    0x29cb_c14e_5e0a_72f1,
    0x2aaa_aaaa_aaaa_aaab,
    0,
    0,
    0,
    0,
    0,
    0,
    0,
    0,
    0,
    0,
    0,
];

/// The stage of a play of poker that holds the aces, after so many turns.
fn aces(turns: u8, colours: u8) -> Stage
    requires { turns ≤ 5 }
{
    let choices = Choices {
        choice: Some(0b10010),
        turns,
        colours,
    };
    stage(&built_in(), Game::Poker, 3, &ACES, &choices)
}

#[test]
fn a_royal_flush_may_be_doubled_twice(rt: HostRuntime) {
    let setup = built_in();
    let mut choices = Choices {
        choice: None,
        turns: 0,
        colours: 0,
    };
    let open = stage(&setup, Game::Poker, 5, &ROYAL, &choices);
    assert_eq!(rt;
        open,
        Stage {
            phase: StageOpen::Hold,
            win: 0
        }
    );
    choices.choice = Some(31);
    let held = stage(&setup, Game::Poker, 5, &ROYAL, &choices);
    assert_eq!(rt;
        held,
        Stage {
            phase: StageOpen::Gamble,
            win: 6250
        }
    );
    choices.turns = 1;
    choices.colours = 1;
    let once = stage(&setup, Game::Poker, 5, &ROYAL, &choices);
    assert_eq!(rt;
        once,
        Stage {
            phase: StageOpen::Gamble,
            win: 12_500
        }
    );
    choices.turns = 2;
    choices.colours = 3;
    let twice = stage(&setup, Game::Poker, 5, &ROYAL, &choices);
    assert_eq!(rt;
        twice,
        Stage {
            phase: StageOpen::Ended,
            win: 25_000
        }
    );
    choices.colours = 1;
    let lost = stage(&setup, Game::Poker, 5, &ROYAL, &choices);
    assert_eq!(rt;
        lost,
        Stage {
            phase: StageOpen::Ended,
            win: 0
        }
    );
}

#[test]
fn a_pair_may_be_doubled_five_times(rt: HostRuntime) {
    assert_eq!(rt;
        aces(0, 0),
        Stage {
            phase: StageOpen::Gamble,
            win: 15
        }
    );
    assert_eq!(rt;
        aces(4, 15),
        Stage {
            phase: StageOpen::Gamble,
            win: 240
        }
    );
    assert_eq!(rt;
        aces(5, 31),
        Stage {
            phase: StageOpen::Ended,
            win: 480
        }
    );
}

/// A record of a play of poker that holds the aces and doubled twice.
const RECORD: PlayRecord = PlayRecord {
    number: 1,
    index: 2,
    words: ACES,
    game: Game::Poker,
    bet: 3,
    wager: 15,
    choice: Some(0b10010),
    turns: 2,
    colours: 3,
    win: 60,
    before: 500,
    after: 0,
    place: 3,
};

#[test]
fn records_are_those_of_their_stages(rt: HostRuntime) {
    let setup = built_in();
    assert_eq!(rt; played(&setup, &RECORD), Some(StageOpen::Gamble));
    let others = [
        PlayRecord {
            wager: 16,
            ..RECORD
        },
        PlayRecord { win: 61, ..RECORD },
        PlayRecord {
            choice: None,
            win: 0,
            ..RECORD
        },
        // Red loses in the first turn, so that a second one can't come.
        PlayRecord {
            colours: 2,
            win: 0,
            ..RECORD
        },
    ];
    for other in others {
        assert_eq!(rt; played(&setup, &other), None);
    }
    let lost = PlayRecord {
        colours: 1,
        win: 0,
        ..RECORD
    };
    assert_eq!(rt; played(&setup, &lost), Some(StageOpen::Ended));
    let open = PlayRecord {
        choice: None,
        turns: 0,
        colours: 0,
        win: 0,
        ..RECORD
    };
    assert_eq!(rt; played(&setup, &open), Some(StageOpen::Hold));
}
