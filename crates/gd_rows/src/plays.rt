//! Plays of both games through the whole program: words that were drawn, choices, gamble turns, and the recall of them.

use gd_base::{Block, ListDraws};
use gd_runs::draws::three_scatters;
use gd_runs::left::{Altered, Left, expect};
use gd_runs::runs::zeros;
use gd_top::Status;
use std::test::Fail;

/// A block of zeros.
const ZEROS: Block = [0; 16];

/// An open pick stands through a loss of power. The prizes 2, 4, 6, 10 and 20 are turned by two places, so door 2 has the one at
/// place (2 - 1 + 2) mod 5 = 3: 10 for each of 9 credits, which are 450 cents.
#[rattlefmt::skip]
const PICK_SURVIVES_POWER_CUT: Altered = Altered {
    script: &[
        "bill 500", "play reels 9", "off", "on", "pick 2", "take", "show recall",
    ],
    status: Status::Done,
    report: &[
        "ack bill 1 taken at 2", "ack player 1 taken at 3", "off", "power 2: a sound 3, b sound 3", "start at 4",
        "ack player 2 taken at 5", "ack player 3 taken at 6", "recall 1", "play 1 block 1 reels bet 9 wager 45",
        "window SSSFC AFACF BEDEB", "pick 2 prize 90", "win 450 before 500 after 905", "end at 6 credit 905",
    ],
    left: Left::Sound(6),
};

#[test]
fn pick_survives_power_cut(rt: HostRuntime) -> Result<(), Fail> {
    let draws = three_scatters(rt.alloc())?;
    expect(rt.alloc(), draws, &PICK_SURVIVES_POWER_CUT)
}

/// The ace below the two: 50 for each of 5 credits, which are 1,250 cents.
#[rattlefmt::skip]
const ACE_LOW_STRAIGHT_FLUSH: Altered = Altered {
    script: &[
        "bill 500", "play poker 5", "hold 11111", "take", "show recall",
    ],
    status: Status::Done,
    report: &[
        "ack bill 1 taken at 2", "ack player 1 taken at 3", "ack player 2 taken at 4", "ack player 3 taken at 5",
        "recall 1", "play 1 block 1 poker bet 5 wager 25", "dealt Ac 2c 3c 4c 5c",
        "held 11111 final Ac 2c 3c 4c 5c straight-flush", "win 1250 before 500 after 1725", "end at 5 credit 1725",
    ],
    left: Left::Sound(5),
};

#[test]
fn ace_low_straight_flush(rt: HostRuntime) -> Result<(), Fail> {
    let alloc = rt.alloc();
    let mut words = ZEROS;
    // The ace of clubs is at place 12 of 52.
    words[0] = 0x3b13_b13b_13b1_3b14;
    let draws = ListDraws::of(vec![in alloc; ZEROS, words]?);
    expect(alloc, draws, &ACE_LOW_STRAIGHT_FLUSH)
}

/// The first of eleven plays is no longer recalled. The last one wins 5 credits on line 1, F by three with a wild, and doubles them
/// by five gamble turns, which are as many as there are.
#[rattlefmt::skip]
const ELEVEN_PLAYS_AND_GAMBLES: Altered = Altered {
    script: &[
        "bill 500", "play reels 1", "play reels 1", "play reels 1", "play reels 1", "play reels 1", "play reels 1",
        "play reels 1", "play reels 1", "play reels 1", "play reels 1", "play reels 1", "black", "black", "black", "black",
        "black", "show recall",
    ],
    status: Status::Done,
    report: &[
        "ack bill 1 taken at 2", "ack player 1 taken at 3", "ack player 2 taken at 4", "ack player 3 taken at 5",
        "ack player 4 taken at 6", "ack player 5 taken at 7", "ack player 6 taken at 8", "ack player 7 taken at 9",
        "ack player 8 taken at 10", "ack player 9 taken at 11", "ack player 10 taken at 12", "ack player 11 taken at 13",
        "ack player 12 taken at 14", "ack player 13 taken at 15", "ack player 14 taken at 16", "ack player 15 taken at 17",
        "ack player 16 taken at 18", "recall 10", "play 11 block 11 reels bet 1 wager 5", "window EWCFC FFFCF AEWEB",
        "gamble black 2c win 50", "gamble black 2c win 100", "gamble black 2c win 200", "gamble black 2c win 400",
        "gamble black 2c win 800", "win 800 before 450 after 1245", "play 10 block 10 reels bet 1 wager 5",
        "window WSAFC AFDCF BEBEB", "win 0 before 455 after 450", "play 9 block 9 reels bet 1 wager 5",
        "window WSAFC AFDCF BEBEB", "win 0 before 460 after 455", "play 8 block 8 reels bet 1 wager 5",
        "window WSAFC AFDCF BEBEB", "win 0 before 465 after 460", "play 7 block 7 reels bet 1 wager 5",
        "window WSAFC AFDCF BEBEB", "win 0 before 470 after 465", "play 6 block 6 reels bet 1 wager 5",
        "window WSAFC AFDCF BEBEB", "win 0 before 475 after 470", "play 5 block 5 reels bet 1 wager 5",
        "window WSAFC AFDCF BEBEB", "win 0 before 480 after 475", "play 4 block 4 reels bet 1 wager 5",
        "window WSAFC AFDCF BEBEB", "win 0 before 485 after 480", "play 3 block 3 reels bet 1 wager 5",
        "window WSAFC AFDCF BEBEB", "win 0 before 490 after 485", "play 2 block 2 reels bet 1 wager 5",
        "window WSAFC AFDCF BEBEB", "win 0 before 495 after 490", "end at 18 credit 1245",
    ],
    left: Left::Sound(18),
};

#[test]
fn eleven_plays_and_gambles(rt: HostRuntime) -> Result<(), Fail> {
    let alloc = rt.alloc();
    let mut words = ZEROS;
    // Reels 1, 2 and 3 stop at 12, 7 and 4.
    words[0] = 0x6000_0000_0000_0000;
    words[1] = 0x3800_0000_0000_0000;
    words[2] = 0x2000_0000_0000_0000;
    let mut blocks = vec![in alloc; ZEROS; 11]?;
    blocks.push(words)?;
    expect(alloc, ListDraws::of(blocks), &ELEVEN_PLAYS_AND_GAMBLES)
}

/// Words by which the jack of clubs, the three of hearts, the jack of diamonds, the nine of spades and the seven of clubs are
/// dealt, and behind them the jack of hearts and the threes of clubs and spades. The gamble turns show the queen of hearts, the
/// two of clubs and the ace of spades.
fn jacks_and_threes() -> Block {
    let mut words = ZEROS;
    words[0] = 0x2c4e_c4ec_4ec4_ec4f;
    words[1] = 0x8282_8282_8282_8283;
    words[2] = 0x6b85_1eb8_51eb_851f;
    words[3] = 0xe0a7_2f05_3978_29cc;
    words[4] = 0x1aaa_aaaa_aaaa_aaab;
    words[5] = 0xa8d9_df51_b3be_a368;
    words[6] = 0x0590_b216_42c8_590c;
    words[7] = 0xc16c_16c1_6c16_c16d;
    words[11] = 0xb13b_13b1_3b13_b13c;
    words[13] = 0xfb13_b13b_13b1_3b14;
    words
}

/// Words by which the ten to the ace of clubs are dealt. Each gamble turn shows the two of clubs.
pub(crate) fn royal_flush() -> Block {
    let mut words = ZEROS;
    words[0] = 0x2762_7627_6276_2763;
    words[1] = 0x2828_2828_2828_2829;
    words[2] = 0x28f5_c28f_5c28_f5c3;
    words[3] = 0x29cb_c14e_5e0a_72f1;
    words[4] = 0x2aaa_aaaa_aaaa_aaab;
    words
}

/// Words by which the two to the six of clubs are dealt, and behind them the eight of diamonds.
fn eight_behind_six() -> Block {
    let mut words = ZEROS;
    words[5] = 0x4c41_5c98_82b9_3106;
    words
}

/// Three plays of poker. Jacks full of threes win 9 for each of 5 credits, 225 cents, which are doubled twice and then lost; the
/// gamble stage stands through a loss of power, which passes over a block. A royal flush wins 6,250 cents, and two turns bring
/// them to the gamble limit, where the play ends. One card is replaced, and the hand wins nothing: the play ends with its hold.
#[rattlefmt::skip]
const HELD_AND_GAMBLED: Altered = Altered {
    script: &[
        "bill 500", "play poker 6", "play poker 5", "pick 1", "red", "take", "show state", "hold 10100", "hold 10100",
        "red", "black", "show recall", "off", "on", "show state", "red", "red", "play poker 5", "hold 11111", "black",
        "black", "take", "play poker 1", "hold 01111", "show recall", "show meters",
    ],
    status: Status::Done,
    report: &[
        "ack bill 1 taken at 2", "ack player 1 refused 5 bad-wager at 3", "ack player 2 taken at 4",
        "ack player 3 refused 9 bad-choice at 5", "ack player 4 refused 9 bad-choice at 6",
        "ack player 5 refused 9 bad-choice at 7", "credit 475", "condition none", "order none", "handpay none",
        "play 1 block 1 poker bet 5 wager 25", "dealt Jc 3h Jd 9s 7c", "stage hold win 0", "ack player 6 taken at 8",
        "ack player 7 refused 9 bad-choice at 9", "ack player 8 taken at 10", "ack player 9 taken at 11", "recall 0",
        "play 1 block 1 poker bet 5 wager 25", "dealt Jc 3h Jd 9s 7c", "held 10100 final Jc Jh Jd 3c 3s full-house",
        "gamble red Qh win 450", "gamble black 2c win 900", "stage gamble win 900", "off",
        "power 2: a sound 11, b sound 11", "start at 12", "credit 475", "condition none", "order none", "handpay none",
        "play 1 block 1 poker bet 5 wager 25", "dealt Jc 3h Jd 9s 7c", "held 10100 final Jc Jh Jd 3c 3s full-house",
        "gamble red Qh win 450", "gamble black 2c win 900", "stage gamble win 900", "ack player 10 taken at 13",
        "ack player 11 refused 8 no-play at 14", "ack player 12 taken at 15", "ack player 13 taken at 16",
        "ack player 14 taken at 17", "ack player 15 taken at 18", "ack player 16 refused 8 no-play at 19",
        "ack player 17 taken at 20", "ack player 18 taken at 21", "recall 3", "play 3 block 4 poker bet 1 wager 5",
        "dealt 2c 3c 4c 5c 6c", "held 01111 final 8d 3c 4c 5c 6c nothing", "win 0 before 25450 after 25445",
        "play 2 block 3 poker bet 5 wager 25", "dealt Tc Jc Qc Kc Ac", "held 11111 final Tc Jc Qc Kc Ac royal-flush",
        "gamble black 2c win 12500", "gamble black 2c win 25000", "win 25000 before 475 after 25450",
        "play 1 block 1 poker bet 5 wager 25", "dealt Jc 3h Jd 9s 7c", "held 10100 final Jc Jh Jd 3c 3s full-house",
        "gamble red Qh win 450", "gamble black 2c win 900", "gamble red As win 0", "win 0 before 500 after 475",
        "BillIn 0000000500", "CoinIn 0000000000", "VoucherIn 0000000000", "Wagered 0000000055", "Won 0000025000",
        "VoucherOut 0000000000", "CoinOut 0000000000", "HandWin 0000000000", "HandCancel 0000000000",
        "GamesPlayed 0000000003", "GamesWon 0000000001", "PowerUps 0000000002", "LogicOpen 0000000000",
        "MainOpen 0000000000", "CashboxOpen 0000000000", "DropOpen 0000000000", "end at 21 credit 25445",
    ],
    left: Left::Sound(21),
};

#[test]
fn held_and_gambled(rt: HostRuntime) -> Result<(), Fail> {
    let alloc = rt.alloc();
    let draws = ListDraws::of(vec![in alloc;
        ZEROS,
        jacks_and_threes(),
        ZEROS,
        royal_flush(),
        eight_behind_six(),
    ]?);
    expect(alloc, draws, &HELD_AND_GAMBLED)
}

/// Doors and tilts while a play is open. The first condition is shown, conditions stand through a loss of power, and money in
/// is taken again before the play goes on. A tilt is cleared in the gamble stage. Red is lost to the two of clubs.
#[rattlefmt::skip]
const DOORS_AND_TILTS_IN_A_PLAY: Altered = Altered {
    script: &[
        "bill 500", "play reels 9", "open main", "bill 100", "pick 2", "open main", "open logic", "coin 25", "show state",
        "off", "on", "shut logic", "take", "shut main", "shut main", "bill-jam", "coin-jam", "pick 2",
        "clear-tilt bill-jam", "pick 2", "clear-tilt stacker-full", "clear-tilt coin-jam", "bill 100", "pick 2", "bill-jam",
        "take", "clear-tilt bill-jam", "red", "open drop", "take", "shut drop", "open cashbox", "shut cashbox",
        "show state", "show events", "show meters",
    ],
    status: Status::Done,
    report: &[
        "ack bill 1 taken at 2", "ack player 1 taken at 3", "ack doors 1 taken at 4",
        "ack bill 2 refused 1 locked-up main-door at 5", "ack player 2 refused 1 locked-up main-door at 6",
        "ack doors 2 refused 16 door-already at 7", "ack doors 3 taken at 8",
        "ack coin 1 refused 1 locked-up logic-door at 9", "credit 455", "condition logic-door", "order none",
        "handpay none", "play 1 block 1 reels bet 9 wager 45", "window SSSFC AFACF BEDEB", "stage pick win 0", "off",
        "power 2: a sound 9, b sound 9", "start at 10", "ack doors 4 taken at 11",
        "ack player 3 refused 1 locked-up main-door at 12", "ack doors 5 taken at 13",
        "ack doors 6 refused 16 door-already at 14", "ack bill 3 taken at 15", "ack coin 2 taken at 16",
        "ack player 4 refused 1 locked-up bill-jam at 17", "ack attendant 1 taken at 18",
        "ack player 5 refused 1 locked-up coin-jam at 19", "ack attendant 2 refused 13 no-such-tilt at 20",
        "ack attendant 3 taken at 21", "ack bill 4 taken at 22", "ack player 6 taken at 23", "ack bill 5 taken at 24",
        "ack player 7 refused 1 locked-up bill-jam at 25", "ack attendant 4 taken at 26", "ack player 8 taken at 27",
        "ack doors 7 taken at 28", "ack player 9 refused 1 locked-up drop-door at 29", "ack doors 8 taken at 30",
        "ack doors 9 taken at 31", "ack doors 10 taken at 32", "credit 555", "condition none", "order none", "handpay none",
        "play none", "events 16", "32 door-shut cashbox", "31 door-opened cashbox", "30 door-shut drop",
        "28 door-opened drop", "26 tilt-cleared bill-jam", "24 tilt-raised bill-jam", "21 tilt-cleared coin-jam",
        "18 tilt-cleared bill-jam", "16 tilt-raised coin-jam", "15 tilt-raised bill-jam", "13 door-shut main",
        "11 door-shut logic", "10 start", "8 door-opened logic", "4 door-opened main", "1 start", "bills 2", "22 100",
        "2 500", "vouchers 0", "BillIn 0000000600", "CoinIn 0000000000", "VoucherIn 0000000000", "Wagered 0000000045",
        "Won 0000000000", "VoucherOut 0000000000", "CoinOut 0000000000", "HandWin 0000000000", "HandCancel 0000000000",
        "GamesPlayed 0000000001", "GamesWon 0000000000", "PowerUps 0000000002", "LogicOpen 0000000001",
        "MainOpen 0000000001", "CashboxOpen 0000000001", "DropOpen 0000000001", "end at 32 credit 555",
    ],
    left: Left::Sound(32),
};

#[test]
fn doors_and_tilts_in_a_play(rt: HostRuntime) -> Result<(), Fail> {
    let draws = three_scatters(rt.alloc())?;
    expect(rt.alloc(), draws, &DOORS_AND_TILTS_IN_A_PLAY)
}
