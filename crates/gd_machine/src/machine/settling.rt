//! How a play that has ended is settled.

ghost use Rattle.std.specs.Prelude.{◌≡◌, ◌<◌, ◌^◌, IsSome, IfSome, take, ◌∷◌};
ghost use Rattle.gd_base.specs.declared.meter.Meter.{Meter as MeterData};
ghost use Rattle.gd_account.specs.Money.{with_win, HasRoomAt};
ghost use Rattle.gd_machine.specs.Settling.{account_after, ended_at, events_with, left_at, lists_after, payout_after, payout_with};
ghost use Rattle.gd_play.specs.PlayMachine.{play_machine_play, play_machine_stage, play_machine_table};

use super::noting::WIN_HELD;
use crate::games::Games;
use gd_account::{Account, Posted};
use gd_base::{EventRecord, Setup, StageOpen};
use gd_payout::Payout;
use gd_play::PlayMachine;
use gd_recall::Recall;

/// Posts a win of the entry at a place. From the handpay limit on it is held for the attendant, and that is noted.
fn post_win(
    setup: &Setup,
    place: u64,
    account: &mut Account,
    payout: &mut Payout,
    recall: &mut Recall,
    win: u64,
)
    requires balance { account.old.balance < 2 ^ 63 }
    requires win { win < 2 ^ 63 }
    requires won { HasRoomAt MeterData.Won account.old }
    requires games { HasRoomAt MeterData.GamesWon account.old }
    ensures account { account.new ≡ with_win setup.now win account.old }
    ensures payout { payout.new ≡ payout_with setup.now win payout.old }
    ensures lists { recall.new.lists ≡ record recall.old.lists { events = events_with setup.now place win recall.old.lists.events } }
{
    match account.post_win(setup, win) {
        Posted::Held => {
            payout.hold_win(win);
            recall.note_event(&EventRecord {
                place,
                code: WIN_HELD,
                detail: win,
            });
        }
        Posted::Nothing | Posted::Credited => {}
    }
}

/// The win of the open play.
fn open_win(plays: &PlayMachine<Games>) -> u64
    requires { IsSome (play_machine_play plays.now) }
    ensures { IfSome (play_machine_play plays.now) (λ p. result ≡ p.win) }
{
    match plays.open() {
        Some(play) => play.win,
        None => unreachable!(),
    }
}

/// Where the play has ended by the entry at a place: posts its win, or holds it for the attendant from the handpay limit
/// on and notes that, and hands the play out, and notes it.
pub(super) fn settle(
    setup: &Setup,
    place: u64,
    account: &mut Account,
    payout: &mut Payout,
    plays: &mut PlayMachine<Games>,
    recall: &mut Recall,
    phase: StageOpen,
)
    requires phase { play_machine_stage plays.old ≡ phase }
    requires play { IsSome (play_machine_play plays.old) }
    requires win { IfSome (play_machine_play plays.old) (λ p. p.win < 2 ^ 63) }
    requires balance { account.old.balance < 2 ^ 63 }
    requires won { HasRoomAt MeterData.Won account.old }
    requires games { HasRoomAt MeterData.GamesWon account.old }
    ensures account { account.new ≡ account_after setup.now (ended_at phase (play_machine_play plays.old)) account.old }
    ensures payout { payout.new ≡ payout_after setup.now (ended_at phase (play_machine_play plays.old)) payout.old }
    ensures lists { recall.new.lists
        ≡ lists_after setup.now place account.new.balance (ended_at phase (play_machine_play plays.old)) recall.old.lists }
    ensures play { play_machine_play plays.new ≡ left_at phase (play_machine_play plays.old) }
    ensures phase { play_machine_stage plays.new ≡ phase }
    ensures table { play_machine_table plays.new ≡ play_machine_table plays.old }
{
    let StageOpen::Ended = phase else {
        return;
    };
    let win = open_win(plays);
    post_win(setup, place, account, payout, recall, win);
    let ended = plays.finish(account.balance());
    recall.note_play(&ended);
}
