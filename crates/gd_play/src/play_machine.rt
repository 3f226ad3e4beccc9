//! The machine of one play.

ghost use Rattle.std.specs.Prelude.{◌≡◌, IsTrue, IsSome, OnOk, OnErr, IfOk, Some, None, option_map, option_copied};
ghost use Rattle.gd_base.specs.Payloads.ViewRules.{is_open_as};
ghost use Rattle.gd_play.specs.Moving.{open_stage_of};
ghost use Rattle.gd_play.specs.Rules.{are_kept, is_open_play};

use crate::choosing::{choice_of, with_colour};
use crate::paytable::Paytable;
use gd_base::{Colour, Event, PlayRecord, Refusal, StageOpen};

/// The one play that was begun and not yet handed out, over a paytable. What its stages are depends on its recorded
/// words, its choices and the setup of the paytable alone. No call takes memory.
#[derive(Drop)]
pub struct PlayMachine<P: Paytable> {
    table: P,
    play: Option<PlayRecord>,
    phase: StageOpen,
    ghost kept: { IsTrue (are_kept (P.setup table) play phase) },
}

impl<P: Paytable> PlayMachine<P> {
    ghost use Rattle.gd_base.specs.declared.event.Event.{Event};
    ghost use Rattle.gd_base.specs.declared.play.StageOpen.{StageOpen};
    ghost use Rattle.gd_base.specs.Histories.Rounds.{round_of, choices_of, no_choices};
    ghost use Rattle.gd_base.specs.Games.Stage.{is_bet, are_choices};
    ghost use Rattle.gd_play.specs.Judging.{is_choosing, refusal, judgement};
    ghost use Rattle.gd_play.specs.Moving.{play_with_round, play_after, stage_after, play_with_after};
    ghost use Rattle.gd_play.specs.PlayMachine.{play_machine_table, play_machine_play, play_machine_stage};

    /// A machine with this open play, or with none. The play keeps the rules of an open play in a payload, and its
    /// stage isn't Ended.
    pub fn from_parts(table: P, open_play: Option<PlayRecord>) -> Self
        requires rules { IsTrue (is_open_as (is_open_play (P.setup table)) open_play) }
        ensures table { play_machine_table result ≡ table }
        ensures play { play_machine_play result ≡ open_play }
        ensures phase { play_machine_stage result ≡ open_stage_of (P.setup table) open_play }
    {
        let phase = open_phase(&table, &open_play);
        PlayMachine {
            table,
            play: open_play,
            phase,
        }
    }

    /// Begins a play that has no choices yet. The answer is the stage that is open then.
    pub fn begin(&mut self, play: &PlayRecord) -> StageOpen
        requires none { play_machine_play self.old ≡ None }
        requires bet { IsTrue (is_bet play.now.game play.now.bet) }
        requires choices { choices_of play.now ≡ no_choices }
        requires win { play.now.win ≡ 0 }
        requires after { play.now.after ≡ 0 }
        ensures answer { result ≡ open_stage_of (P.setup (play_machine_table self.old)) (Some play.now) }
        ensures play { play_machine_play self.new ≡
            Some (play_with_round (P.setup (play_machine_table self.old)) play.now (round_of play.now)) }
        ensures phase { play_machine_stage self.new ≡ result }
        ensures table { play_machine_table self.new ≡ play_machine_table self.old }
    {
        self.go_on(*play)
    }

    /// Keeps the choice of a Pick or a Hold. It is refused with NoPlay where there is no play, else with BadChoice
    /// where the stage isn't the one of the choice, or the door isn't 1 to 5, or the mask is above 31; then nothing
    /// changes. The answer is the stage that is open then.
    pub fn choose(&mut self, event: &Event) -> Result<StageOpen, Refusal>
        requires { IsTrue (is_choosing event.now) }
        ensures answer { result ≡ judgement
            (refusal (play_machine_play self.old) (play_machine_stage self.old) event.now)
            (stage_after (P.setup (play_machine_table self.old)) event.now (play_machine_play self.old)) }
        ensures play { OnOk result (play_machine_play self.new ≡
            play_after (P.setup (play_machine_table self.old)) event.now (play_machine_play self.old)) }
        ensures phase { IfOk result (λ phase. play_machine_stage self.new ≡ phase) }
        ensures stays { OnErr result (self.new ≡ self.old) }
        ensures table { play_machine_table self.new ≡ play_machine_table self.old }
    {
        let Some(play) = self.play else {
            return Err(Refusal::NoPlay);
        };
        let Some(choice) = choice_of(self.phase, *event) else {
            return Err(Refusal::BadChoice);
        };
        Ok(self.go_on(PlayRecord {
            choice: Some(choice),
            ..play
        }))
    }

    /// Keeps one turn of gamble. It is refused with NoPlay where there is no play, else with BadChoice where the stage
    /// isn't that of gamble; then nothing changes. The answer is the stage that is open then.
    pub fn gamble(&mut self, colour: Colour) -> Result<StageOpen, Refusal>
        ensures answer { result ≡ judgement
            (refusal (play_machine_play self.old) (play_machine_stage self.old) (Event.Gamble colour))
            (stage_after (P.setup (play_machine_table self.old)) (Event.Gamble colour) (play_machine_play self.old)) }
        ensures play { OnOk result (play_machine_play self.new ≡
            play_after (P.setup (play_machine_table self.old)) (Event.Gamble colour) (play_machine_play self.old)) }
        ensures phase { IfOk result (λ phase. play_machine_stage self.new ≡ phase) }
        ensures stays { OnErr result (self.new ≡ self.old) }
        ensures table { play_machine_table self.new ≡ play_machine_table self.old }
    {
        let Some(play) = self.play else {
            return Err(Refusal::NoPlay);
        };
        let StageOpen::Gamble = self.phase else {
            return Err(Refusal::BadChoice);
        };
        Ok(self.go_on(PlayRecord {
            turns: play.turns + 1,
            colours: with_colour(play.colours, play.turns, colour),
            ..play
        }))
    }

    /// Ends the play with its win. It is refused with NoPlay where there is no play, else with BadChoice where the
    /// stage isn't that of gamble; then nothing changes. The answer is Ended.
    pub fn take(&mut self) -> Result<StageOpen, Refusal>
        ensures answer { result ≡ judgement
            (refusal (play_machine_play self.old) (play_machine_stage self.old) Event.Take)
            (stage_after (P.setup (play_machine_table self.old)) Event.Take (play_machine_play self.old)) }
        ensures play { OnOk result (play_machine_play self.new ≡
            play_after (P.setup (play_machine_table self.old)) Event.Take (play_machine_play self.old)) }
        ensures phase { IfOk result (λ phase. play_machine_stage self.new ≡ phase) }
        ensures stays { OnErr result (self.new ≡ self.old) }
        ensures table { play_machine_table self.new ≡ play_machine_table self.old }
    {
        let Some(_) = self.play else {
            return Err(Refusal::NoPlay);
        };
        let StageOpen::Gamble = self.phase else {
            return Err(Refusal::BadChoice);
        };
        self.phase = StageOpen::Ended;
        Ok(StageOpen::Ended)
    }

    /// The play, with the win of its stage, until it is handed out.
    pub fn open(&self) -> Option<&PlayRecord>
        ensures { option_copied result ≡ play_machine_play self.now }
    {
        self.play.as_ref()
    }

    /// Hands out the play that has ended, with the balance after the entry that ended it. Then there is none.
    pub fn finish(&mut self, after: u64) -> PlayRecord
        requires play { IsSome (play_machine_play self.old) }
        requires ended { play_machine_stage self.old ≡ StageOpen.Ended }
        ensures record { option_map (play_with_after after) (play_machine_play self.old) ≡ Some result }
        ensures none { play_machine_play self.new ≡ None }
        ensures phase { play_machine_stage self.new ≡ StageOpen.Ended }
        ensures table { play_machine_table self.new ≡ play_machine_table self.old }
    {
        let Some(play) = self.play else {
            unreachable!();
        };
        self.play = None;
        PlayRecord { after, ..play }
    }

    /// Puts a play in place, with the win of its stage. The answer is that stage.
    fn go_on(&mut self, play: PlayRecord) -> StageOpen
        requires bet { IsTrue (is_bet play.game play.bet) }
        requires choices { IsTrue
            (are_choices (P.setup (play_machine_table self.old)) play.game play.bet play.words (choices_of play)) }
        ensures answer { result ≡ open_stage_of (P.setup (play_machine_table self.old)) (Some play) }
        ensures play { play_machine_play self.new ≡
            Some (play_with_round (P.setup (play_machine_table self.old)) play (round_of play)) }
        ensures phase { play_machine_stage self.new ≡ result }
        ensures table { play_machine_table self.new ≡ play_machine_table self.old }
    {
        let stage = self
            .table
            .stage(play.game, play.bet, &play.words, &play.choices());
        self.play = Some(PlayRecord {
            win: stage.win,
            ..play
        });
        self.phase = stage.phase;
        stage.phase
    }
}

/// The stage that is open in a play, if there is one.
fn open_phase<P: Paytable>(table: &P, play: &Option<PlayRecord>) -> StageOpen
    requires rules { IsTrue (is_open_as (is_open_play (P.setup table.now)) play.now) }
    ensures { result ≡ open_stage_of (P.setup table.now) play.now }
{
    match play {
        Some(play) => {
            let stage = table.stage(play.game, play.bet, &play.words, &play.choices());
            stage.phase
        }
        None => StageOpen::Ended,
    }
}
