//! What the player's events make of a machine, but for a cash-out.

ghost use Rattle.std.specs.Prelude.{◌≡◌, ◌+◌, IsTrue, OnOk, OnErr, None, take};
ghost use Rattle.gd_account.specs.Judging.{first_refusal, outcome};
ghost use Rattle.gd_base.specs.declared.event.Event.{Event as EventData};
ghost use Rattle.gd_base.specs.Histories.Entry.{is_taken};
ghost use Rattle.gd_base.specs.Judging.Answer.{IsDraw};
ghost use Rattle.gd_base.specs.Judging.Draws.{is_drawn, next_index};
ghost use Rattle.gd_base.specs.Games.Stage.{is_bet as is_bet_of};
ghost use Rattle.gd_base.specs.Judging.Rule.{is_enabled as is_enabled_of, refusals, rule};
ghost use Rattle.gd_base.proofs.PreservedLemmas.Moved.{HasBlock};
ghost use Rattle.gd_machine.specs.Acts.{acted, replied};
ghost use Rattle.gd_machine.specs.Words.{machine_setup, machine_view, IsWhole};
ghost use Rattle.gd_play.specs.Judging.{is_choosing};

use super::Machine;
use super::settling::settle;
use gd_base::{
    Block, Colour, Event, Game, MOST_POKER_BET, MOST_REELS_BET, Meter, PlayRecord, Refusal, Setup,
};

/// Whether plays of a game are enabled.
fn is_enabled(setup: &Setup, game: Game) -> bool
    ensures { result ≡ is_enabled_of setup.now game }
{
    match game {
        Game::Reels => setup.reels_enabled,
        Game::Poker => setup.poker_enabled,
    }
}

/// Whether a bet of so many credits is legal.
fn is_bet(game: Game, bet: u8) -> bool
    ensures { result ≡ is_bet_of game bet }
{
    let most = match game {
        Game::Reels => MOST_REELS_BET,
        Game::Poker => MOST_POKER_BET,
    };
    1 <= bet && bet <= most
}

impl Machine {
    /// Refused for any reason but the balance: while a condition locks the machine up, an order or a play is open, where
    /// the game isn't enabled, or the bet isn't legal.
    fn check_new_play(&self, game: Game, bet: u8) -> Result<(), Refusal>
        ensures { result ≡ outcome
            (first_refusal (take 5 (refusals (machine_setup self.now) (machine_view self.now) (EventData.Play game bet)))) }
    {
        self.check_free()?;
        if self.plays.open().is_some() {
            return Err(Refusal::PlayOpen);
        }
        if !is_enabled(&self.setup, game) {
            return Err(Refusal::NoGame);
        }
        if !is_bet(game, bet) {
            return Err(Refusal::BadWager);
        }
        Ok(())
    }

    /// Whether a play would be taken.
    pub(super) fn is_play_taken(&self, game: Game, bet: u8) -> bool
        ensures { result ≡ is_taken (rule (machine_setup self.now) (machine_view self.now) (EventData.Play game bet)) }
    {
        self.check_new_play(game, bet).is_ok()
            && u64::from(self.setup.wager(bet)) <= self.account.balance()
    }

    /// Takes the wager of a play and begins it on the block that was drawn, or refuses it.
    pub(super) fn begin_play(
        &mut self,
        game: Game,
        bet: u8,
        draw: &Option<(u64, Block)>,
    ) -> Result<(), Refusal>
        requires whole { IsWhole (machine_setup self.old) (machine_view self.old) }
        requires drawn { IsDraw (is_drawn (machine_setup self.old) (machine_view self.old) (EventData.Play game bet))
            (next_index (machine_view self.old)) draw.now }
        requires block { HasBlock draw.now }
        ensures answer { replied result ≡ rule (machine_setup self.old) (machine_view self.old) (EventData.Play game bet) }
        ensures view { OnOk result (machine_view self.new
            ≡ acted (machine_setup self.old) (machine_view self.old) (EventData.Play game bet) draw.now) }
        ensures stays { OnErr result (machine_view self.new ≡ machine_view self.old) }
        ensures setup { machine_setup self.new ≡ machine_setup self.old }
    {
        self.check_new_play(game, bet)?;
        let place = self.count + 1;
        let number = self.account.meter(Meter::GamesPlayed) + 1;
        let before = self.account.balance();
        let wager = self.setup.wager(bet);
        self.account.wager(wager)?;
        let Some(drawn) = draw else {
            unreachable!();
        };
        let phase = self.plays.begin(&PlayRecord {
            number,
            index: drawn.0,
            words: drawn.1,
            game,
            bet,
            wager,
            choice: None,
            turns: 0,
            colours: 0,
            win: 0,
            before,
            after: 0,
            place,
        });
        settle(
            &self.setup,
            place,
            &mut self.account,
            &mut self.payout,
            &mut self.plays,
            &mut self.recall,
            phase,
        );
        Ok(())
    }

    /// Keeps a pick or a hold, or refuses it.
    pub(super) fn choose(&mut self, event: &Event) -> Result<(), Refusal>
        requires whole { IsWhole (machine_setup self.old) (machine_view self.old) }
        requires choosing { IsTrue (is_choosing event.now) }
        ensures answer { replied result ≡ rule (machine_setup self.old) (machine_view self.old) event.now }
        ensures view { OnOk result (machine_view self.new
            ≡ acted (machine_setup self.old) (machine_view self.old) event.now None) }
        ensures stays { OnErr result (machine_view self.new ≡ machine_view self.old) }
        ensures setup { machine_setup self.new ≡ machine_setup self.old }
    {
        self.check_unlocked()?;
        let place = self.count + 1;
        let phase = self.plays.choose(event)?;
        settle(
            &self.setup,
            place,
            &mut self.account,
            &mut self.payout,
            &mut self.plays,
            &mut self.recall,
            phase,
        );
        Ok(())
    }

    /// Keeps one turn of gamble, or refuses it.
    pub(super) fn gamble(&mut self, colour: Colour) -> Result<(), Refusal>
        requires whole { IsWhole (machine_setup self.old) (machine_view self.old) }
        ensures answer { replied result ≡ rule (machine_setup self.old) (machine_view self.old) (EventData.Gamble colour) }
        ensures view { OnOk result (machine_view self.new
            ≡ acted (machine_setup self.old) (machine_view self.old) (EventData.Gamble colour) None) }
        ensures stays { OnErr result (machine_view self.new ≡ machine_view self.old) }
        ensures setup { machine_setup self.new ≡ machine_setup self.old }
    {
        self.check_unlocked()?;
        let place = self.count + 1;
        let phase = self.plays.gamble(colour)?;
        settle(
            &self.setup,
            place,
            &mut self.account,
            &mut self.payout,
            &mut self.plays,
            &mut self.recall,
            phase,
        );
        Ok(())
    }

    /// Takes the win of the open play, or refuses that.
    pub(super) fn take(&mut self) -> Result<(), Refusal>
        requires whole { IsWhole (machine_setup self.old) (machine_view self.old) }
        ensures answer { replied result ≡ rule (machine_setup self.old) (machine_view self.old) EventData.Take }
        ensures view { OnOk result (machine_view self.new
            ≡ acted (machine_setup self.old) (machine_view self.old) EventData.Take None) }
        ensures stays { OnErr result (machine_view self.new ≡ machine_view self.old) }
        ensures setup { machine_setup self.new ≡ machine_setup self.old }
    {
        self.check_unlocked()?;
        let place = self.count + 1;
        let phase = self.plays.take()?;
        settle(
            &self.setup,
            place,
            &mut self.account,
            &mut self.payout,
            &mut self.plays,
            &mut self.recall,
            phase,
        );
        Ok(())
    }
}
