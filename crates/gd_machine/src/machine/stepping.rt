//! One event: how it is answered, and the entry that it makes.

ghost use Rattle.std.specs.Prelude.{◌≡◌, ◌≤◌, ◌<◌, ◌+◌, ◌^◌, false, length, nat_lt, true, IfSome, OnErr, OnOk, None};
ghost use Rattle.std.specs.List.{list_all};
ghost use Rattle.gd_base.specs.declared.event.Event.{Event as EventData};
ghost use Rattle.gd_base.specs.Histories.Devices.{kept_at, with_reply};
ghost use Rattle.gd_base.specs.Histories.Entry.{device_of};
ghost use Rattle.gd_base.specs.Histories.Numbers.{device_place};
ghost use Rattle.gd_base.specs.Judging.Answer.{after_answer, answer, is_draw_needed, is_new, IsDraw, IsDrawFor};
ghost use Rattle.gd_base.specs.Judging.Draws.{is_drawn, is_play, next_index};
ghost use Rattle.gd_base.specs.Judging.Rule.{rule};
ghost use Rattle.gd_base.specs.Laws.Preserved.{HasWidths};
ghost use Rattle.gd_base.specs.Outside.Blocks.{IsBlock};
ghost use Rattle.gd_machine.specs.Acts.{acted, replied};
ghost use Rattle.gd_machine.specs.Meaning.{the_machine};
ghost use Rattle.gd_machine.specs.Words.{machine_setup, machine_view, IsWhole};

use super::Machine;
use gd_base::{Block, Device, Event, MOST_ENTRIES, Meter, Numbered, Refusal, Reply, Stepped, Tilt};

/// What the type of words makes true.
fn words_fit(words: &[u64])
    ensures { list_all (λ w. nat_lt w (2 ^ 64)) words.now ≡ true }
{}

/// What the type of a block makes true.
fn block_fits(words: &Block)
    ensures sixteen { length words.now ≡ 16 }
    ensures small { list_all (λ w. nat_lt w (2 ^ 64)) words.now ≡ true }
{
    words_fit(words);
}

/// What the type of a draw makes true of its words.
fn draw_fits(draw: &Option<(u64, Block)>)
    ensures { IfSome draw.now (λ d. IsBlock d.1) }
{
    if let Some(drawn) = draw {
        let words = drawn.1;
        block_fits(&words);
    }
}

/// What the types of an event's numbers make true.
fn event_fits(event: &Event)
    ensures { HasWidths event.now }
{
    if let Event::VoucherIn { id, .. } = event {
        let _id = *id;
    }
}

/// Keeps the reply to a device's next number.
fn keep(kept: &mut [(u64, Option<Reply>); 9], device: Device, number: u64, reply: Reply)
    requires { number ≡ (kept_at kept.old (device_place device)).0 + 1 }
    ensures { kept.new ≡ with_reply device reply kept.old }
{
    kept[device.place()] = (number, Some(reply));
}

/// The reply to an event, by how it went.
fn reply_to(outcome: Result<(), Refusal>) -> Reply
    ensures { result ≡ replied outcome }
{
    match outcome {
        Ok(()) => Reply::Taken,
        Err(why) => Reply::Refused(why),
    }
}

impl Machine {
    /// A device's last number, and the reply to it.
    fn last_of(&self, event: &Event) -> (u64, Option<Reply>)
        requires { IsWhole (machine_setup self.now) (machine_view self.now) }
        ensures value { result ≡ kept_at (machine_view self.now).kept (device_place (device_of event.now)) }
        ensures small { result.0 ≤ (machine_view self.now).count }
        ensures most { (machine_view self.now).count ≤ MOST_ENTRIES }
    {
        self.kept(event.device())
    }

    /// Whether an event is new.
    #[tactic(auto, unfolding(gd_base::specs::Judging::Answer::answer))]
    fn is_next(&self, e: &Numbered) -> bool
        requires { IsWhole (machine_setup self.now) (machine_view self.now) }
        ensures { result ≡ is_new (answer (the_machine (machine_setup self.now)) (machine_view self.now) e.now) }
    {
        e.number == self.last_of(&e.event).0 + 1 && self.count < MOST_ENTRIES
    }

    /// Whether a draw is to be handed to `step`: at a new play that is taken, and nowhere else. The view keeps all rules
    /// of a view.
    pub fn needs_draw(&self, e: &Numbered) -> bool
        requires { IsWhole (machine_setup self.now) (machine_view self.now) }
        ensures { result ≡ is_draw_needed (the_machine (machine_setup self.now)) (machine_view self.now) e.now }
    {
        match e.event {
            Event::Play { game, bet } => self.is_next(e) && self.is_play_taken(game, bet),
            _ => false,
        }
    }

    /// The index of the next play's block: the plays and the starts so far. The view keeps all rules of a view.
    pub fn draw_index(&self) -> u64
        requires { IsWhole (machine_setup self.now) (machine_view self.now) }
        ensures { result ≡ next_index (machine_view self.now) }
    {
        self.account.meter(Meter::GamesPlayed) + self.account.meter(Meter::PowerUps)
    }

    /// Carries out an event that draws nothing, or refuses it.
    fn act_undrawn(&mut self, event: &Event) -> Result<(), Refusal>
        requires whole { IsWhole (machine_setup self.old) (machine_view self.old) }
        requires undrawn { is_play event.now ≡ false }
        ensures answer { replied result ≡ rule (machine_setup self.old) (machine_view self.old) event.now }
        ensures view { OnOk result (machine_view self.new ≡
            acted (machine_setup self.old) (machine_view self.old) event.now None) }
        ensures stays { OnErr result (machine_view self.new ≡ machine_view self.old) }
        ensures setup { machine_setup self.new ≡ machine_setup self.old }
    {
        match event {
            Event::Bill { value } => self.take_bill(*value),
            Event::BillJam => self.tell_fault(event, Tilt::BillJam),
            Event::StackerFull => self.tell_fault(event, Tilt::StackerFull),
            Event::Coin { value } => self.take_coin(*value),
            Event::CoinJam => self.tell_fault(event, Tilt::CoinJam),
            Event::VoucherIn { id, value } => self.take_voucher(*id, *value),
            Event::Printed { order } => self.print(*order),
            Event::PrintFail { order } => self.fail_print(*order),
            Event::PaperOut => self.tell_fault(event, Tilt::PaperOut),
            Event::CoinPaid { order } => self.pay_coin(*order),
            Event::HopperEmpty { order } => self.empty_hopper(*order),
            Event::DoorOpen { door } => self.open_door(*door),
            Event::DoorShut { door } => self.shut_door(*door),
            Event::Play { .. } => unreachable!(),
            Event::Pick { .. } | Event::Hold { .. } => self.choose(event),
            Event::Gamble { colour } => self.gamble(*colour),
            Event::Take => self.take(),
            Event::CashOut => self.cash_out(),
            Event::ClearTilt { tilt } => self.clear_tilt(*tilt),
            Event::HandpayDone => self.end_handpay(),
            Event::Start => self.start(),
        }
    }

    /// Judges an event by the rule, and carries it out where it is taken, but for the count and what is kept of its
    /// device.
    fn act(&mut self, event: &Event, draw: &Option<(u64, Block)>) -> Result<(), Refusal>
        requires whole { IsWhole (machine_setup self.old) (machine_view self.old) }
        requires drawn { IsDraw (is_drawn (machine_setup self.old) (machine_view self.old) event.now)
            (next_index (machine_view self.old)) draw.now }
        requires block { IfSome draw.now (λ d. IsBlock d.1) }
        ensures answer { replied result ≡ rule (machine_setup self.old) (machine_view self.old) event.now }
        ensures view { OnOk result (machine_view self.new ≡
            acted (machine_setup self.old) (machine_view self.old) event.now draw.now) }
        ensures stays { OnErr result (machine_view self.new ≡ machine_view self.old) }
        ensures setup { machine_setup self.new ≡ machine_setup self.old }
    {
        match event {
            Event::Play { game, bet } => self.begin_play(*game, *bet, draw),
            _ => self.act_undrawn(event),
        }
    }

    /// Counts an entry, and keeps the reply to it.
    fn count_entry(&mut self, e: &Numbered, reply: Reply)
        requires room { (machine_view self.old).count < MOST_ENTRIES }
        requires next { e.now.number ≡
            (kept_at (machine_view self.old).kept (device_place (device_of e.now.event))).0 + 1 }
        ensures view { machine_view self.new ≡ record (machine_view self.old) {
          count = (machine_view self.old).count + 1;
          kept = with_reply (device_of e.now.event) reply (machine_view self.old).kept;
        } }
        ensures setup { machine_setup self.new ≡ machine_setup self.old }
    {
        keep(&mut self.kept, e.event.device(), e.number, reply);
        self.count += 1;
    }

    /// Answers a numbered event: a new one is one entry more, a repeat gets the kept reply, any other changes nothing. A
    /// draw of the next index is handed in where `needs_draw` says so, and else none. The view keeps all rules of a view.
    /// docs/DEFINITIONS.md has the rule of each event.
    #[tactic(auto, unfolding(gd_base::specs::Judging::Answer::answer))]
    pub fn step(&mut self, e: &Numbered, draw: Option<(u64, Block)>) -> Stepped
        requires whole { IsWhole (machine_setup self.old) (machine_view self.old) }
        requires draw { IsDrawFor (the_machine (machine_setup self.old)) (machine_view self.old) e.now draw }
        ensures answer { result ≡ answer (the_machine (machine_setup self.old)) (machine_view self.old) e.now }
        ensures view { machine_view self.new ≡
            after_answer (the_machine (machine_setup self.old)) (machine_view self.old) e.now draw result }
        ensures setup { machine_setup self.new ≡ machine_setup self.old }
        ensures whole { IsWhole (machine_setup self.new) (machine_view self.new) }
    {
        let (last, kept) = self.last_of(&e.event);
        if last != 0 && e.number == last {
            return Stepped::Again(kept.unwrap_or(Reply::Taken));
        }
        if e.number != last + 1 {
            return Stepped::OutOfStep { expected: last + 1 };
        }
        if self.count >= MOST_ENTRIES {
            return Stepped::HistoryFull;
        }
        event_fits(&e.event);
        draw_fits(&draw);
        let outcome = self.act(&e.event, &draw);
        let reply = reply_to(outcome);
        self.count_entry(e, reply);
        Stepped::New(reply)
    }
}
