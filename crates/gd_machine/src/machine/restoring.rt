//! A machine put together from its parts.

ghost use Rattle.std.specs.Prelude.{◌≡◌, ◌≤◌, ◌+◌, IsTrue, is_some, length, map, sum, sum_by};
ghost use Rattle.gd_base.specs.Payloads.ListsIn.{lists_in};
ghost use Rattle.gd_base.specs.Payloads.ViewRules.{is_open_as};
ghost use Rattle.gd_games.specs.Digest.{digest_of};
ghost use Rattle.gd_machine.specs.Restoring.{restored};
ghost use Rattle.gd_machine.specs.Words.{machine_setup, machine_view};
ghost use Rattle.gd_play.specs.Rules.{is_open_play};

use super::Machine;
use crate::games::Games;
use crate::parts::MachineParts;
use gd_base::{MOST_ENTRIES, PAYLOAD_LEN, Reply};
use gd_play::PlayMachine;

/// The sum of the last numbers.
fn sum_of_numbers(kept: &[(u64, Option<Reply>); 9]) -> u64
    requires { sum (map (λ k. k.0) kept.now) ≤ MOST_ENTRIES }
    ensures { result ≡ sum (map (λ k. k.0) kept.now) }
{
    kept.iter().map(|k| k.0).sum()
}

impl Machine {
    /// Puts parts in place, and reads what is recalled from a payload. The answer is that of `Recall::load`: whether
    /// the payload has lists. Where it has none the machine is as after `clear`.
    pub fn restore(&mut self, parts: MachineParts, payload: &[u8]) -> bool
        requires size { length payload.now ≡ PAYLOAD_LEN }
        requires numbers { sum (map (λ k. k.0) parts.kept) ≤ MOST_ENTRIES }
        requires play { IsTrue (is_open_as (is_open_play (machine_setup self.old)) parts.open_play) }
        ensures setup { machine_setup self.new ≡ machine_setup self.old }
        ensures answer { result ≡ is_some (lists_in payload.now) }
        ensures view { machine_view self.new ≡ restored (digest_of (machine_setup self.old)) parts (lists_in payload.now) }
    {
        if !self.recall.load(payload) {
            self.clear();
            return false;
        }
        self.count = sum_of_numbers(&parts.kept);
        self.account = parts.account;
        self.payout = parts.payout;
        self.conditions = parts.conditions;
        self.plays = PlayMachine::from_parts(Games { setup: self.setup }, parts.open_play);
        self.kept = parts.kept;
        true
    }
}
