//! What a machine shows.

ghost use Rattle.std.specs.Prelude.{◌≡◌, ◌≤◌, ◌+◌, ◌++◌};
ghost use Rattle.arrayvec.specs.ArrayString.{array_string_len};
ghost use Rattle.gd_base.specs.Judging.Product.{text};
ghost use Rattle.gd_base.specs.Texts.OfViews.{events_text, recall_text, state_text};
ghost use Rattle.gd_machine.specs.Words.{machine_setup, machine_view, IsWhole};

use super::Machine;
use crate::texts::events::{push_bills, push_events, push_vouchers};
use crate::texts::plays::push_open_or;
use crate::texts::recalled::push_ended_plays;
use crate::texts::state::{push_condition, push_handpay, push_order};
use gd_base::{TEXT_LEN, Text, What, push_count_line, push_meters};

impl Machine {
    /// Writes a text over what stands in `into`. docs/FORMATS.md has each. The view keeps all rules of a view.
    pub fn show(&self, what: What, into: &mut Text)
        requires whole { IsWhole (machine_setup self.now) (machine_view self.now) }
        ensures { into.new.bytes ≡ text (machine_setup self.now) what (machine_view self.now) }
    {
        into.clear();
        match what {
            What::Meters => push_meters(into, self.account.totals()),
            What::State => self.push_state(into),
            What::Recall => self.push_recall(into),
            What::Events => self.push_noted(into),
            What::Order => push_order(into, &self.setup, self.payout.open_order()),
        }
    }

    /// Appends the text of the state. At most 611 bytes.
    fn push_state(&self, text: &mut Text)
        requires whole { IsWhole (machine_setup self.now) (machine_view self.now) }
        requires room { array_string_len text.old + 611 ≤ TEXT_LEN }
        ensures bytes { text.new.bytes ≡ text.old.bytes ++ state_text (machine_setup self.now) (machine_view self.now) }
        ensures room { array_string_len text.new ≤ array_string_len text.old + 611 }
    {
        let handpay = self.payout.open_handpay();
        push_count_line(text, "credit ", self.account.balance());
        push_condition(text, self.conditions.shown_condition(handpay.is_some()));
        push_order(text, &self.setup, self.payout.open_order());
        push_handpay(text, handpay);
        push_open_or(text, &self.setup, self.plays.open(), "play none\n");
    }

    /// Appends the plays that are recalled: the open one, and then those that have ended. At most 5,200 bytes.
    fn push_recall(&self, text: &mut Text)
        requires whole { IsWhole (machine_setup self.now) (machine_view self.now) }
        requires room { array_string_len text.old + 5200 ≤ TEXT_LEN }
        ensures bytes { text.new.bytes ≡ text.old.bytes ++ recall_text (machine_setup self.now) (machine_view self.now) }
        ensures room { array_string_len text.new ≤ array_string_len text.old + 5200 }
    {
        push_count_line(text, "recall ", self.recall.play_count() as u64);
        push_open_or(text, &self.setup, self.plays.open(), "");
        push_ended_plays(text, &self.setup, &self.recall);
    }

    /// Appends the significant events, the bills and the vouchers that are recalled. At most 8,343 bytes.
    fn push_noted(&self, text: &mut Text)
        requires { array_string_len text.old + 8343 ≤ TEXT_LEN }
        ensures bytes { text.new.bytes ≡ text.old.bytes ++ events_text (machine_view self.now) }
        ensures room { array_string_len text.new ≤ array_string_len text.old + 8343 }
    {
        push_count_line(text, "events ", self.recall.event_count() as u64);
        push_events(text, &self.recall);
        push_count_line(text, "bills ", self.recall.bill_count() as u64);
        push_bills(text, &self.recall);
        push_count_line(text, "vouchers ", self.recall.voucher_count() as u64);
        push_vouchers(text, &self.recall);
    }
}
