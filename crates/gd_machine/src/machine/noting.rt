//! What is noted of an entry.

ghost use Rattle.std.specs.Prelude.{◌≡◌, ◌≤◌, ◌+◌, ◌∷◌, take};
ghost use Rattle.gd_base.specs.Histories.Recall.{event_record};
ghost use Rattle.gd_machine.specs.Words.{machine_setup, machine_view};

use super::Machine;
use gd_base::{EVENTS_KEPT, EventRecord, MOST_ENTRIES};

/// The codes of significant events, which docs/FORMATS.md has with what stands in the detail of each.
pub(super) const STARTED: u8 = 1;

pub(super) const DOOR_OPENED: u8 = 2;

pub(super) const DOOR_SHUT: u8 = 3;

pub(super) const TILT_RAISED: u8 = 4;

pub(super) const TILT_CLEARED: u8 = 5;

pub(super) const WIN_HELD: u8 = 6;

pub(super) const CREDIT_CANCELLED: u8 = 7;

pub(super) const HANDPAY_PAID: u8 = 8;

/// The kinds of vouchers in their records.
pub(super) const TAKEN_IN: u8 = 1;

pub(super) const PRINTED_OUT: u8 = 2;

impl Machine {
    /// Notes a significant event of the next entry.
    pub(super) fn note_event(&mut self, code: u8, detail: u64)
        requires { (machine_view self.old).count ≤ MOST_ENTRIES }
        ensures view { machine_view self.new ≡ record (machine_view self.old) {
          events = take EVENTS_KEPT (event_record ((machine_view self.old).count + 1) code detail ∷ (machine_view self.old).events);
        } }
        ensures setup { machine_setup self.new ≡ machine_setup self.old }
    {
        self.recall.note_event(&EventRecord {
            place: self.count + 1,
            code,
            detail,
        });
    }
}
