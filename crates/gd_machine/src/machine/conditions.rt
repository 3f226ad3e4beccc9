//! Doors, tilts, and the start.

ghost use Rattle.std.specs.Prelude.{◌≡◌, ◌≤◌, ◌+◌, ◌∷◌, true, take, slice_set, OnErr, OnOk, Some, None};
ghost use Rattle.gd_base.specs.declared.event.Event.{Event as EventData};
ghost use Rattle.gd_base.specs.Histories.Meters.{door_meter};
ghost use Rattle.gd_base.specs.Histories.Numbers.{tilt_place};
ghost use Rattle.gd_base.specs.Histories.Recall.{event_record};
ghost use Rattle.gd_base.specs.Judging.Rule.{rule};
ghost use Rattle.gd_machine.specs.Acts.{acted, fault_of, replied};
ghost use Rattle.gd_machine.specs.Words.{machine_setup, machine_view, IsWhole};

use super::Machine;
use super::noting::{DOOR_OPENED, DOOR_SHUT, STARTED, TILT_CLEARED, TILT_RAISED};
use gd_base::{Door, EVENTS_KEPT, Event, MOST_ENTRIES, Meter, Refusal, Tilt};

/// The meter that counts the openings of a door.
fn meter_of(door: Door) -> Meter
    ensures { result ≡ door_meter door }
{
    match door {
        Door::Logic => Meter::LogicOpen,
        Door::Main => Meter::MainOpen,
        Door::Cashbox => Meter::CashboxOpen,
        Door::Drop => Meter::DropOpen,
    }
}

impl Machine {
    /// Raises a tilt, and notes it.
    pub(super) fn raise(&mut self, tilt: Tilt)
        requires { (machine_view self.old).count ≤ MOST_ENTRIES }
        ensures view { machine_view self.new ≡ record (machine_view self.old) {
          tilts = slice_set (machine_view self.old).tilts (tilt_place tilt) true;
          events = take EVENTS_KEPT (event_record ((machine_view self.old).count + 1) 4 (tilt_place tilt + 5) ∷ (machine_view self.old).events);
        } }
        ensures setup { machine_setup self.new ≡ machine_setup self.old }
    {
        self.conditions.raise(tilt);
        self.note_event(TILT_RAISED, u64::from(tilt.condition().number()));
    }

    /// A device tells of a fault, whose tilt comes up. It is never refused.
    pub(super) fn tell_fault(&mut self, event: &Event, tilt: Tilt) -> Result<(), Refusal>
        requires whole { IsWhole (machine_setup self.old) (machine_view self.old) }
        requires tilt { fault_of event.now ≡ Some tilt }
        ensures answer { replied result ≡ rule (machine_setup self.old) (machine_view self.old) event.now }
        ensures view { OnOk result (machine_view self.new ≡
            acted (machine_setup self.old) (machine_view self.old) event.now None) }
        ensures stays { OnErr result (machine_view self.new ≡ machine_view self.old) }
        ensures setup { machine_setup self.new ≡ machine_setup self.old }
    {
        let _event = *event;
        self.raise(tilt);
        Ok(())
    }

    /// Opens a door, or refuses that it is open already.
    pub(super) fn open_door(&mut self, door: Door) -> Result<(), Refusal>
        requires whole { IsWhole (machine_setup self.old) (machine_view self.old) }
        ensures answer { replied result ≡ rule (machine_setup self.old) (machine_view self.old) (EventData.DoorOpen door) }
        ensures view { OnOk result (machine_view self.new ≡
            acted (machine_setup self.old) (machine_view self.old) (EventData.DoorOpen door) None) }
        ensures stays { OnErr result (machine_view self.new ≡ machine_view self.old) }
        ensures setup { machine_setup self.new ≡ machine_setup self.old }
    {
        self.conditions.door(door, true)?;
        self.account.add(meter_of(door), 1);
        self.note_event(DOOR_OPENED, u64::from(door.condition().number()));
        Ok(())
    }

    /// Shuts a door, or refuses that it is shut already.
    pub(super) fn shut_door(&mut self, door: Door) -> Result<(), Refusal>
        requires whole { IsWhole (machine_setup self.old) (machine_view self.old) }
        ensures answer { replied result ≡ rule (machine_setup self.old) (machine_view self.old) (EventData.DoorShut door) }
        ensures view { OnOk result (machine_view self.new ≡
            acted (machine_setup self.old) (machine_view self.old) (EventData.DoorShut door) None) }
        ensures stays { OnErr result (machine_view self.new ≡ machine_view self.old) }
        ensures setup { machine_setup self.new ≡ machine_setup self.old }
    {
        self.conditions.door(door, false)?;
        self.note_event(DOOR_SHUT, u64::from(door.condition().number()));
        Ok(())
    }

    /// Clears a tilt, or refuses that it doesn't stand.
    pub(super) fn clear_tilt(&mut self, tilt: Tilt) -> Result<(), Refusal>
        requires whole { IsWhole (machine_setup self.old) (machine_view self.old) }
        ensures answer { replied result ≡ rule (machine_setup self.old) (machine_view self.old) (EventData.ClearTilt tilt) }
        ensures view { OnOk result (machine_view self.new ≡
            acted (machine_setup self.old) (machine_view self.old) (EventData.ClearTilt tilt) None) }
        ensures stays { OnErr result (machine_view self.new ≡ machine_view self.old) }
        ensures setup { machine_setup self.new ≡ machine_setup self.old }
    {
        self.conditions.clear(tilt)?;
        self.note_event(TILT_CLEARED, u64::from(tilt.condition().number()));
        Ok(())
    }

    /// The power came back. It is never refused.
    pub(super) fn start(&mut self) -> Result<(), Refusal>
        requires whole { IsWhole (machine_setup self.old) (machine_view self.old) }
        ensures answer { replied result ≡ rule (machine_setup self.old) (machine_view self.old) EventData.Start }
        ensures view { OnOk result (machine_view self.new ≡
            acted (machine_setup self.old) (machine_view self.old) EventData.Start None) }
        ensures stays { OnErr result (machine_view self.new ≡ machine_view self.old) }
        ensures setup { machine_setup self.new ≡ machine_setup self.old }
    {
        self.account.add(Meter::PowerUps, 1);
        self.note_event(STARTED, 0);
        Ok(())
    }
}
