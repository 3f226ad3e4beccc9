//! The conditions of the cabinet.

ghost use Rattle.std.specs.Prelude.{◌≡◌, true, false, is_some, Ok, Err, OnOk, OnErr, if◌then◌else◌};
ghost use Rattle.gd_base.specs.declared.refusal.Refusal.{Refusal as RefusalData};
ghost use Rattle.gd_base.specs.Histories.Conditions.{flag_at, lock};
ghost use Rattle.gd_base.specs.Histories.Numbers.{door_place, tilt_place};
ghost use Rattle.gd_base.specs.Histories.View.{View};
ghost use Rattle.gd_doors.specs.Flags.{with_door, with_tilt};

use gd_base::{Condition, Door, Refusal, Tilt};
use std::marker::Model;

/// Which doors are open and which tilts stand. A contract sees two lists of flags: four doors and six tilts, each list
/// in the order of its enum.
#[derive(Drop)]
pub struct Conditions {
    doors: [bool; 4],
    tilts: [bool; 6],
}

impl Model for Conditions {
    ghost use Rattle.gd_doors.specs.Flags.{Flags};

    ghost Value = { Flags };

    ghost view = { λ c. record { doors = c.doors; tilts = c.tilts } };
}

impl Conditions {
    /// These flags: which doors are open and which tilts stand, in the order of the conditions 1 to 10.
    pub fn from_parts(doors: [bool; 4], tilts: [bool; 6]) -> Conditions
        ensures { result ≡ record { doors = doors; tilts = tilts } }
    {
        Conditions { doors, tilts }
    }

    /// The flags, in the order of `from_parts`.
    pub fn parts(&self) -> ([bool; 4], [bool; 6])
        ensures { result ≡ (self.now.doors, self.now.tilts) }
    {
        (self.doors, self.tilts)
    }

    /// Opens or shuts a door. It is refused with DoorAlready exactly where the door is so already; then nothing
    /// changes. docs/DEFINITIONS.md has the rule.
    pub fn door(&mut self, door: Door, is_open: bool) -> Result<(), Refusal>
        ensures opened { is_open ≡ true →
            result ≡ (if flag_at self.old.doors (door_place door) then Err RefusalData.DoorAlready else Ok tt) }
        ensures shut { is_open ≡ false →
            result ≡ (if flag_at self.old.doors (door_place door) then Ok tt else Err RefusalData.DoorAlready) }
        ensures moved { OnOk result (self.new ≡ with_door door is_open self.old) }
        ensures stays { OnErr result (self.new ≡ self.old) }
    {
        if self.is_open(door) == is_open {
            return Err(Refusal::DoorAlready);
        }
        self.doors[door.place()] = is_open;
        Ok(())
    }

    /// Raises a tilt, which may stand already.
    pub fn raise(&mut self, tilt: Tilt)
        ensures { self.new ≡ with_tilt tilt true self.old }
    {
        self.tilts[tilt.place()] = true;
    }

    /// Clears a tilt. It is refused with NoSuchTilt exactly where the tilt doesn't stand; then nothing changes.
    /// docs/DEFINITIONS.md has the rule.
    pub fn clear(&mut self, tilt: Tilt) -> Result<(), Refusal>
        ensures answer { result ≡
            (if flag_at self.old.tilts (tilt_place tilt) then Ok tt else Err RefusalData.NoSuchTilt) }
        ensures moved { OnOk result (self.new ≡ with_tilt tilt false self.old) }
        ensures stays { OnErr result (self.new ≡ self.old) }
    {
        if !self.stands(tilt) {
            return Err(Refusal::NoSuchTilt);
        }
        self.tilts[tilt.place()] = false;
        Ok(())
    }

    /// The condition that locks the machine up, or none: the first that stands in the order of `Condition`, which is
    /// that of doors, tilts and an open handpay, whichever came first. `handpay` tells whether a handpay is open.
    /// docs/DEFINITIONS.md has the rule.
    pub fn shown_condition(&self, handpay: bool) -> Option<Condition>
        ensures { (v : View) → v.doors ≡ self.now.doors → v.tilts ≡ self.now.tilts → is_some v.handpay ≡ handpay
            → result ≡ lock v }
    {
        if self.doors[0] {
            return Some(Condition::LogicDoor);
        }
        if self.doors[1] {
            return Some(Condition::MainDoor);
        }
        if self.doors[2] {
            return Some(Condition::CashboxDoor);
        }
        if self.doors[3] {
            return Some(Condition::DropDoor);
        }
        self.shown_behind_doors(handpay)
    }

    /// The condition that locks the machine up while all doors are shut, or none.
    fn shown_behind_doors(&self, handpay: bool) -> Option<Condition>
        ensures { (v : View) → flag_at v.doors 0 ≡ false → flag_at v.doors 1 ≡ false → flag_at v.doors 2 ≡ false
            → flag_at v.doors 3 ≡ false → v.tilts ≡ self.now.tilts → is_some v.handpay ≡ handpay → result ≡ lock v }
    {
        if self.tilts[0] {
            Some(Condition::BillJam)
        } else if self.tilts[1] {
            Some(Condition::CoinJam)
        } else if self.tilts[2] {
            Some(Condition::StackerFull)
        } else if self.tilts[3] {
            Some(Condition::PaperOut)
        } else if self.tilts[4] {
            Some(Condition::PrintFail)
        } else if self.tilts[5] {
            Some(Condition::HopperEmpty)
        } else if handpay {
            Some(Condition::Handpay)
        } else {
            None
        }
    }

    /// Whether a door is open.
    fn is_open(&self, door: Door) -> bool
        ensures { result ≡ flag_at self.now.doors (door_place door) }
    {
        self.doors[door.place()]
    }

    /// Whether a tilt stands.
    fn stands(&self, tilt: Tilt) -> bool
        ensures { result ≡ flag_at self.now.tilts (tilt_place tilt) }
    {
        self.tilts[tilt.place()]
    }
}
