//! The devices that tell events.

ghost use Rattle.std.specs.Prelude.{◌≡◌, ◌≤◌, ◌<◌, length};
ghost use Rattle.gd_base.specs.Texts.Names.{device_name};
ghost use Rattle.gd_base.specs.Histories.Numbers.{device_place};

/// Who tells an event. Each device numbers its events from 1.
#[derive(Clone, Copy, PartialEq, Eq, Debug)]
pub enum Device {
    /// The bill validator.
    Bill,
    /// The coin acceptor.
    Coin,
    /// The voucher reader.
    Reader,
    /// The voucher printer.
    Printer,
    /// The coin hopper.
    Hopper,
    /// The switches of the doors.
    Doors,
    /// The player's panel.
    Player,
    /// The attendant's key, or the console.
    Attendant,
    /// The power supply: its one event is Start, which the machine makes at each opening.
    Power,
}

impl Device {
    /// The device's place, from 0, in each list by device.
    pub fn place(&self) -> usize
        ensures value { result ≡ device_place self.now }
        ensures below { result < 9 }
    {
        match self {
            Device::Bill => 0,
            Device::Coin => 1,
            Device::Reader => 2,
            Device::Printer => 3,
            Device::Hopper => 4,
            Device::Doors => 5,
            Device::Player => 6,
            Device::Attendant => 7,
            Device::Power => 8,
        }
    }

    /// The device's name in reports, scripts and station lines, as `bill`.
    pub fn name(&self) -> &'static str
        ensures value { result.now ≡ device_name self.now }
        ensures short { length result.now ≤ 9 }
    {
        match self {
            Device::Bill => "bill",
            Device::Coin => "coin",
            Device::Reader => "reader",
            Device::Printer => "printer",
            Device::Hopper => "hopper",
            Device::Doors => "doors",
            Device::Player => "player",
            Device::Attendant => "attendant",
            Device::Power => "power",
        }
    }
}
