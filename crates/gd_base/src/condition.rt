//! Doors and tilts, and the conditions that they make.

ghost use Rattle.std.specs.Prelude.{◌≡◌, ◌≤◌, ◌<◌, length, IfSome, Some};
ghost use Rattle.gd_base.specs.declared.condition.Condition.{Condition};
ghost use Rattle.gd_base.specs.Texts.Names.{condition_name, door_name, tilt_name};
ghost use Rattle.gd_base.specs.Histories.Numbers.{condition_number, door_condition, door_place, tilt_condition, tilt_place};

/// A door of the cabinet. While one is open the machine is locked up.
#[derive(Clone, Copy, PartialEq, Eq, Debug)]
pub enum Door {
    /// That of the logic area, where the control program lies.
    Logic,
    /// The main door.
    Main,
    /// That of the cash box, where bills lie.
    Cashbox,
    /// That of the drop box, where coins lie.
    Drop,
}

impl Door {
    /// The door's place, from 0, in each list by door. In records it has this number and 1.
    pub fn place(&self) -> usize
        ensures value { result ≡ door_place self.now }
        ensures below { result < 4 }
    {
        match self {
            Door::Logic => 0,
            Door::Main => 1,
            Door::Cashbox => 2,
            Door::Drop => 3,
        }
    }

    /// The condition that stands while this door is open.
    pub fn condition(&self) -> Condition
        ensures { result ≡ door_condition self.now }
    {
        match self {
            Door::Logic => Condition::LogicDoor,
            Door::Main => Condition::MainDoor,
            Door::Cashbox => Condition::CashboxDoor,
            Door::Drop => Condition::DropDoor,
        }
    }

    /// The door's name in scripts and in the texts of events, as `main`.
    pub fn name(&self) -> &'static str
        ensures value { result.now ≡ door_name self.now }
        ensures short { length result.now ≤ 7 }
    {
        match self {
            Door::Logic => "logic",
            Door::Main => "main",
            Door::Cashbox => "cashbox",
            Door::Drop => "drop",
        }
    }
}

/// A fault of a device that locks the machine up until the attendant clears it.
#[derive(Clone, Copy, PartialEq, Eq, Debug)]
pub enum Tilt {
    /// A bill is stuck.
    BillJam,
    /// A coin is stuck.
    CoinJam,
    /// The box of the bill validator is full.
    StackerFull,
    /// The printer has no paper.
    PaperOut,
    /// A voucher wasn't printed.
    PrintFail,
    /// The hopper has no coins.
    HopperEmpty,
}

impl Tilt {
    /// The tilt's place, from 0, in each list by tilt.
    pub fn place(&self) -> usize
        ensures value { result ≡ tilt_place self.now }
        ensures below { result < 6 }
    {
        match self {
            Tilt::BillJam => 0,
            Tilt::CoinJam => 1,
            Tilt::StackerFull => 2,
            Tilt::PaperOut => 3,
            Tilt::PrintFail => 4,
            Tilt::HopperEmpty => 5,
        }
    }

    /// The condition that stands while this tilt does.
    pub fn condition(&self) -> Condition
        ensures { result ≡ tilt_condition self.now }
    {
        match self {
            Tilt::BillJam => Condition::BillJam,
            Tilt::CoinJam => Condition::CoinJam,
            Tilt::StackerFull => Condition::StackerFull,
            Tilt::PaperOut => Condition::PaperOut,
            Tilt::PrintFail => Condition::PrintFail,
            Tilt::HopperEmpty => Condition::HopperEmpty,
        }
    }

    /// The tilt's name in scripts and texts: that of its condition, as `bill-jam`.
    pub fn name(&self) -> &'static str
        ensures value { result.now ≡ tilt_name self.now }
        ensures short { length result.now ≤ 12 }
    {
        self.condition().name()
    }
}

/// What locks the machine up, in the order in which the first one that stands is shown: an open door, a tilt, an open
/// handpay.
#[derive(Clone, Copy, PartialEq, Eq, Debug)]
pub enum Condition {
    LogicDoor,
    MainDoor,
    CashboxDoor,
    DropDoor,
    BillJam,
    CoinJam,
    StackerFull,
    PaperOut,
    PrintFail,
    HopperEmpty,
    Handpay,
}

impl Condition {
    /// The condition's number, 1 to 11, in the order in which the first one that stands is shown.
    pub fn number(&self) -> u8
        ensures value { result ≡ condition_number self.now }
        ensures most { result ≤ 11 }
    {
        match self {
            Condition::LogicDoor => 1,
            Condition::MainDoor => 2,
            Condition::CashboxDoor => 3,
            Condition::DropDoor => 4,
            Condition::BillJam => 5,
            Condition::CoinJam => 6,
            Condition::StackerFull => 7,
            Condition::PaperOut => 8,
            Condition::PrintFail => 9,
            Condition::HopperEmpty => 10,
            Condition::Handpay => 11,
        }
    }

    /// The condition of this number, or none.
    pub fn of_number(number: u8) -> Option<Condition>
        ensures own { IfSome result (λ c. condition_number c ≡ number) }
        ensures each { (c : Condition) → condition_number c ≡ number → result ≡ Some c }
    {
        match number {
            1 => Some(Condition::LogicDoor),
            2 => Some(Condition::MainDoor),
            3 => Some(Condition::CashboxDoor),
            4 => Some(Condition::DropDoor),
            5 => Some(Condition::BillJam),
            6 => Some(Condition::CoinJam),
            7 => Some(Condition::StackerFull),
            8 => Some(Condition::PaperOut),
            9 => Some(Condition::PrintFail),
            10 => Some(Condition::HopperEmpty),
            11 => Some(Condition::Handpay),
            _ => None,
        }
    }

    /// The condition's name in replies and in the text of the state, as `bill-jam`. A tilt has that of its condition.
    pub fn name(&self) -> &'static str
        ensures value { result.now ≡ condition_name self.now }
        ensures short { length result.now ≤ 12 }
    {
        match self {
            Condition::LogicDoor => "logic-door",
            Condition::MainDoor => "main-door",
            Condition::CashboxDoor => "cashbox-door",
            Condition::DropDoor => "drop-door",
            Condition::BillJam => "bill-jam",
            Condition::CoinJam => "coin-jam",
            Condition::StackerFull => "stacker-full",
            Condition::PaperOut => "paper-out",
            Condition::PrintFail => "print-fail",
            Condition::HopperEmpty => "hopper-empty",
            Condition::Handpay => "handpay",
        }
    }
}
