//! The sixteen meters.

ghost use Rattle.std.specs.Prelude.{◌≡◌, ◌≤◌, ◌<◌, length};
ghost use Rattle.gd_base.specs.Texts.Names.{meter_name};
ghost use Rattle.gd_base.specs.Histories.Numbers.{meter_place};

/// A meter: nine amounts in cents, then seven counts. The whole total is kept, and modulo 10^10 is shown.
#[derive(Clone, Copy, PartialEq, Eq, Debug)]
pub enum Meter {
    /// Bills that were taken.
    BillIn,
    /// Coins that were taken.
    CoinIn,
    /// Vouchers that were taken in.
    VoucherIn,
    /// What was wagered in all plays.
    Wagered,
    /// What all ended plays won, held wins among them.
    Won,
    /// What was printed on vouchers.
    VoucherOut,
    /// What was paid in coins.
    CoinOut,
    /// Wins that the attendant paid.
    HandWin,
    /// Cancelled credit that the attendant paid.
    HandCancel,
    /// Plays that were taken.
    GamesPlayed,
    /// Ended plays with a win above 0.
    GamesWon,
    /// Starts.
    PowerUps,
    /// Openings of the logic door.
    LogicOpen,
    /// Openings of the main door.
    MainOpen,
    /// Openings of the cash box.
    CashboxOpen,
    /// Openings of the drop box.
    DropOpen,
}

impl Meter {
    /// The meter's place, from 0, among the totals.
    pub fn place(&self) -> usize
        ensures value { result ≡ meter_place self.now }
        ensures below { result < 16 }
    {
        match self {
            Meter::BillIn => 0,
            Meter::CoinIn => 1,
            Meter::VoucherIn => 2,
            Meter::Wagered => 3,
            Meter::Won => 4,
            Meter::VoucherOut => 5,
            Meter::CoinOut => 6,
            Meter::HandWin => 7,
            Meter::HandCancel => 8,
            Meter::GamesPlayed => 9,
            Meter::GamesWon => 10,
            Meter::PowerUps => 11,
            Meter::LogicOpen => 12,
            Meter::MainOpen => 13,
            Meter::CashboxOpen => 14,
            Meter::DropOpen => 15,
        }
    }

    /// The meter's name in the text of the meters, as `BillIn`.
    pub fn name(&self) -> &'static str
        ensures value { result.now ≡ meter_name self.now }
        ensures short { length result.now ≤ 11 }
    {
        match self {
            Meter::BillIn => "BillIn",
            Meter::CoinIn => "CoinIn",
            Meter::VoucherIn => "VoucherIn",
            Meter::Wagered => "Wagered",
            Meter::Won => "Won",
            Meter::VoucherOut => "VoucherOut",
            Meter::CoinOut => "CoinOut",
            Meter::HandWin => "HandWin",
            Meter::HandCancel => "HandCancel",
            Meter::GamesPlayed => "GamesPlayed",
            Meter::GamesWon => "GamesWon",
            Meter::PowerUps => "PowerUps",
            Meter::LogicOpen => "LogicOpen",
            Meter::MainOpen => "MainOpen",
            Meter::CashboxOpen => "CashboxOpen",
            Meter::DropOpen => "DropOpen",
        }
    }
}

/// The meters in the order in which they are shown and kept: nine amounts, then seven counts.
pub const METERS: [Meter; 16] = [
    Meter::BillIn,
    Meter::CoinIn,
    Meter::VoucherIn,
    Meter::Wagered,
    Meter::Won,
    Meter::VoucherOut,
    Meter::CoinOut,
    Meter::HandWin,
    Meter::HandCancel,
    Meter::GamesPlayed,
    Meter::GamesWon,
    Meter::PowerUps,
    Meter::LogicOpen,
    Meter::MainOpen,
    Meter::CashboxOpen,
    Meter::DropOpen,
];
