//! Why bytes are no setup.

ghost use Rattle.std.specs.Prelude.{◌≡◌, ◌≤◌, length};

/// The first rule that the file of a setup breaks, in the order of docs/FORMATS.md, which says what each asks for.
#[derive(Clone, Copy, PartialEq, Eq, Debug)]
pub enum SetupFault {
    /// The bytes are too many, no UTF-8 or no TOML.
    Text,
    /// A key that no setup has, or a value of another type than its key's.
    Key,
    Denom,
    Credit,
    Handpay,
    Gamble,
    Bills,
    Coin,
    /// The hopper, its limit, or the limit of vouchers.
    Payout,
    Strips,
    /// The pays or the prizes of the reels.
    Reels,
    Poker,
}

impl SetupFault {
    ghost use Rattle.gd_games.specs.File.{fault_name};

    /// The rule's name in a report, as `denom`.
    pub fn name(&self) -> &'static str
        ensures value { result.now ≡ fault_name self.now }
        ensures short { length result.now ≤ 7 }
    {
        match self {
            SetupFault::Text => "text",
            SetupFault::Key => "key",
            SetupFault::Denom => "denom",
            SetupFault::Credit => "credit",
            SetupFault::Handpay => "handpay",
            SetupFault::Gamble => "gamble",
            SetupFault::Bills => "bills",
            SetupFault::Coin => "coin",
            SetupFault::Payout => "payout",
            SetupFault::Strips => "strips",
            SetupFault::Reels => "reels",
            SetupFault::Poker => "poker",
        }
    }
}

/// Why no setup was read.
#[derive(Clone, Copy, PartialEq, Eq, Debug)]
pub enum SetupError {
    /// The bytes are no setup.
    Fault(SetupFault),
    /// Memory was wanted. It says nothing of the bytes.
    OutOfMemory,
}
