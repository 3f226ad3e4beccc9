//! What is paid out: orders to a device, and what the attendant pays.

ghost use Rattle.std.specs.Prelude.{◌≡◌, IfSome, Some};
ghost use Rattle.gd_base.specs.declared.payout.OrderKind.{OrderKind};
ghost use Rattle.gd_base.specs.Histories.Numbers.{kind_number};

/// The device that carries an order out.
#[derive(Clone, Copy, PartialEq, Eq, Debug)]
pub enum OrderKind {
    /// One voucher over the whole amount.
    Printer,
    /// Whole coins.
    Hopper,
}

impl OrderKind {
    /// The number of the device that carries an order out: 1 for the printer, 2 for the hopper.
    pub fn number(&self) -> u8
        ensures { result ≡ kind_number self.now }
    {
        match self {
            OrderKind::Printer => 1,
            OrderKind::Hopper => 2,
        }
    }

    /// The device of this number, or none.
    pub fn of_number(number: u8) -> Option<OrderKind>
        ensures own { IfSome result (λ k. kind_number k ≡ number) }
        ensures each { (k : OrderKind) → kind_number k ≡ number → result ≡ Some k }
    {
        match number {
            1 => Some(OrderKind::Printer),
            2 => Some(OrderKind::Hopper),
            _ => None,
        }
    }
}

/// An open order, numbered from 1, and the cents that are still to be paid.
#[derive(Clone, Copy, PartialEq, Eq, Debug)]
pub struct Order {
    pub number: u64,
    pub kind: OrderKind,
    pub amount: u64,
}

/// An open handpay of so many cents: a win at or above the handpay limit, or else cancelled credit.
#[derive(Clone, Copy, PartialEq, Eq, Debug)]
pub struct Handpay {
    pub win: bool,
    pub amount: u64,
}
