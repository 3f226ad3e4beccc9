//! Where a win goes.

/// Where the win of an ended play went.
#[derive(Clone, Copy, PartialEq, Eq, Debug)]
pub enum Posted {
    /// There was no win.
    Nothing,
    /// To the balance: it was below the handpay limit.
    Credited,
    /// It is held for the attendant: it was at or above the handpay limit.
    Held,
}
