//! An account as plain numbers.

/// What an account is made of: a balance in cents, and the whole totals of the meters in their order, of which nine are
/// amounts in cents and seven are counts.
#[derive(Clone, Copy, PartialEq, Eq, Debug)]
pub struct AccountParts {
    pub balance: u64,
    pub amounts: [u64; 9],
    pub counts: [u64; 7],
}
