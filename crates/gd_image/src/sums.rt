//! Whether money that was read is neither lost nor made.

ghost use Rattle.std.specs.Prelude.{◌≡◌, ◌+◌, ◌<◌, ◌^◌, slice_index};
ghost use Rattle.gd_base.specs.Histories.Credit.{order_amount};
ghost use Rattle.gd_base.specs.Histories.Meters.{handpay_amount};
ghost use Rattle.gd_base.specs.Payloads.Lists.{Lists};
ghost use Rattle.gd_base.specs.Payloads.ViewRules.{income as income_of, outgo as outgo_of, is_balanced};
ghost use Rattle.gd_image.specs.Read.{read_view};

use crate::all_of::all_of;
use crate::read_fields::ReadFields;
use gd_account::Account;
use gd_base::MOST_AMOUNT;
use gd_payout::Payout;

/// A total, as a number in which sums of totals fit.
fn total(account: &Account, place: usize) -> u128
    requires { place < 16 }
    ensures value { result ≡ slice_index account.now.totals place }
    ensures most { result < 2 ^ 64 }
{
    u128::from(account.totals()[place])
}

/// The cents of the open order, which are 0 without one.
fn ordered(payout: &Payout) -> u128
    ensures amount { result ≡ order_amount payout.now.order }
    ensures most { result < 2 ^ 64 }
{
    match payout.open_order() {
        Some(order) => u128::from(order.amount),
        None => 0,
    }
}

/// The cents of the open handpay, which are 0 without one.
fn held(payout: &Payout) -> u128
    ensures amount { result ≡ handpay_amount payout.now.handpay }
    ensures most { result < 2 ^ 64 }
{
    match payout.open_handpay() {
        Some(handpay) => u128::from(handpay.amount),
        None => 0,
    }
}

/// What came in and was won, in cents.
fn income(fields: &ReadFields) -> u128
    ensures { (l : Lists) → result ≡ income_of (read_view fields.now l) }
{
    let account = &fields.parts.account;
    total(account, 0) + total(account, 1) + total(account, 2) + total(account, 4)
}

/// What was wagered and paid out, in cents.
fn spent(account: &Account) -> u128
    ensures sum { result ≡ slice_index account.now.totals 3 + slice_index account.now.totals 5
        + slice_index account.now.totals 6 + slice_index account.now.totals 7 + slice_index account.now.totals 8 }
    ensures most { result < 2 ^ 67 }
{
    total(account, 3)
        + total(account, 5)
        + total(account, 6)
        + total(account, 7)
        + total(account, 8)
}

/// What there is, and what was wagered and paid out, in cents.
fn outgo(fields: &ReadFields) -> u128
    ensures { (l : Lists) → result ≡ outgo_of (read_view fields.now l) }
{
    u128::from(fields.parts.account.balance())
        + ordered(&fields.parts.payout)
        + held(&fields.parts.payout)
        + spent(&fields.parts.account)
}

/// Whether nothing was lost or made, and no more came in than so many entries can bring.
pub(crate) fn are_balanced(fields: &ReadFields) -> bool
    ensures { (l : Lists) → result ≡ is_balanced (read_view fields.now l) }
{
    let income = income(fields);
    let most = u128::from(fields.count) * u128::from(MOST_AMOUNT);
    all_of(&[outgo(fields) == income, income <= most])
}
