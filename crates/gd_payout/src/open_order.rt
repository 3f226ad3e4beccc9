//! The order that may be open.

ghost use Rattle.std.specs.Prelude.{◌≡◌};
ghost use Rattle.gd_base.specs.Histories.Credit.{less_coin, order_amount};
ghost use Rattle.gd_base.specs.Judging.Rule.{is_order as is_order_of};

use gd_base::{Order, OrderKind};

/// Whether the open order has this kind and this number.
pub(crate) fn is_order(kind: OrderKind, number: u64, order: Option<Order>) -> bool
    ensures { result ≡ is_order_of kind number order }
{
    match order {
        None => false,
        Some(open) => open.number == number && open.kind == kind,
    }
}

/// The cents that remain of the open order, or 0 where none is open.
pub(crate) fn amount_of(order: Option<Order>) -> u64
    ensures { result ≡ order_amount order }
{
    match order {
        None => 0,
        Some(open) => open.amount,
    }
}

/// The open order with a coin of `coin` cents less, or none where nothing remains.
pub(crate) fn after_coin(coin: u32, order: Option<Order>) -> Option<Order>
    ensures { result ≡ less_coin coin order }
{
    let open = order?;
    let amount = open.amount.saturating_sub(u64::from(coin));
    if amount == 0 {
        None
    } else {
        Some(Order { amount, ..open })
    }
}
