//! What is to be paid out, in bytes: the open handpay, and the number of orders with the open one.

ghost use Rattle.std.specs.Prelude.{◌≡◌, ◌≤◌, ◌+◌, length};
ghost use Rattle.gd_base.specs.Histories.Credit.{order_amount};
ghost use Rattle.gd_base.specs.Payloads.Bytes.{handpay_bytes, kind_code, order_bytes};
ghost use Rattle.gd_base.specs.Payloads.Reading.{handpay_read, order_of};

use crate::numbers::number_at;
use gd_base::{Handpay, Order, OrderKind};

/// Kind and amount of the open handpay.
pub(crate) fn handpay_image(handpay: Option<Handpay>) -> [u8; 10]
    ensures { result ≡ handpay_bytes handpay }
{
    let Some(handpay) = handpay else {
        return [0; 10];
    };
    let [n0, n1, n2, n3, n4, n5, n6, n7] = handpay.amount.to_be_bytes();
    let kind = if handpay.win { 1 } else { 2 };
    [kind, 0, n0, n1, n2, n3, n4, n5, n6, n7]
}

/// The number of an order's kind, 0 for none.
fn kind_of(order: Option<Order>) -> u8
    ensures { result ≡ kind_code order }
{
    match order {
        None => 0,
        Some(order) => order.kind.number(),
    }
}

/// The cents of an order, 0 for none.
fn amount_of(order: Option<Order>) -> u64
    ensures { result ≡ order_amount order }
{
    match order {
        None => 0,
        Some(order) => order.amount,
    }
}

/// The kind of the open order, how many orders so far, and the amount of the open one.
pub(crate) fn order_image(orders: u64, order: Option<Order>) -> [u8; 20]
    ensures { result ≡ order_bytes orders order }
{
    let [n0, n1, n2, n3, n4, n5, n6, n7] = orders.to_be_bytes();
    let [a0, a1, a2, a3, a4, a5, a6, a7] = amount_of(order).to_be_bytes();
    [
        kind_of(order),
        0,
        0,
        0,
        n0,
        n1,
        n2,
        n3,
        n4,
        n5,
        n6,
        n7,
        a0,
        a1,
        a2,
        a3,
        a4,
        a5,
        a6,
        a7,
    ]
}

/// The open handpay, at a place. A kind that none has is read as some one.
pub(crate) fn handpay_at(bytes: &[u8], place: usize) -> Option<Handpay>
    requires { place + 10 ≤ length bytes.now }
    ensures { result ≡ handpay_read place bytes.now }
{
    match bytes[place] {
        0 => None,
        kind => Some(Handpay {
            win: kind == 1,
            amount: number_at(bytes, place + 2),
        }),
    }
}

/// The order of a kind. A kind that none has is read as some one.
pub(crate) fn order_of_kind(kind: u8, number: u64, amount: u64) -> Option<Order>
    ensures { result ≡ order_of kind number amount }
{
    match kind {
        0 => None,
        1 => Some(Order {
            number,
            kind: OrderKind::Printer,
            amount,
        }),
        _ => Some(Order {
            number,
            kind: OrderKind::Hopper,
            amount,
        }),
    }
}
