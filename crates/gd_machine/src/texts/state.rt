//! The state: credit, the condition that locks the machine up, and what is open.

ghost use Rattle.std.specs.Prelude.{◌≡◌, ◌≤◌, ◌+◌, ◌++◌, codes, length};
ghost use Rattle.arrayvec.specs.ArrayString.{array_string_len};
ghost use Rattle.gd_base.specs.Texts.OfViews.{condition_text, handpay_text, kind_text, order_line};

use gd_base::{Condition, Handpay, Order, OrderKind, Setup, TEXT_LEN, Text, push_number};

/// Appends the line of the condition that locks the machine up. At most 23 bytes.
pub(crate) fn push_condition(text: &mut Text, condition: Option<Condition>)
    requires { array_string_len text.old + 23 ≤ TEXT_LEN }
    ensures bytes { text.new.bytes ≡ text.old.bytes ++ (codes "condition " ++ condition_text condition ++ codes "\n") }
    ensures room { array_string_len text.new ≤ array_string_len text.old + 23 }
{
    text.push_str("condition ");
    match condition {
        None => text.push_str("none"),
        Some(condition) => text.push_str(condition.name()),
    }
    text.push_str("\n");
}

/// Appends the device of an order between spaces, and of the hopper the coins that it is to pay. At most 35 bytes.
fn push_kind(text: &mut Text, order: &Order, coin: u32)
    requires coin { 1 ≤ coin }
    requires room { array_string_len text.old + 35 ≤ TEXT_LEN }
    ensures bytes { text.new.bytes ≡ text.old.bytes ++ kind_text order.now.kind order.now.amount coin }
    ensures room { array_string_len text.new ≤ array_string_len text.old + 35 }
{
    match order.kind {
        OrderKind::Printer => text.push_str(" printer "),
        OrderKind::Hopper => {
            text.push_str(" hopper ");
            push_number(text, order.amount / u64::from(coin));
            text.push_str(" coins ");
        }
    }
}

/// Appends the line of the open order. At most 82 bytes.
pub(crate) fn push_order(text: &mut Text, setup: &Setup, order: Option<Order>)
    requires { array_string_len text.old + 82 ≤ TEXT_LEN }
    ensures bytes { text.new.bytes ≡ text.old.bytes ++ order_line setup.now order }
    ensures room { array_string_len text.new ≤ array_string_len text.old + 82 }
{
    match order {
        None => text.push_str("order none\n"),
        Some(order) => {
            text.push_str("order ");
            push_number(text, order.number);
            push_kind(text, &order, setup.coin);
            push_number(text, order.amount);
            text.push_str("\n");
        }
    }
}

/// Appends the line of the open handpay. At most 36 bytes.
pub(crate) fn push_handpay(text: &mut Text, handpay: Option<Handpay>)
    requires { array_string_len text.old + 36 ≤ TEXT_LEN }
    ensures bytes { text.new.bytes ≡ text.old.bytes ++ (codes "handpay " ++ handpay_text handpay ++ codes "\n") }
    ensures room { array_string_len text.new ≤ array_string_len text.old + 36 }
{
    text.push_str("handpay ");
    match handpay {
        None => text.push_str("none"),
        Some(open) => {
            text.push_str(if open.win { "win " } else { "cancel " });
            push_number(text, open.amount);
        }
    }
    text.push_str("\n");
}
