//! Significant events, bills and vouchers.

ghost use Rattle.std.specs.Prelude.{◌≡◌, ◌≤◌, ◌+◌, ◌*◌, ◌++◌, codes, decimal, flat_map, length};
ghost use Rattle.arrayvec.specs.ArrayString.{array_string_len};
ghost use Rattle.gd_base.specs.declared.records.TheConstants.{BILLS_KEPT, EVENTS_KEPT, VOUCHERS_KEPT};
ghost use Rattle.gd_base.specs.Texts.OfViews.{bill_line, door_text, event_line, event_phrase, tilt_text, voucher_line};

use gd_base::{BillRecord, Door, EventRecord, TEXT_LEN, Text, Tilt, VoucherRecord, push_number};
use gd_recall::Recall;

/// The name of a door, by its number in a record.
fn name_of_door(number: u64) -> &'static str
    ensures name { result.now ≡ door_text number }
    ensures short { length result.now ≤ 7 }
{
    match number {
        0 | 1 => Door::Logic.name(),
        2 => Door::Main.name(),
        3 => Door::Cashbox.name(),
        4 => Door::Drop.name(),
        _ => "",
    }
}

/// The name of a tilt, by the number of its condition.
fn name_of_tilt(number: u64) -> &'static str
    ensures name { result.now ≡ tilt_text number }
    ensures short { length result.now ≤ 12 }
{
    match number {
        0..=5 => Tilt::BillJam.name(),
        6 => Tilt::CoinJam.name(),
        7 => Tilt::StackerFull.name(),
        8 => Tilt::PaperOut.name(),
        9 => Tilt::PrintFail.name(),
        10 => Tilt::HopperEmpty.name(),
        _ => "",
    }
}

/// Appends a word, which has the space behind it, and a name.
fn push_named(text: &mut Text, word: &str, name: &str)
    requires { array_string_len text.old + length word.now + length name.now ≤ TEXT_LEN }
    ensures bytes { text.new.bytes ≡ text.old.bytes ++ (word.now ++ name.now) }
    ensures room { array_string_len text.new ≤ array_string_len text.old + length word.now + length name.now }
{
    text.push_str(word);
    text.push_str(name);
}

/// Appends a word, which has the space behind it, and an amount. At most 20 bytes and those of the word.
fn push_amount(text: &mut Text, word: &str, amount: u64)
    requires { array_string_len text.old + length word.now + 20 ≤ TEXT_LEN }
    ensures bytes { text.new.bytes ≡ text.old.bytes ++ (word.now ++ decimal amount) }
    ensures room { array_string_len text.new ≤ array_string_len text.old + length word.now + 20 }
{
    text.push_str(word);
    push_number(text, amount);
}

/// Appends what happened, by its code and detail. At most 35 bytes.
fn push_phrase(text: &mut Text, code: u8, detail: u64)
    requires { array_string_len text.old + 35 ≤ TEXT_LEN }
    ensures bytes { text.new.bytes ≡ text.old.bytes ++ event_phrase code detail }
    ensures room { array_string_len text.new ≤ array_string_len text.old + 35 }
{
    match code {
        1 => text.push_str("start"),
        2 => push_named(text, "door-opened ", name_of_door(detail)),
        3 => push_named(text, "door-shut ", name_of_door(detail)),
        4 => push_named(text, "tilt-raised ", name_of_tilt(detail)),
        5 => push_named(text, "tilt-cleared ", name_of_tilt(detail)),
        6 => push_amount(text, "handpay-win ", detail),
        7 => push_amount(text, "handpay-cancel ", detail),
        _ => push_amount(text, "handpay-done ", detail),
    }
}

/// Appends the line of a significant event. At most 57 bytes.
fn push_event(text: &mut Text, event: &EventRecord)
    requires { array_string_len text.old + 57 ≤ TEXT_LEN }
    ensures bytes { text.new.bytes ≡ text.old.bytes ++ event_line event.now }
    ensures room { array_string_len text.new ≤ array_string_len text.old + 57 }
{
    push_number(text, event.place);
    text.push_str(" ");
    push_phrase(text, event.code, event.detail);
    text.push_str("\n");
}

/// Appends the line of a bill. At most 42 bytes.
fn push_bill(text: &mut Text, bill: &BillRecord)
    requires { array_string_len text.old + 42 ≤ TEXT_LEN }
    ensures bytes { text.new.bytes ≡ text.old.bytes ++ bill_line bill.now }
    ensures room { array_string_len text.new ≤ array_string_len text.old + 42 }
{
    push_number(text, bill.place);
    text.push_str(" ");
    push_number(text, u64::from(bill.value));
    text.push_str("\n");
}

/// Appends the line of a voucher. At most 67 bytes.
fn push_voucher(text: &mut Text, voucher: &VoucherRecord)
    requires { array_string_len text.old + 67 ≤ TEXT_LEN }
    ensures bytes { text.new.bytes ≡ text.old.bytes ++ voucher_line voucher.now }
    ensures room { array_string_len text.new ≤ array_string_len text.old + 67 }
{
    push_number(text, voucher.place);
    text.push_str(if voucher.kind == 1 { " in " } else { " out " });
    push_number(text, voucher.id);
    text.push_str(" ");
    push_number(text, u64::from(voucher.value));
    text.push_str("\n");
}

/// Appends the lines of the significant events, the newest first. At most 57 bytes for each.
pub(crate) fn push_events(text: &mut Text, recall: &Recall)
    requires { array_string_len text.old + 57 * EVENTS_KEPT ≤ TEXT_LEN }
    ensures bytes { text.new.bytes ≡ text.old.bytes ++ flat_map event_line recall.now.lists.events }
    ensures room { array_string_len text.new ≤ array_string_len text.old + 57 * EVENTS_KEPT }
{
    for i in 0..recall.event_count() {
        let Some(event) = recall.event(i as u16) else {
            unreachable!();
        };
        push_event(text, &event);
    }
}

/// Appends the lines of the bills, the newest first. At most 42 bytes for each.
pub(crate) fn push_bills(text: &mut Text, recall: &Recall)
    requires { array_string_len text.old + 42 * BILLS_KEPT ≤ TEXT_LEN }
    ensures bytes { text.new.bytes ≡ text.old.bytes ++ flat_map bill_line recall.now.lists.bills }
    ensures room { array_string_len text.new ≤ array_string_len text.old + 42 * BILLS_KEPT }
{
    for i in 0..recall.bill_count() {
        let Some(bill) = recall.bill(i as u8) else {
            unreachable!();
        };
        push_bill(text, &bill);
    }
}

/// Appends the lines of the vouchers, the newest first. At most 67 bytes for each.
pub(crate) fn push_vouchers(text: &mut Text, recall: &Recall)
    requires { array_string_len text.old + 67 * VOUCHERS_KEPT ≤ TEXT_LEN }
    ensures bytes { text.new.bytes ≡ text.old.bytes ++ flat_map voucher_line recall.now.lists.vouchers }
    ensures room { array_string_len text.new ≤ array_string_len text.old + 67 * VOUCHERS_KEPT }
{
    for i in 0..recall.voucher_count() {
        let Some(voucher) = recall.voucher(i as u8) else {
            unreachable!();
        };
        push_voucher(text, &voucher);
    }
}
