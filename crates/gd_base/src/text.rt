//! Texts of a fixed room, and the functions by which they are written. docs/FORMATS.md has each text.

ghost use Rattle.std.specs.Prelude.{◌≡◌, ◌≤◌, ◌<◌, ◌+◌, ◌^◌, ◌++◌, [], ◌∷◌, codes, length, replicate, decimal};
ghost use Rattle.arrayvec.specs.ArrayString.{array_string_len};
ghost use Rattle.gd_base.specs.Histories.Meters.{meters};
ghost use Rattle.gd_base.specs.Texts.Names.{refusal_text, reply_text};
ghost use Rattle.gd_base.specs.Histories.Numbers.{refusal_number};
ghost use Rattle.gd_base.specs.Texts.OfViews.{padded_digits, meter_line, meter_lines};

use crate::meter::{METERS, Meter};
use crate::refusal::{Refusal, Reply};
use arrayvec::ArrayString;
use itoa::Buffer;

/// The room of a text in bytes.
pub const TEXT_LEN: usize = 16384;

/// A text of at most 16,384 bytes, which takes no memory. One is a local of the top call and is lent down, for a copy
/// costs its whole room.
pub type Text = ArrayString<TEXT_LEN>;

/// Appends a number in decimal, without leading zeros: at most 20 bytes.
pub fn push_number(text: &mut Text, n: u64)
    requires { array_string_len text.old + 20 ≤ TEXT_LEN }
    ensures bytes { text.new.bytes ≡ text.old.bytes ++ decimal n }
    ensures room { array_string_len text.new ≤ array_string_len text.old + 20 }
{
    let mut buffer = Buffer::new();
    text.push_str(buffer.format(n));
}

/// Appends a line of a word and a number. `word` has the space behind it. At most 21 bytes and those of the word.
pub fn push_count_line(text: &mut Text, word: &str, n: u64)
    requires { array_string_len text.old + length word.now + 21 ≤ TEXT_LEN }
    ensures bytes { text.new.bytes ≡ text.old.bytes ++ word.now ++ decimal n ++ codes "\n" }
    ensures room { array_string_len text.new ≤ array_string_len text.old + length word.now + 21 }
{
    text.push_str(word);
    push_number(text, n);
    text.push_str("\n");
}

/// Appends a meter's line: its name, and its total modulo 10^10 in ten digits. At most 23 bytes.
pub fn push_meter(text: &mut Text, meter: Meter, total: u64)
    requires { array_string_len text.old + 23 ≤ TEXT_LEN }
    ensures bytes { text.new.bytes ≡ text.old.bytes ++ meter_line meter total }
    ensures room { array_string_len text.new ≤ array_string_len text.old + 23 }
{
    text.push_str(meter.name());
    text.push_str(" ");
    push_ten_digits(text, total % 10_000_000_000);
    text.push_str("\n");
}

/// Appends the lines of the sixteen meters, from their whole totals in the order of the meters. At most 368 bytes.
pub fn push_meters(text: &mut Text, totals: &[u64; 16])
    requires { array_string_len text.old + 368 ≤ TEXT_LEN }
    ensures bytes { text.new.bytes ≡ text.old.bytes ++ meter_lines meters totals.now }
    ensures room { array_string_len text.new ≤ array_string_len text.old + 368 }
{
    for place in 0..16 {
        push_meter(text, METERS[place], totals[place]);
    }
}

/// Appends a reply: `taken`, or `refused` with the refusal's number and text, which of a lock-up names the condition
/// too. At most 40 bytes.
pub fn push_reply(text: &mut Text, reply: Reply)
    requires { array_string_len text.old + 40 ≤ TEXT_LEN }
    ensures bytes { text.new.bytes ≡ text.old.bytes ++ reply_text reply }
    ensures room { array_string_len text.new ≤ array_string_len text.old + 40 }
{
    match reply {
        Reply::Taken => text.push_str("taken"),
        Reply::Refused(why) => {
            text.push_str("refused ");
            push_refusal(text, why);
        }
    }
}

/// Appends a refusal's number and name, and the condition of a lock-up.
fn push_refusal(text: &mut Text, why: Refusal)
    requires { array_string_len text.old + 32 ≤ TEXT_LEN }
    ensures bytes { text.new.bytes ≡ text.old.bytes ++ refusal_text why }
    ensures room { array_string_len text.new ≤ array_string_len text.old + 32 }
{
    push_refusal_number(text, why);
    text.push_str(" ");
    text.push_str(why.name());
    if let Refusal::LockedUp(condition) = why {
        text.push_str(" ");
        text.push_str(condition.name());
    }
}

/// Appends a refusal's number: at most 2 bytes.
fn push_refusal_number(text: &mut Text, why: Refusal)
    requires { array_string_len text.old + 20 ≤ TEXT_LEN }
    ensures bytes { text.new.bytes ≡ text.old.bytes ++ decimal (refusal_number why) }
    ensures room { array_string_len text.new ≤ array_string_len text.old + 2 }
{
    push_number(text, u64::from(why.number()));
}

/// Appends a number below 10^10 in ten digits.
fn push_ten_digits(text: &mut Text, n: u64)
    requires small { n < 10 ^ 10 }
    requires room { array_string_len text.old + 10 ≤ TEXT_LEN }
    ensures bytes { text.new.bytes ≡ text.old.bytes ++ padded_digits 10 (decimal n) }
    ensures room { array_string_len text.new ≡ array_string_len text.old + 10 }
{
    let mut buffer = Buffer::new();
    let digits = buffer.format(n);
    for _ in digits.len()..10 {
        text.push('0');
    }
    text.push_str(digits);
}
