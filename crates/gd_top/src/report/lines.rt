//! The lines of a report, and their giving to the sink. docs/FORMATS.md has each; `specs/Report/Lines` has them as bytes.

ghost use Rattle.std.specs.Prelude.{◌≡◌, ◌≤◌, ◌<◌, ◌+◌, ◌++◌, ◌∷◌, [], if◌then◌else◌, length, codes, decimal, OnErr};
ghost use Rattle.arrayvec.specs.ArrayString.{array_string_len};
ghost use Rattle.gd_store.specs.Repair.{repair_needed};
ghost use Rattle.gd_base.specs.Outside.Causes.{Rose};
ghost use Rattle.gd_top.specs.Code.Parts.{GivesText};
ghost use Rattle.gd_top.specs.Report.Lines.{altered_line, answer_line, copy_text, differs_line, full_line, hex, hex_digit, locked_line, none_line, power_line, repair_text, side_name, start_line, step_line, totals_line};

use crate::halt::Halt;
use gd_base::{Device, Reply, Sink, TEXT_LEN, Text, push_count_line, push_number, push_reply};
use gd_disk::Side;
use gd_store::{CopyState, Found, Why};

/// Gives the text to the sink, or it is a write fault.
pub(crate) fn give_text<K: Sink>(output: &mut K, text: &Text) -> Result<(), Halt>
    ensures given { GivesText result (K.taken output.old) (K.taken output.new) text.now.bytes }
    ensures later { K.faults output.old ≤ K.faults output.new }
    ensures cause { OnErr result (Rose (K.faults output.old) (K.faults output.new)) }
{
    match output.give(text.as_str().as_bytes()) {
        Ok(()) => Ok(()),
        Err(_) => Err(Halt::WriteFault),
    }
}

/// Appends the line of power-on `k`, counted from 1, with the states of the two copies. At most 87 bytes.
pub(crate) fn push_power_line(text: &mut Text, k: u64, found: &Found)
    requires { array_string_len text.old + 87 ≤ TEXT_LEN }
    ensures bytes { text.new.bytes ≡ text.old.bytes ++ power_line k found.now }
    ensures room { array_string_len text.new ≤ array_string_len text.old + 87 }
{
    text.push_str("power ");
    push_number(text, k);
    text.push_str(": a ");
    push_copy_state(text, found.a);
    text.push_str(", b ");
    push_copy_state(text, found.b);
    text.push_str("\n");
}

/// Appends what a copy is found to be. At most 26 bytes.
pub(crate) fn push_copy_state(text: &mut Text, state: CopyState)
    requires { array_string_len text.old + 26 ≤ TEXT_LEN }
    ensures bytes { text.new.bytes ≡ text.old.bytes ++ copy_text state }
    ensures room { array_string_len text.new ≤ array_string_len text.old + 26 }
{
    match state {
        CopyState::Sound(sequence) => {
            text.push_str("sound ");
            push_number(text, sequence);
        }
        CopyState::Bad(Why::Shut) => text.push_str("shut"),
        CopyState::Bad(Why::BadHeader) => text.push_str("header"),
        CopyState::Bad(Why::BadRoot) => text.push_str("root"),
        CopyState::Bad(Why::BadPage(page)) => {
            text.push_str("page ");
            push_number(text, u64::from(page));
        }
    }
}

/// Appends the line of a start that was taken, `n` entries being recorded after it, with the copy that was written anew
/// where one was. At most 41 bytes.
pub(crate) fn push_start_line(text: &mut Text, n: u64, found: &Found)
    requires { array_string_len text.old + 41 ≤ TEXT_LEN }
    ensures bytes { text.new.bytes ≡ text.old.bytes ++ start_line n (repair_needed found.now) }
    ensures room { array_string_len text.new ≤ array_string_len text.old + 41 }
{
    text.push_str("start at ");
    push_number(text, n);
    push_repair(text, found);
    text.push_str("\n");
}

/// Appends which copy is written anew where the two are found like this, or nothing. At most 11 bytes.
fn push_repair(text: &mut Text, found: &Found)
    requires { array_string_len text.old + 11 ≤ TEXT_LEN }
    ensures bytes { text.new.bytes ≡ text.old.bytes ++ repair_text (repair_needed found.now) }
    ensures room { array_string_len text.new ≤ array_string_len text.old + 11 }
{
    match (found.a, found.b) {
        (CopyState::Sound(a), CopyState::Sound(b)) if a == b => {}
        (CopyState::Sound(a), CopyState::Sound(b)) if a < b => text.push_str(" repaired a"),
        (CopyState::Bad(_), CopyState::Sound(_)) => text.push_str(" repaired a"),
        (CopyState::Sound(_), _) => text.push_str(" repaired b"),
        (CopyState::Bad(_), CopyState::Bad(_)) => {}
    }
}

/// Appends the answer to the event `number` of a device, new or again, `n` entries being recorded. At most 102 bytes.
pub(crate) fn push_answer_line(
    text: &mut Text,
    is_again: bool,
    device: Device,
    number: u64,
    reply: Reply,
    n: u64,
)
    requires { array_string_len text.old + 102 ≤ TEXT_LEN }
    ensures bytes { text.new.bytes
        ≡ text.old.bytes ++ answer_line
        (if is_again then codes "again" else codes "ack") device number reply n }
    ensures room { array_string_len text.new ≤ array_string_len text.old + 102 }
{
    text.push_str(if is_again { "again" } else { "ack" });
    text.push_str(" ");
    text.push_str(device.name());
    text.push_str(" ");
    push_number(text, number);
    text.push_str(" ");
    push_reply(text, reply);
    text.push_str(" at ");
    push_number(text, n);
    text.push_str("\n");
}

/// Appends the line of an event that is out of step, with the number that was expected of its device. At most 45 bytes.
pub(crate) fn push_step_line(text: &mut Text, device: Device, expected: u64)
    requires { array_string_len text.old + 45 ≤ TEXT_LEN }
    ensures bytes { text.new.bytes ≡ text.old.bytes ++ step_line device expected }
    ensures room { array_string_len text.new ≤ array_string_len text.old + 45 }
{
    text.push_str("step ");
    text.push_str(device.name());
    text.push_str(" expected ");
    push_number(text, expected);
    text.push_str("\n");
}

/// Appends the line of an event that comes to a full history. At most 15 bytes.
pub(crate) fn push_full_line(text: &mut Text, device: Device)
    requires { array_string_len text.old + 15 ≤ TEXT_LEN }
    ensures bytes { text.new.bytes ≡ text.old.bytes ++ full_line device }
    ensures room { array_string_len text.new ≤ array_string_len text.old + 15 }
{
    text.push_str("full ");
    text.push_str(device.name());
    text.push_str("\n");
}

/// Appends the line of a device that has told no event yet. At most 15 bytes.
pub(crate) fn push_none_line(text: &mut Text, device: Device)
    requires { array_string_len text.old + 15 ≤ TEXT_LEN }
    ensures bytes { text.new.bytes ≡ text.old.bytes ++ none_line device }
    ensures room { array_string_len text.new ≤ array_string_len text.old + 15 }
{
    text.push_str("none ");
    text.push_str(device.name());
    text.push_str("\n");
}

/// Appends that the memory is locked. 7 bytes.
pub(crate) fn push_locked_line(text: &mut Text)
    requires { array_string_len text.old + 7 ≤ TEXT_LEN }
    ensures bytes { text.new.bytes ≡ text.old.bytes ++ locked_line }
    ensures room { array_string_len text.new ≤ array_string_len text.old + 7 }
{
    text.push_str("locked\n");
}

/// Appends that the memory was made under the setup of the digest `kept`, in place of the given one. 149 bytes.
pub(crate) fn push_differs_line(text: &mut Text, kept: &[u8; 32], given: &[u8; 32])
    requires { array_string_len text.old + 149 ≤ TEXT_LEN }
    ensures bytes { text.new.bytes ≡ text.old.bytes ++ differs_line kept.now given.now }
    ensures room { array_string_len text.new ≤ array_string_len text.old + 149 }
{
    text.push_str("differs kept ");
    push_digest(text, kept);
    text.push_str(" given ");
    push_digest(text, given);
    text.push_str("\n");
}

/// Appends a digest in hexadecimal: 64 bytes.
fn push_digest(text: &mut Text, digest: &[u8; 32])
    requires { array_string_len text.old + 64 ≤ TEXT_LEN }
    ensures bytes { text.new.bytes ≡ text.old.bytes ++ hex digest.now }
    ensures room { array_string_len text.new ≤ array_string_len text.old + 64 }
{
    for place in 0..32 {
        let byte = digest[place];
        push_hex_digit(text, byte / 16);
        push_hex_digit(text, byte % 16);
    }
}

/// Appends a digit in hexadecimal: one byte.
fn push_hex_digit(text: &mut Text, digit: u8)
    requires digit { digit < 16 }
    requires room { array_string_len text.old + 1 ≤ TEXT_LEN }
    ensures bytes { text.new.bytes ≡ text.old.bytes ++ hex_digit digit ∷ [] }
    ensures room { array_string_len text.new ≤ array_string_len text.old + 1 }
{
    let code = if digit < 10 {
        b'0' + digit
    } else {
        b'a' - 10 + digit
    };
    text.push(code as char);
}

/// Appends the line of a byte that was altered, at this place in a copy. At most 31 bytes.
pub(crate) fn push_altered_line(text: &mut Text, side: Side, at: u64)
    requires { array_string_len text.old + 31 ≤ TEXT_LEN }
    ensures bytes { text.new.bytes ≡ text.old.bytes ++ altered_line side at }
    ensures room { array_string_len text.new ≤ array_string_len text.old + 31 }
{
    text.push_str("altered ");
    text.push_str(side_name(side));
    text.push_str(" ");
    push_number(text, at);
    text.push_str("\n");
}

/// The word of a copy.
fn side_name(side: Side) -> &'static str
    ensures name { result.now ≡ side_name side }
    ensures length { length result.now ≡ 1 }
{
    match side {
        Side::A => "a",
        Side::B => "b",
    }
}

/// Appends the last line of a run that ends with the power on: the entries recorded, and the balance in cents. At most 56
/// bytes.
pub(crate) fn push_end_line(text: &mut Text, n: u64, credit: u64)
    requires { array_string_len text.old + 56 ≤ TEXT_LEN }
    ensures bytes { text.new.bytes
        ≡ text.old.bytes ++
        (codes "end at " ++ decimal n ++ codes " credit " ++ decimal credit ++ codes "\n") }
    ensures room { array_string_len text.new ≤ array_string_len text.old + 56 }
{
    text.push_str("end at ");
    push_number(text, n);
    text.push_str(" credit ");
    push_number(text, credit);
    text.push_str("\n");
}

/// Appends the last line of a run that a line of its script ended, `n` being that line's place, counted from 1. At most 26
/// bytes.
pub(crate) fn push_fault_line(text: &mut Text, n: u64)
    requires { array_string_len text.old + 26 ≤ TEXT_LEN }
    ensures bytes { text.new.bytes ≡ text.old.bytes ++ (codes "line " ++ decimal n ++ codes "\n") }
    ensures room { array_string_len text.new ≤ array_string_len text.old + 26 }
{
    push_count_line(text, "line ", n);
}

/// Appends the first line of the summary of a soak of so many items: the entries recorded, the power-ons, and the balance in cents. At most 110
/// bytes.
pub(crate) fn push_totals_line(text: &mut Text, items: u64, n: u64, power_ons: u64, credit: u64)
    requires { array_string_len text.old + 110 ≤ TEXT_LEN }
    ensures bytes { text.new.bytes
        ≡ text.old.bytes ++ totals_line items n power_ons credit }
    ensures room { array_string_len text.new ≤ array_string_len text.old + 110 }
{
    text.push_str("soak ");
    push_number(text, items);
    text.push_str(" entries ");
    push_number(text, n);
    text.push_str(" power ");
    push_number(text, power_ons);
    text.push_str(" credit ");
    push_number(text, credit);
    text.push_str("\n");
}
