//! What is kept of each device, in bytes: its last number, and the reply to it.

ghost use Rattle.std.specs.Prelude.{◌≡◌, ◌≤◌, ◌+◌, ◌*◌, ◌∷◌, [], length, flat_map};
ghost use Rattle.gd_base.specs.Payloads.Bytes.{kept_bytes, reply_kind, reply_refusal, reply_condition};
ghost use Rattle.gd_base.specs.Payloads.Reading.{condition_of, refusal_of, reply_of, kept_read, kept_reads};
ghost use Rattle.gd_recall.specs.Pieces.{put_at};

use crate::numbers::{number_at, put_bytes};
use gd_base::{Condition, KEPT_LEN, Refusal, Reply};

// ---- written

/// Kind, refusal and condition of a reply, in numbers.
fn reply_numbers(reply: Option<Reply>) -> [u8; 3]
    ensures { result ≡ reply_kind reply ∷ reply_refusal reply ∷ reply_condition reply ∷ [] }
{
    match reply {
        None => [0, 0, 0],
        Some(Reply::Taken) => [1, 0, 0],
        Some(Reply::Refused(refusal)) => [2, refusal.number(), refusal.condition_number()],
    }
}

/// The bytes of a last number and the reply to it.
fn kept_image(last: u64, reply: Option<Reply>) -> [u8; KEPT_LEN]
    ensures { result ≡ kept_bytes (last, reply) }
{
    let [n0, n1, n2, n3, n4, n5, n6, n7] = last.to_be_bytes();
    let [kind, refusal, condition] = reply_numbers(reply);
    [n0, n1, n2, n3, n4, n5, n6, n7, kind, refusal, condition, 0]
}

/// Puts what is kept of devices in a row from a place on.
pub(crate) fn put_kept(into: &mut [u8], place: usize, kept: &[(u64, Option<Reply>)])
    requires { place + KEPT_LEN * length kept.now ≤ length into.old }
    ensures { into.new ≡ put_at place (flat_map kept_bytes kept.now) into.old }
{
    for i in 0..kept.len() {
        put_bytes(
            into,
            place + KEPT_LEN * i,
            &kept_image(kept[i].0, kept[i].1),
        );
    }
}

// ---- read

/// The condition of a number. One that no condition has is read as a handpay.
fn condition_of_number(n: u8) -> Condition
    ensures { result ≡ condition_of n }
{
    match n {
        1 => Condition::LogicDoor,
        2 => Condition::MainDoor,
        3 => Condition::CashboxDoor,
        4 => Condition::DropDoor,
        5 => Condition::BillJam,
        6 => Condition::CoinJam,
        7 => Condition::StackerFull,
        8 => Condition::PaperOut,
        9 => Condition::PrintFail,
        10 => Condition::HopperEmpty,
        _ => Condition::Handpay,
    }
}

/// The refusal of a number, where it has a condition with that of another. One that no refusal has is read as the last.
fn refusal_of_numbers(n: u8, condition: u8) -> Refusal
    ensures { result ≡ refusal_of n condition }
{
    match n {
        1 => Refusal::LockedUp(condition_of_number(condition)),
        2 => Refusal::CreditLimit,
        3 => Refusal::ValueNotEnabled,
        4 => Refusal::NoGame,
        5 => Refusal::BadWager,
        6 => Refusal::NoCredit,
        7 => Refusal::PlayOpen,
        8 => Refusal::NoPlay,
        9 => Refusal::BadChoice,
        10 => Refusal::OrderOpen,
        11 => Refusal::NothingToPay,
        12 => Refusal::NoSuchOrder,
        13 => Refusal::NoSuchTilt,
        14 => Refusal::NoHandpay,
        15 => Refusal::VoucherSeen,
        _ => Refusal::DoorAlready,
    }
}

/// The reply of a kind, a refusal and a condition, in numbers.
#[tactic(auto, unfolding(gd_base::specs::Payloads::Reading::reply_of))]
fn reply_of_numbers(kind: u8, refusal: u8, condition: u8) -> Option<Reply>
    ensures { result ≡ reply_of kind refusal condition }
{
    match kind {
        0 => None,
        1 => Some(Reply::Taken),
        _ => Some(Reply::Refused(refusal_of_numbers(refusal, condition))),
    }
}

/// What is kept of one device, at a place.
fn kept_at(bytes: &[u8], place: usize) -> (u64, Option<Reply>)
    requires { place + KEPT_LEN ≤ length bytes.now }
    ensures { result ≡ kept_read place bytes.now }
{
    (
        number_at(bytes, place),
        reply_of_numbers(bytes[place + 8], bytes[place + 9], bytes[place + 10]),
    )
}

/// What is kept of the nine devices, in a row from a place on, whatever bytes stand there.
pub(crate) fn all_kept_at(bytes: &[u8], place: usize) -> [(u64, Option<Reply>); 9]
    requires { place + KEPT_LEN * 9 ≤ length bytes.now }
    ensures { result ≡ kept_reads 9 place bytes.now }
{
    [
        kept_at(bytes, place),
        kept_at(bytes, place + KEPT_LEN),
        kept_at(bytes, place + 2 * KEPT_LEN),
        kept_at(bytes, place + 3 * KEPT_LEN),
        kept_at(bytes, place + 4 * KEPT_LEN),
        kept_at(bytes, place + 5 * KEPT_LEN),
        kept_at(bytes, place + 6 * KEPT_LEN),
        kept_at(bytes, place + 7 * KEPT_LEN),
        kept_at(bytes, place + 8 * KEPT_LEN),
    ]
}
