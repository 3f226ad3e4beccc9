//! The four lists of recall.

ghost use Rattle.std.specs.Prelude.{◌≡◌, ◌≤◌, ◌+◌, ◌∷◌, ◌==◌, ◌&&◌, min, take, length, slice_get, Some, is_some, unwrap_or, IfOk, IsTrue};
ghost use Rattle.std.specs.List.{list_all, list_any};
ghost use Rattle.gd_base.specs.Judging.Product.{same_numbers};
ghost use Rattle.gd_base.specs.Payloads.Lists.{no_lists};
ghost use Rattle.gd_base.specs.Payloads.ListsIn.{lists_in, lists_read, numbers_of, outside, stand_in, StandIn};
ghost use Rattle.gd_base.specs.Payloads.Reading.{two_at};
ghost use Rattle.gd_base.specs.Payloads.Recorded.{are_recorded};

use crate::numbers::{put_two_bytes, two_bytes_at};
use crate::rows::{are_listed, read_row, write_row};
use circular_buffer::HeapCircularBuffer;
use gd_base::{
    BILLS_AT, BILLS_KEPT, BILLS_LEN, BillRecord, EVENTS_AT, EVENTS_KEPT, EVENTS_LEN, EventRecord,
    LISTS_AT, LISTS_LEN, PAYLOAD_LEN, PLAYS_AT, PLAYS_KEPT, PLAYS_LEN, PlayRecord, VOUCHERS_AT,
    VOUCHERS_KEPT, VoucherRecord,
};
use std::alloc::{AllocError, Global};
use std::marker::Model;

/// Whether two rows of bytes are the same.
fn are_same(bytes: &[u8], others: &[u8]) -> bool
    ensures { result ≡ same_numbers bytes.now others.now }
{
    bytes == others
}

/// Whether all tests hold.
fn all_of(tests: &[bool]) -> bool
    ensures { result ≡ list_all (λ b. b) tests.now }
{
    tests.iter().all(|test| *test)
}

/// The number of records that stands at a place, or that of those that are kept where it is more.
fn count_at(numbers: &[u8], place: usize, kept: usize) -> usize
    requires { place + 2 ≤ length numbers.now }
    ensures { result ≡ min (two_at place numbers.now) kept }
{
    usize::from(two_bytes_at(numbers, place)).min(kept)
}

/// The last finished plays, significant events, bills and vouchers, as many of each as are kept. Contracts see four
/// lists of records, the newest first. docs/FORMATS.md has the records.
#[derive(Drop)]
pub struct Recall {
    plays: HeapCircularBuffer<PlayRecord>,
    events: HeapCircularBuffer<EventRecord>,
    bills: HeapCircularBuffer<BillRecord>,
    vouchers: HeapCircularBuffer<VoucherRecord>,
}

impl Model for Recall {
    ghost use Rattle.std.specs.Prelude.{◌≡◌};
    ghost use Rattle.gd_base.specs.declared.records.TheConstants.{PLAYS_KEPT, EVENTS_KEPT, BILLS_KEPT, VOUCHERS_KEPT};
    ghost use Rattle.gd_recall.specs.Recalled.{Recalled};

    ghost Value = { Recalled };

    ghost view = { λ r. record {
      lists = record {
        plays = r.plays.items;
        events = r.events.items;
        bills = r.bills.items;
        vouchers = r.vouchers.items;
      };
    } };

    ghost invariant = { λ r. (r.plays.capacity ≡ PLAYS_KEPT) × (r.events.capacity ≡ EVENTS_KEPT)
        × (r.bills.capacity ≡ BILLS_KEPT) × (r.vouchers.capacity ≡ VOUCHERS_KEPT) };
}

impl Recall {
    /// Four empty lists, or that there is no memory for them.
    pub fn new(alloc: Global) -> Result<Self, AllocError>
        ensures lists { IfOk result (λ r. r.lists ≡ no_lists) }
    {
        let plays = HeapCircularBuffer::with_capacity(alloc, PLAYS_KEPT)?;
        let events = HeapCircularBuffer::with_capacity(alloc, EVENTS_KEPT)?;
        let bills = HeapCircularBuffer::with_capacity(alloc, BILLS_KEPT)?;
        let vouchers = HeapCircularBuffer::with_capacity(alloc, VOUCHERS_KEPT)?;
        Ok(Recall {
            plays,
            events,
            bills,
            vouchers,
        })
    }

    /// Empties the lists.
    pub fn clear(&mut self)
        ensures lists { self.new.lists ≡ no_lists }
    {
        self.plays.clear();
        self.events.clear();
        self.bills.clear();
        self.vouchers.clear();
    }

    /// Notes a play that has ended. The oldest goes where there are more than are kept.
    pub fn note_play(&mut self, p: &PlayRecord)
        ensures lists { self.new.lists
            ≡ record self.old.lists { plays = take PLAYS_KEPT (p.now ∷ self.old.lists.plays) } }
    {
        self.plays.push_front(*p);
    }

    /// Notes a significant event. The oldest goes where there are more than are kept.
    pub fn note_event(&mut self, e: &EventRecord)
        ensures lists { self.new.lists
            ≡ record self.old.lists { events = take EVENTS_KEPT (e.now ∷ self.old.lists.events) } }
    {
        self.events.push_front(*e);
    }

    /// Notes a bill that was taken. The oldest goes where there are more than are kept.
    pub fn note_bill(&mut self, b: &BillRecord)
        ensures lists { self.new.lists
            ≡ record self.old.lists { bills = take BILLS_KEPT (b.now ∷ self.old.lists.bills) } }
    {
        self.bills.push_front(*b);
    }

    /// Notes a voucher that was taken in or printed. The oldest goes where there are more than are kept.
    pub fn note_voucher(&mut self, v: &VoucherRecord)
        ensures lists { self.new.lists
            ≡ record self.old.lists { vouchers = take VOUCHERS_KEPT (v.now ∷ self.old.lists.vouchers) } }
    {
        self.vouchers.push_front(*v);
    }

    /// Whether a voucher of this id is among those that are kept as taken in, whose kind is 1.
    pub fn seen(&self, id: u64) -> bool
        ensures seen { result ≡ list_any (λ r. (r.kind == 1) && (r.id == id)) self.now.lists.vouchers }
    {
        self.vouchers.iter().any(|r| r.kind == 1 && r.id == id)
    }

    /// The finished play at a place, the newest at 0, or none behind the last.
    pub fn play(&self, i: u8) -> Option<PlayRecord>
        ensures play { result ≡ slice_get self.now.lists.plays i }
    {
        self.plays.get(usize::from(i)).copied()
    }

    /// The significant event at a place, the newest at 0, or none behind the last.
    pub fn event(&self, i: u16) -> Option<EventRecord>
        ensures event { result ≡ slice_get self.now.lists.events i }
    {
        self.events.get(usize::from(i)).copied()
    }

    /// The bill at a place, the newest at 0, or none behind the last.
    pub fn bill(&self, i: u8) -> Option<BillRecord>
        ensures bill { result ≡ slice_get self.now.lists.bills i }
    {
        self.bills.get(usize::from(i)).copied()
    }

    /// The voucher at a place, the newest at 0, or none behind the last.
    pub fn voucher(&self, i: u8) -> Option<VoucherRecord>
        ensures voucher { result ≡ slice_get self.now.lists.vouchers i }
    {
        self.vouchers.get(usize::from(i)).copied()
    }

    /// How many finished plays there are.
    pub fn play_count(&self) -> usize
        ensures count { result ≡ length self.now.lists.plays }
        ensures most { result ≤ PLAYS_KEPT }
    {
        self.plays.len()
    }

    /// How many significant events there are.
    pub fn event_count(&self) -> usize
        ensures count { result ≡ length self.now.lists.events }
        ensures most { result ≤ EVENTS_KEPT }
    {
        self.events.len()
    }

    /// How many bills there are.
    pub fn bill_count(&self) -> usize
        ensures count { result ≡ length self.now.lists.bills }
        ensures most { result ≤ BILLS_KEPT }
    {
        self.bills.len()
    }

    /// How many vouchers there are.
    pub fn voucher_count(&self) -> usize
        ensures count { result ≡ length self.now.lists.vouchers }
        ensures most { result ≤ VOUCHERS_KEPT }
    {
        self.vouchers.len()
    }

    /// What the room of the lists makes true.
    fn is_within(&self)
        ensures plays { length self.now.lists.plays ≤ PLAYS_KEPT }
        ensures events { length self.now.lists.events ≤ EVENTS_KEPT }
        ensures bills { length self.now.lists.bills ≤ BILLS_KEPT }
        ensures vouchers { length self.now.lists.vouchers ≤ VOUCHERS_KEPT }
    {
        let _plays = self.play_count();
        let _events = self.event_count();
        let _bills = self.bill_count();
        let _vouchers = self.voucher_count();
    }

    /// How many records each list has, and zeros.
    fn numbers_image(&self) -> [u8; LISTS_LEN]
        ensures { result ≡ numbers_of self.now.lists }
    {
        let mut image = [0; LISTS_LEN];
        put_two_bytes(&mut image, 0, self.play_count() as u16);
        put_two_bytes(&mut image, 2, self.event_count() as u16);
        put_two_bytes(&mut image, 4, self.bill_count() as u16);
        put_two_bytes(&mut image, 6, self.voucher_count() as u16);
        image
    }

    /// Whether the lists are such as a payload can have: each record keeps its rules, but for those on a bet and on an
    /// event's detail, and places fall from the newest on and are at least 1.
    pub fn are_recorded(&self) -> bool
        ensures { result ≡ are_recorded self.now.lists }
    {
        are_listed(&self.plays)
            && are_listed(&self.events)
            && are_listed(&self.bills)
            && are_listed(&self.vouchers)
    }

    /// Writes the lists' bytes into their places.
    fn write(&self, payload: &mut [u8])
        requires size { length payload.old ≡ PAYLOAD_LEN }
        requires listed { IsTrue (are_recorded self.now.lists) }
        ensures stand { StandIn payload.new self.now.lists }
        ensures others { outside payload.new ≡ outside payload.old }
        ensures size { length payload.new ≡ PAYLOAD_LEN }
    {
        self.is_within();
        let (head, rows) = payload.split_at_mut(PLAYS_AT);
        head[LISTS_AT..LISTS_AT + LISTS_LEN].copy_from_slice(&self.numbers_image());
        let (plays, rows) = rows.split_at_mut(PLAYS_LEN);
        let (events, rows) = rows.split_at_mut(EVENTS_LEN);
        let (bills, vouchers) = rows.split_at_mut(BILLS_LEN);
        write_row(&self.plays, plays);
        write_row(&self.events, events);
        write_row(&self.bills, bills);
        write_row(&self.vouchers, vouchers);
    }

    /// Reads the records that stand in the places of the lists, whatever they are.
    fn read(&mut self, payload: &[u8])
        requires { length payload.now ≡ PAYLOAD_LEN }
        ensures { self.new.lists ≡ lists_read payload.now }
    {
        let numbers = &payload[LISTS_AT..LISTS_AT + LISTS_LEN];
        let plays = count_at(numbers, 0, PLAYS_KEPT);
        let events = count_at(numbers, 2, EVENTS_KEPT);
        let bills = count_at(numbers, 4, BILLS_KEPT);
        let vouchers = count_at(numbers, 6, VOUCHERS_KEPT);
        read_row(&mut self.plays, plays, &payload[PLAYS_AT..EVENTS_AT]);
        read_row(&mut self.events, events, &payload[EVENTS_AT..BILLS_AT]);
        read_row(&mut self.bills, bills, &payload[BILLS_AT..VOUCHERS_AT]);
        read_row(
            &mut self.vouchers,
            vouchers,
            &payload[VOUCHERS_AT..PAYLOAD_LEN],
        );
    }

    /// Whether the lists' bytes are those that stand in their places.
    fn stand_in(&self, payload: &[u8]) -> bool
        requires size { length payload.now ≡ PAYLOAD_LEN }
        requires listed { IsTrue (are_recorded self.now.lists) }
        ensures { result ≡ stand_in payload.now self.now.lists }
    {
        let mut written = [0; PAYLOAD_LEN];
        self.write(&mut written);
        all_of(&[
            are_same(
                &payload[LISTS_AT..LISTS_AT + LISTS_LEN],
                &written[LISTS_AT..LISTS_AT + LISTS_LEN],
            ),
            are_same(&payload[PLAYS_AT..EVENTS_AT], &written[PLAYS_AT..EVENTS_AT]),
            are_same(&payload[EVENTS_AT..BILLS_AT], &written[EVENTS_AT..BILLS_AT]),
            are_same(
                &payload[BILLS_AT..VOUCHERS_AT],
                &written[BILLS_AT..VOUCHERS_AT],
            ),
            are_same(
                &payload[VOUCHERS_AT..PAYLOAD_LEN],
                &written[VOUCHERS_AT..PAYLOAD_LEN],
            ),
        ])
    }

    /// Whether the lists are such as a payload can have, and their bytes are those that stand in their places.
    fn is_listed_in(&self, payload: &[u8]) -> bool
        requires { length payload.now ≡ PAYLOAD_LEN }
        ensures { result ≡ (are_recorded self.now.lists && stand_in payload.now self.now.lists) }
    {
        self.are_recorded() && self.stand_in(payload)
    }

    /// Takes the lists that a payload has, and answers whether it has any: the rules on the records of lists and on
    /// their places are kept, but for those on a bet, on an event's detail, on the count of entries and on an open play.
    /// Where it has none the lists are empty. Nothing but the places of the lists is looked at.
    pub fn load(&mut self, payload: &[u8]) -> bool
        requires size { length payload.now ≡ PAYLOAD_LEN }
        ensures answer { result ≡ is_some (lists_in payload.now) }
        ensures lists { self.new.lists ≡ unwrap_or (lists_in payload.now) no_lists }
    {
        self.read(payload);
        if self.is_listed_in(payload) {
            return true;
        }
        self.clear();
        false
    }

    /// Writes the lists into their places of a payload, and nothing else of it. They are such as a payload can have.
    pub fn write_image(&self, payload: &mut [u8])
        requires size { length payload.old ≡ PAYLOAD_LEN }
        requires listed { IsTrue (are_recorded self.now.lists) }
        ensures lists { lists_in payload.new ≡ Some self.now.lists }
        ensures others { outside payload.new ≡ outside payload.old }
        ensures size { length payload.new ≡ PAYLOAD_LEN }
    {
        self.is_within();
        self.write(payload);
    }
}
