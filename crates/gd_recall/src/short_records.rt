//! The bytes of significant events, bills and vouchers. docs/FORMATS.md has them.

ghost use Rattle.std.specs.Prelude.{◌≡◌};
ghost use Rattle.gd_base.specs.Payloads.Bytes.{event_bytes, bill_bytes, voucher_bytes};
ghost use Rattle.gd_base.specs.Payloads.Reading.{event_read, bill_read, voucher_read};
ghost use Rattle.gd_base.specs.Payloads.Recorded.{is_recorded_event};
ghost use Rattle.gd_base.specs.Payloads.ViewRules.{is_bill_record, is_voucher};

use crate::list_record::ListRecord;
use crate::numbers::{eight_bytes_at, four_bytes_at, put_eight_bytes, put_four_bytes};
use gd_base::{BILL_LEN, BillRecord, EVENT_LEN, EventRecord, VOUCHER_LEN, VoucherRecord};

/// The bytes of a significant event: its place, its code and its detail.
fn event_image(event: &EventRecord) -> [u8; EVENT_LEN]
    ensures { result ≡ event_bytes event.now }
{
    let mut image = [0; EVENT_LEN];
    put_eight_bytes(&mut image, 0, event.place);
    image[8] = event.code;
    put_eight_bytes(&mut image, 9, event.detail);
    image
}

impl ListRecord for EventRecord {
    ghost use Rattle.gd_base.specs.declared.layout.TheConstants.{EVENT_LEN};

    ghost LEN = { EVENT_LEN };

    ghost bytes_of = { event_bytes };

    ghost record_of = { event_read };

    ghost place_of = { λ e. e.place };

    ghost test = { is_recorded_event };

    const LEN: usize = EVENT_LEN;

    fn write(&self, into: &mut [u8]) {
        into.copy_from_slice(&event_image(self));
    }

    fn read(bytes: &[u8]) -> Self {
        EventRecord {
            place: eight_bytes_at(bytes, 0),
            code: bytes[8],
            detail: eight_bytes_at(bytes, 9),
        }
    }

    fn place(&self) -> u64 {
        self.place
    }

    fn is_recorded(&self) -> bool {
        let _detail = self.detail;
        self.code >= 1 && self.code <= 8
    }
}

/// The bytes of a bill: its place and its value.
fn bill_image(bill: &BillRecord) -> [u8; BILL_LEN]
    ensures { result ≡ bill_bytes bill.now }
{
    let mut image = [0; BILL_LEN];
    put_eight_bytes(&mut image, 0, bill.place);
    put_four_bytes(&mut image, 8, bill.value);
    image
}

impl ListRecord for BillRecord {
    ghost use Rattle.gd_base.specs.declared.layout.TheConstants.{BILL_LEN};

    ghost LEN = { BILL_LEN };

    ghost bytes_of = { bill_bytes };

    ghost record_of = { bill_read };

    ghost place_of = { λ b. b.place };

    ghost test = { is_bill_record };

    const LEN: usize = BILL_LEN;

    fn write(&self, into: &mut [u8]) {
        into.copy_from_slice(&bill_image(self));
    }

    fn read(bytes: &[u8]) -> Self {
        BillRecord {
            place: eight_bytes_at(bytes, 0),
            value: four_bytes_at(bytes, 8),
        }
    }

    fn place(&self) -> u64 {
        self.place
    }

    fn is_recorded(&self) -> bool {
        let _value = self.value;
        true
    }
}

/// The bytes of a voucher: its place, its kind, its id and its value.
fn voucher_image(voucher: &VoucherRecord) -> [u8; VOUCHER_LEN]
    ensures { result ≡ voucher_bytes voucher.now }
{
    let mut image = [0; VOUCHER_LEN];
    put_eight_bytes(&mut image, 0, voucher.place);
    image[8] = voucher.kind;
    put_eight_bytes(&mut image, 9, voucher.id);
    put_four_bytes(&mut image, 17, voucher.value);
    image
}

impl ListRecord for VoucherRecord {
    ghost use Rattle.gd_base.specs.declared.layout.TheConstants.{VOUCHER_LEN};

    ghost LEN = { VOUCHER_LEN };

    ghost bytes_of = { voucher_bytes };

    ghost record_of = { voucher_read };

    ghost place_of = { λ v. v.place };

    ghost test = { is_voucher };

    const LEN: usize = VOUCHER_LEN;

    fn write(&self, into: &mut [u8]) {
        into.copy_from_slice(&voucher_image(self));
    }

    fn read(bytes: &[u8]) -> Self {
        VoucherRecord {
            place: eight_bytes_at(bytes, 0),
            kind: bytes[8],
            id: eight_bytes_at(bytes, 9),
            value: four_bytes_at(bytes, 17),
        }
    }

    fn place(&self) -> u64 {
        self.place
    }

    fn is_recorded(&self) -> bool {
        let _id = self.id;
        let _value = self.value;
        self.kind == 1 || self.kind == 2
    }
}
