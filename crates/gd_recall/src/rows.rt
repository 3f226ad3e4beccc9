//! The records of a list in a row, newest first.

ghost use Rattle.std.specs.Prelude.{◌≡◌, ◌≤◌, ◌*◌, ◌^◌, IsTrue, length, map};
ghost use Rattle.std.specs.List.{list_all};
ghost use Rattle.circular_buffer.specs.Buffer.{buffer};
ghost use Rattle.gd_base.specs.Payloads.ListsIn.{row_of};
ghost use Rattle.gd_base.specs.Payloads.Reading.{records_in};
ghost use Rattle.gd_base.specs.Payloads.Recorded.{are_listed as are_listed_by};
ghost use Rattle.gd_base.specs.Payloads.ViewRules.{fall_from};

use crate::list_record::ListRecord;
use circular_buffer::HeapCircularBuffer;

/// Writes records one after the other, and zeros behind them.
pub(crate) fn write_row<R: ListRecord>(records: &HeapCircularBuffer<R>, row: &mut [u8])
    requires room { R.LEN * length records.now.items ≤ length row.old }
    requires recorded { IsTrue (list_all R.test records.now.items) }
    ensures { row.new ≡ row_of R.bytes_of (length row.old) records.now.items }
{
    let mut place = 0;
    for record in records.iter() {
        record.write(&mut row[place..place + R::LEN]);
        place += R::LEN;
    }
    row[place..].fill(0);
}

/// Reads so many records, one after the other, in the place of those that were kept.
pub(crate) fn read_row<R: ListRecord>(records: &mut HeapCircularBuffer<R>, count: usize, row: &[u8])
    requires room { count ≤ records.old.capacity }
    requires size { R.LEN * count ≤ length row.now }
    ensures { records.new ≡ buffer (records_in R.record_of R.LEN count row.now) records.old.capacity }
{
    records.clear();
    let mut rest = row;
    for _ in 0..count {
        let (record, more) = rest.split_at(R::LEN);
        records.push_back(R::read(record));
        rest = more;
    }
}

/// Whether places fall from the newest record on, and are at least 1.
fn fall<R: ListRecord>(records: &HeapCircularBuffer<R>) -> bool
    ensures { result ≡ fall_from (2 ^ 64) (map R.place_of records.now.items) }
{
    let mut limit = 1u128 << 64;
    for record in records.iter() {
        let place = u128::from(record.place());
        if place < 1 || place >= limit {
            return false;
        }
        limit = place;
    }
    true
}

/// Whether each record can stand in a payload.
fn are_each_recorded<R: ListRecord>(records: &HeapCircularBuffer<R>) -> bool
    ensures { result ≡ list_all R.test records.now.items }
{
    records.iter().all(|record| record.is_recorded())
}

/// Whether each record can stand in a payload, and their places fall.
pub(crate) fn are_listed<R: ListRecord>(records: &HeapCircularBuffer<R>) -> bool
    ensures { result ≡ are_listed_by R.test R.place_of records.now.items }
{
    are_each_recorded(records) && fall(records)
}
