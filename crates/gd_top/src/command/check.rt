//! What the two copies of an image are.

ghost use Rattle.std.specs.Prelude.{◌≡◌, ◌≤◌, ◌+◌, ◌++◌};
ghost use Rattle.arrayvec.specs.ArrayString.{array_string_len};
ghost use Rattle.gd_disk.specs.declared.lengths.TheConstants.{DISK_LEN};
ghost use Rattle.gd_top.specs.Claims.Images.{copies_text, CheckDid, TellCauses, Tells};

use crate::report::lines::{push_copy_state, push_locked_line};
use crate::report::telling::tell;
use crate::status::Status;
use gd_base::{Sink, TEXT_LEN, Text};
use gd_disk::Disk;
use gd_store::{Booted, Found, Room, boot};

/// Reads both copies, and tells what they are. No payload is loaded. Of its own it answers Done, Locked where nothing can be
/// booted, or DiskFault.
pub(crate) fn check<K: Sink, D: Disk>(mut room: Room, disk: &mut D, output: &mut K) -> Status
    requires size { (D.state disk.old).size ≡ DISK_LEN }
    ensures told { Tells (CheckDid (D.state disk.old) (D.state disk.new)) result (K.taken output.old) (K.taken output.new) }
    ensures causes { TellCauses result (K.faults output.old) (K.faults output.new) (D.state disk.old) (D.state disk.new) }
{
    let mut text = Text::new();
    let status = read_states(&mut room, disk, &mut text);
    tell(status, output, &text)
}

/// Reads both copies, and writes what they are over what stands in `text`.
fn read_states<D: Disk>(room: &mut Room, disk: &mut D, text: &mut Text) -> Status
    requires size { (D.state disk.old).size ≡ DISK_LEN }
    ensures { CheckDid (D.state disk.old) (D.state disk.new) result text.new.bytes }
{
    text.clear();
    match boot(disk, room) {
        Booted::Ready { found, .. } => {
            push_copies(text, &found);
            Status::Done
        }
        Booted::Lost(found) => {
            push_copies(text, &found);
            push_locked_line(text);
            Status::Locked
        }
        Booted::Off => {
            text.push_str("disk fault\n");
            Status::DiskFault
        }
    }
}

/// Appends a line for each copy. At most 58 bytes.
fn push_copies(text: &mut Text, found: &Found)
    requires { array_string_len text.old + 58 ≤ TEXT_LEN }
    ensures bytes { text.new.bytes ≡ text.old.bytes ++ copies_text found.now }
    ensures room { array_string_len text.new ≤ array_string_len text.old + 58 }
{
    text.push_str("a ");
    push_copy_state(text, found.a);
    text.push_str("\nb ");
    push_copy_state(text, found.b);
    text.push_str("\n");
}
