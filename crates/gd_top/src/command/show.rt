//! A text of the machine that an image keeps.

ghost use Rattle.std.specs.Prelude.{◌≡◌};
ghost use Rattle.gd_disk.specs.declared.lengths.TheConstants.{DISK_LEN};
ghost use Rattle.gd_image.specs.Words.{platform_setup};
ghost use Rattle.gd_machine.specs.Meaning.{the_machine};
ghost use Rattle.gd_top.specs.Claims.Images.{ShowDid, TellCauses, Tells};

use crate::report::lines::{push_differs_line, push_locked_line};
use crate::report::telling::tell;
use crate::status::Status;
use gd_base::{Core, Loaded, Sink, Text, What};
use gd_cabinet::load_at;
use gd_disk::Disk;
use gd_image::Platform;
use gd_store::{Booted, Room, boot};

/// Reads the image, and tells the text of the view that it shows. Of its own it answers Done, Locked where the image shows no
/// view, SetupDiffers or DiskFault.
pub(crate) fn show<K: Sink, D: Disk>(
    core: Platform,
    mut room: Room,
    disk: &mut D,
    what: What,
    output: &mut K,
) -> Status
    requires size { (D.state disk.old).size ≡ DISK_LEN }
    ensures told { Tells (ShowDid (the_machine (platform_setup core)) what (D.state disk.old) (D.state disk.new)) result
        (K.taken output.old) (K.taken output.new) }
    ensures causes { TellCauses result (K.faults output.old) (K.faults output.new) (D.state disk.old) (D.state disk.new) }
{
    let mut text = Text::new();
    let status = read_text(core, &mut room, disk, what, &mut text);
    tell(status, output, &text)
}

/// Reads the image, and writes the text of the view that it shows over what stands in `text`.
fn read_text<D: Disk>(
    mut core: Platform,
    room: &mut Room,
    disk: &mut D,
    what: What,
    text: &mut Text,
) -> Status
    requires size { (D.state disk.old).size ≡ DISK_LEN }
    ensures { ShowDid (the_machine (platform_setup core)) what (D.state disk.old) (D.state disk.new) result text.new.bytes }
{
    text.clear();
    match boot(disk, room) {
        Booted::Off => {
            text.push_str("disk fault\n");
            Status::DiskFault
        }
        Booted::Lost(_) => {
            push_locked_line(text);
            Status::Locked
        }
        Booted::Ready { sequence, .. } => match load_at(&mut core, room.payload(), sequence) {
            Loaded::Read => {
                core.show(what, text);
                Status::Done
            }
            Loaded::Unreadable => {
                push_locked_line(text);
                Status::Locked
            }
            Loaded::Differs { kept } => {
                push_differs_line(text, &kept, core.digest());
                Status::SetupDiffers
            }
        },
    }
}
