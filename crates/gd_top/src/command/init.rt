//! The making of an image's first memory.

ghost use Rattle.std.specs.Prelude.{◌≡◌};
ghost use Rattle.gd_disk.specs.declared.lengths.TheConstants.{DISK_LEN};
ghost use Rattle.gd_image.specs.Words.{platform_setup, platform_view};
ghost use Rattle.gd_machine.specs.Meaning.{the_machine};
ghost use Rattle.gd_store.specs.Copy.{is_sound};
ghost use Rattle.gd_top.specs.Claims.Images.{has_sound, InitDid, TellCauses, Tells};

use crate::memory::making::fill;
use crate::report::telling::tell;
use crate::status::Status;
use gd_base::{Sink, Text};
use gd_disk::Disk;
use gd_image::Platform;
use gd_store::{Booted, CopyState, Found, Made, Room, Store, boot};

/// Makes an empty memory where no copy is sound, and tells how that went. Of its own it answers Done, AlreadyMade or DiskFault.
pub(crate) fn init<K: Sink, D: Disk>(
    core: Platform,
    room: Room,
    disk: D,
    output: &mut K,
) -> (Status, D)
    requires size { (D.state disk).size ≡ DISK_LEN }
    requires empty { platform_view core ≡ (the_machine (platform_setup core)).empty }
    ensures told { Tells (InitDid (the_machine (platform_setup core)) (D.state disk) (D.state result.1)) result.0
        (K.taken output.old) (K.taken output.new) }
    ensures causes { TellCauses result.0 (K.faults output.old) (K.faults output.new) (D.state disk) (D.state result.1) }
{
    let mut text = Text::new();
    let (status, disk) = make_first(core, room, disk, &mut text);
    (tell(status, output, &text), disk)
}

/// Makes an empty memory where no copy is sound, and writes how that went over what stands in `text`.
fn make_first<D: Disk>(core: Platform, mut room: Room, mut disk: D, text: &mut Text) -> (Status, D)
    requires size { (D.state disk).size ≡ DISK_LEN }
    requires empty { platform_view core ≡ (the_machine (platform_setup core)).empty }
    ensures { InitDid (the_machine (platform_setup core)) (D.state disk) (D.state result.1) result.0 text.new.bytes }
{
    text.clear();
    match boot(&mut disk, &mut room) {
        Booted::Off => {
            text.push_str("disk fault\n");
            (Status::DiskFault, disk)
        }
        Booted::Ready { .. } => {
            text.push_str("already made\n");
            (Status::AlreadyMade, disk)
        }
        Booted::Lost(found) => {
            if has_sound(&found) {
                text.push_str("already made\n");
                return (Status::AlreadyMade, disk);
            }
            fill(&core, &mut room);
            match Store::make(disk, room) {
                Made::Done { disk, room: _ } => {
                    text.push_str("made\n");
                    (Status::Done, disk)
                }
                Made::Off { disk, room: _ } => {
                    text.push_str("disk fault\n");
                    (Status::DiskFault, disk)
                }
            }
        }
    }
}

/// Whether a copy is sound.
fn has_sound(found: &Found) -> bool
    ensures { result ≡ has_sound found.now }
{
    is_sound(found.a) || is_sound(found.b)
}

/// Whether a copy is as it was sealed.
fn is_sound(state: CopyState) -> bool
    ensures { result ≡ is_sound state }
{
    match state {
        CopyState::Sound(_) => true,
        CopyState::Bad(_) => false,
    }
}
