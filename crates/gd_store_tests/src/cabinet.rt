//! What no clause of gd_cabinet says: that the calls succeed, and at which calls of the disk they fail. The core only counts.
ghost use Rattle.std.specs.Prelude.{◌≡◌, ◌≢◌, ◌+◌, ◌-◌, ◌≤◌, ◌^◌, ◌==◌, nat_le, if◌then◌else◌, ℕ, [], take, replicate, refl, false, IfOk, OnOk};
ghost use Rattle.std.specs.Coded.{coded_ℕ};
ghost use Rattle.std.specs.Int.{w64, from_be_bytes};
ghost use Rattle.gd_disk.specs.Disk.{IsSynced};
ghost use Rattle.gd_base.specs.Payloads.Spelled.{Shows, Foreign, Unreadable};
ghost use Rattle.gd_base.specs.Judging.Product.{number_itself};
ghost use Rattle.gd_base.specs.declared.refusal.Reply.{Reply};
ghost use Rattle.gd_store.specs.OpenAnswer.{IsOpenable};

use gd_base::{
    Block, Core, Device, Event, ListDraws, Loaded, MOST_ENTRIES, Numbered, PAYLOAD_LEN, Reply,
    Stepped, Text, What,
};
use gd_cabinet::{Answer, Cabinet, CabinetOpened, Locked, Parts, Stop};
use gd_disk::{
    ArmedCut, COPY_LEN, CutUnit, DISK_LEN, Disk, FileDisk, LabDisk, MemoryDisk, MemoryLab,
};
use gd_store::{CopyState, Found, Made, PageState, Room, Store};
use std::alloc::Global;
use std::fs;
use std::process::Abort;
use std::test::Fail;

/// The number of entries, which is the last number of each device too. A payload begins with it.
#[derive(Drop)]
struct Tally {
    count: u64,
    ghost room: { count ≤ 2 ^ 36 },
}

impl Core for Tally {
    ghost View = { ℕ };

    ghost coded = { coded_ℕ };

    ghost meaning = { λ t. record {
      digest = [];
      empty = 0;
      effect = λ v e. v + 1;
      same = λ v w. v == w;
      count = λ v. v;
      last = λ v d. v;
      kept = λ v d. Reply.Taken;
      rule = λ v e. Reply.Taken;
      is_drawn = λ v e. false;
      index = λ v. v;
      open_order = λ v. 0;
      text = λ what v. [];
      credit = λ v. 0;
      spelled = λ p. if nat_le (from_be_bytes w64 (take 8 p)) (2 ^ 36) then Shows (from_be_bytes w64 (take 8 p))
          else if from_be_bytes w64 (take 8 p) == 2 ^ 64 - 1 then Foreign (replicate 32 7) else Unreadable;
      count_empty = refl;
      count_effect = λ v e. refl;
      same_itself = number_itself;
    } };

    ghost view = { λ t. t.count };

    fn needs_draw(&self, _e: &Numbered) -> bool {
        false
    }

    fn draw_index(&self) -> u64 {
        self.count
    }

    #[tactic(auto, unfolding(gd_base::specs::Judging::Answer::answer))]
    fn step(&mut self, e: &Numbered, _draw: Option<(u64, Block)>) -> Stepped {
        if self.count != 0 && e.number == self.count {
            return Stepped::Again(Reply::Taken);
        }
        if e.number != self.count + 1 {
            return Stepped::OutOfStep {
                expected: self.count + 1,
            };
        }
        if self.count >= MOST_ENTRIES {
            return Stepped::HistoryFull;
        }
        self.count += 1;
        Stepped::New(Reply::Taken)
    }

    fn write_image(&self, image: &mut [u8]) {
        image[..8].copy_from_slice(&self.count.to_be_bytes());
    }

    fn load(&mut self, image: &[u8]) -> Loaded {
        let mut bytes = [0; 8];
        bytes.copy_from_slice(&image[..8]);
        let count = u64::from_be_bytes(bytes);
        if count <= MOST_ENTRIES {
            self.count = count;
            return Loaded::Read;
        }
        self.count = 0;
        if count == u64::MAX {
            Loaded::Differs { kept: [7; 32] }
        } else {
            Loaded::Unreadable
        }
    }

    fn clear(&mut self) {
        self.count = 0;
    }

    fn count(&self) -> u64 {
        self.count
    }

    fn last(&self, _device: Device) -> u64 {
        self.count
    }

    fn open_order(&self) -> u64 {
        0
    }

    fn show(&self, _what: What, into: &mut Text) {
        into.clear();
    }
}

type Tallied<D> = Parts<Tally, D, ListDraws>;

/// A memory of this count at sequence 0.
fn made<D: Disk + Drop>(
    rt: &impl Abort,
    alloc: Global,
    disk: D,
    count: u64,
) -> Result<Tallied<D>, Fail>
    ensures { IfOk result (λ parts. IsOpenable (D.state parts.disk)) }
{
    let mut room = Room::new(alloc)?;
    let payload = room.payload_mut();
    payload[..8].copy_from_slice(&count.to_be_bytes());
    assert!(rt; disk.len() == DISK_LEN);
    match Store::make(disk, room) {
        Made::Done { disk, room } => Ok(Parts {
            core: Tally { count: 9 },
            disk,
            draws: ListDraws::of(Vec::new(alloc)),
            room,
        }),
        Made::Off { disk: _, room: _ } => Err(Fail::new("off while a memory was made")),
    }
}

fn opened<D: Disk + Drop>(rt: &impl Abort, parts: Tallied<D>) -> CabinetOpened<Tally, D, ListDraws>
    requires { IsOpenable (D.state parts.disk) }
{
    assert!(rt; parts.disk.len() == DISK_LEN);
    Cabinet::open(parts, 0)
}

/// A cabinet with this count after its start, over copies that were found so.
fn ready<D: Disk + Drop>(
    rt: &impl Abort,
    parts: Tallied<D>,
    was: Found,
    count: u64,
) -> Result<Cabinet<Tally, D, ListDraws>, Fail>
    requires { IsOpenable (D.state parts.disk) }
{
    match opened(rt, parts) {
        CabinetOpened::Ready { cabinet, found } => {
            assert_eq!(rt; found, was);
            assert_eq!(rt; cabinet.core().count(), count);
            Ok(cabinet)
        }
        _ => Err(Fail::new("not ready")),
    }
}

fn both(sequence: u64) -> Found {
    Found {
        a: CopyState::Sound(sequence),
        b: CopyState::Sound(sequence),
    }
}

fn bill(number: u64) -> Numbered
    ensures { result.event ≢ Event.Start }
{
    Numbered {
        number,
        event: Event::Bill { value: 500 },
    }
}

fn ack(again: bool, count: u64) -> Answer {
    Answer::Ack {
        reply: Reply::Taken,
        again,
        count,
    }
}

fn keeps<D: Disk + Drop>(rt: &impl Abort, alloc: Global, disk: D) -> Result<(), Fail> {
    let mut cabinet = ready(rt, made(rt, alloc, disk, 0)?, both(0), 1)?;
    assert_eq!(rt; cabinet.submit(&bill(2)), Ok(ack(false, 2)));
    assert_eq!(rt; cabinet.submit(&bill(2)), Ok(ack(true, 2)));
    assert_eq!(rt;
        cabinet.submit(&bill(9)),
        Ok(Answer::OutOfStep { expected: 3 })
    );
    assert_eq!(rt; cabinet.stops(), 0);
    let _again = ready(rt, cabinet.close(), both(2), 3)?;
    Ok(())
}

#[test]
fn keeps_events(rt: HostRuntime) -> Result<(), Fail> {
    let zeros = vec![in rt.alloc(); 0; DISK_LEN as usize]?;
    keeps(&rt, rt.alloc(), MemoryDisk::of(zeros, None))?;
    keeps(&rt, rt.alloc(), MemoryLab::new(rt.alloc(), DISK_LEN)?)
}

/// What a memory made by 11 calls of the disk does whose disk fails at this call after them. An opening makes four
/// reads, and a commit of one changed page eight writes and six syncs.
fn fails_at<D: Disk + Drop>(
    rt: &impl Abort,
    alloc: Global,
    disk: D,
    call: u64,
) -> Result<(), Fail> {
    match opened(rt, made(rt, alloc, disk, 0)?) {
        CabinetOpened::Off { found, parts: _ } => {
            assert!(rt; call <= 18);
            assert_eq!(rt; found.is_none(), call <= 2);
        }
        CabinetOpened::Ready { cabinet, found: _ } => {
            let mut cabinet = cabinet;
            assert!(rt; call > 18);
            if call <= 32 {
                assert_eq!(rt; cabinet.submit(&bill(2)), Err(Stop::Off));
                assert_eq!(rt; cabinet.core().count(), 1);
                assert_eq!(rt; cabinet.submit(&bill(2)), Err(Stop::Stopped));
                assert_eq!(rt; cabinet.stops(), 1);
            } else {
                assert_eq!(rt; cabinet.submit(&bill(2)), Ok(ack(false, 2)));
            }
        }
        _ => return Err(Fail::new("shut")),
    }
    Ok(())
}

#[test]
fn stops_where_the_disk_fails(rt: HostRuntime) -> Result<(), Fail> {
    for call in 1..35 {
        let zeros = vec![in rt.alloc(); 0; DISK_LEN as usize]?;
        let disk = MemoryDisk::of(zeros, Some(11 + call));
        fails_at(&rt, rt.alloc(), disk, call)?;
    }
    Ok(())
}

fn is_unreadable<D: Disk + Drop>(rt: &impl Abort, parts: Tallied<D>) -> bool
    requires { IsOpenable (D.state parts.disk) }
{
    match opened(rt, parts) {
        CabinetOpened::Locked {
            why,
            found,
            parts: _,
        } => why == Locked::Unreadable && found == both(0),
        _ => false,
    }
}

#[test]
fn shuts_a_memory_of_no_view(rt: HostRuntime) -> Result<(), Fail> {
    let lab = MemoryLab::new(rt.alloc(), DISK_LEN)?;
    assert!(rt;
        is_unreadable(&rt, made(&rt, rt.alloc(), lab, 5)?),
        "another count"
    );
    let lab = MemoryLab::new(rt.alloc(), DISK_LEN)?;
    assert!(rt;
        is_unreadable(&rt, made(&rt, rt.alloc(), lab, 1 << 40)?),
        "no view"
    );
    let lab = MemoryLab::new(rt.alloc(), DISK_LEN)?;
    match opened(&rt, made(&rt, rt.alloc(), lab, u64::MAX)?) {
        CabinetOpened::Differs {
            kept,
            found,
            parts: _,
        } => {
            assert_eq!(rt; kept, [7; 32]);
            assert_eq!(rt; found, both(0));
        }
        _ => return Err(Fail::new("of the same setup")),
    }
    Ok(())
}

fn turned_on<L: LabDisk>(rt: &impl Abort, lab: &mut L) -> Result<(), Fail>
    ensures { OnOk result (IsSynced (L.state lab.new)) }
{
    assert!(rt; !lab.powered());
    Ok(lab.power_on()?)
}

/// A memory of count 0 whose disk was turned on with a cut armed.
fn armed<L: LabDisk + Drop>(
    rt: &impl Abort,
    alloc: Global,
    lab: L,
    cut: ArmedCut,
) -> Result<Tallied<L>, Fail>
    ensures { IfOk result (λ parts. IsOpenable (L.state parts.disk)) }
{
    let mut parts = made(rt, alloc, lab, 0)?;
    parts.disk.power_off();
    assert!(rt; parts.disk.cuts_armed() < 256);
    assert!(rt; cut.count >= 1);
    assert!(rt; cut.torn <= 3);
    parts.disk.arm(cut.unit, cut.count, cut.torn);
    on_again(rt, parts)
}

fn on_again<L: LabDisk + Drop>(rt: &impl Abort, parts: Tallied<L>) -> Result<Tallied<L>, Fail>
    ensures { IfOk result (λ parts. IsOpenable (L.state parts.disk)) }
{
    let mut parts = parts;
    turned_on(rt, &mut parts.disk)?;
    Ok(parts)
}

/// The start has six syncs, so that the cut comes at the third of the bill, which opens copy a.
fn cut_between_copies<L: LabDisk + Drop>(
    rt: &impl Abort,
    alloc: Global,
    lab: L,
) -> Result<(), Fail> {
    let cut = ArmedCut {
        unit: CutUnit::Sync,
        count: 9,
        torn: 1,
    };
    let mut cabinet = ready(rt, armed(rt, alloc, lab, cut)?, both(0), 1)?;
    assert_eq!(rt; cabinet.submit(&bill(2)), Err(Stop::Off));
    assert_eq!(rt; cabinet.cuts_armed(), 0);
    let was = Found {
        a: CopyState::Sound(2),
        b: CopyState::Sound(1),
    };
    let _again = ready(rt, on_again(rt, cabinet.close())?, was, 3)?;
    Ok(())
}

#[test]
fn a_cut_between_the_copies(rt: HostRuntime) -> Result<(), Fail> {
    cut_between_copies(&rt, rt.alloc(), MemoryLab::new(rt.alloc(), DISK_LEN)?)
}

/// How many entries an opening shows, its start among them.
fn shown<D: Disk + Drop>(rt: &impl Abort, parts: Tallied<D>) -> Result<u64, Fail>
    requires { IsOpenable (D.state parts.disk) }
{
    match opened(rt, parts) {
        CabinetOpened::Ready { cabinet, found: _ } => Ok(cabinet.core().count()),
        _ => Err(Fail::new("not ready")),
    }
}

/// An opening and a bill, of which a call to the disk fails; and whether that was in the opening.
fn interrupted<L: LabDisk + Drop>(
    rt: &impl Abort,
    parts: Tallied<L>,
) -> Result<(Tallied<L>, bool), Fail>
    requires { IsOpenable (L.state parts.disk) }
{
    match opened(rt, parts) {
        CabinetOpened::Off { found: _, parts } => Ok((parts, true)),
        CabinetOpened::Ready { cabinet, found: _ } => {
            let mut cabinet = cabinet;
            assert_eq!(rt; cabinet.submit(&bill(2)), Err(Stop::Off));
            assert_eq!(rt; cabinet.core().count(), 1);
            Ok((cabinet.close(), false))
        }
        _ => Err(Fail::new("shut")),
    }
}

/// What stands shows the view before the event, or that with it.
fn leaves_either<L: LabDisk + Drop>(
    rt: &impl Abort,
    parts: Tallied<L>,
    in_opening: bool,
) -> Result<(), Fail>
    requires { IsOpenable (L.state parts.disk) }
{
    let (parts, was_opening) = interrupted(rt, parts)?;
    assert_eq!(rt; was_opening, in_opening);
    let count = shown(rt, on_again(rt, parts)?)?;
    if was_opening {
        assert!(rt; count == 1 || count == 2);
    } else {
        assert!(rt; count == 2 || count == 3);
    }
    Ok(())
}

/// The start makes eight writes and six syncs, and so does the bill.
fn is_cut_at<L: LabDisk + Drop>(
    rt: &impl Abort,
    alloc: Global,
    lab: L,
    cut: ArmedCut,
) -> Result<(), Fail> {
    leaves_either(rt, armed(rt, alloc, lab, cut)?, cut.count <= 14)
}

#[test]
fn each_cut_leaves_one_of_two_views(rt: HostRuntime) -> Result<(), Fail> {
    for call in 1..29u32 {
        let cut = ArmedCut {
            unit: CutUnit::Call,
            count: call,
            torn: (call % 4) as u8,
        };
        is_cut_at(&rt, rt.alloc(), MemoryLab::new(rt.alloc(), DISK_LEN)?, cut)?;
    }
    Ok(())
}

/// The memory is made by 11 calls, and the opening begins with four reads.
fn is_faulty_at<L: LabDisk + Drop>(
    rt: &impl Abort,
    alloc: Global,
    lab: L,
    call: u64,
) -> Result<(), Fail> {
    leaves_either(rt, made(rt, alloc, lab, 0)?, call <= 18)
}

#[test]
fn each_fault_leaves_one_of_two_views(rt: HostRuntime) -> Result<(), Fail> {
    for call in 1..33u64 {
        let lab = MemoryLab::faulty(rt.alloc(), DISK_LEN, 11 + call)?;
        is_faulty_at(&rt, rt.alloc(), lab, call)?;
    }
    Ok(())
}

/// A cut that is armed while the cabinet is open comes in its next event.
#[test]
fn a_cut_armed_in_an_open_cabinet(rt: HostRuntime) -> Result<(), Fail> {
    let lab = MemoryLab::new(rt.alloc(), DISK_LEN)?;
    let mut cabinet = ready(&rt, made(&rt, rt.alloc(), lab, 0)?, both(0), 1)?;
    assert!(rt; cabinet.cuts_armed() == 0);
    cabinet.arm(CutUnit::Sync, 6, 0);
    assert_eq!(rt; cabinet.cuts_armed(), 1);
    assert_eq!(rt; cabinet.submit(&bill(2)), Err(Stop::Off));
    assert_eq!(rt; cabinet.cuts_armed(), 0);
    Ok(())
}

/// What is told of a page where the first page of copy a and the last one of copy b are altered.
fn told(page: u8) -> PageState {
    PageState {
        a: page != 0,
        b: page != 31,
    }
}

/// A byte of the first page of copy a and one of the last page of copy b are altered in the file of an open cabinet. 33
/// checks go over pages 0 to 31, and over page 0 again.
#[test]
fn checks_each_page_in_turn(rt: HostRuntime) -> Result<(), Fail> {
    let path = "cabinet_checked";
    let zeros = vec![in rt.alloc(); 0; DISK_LEN as usize]?;
    fs::write(&rt, path, zeros.as_slice())?;
    let parts = made(&rt, rt.alloc(), FileDisk::at(&rt, path), 0)?;
    let mut cabinet = ready(&rt, parts, both(0), 1)?;
    let mut bytes = fs::read(&rt, path)?;
    assert!(rt; bytes.len() == DISK_LEN as usize);
    bytes[1073] ^= 1;
    bytes[2 * COPY_LEN - 1] ^= 1;
    fs::write(&rt, path, bytes.as_slice())?;
    for page in 0..33 {
        assert_eq!(rt; cabinet.idle(), Ok(told(page % 32)), "{page}");
    }
    assert_eq!(rt; cabinet.core().count(), 1);
    fs::remove_file(&rt, path)?;
    Ok(())
}

/// Checks of an open cabinet whose disk fails in the second check, at its first read.
#[test]
fn stops_where_a_check_fails(rt: HostRuntime) -> Result<(), Fail> {
    let zeros = vec![in rt.alloc(); 0; DISK_LEN as usize]?;
    let disk = MemoryDisk::of(zeros, Some(11 + 18 + 3));
    let mut cabinet = ready(&rt, made(&rt, rt.alloc(), disk, 0)?, both(0), 1)?;
    assert_eq!(rt; cabinet.idle(), Ok(PageState { a: true, b: true }));
    assert_eq!(rt; cabinet.idle(), Err(Stop::Off));
    assert_eq!(rt; cabinet.idle(), Err(Stop::Stopped));
    assert_eq!(rt; cabinet.submit(&bill(2)), Err(Stop::Stopped));
    assert_eq!(rt; (cabinet.stops(), cabinet.core().count()), (1, 1));
    Ok(())
}

/// What any core writes it loads, and what spells no view it doesn't.
fn loads_what_it_writes<C: Core>(core: &mut C, none: &[u8; PAYLOAD_LEN]) -> bool {
    let mut image = [0; PAYLOAD_LEN];
    core.write_image(&mut image);
    let count = core.count();
    let refused = core.load(none);
    let cleared = core.count();
    core.load(&image) == Loaded::Read
        && core.count() == count
        && refused == Loaded::Differs { kept: [7; 32] }
        && cleared == 0
        && core.last(Device::Bill) <= count
        && core.open_order() == 0
}

#[test]
fn a_core_loads_what_it_writes(rt: HostRuntime) -> Result<(), Fail> {
    let mut core = Tally { count: 5 };
    assert!(rt; loads_what_it_writes(&mut core, &[255; PAYLOAD_LEN]));
    assert_eq!(rt; core.count, 5);
    Ok(())
}
