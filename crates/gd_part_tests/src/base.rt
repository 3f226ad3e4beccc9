//! What no clause of gd_base says: that calls succeed, and what the adapters make of a reader and a writer that fail in mid-
//! stream.
use gd_base::{
    Block, ChaChaDraws, Colour, Condition, Device, Draws, Event, ListDraws, MemorySink,
    MemorySource, Meter, Reading, Refusal, Reply, Sink, Source, Text, Writing, push_meters,
    push_number, push_reply,
};
use std::alloc::Global;
use std::io;
use std::io::{Read, Write};
use std::process::Abort;
use std::test::Fail;

// ================ sources

// What a source gives through its bound, where each call has room for three bytes: its answers, and then its bytes.
fn three_at_a_time<S: Source>(
    source: &mut S,
    calls: usize,
    alloc: Global,
) -> Result<(Vec<Option<usize>>, Vec<u8>), Fail> {
    let mut answers = Vec::new(alloc);
    let mut bytes = Vec::new(alloc);
    for _ in 0..calls {
        let mut room = [0; 3];
        match source.take(&mut room) {
            Ok(count) => {
                answers.push(Some(count))?;
                bytes.extend_from_slice(&room[..count])?;
            }
            Err(_) => answers.push(None)?,
        }
    }
    Ok((answers, bytes))
}

#[test]
fn a_source_gives_its_bytes_in_pieces_and_then_the_end(rt: HostRuntime) -> Result<(), Fail> {
    let mut source = MemorySource::of(vec![in rt.alloc(); 1, 2, 3, 4, 5, 6, 7]?, None);
    let (answers, bytes) = three_at_a_time(&mut source, 5, rt.alloc())?;
    assert_eq!(rt;
        answers.as_slice(),
        [Some(3), Some(3), Some(1), Some(0), Some(0)].as_slice()
    );
    assert_eq!(rt; bytes.as_slice(), [1, 2, 3, 4, 5, 6, 7].as_slice());
    Ok(())
}

#[test]
fn a_source_fails_at_one_call_and_loses_nothing(rt: HostRuntime) -> Result<(), Fail> {
    let mut source = MemorySource::of(vec![in rt.alloc(); 1, 2, 3, 4]?, Some(2));
    let (answers, bytes) = three_at_a_time(&mut source, 4, rt.alloc())?;
    assert_eq!(rt;
        answers.as_slice(),
        [Some(3), None, Some(1), Some(0)].as_slice()
    );
    assert_eq!(rt; bytes.as_slice(), [1, 2, 3, 4].as_slice());
    Ok(())
}

#[test]
fn no_call_is_counted_as_number_zero(rt: HostRuntime) -> Result<(), Fail> {
    let mut source = MemorySource::of(vec![in rt.alloc(); 1]?, Some(0));
    let (answers, _) = three_at_a_time(&mut source, 3, rt.alloc())?;
    assert_eq!(rt; answers.as_slice(), [Some(1), Some(0), Some(0)].as_slice());
    Ok(())
}

// Gives its bytes one a call, and fails once when so many were given.
#[derive(Drop)]
struct Flaky<'a> {
    bytes: &'a [u8],
    at: usize,
    cut: Option<usize>,
}

impl<'a> Read for Flaky<'a> {
    fn read(&mut self, buf: &mut [u8]) -> io::Result<usize> {
        if self.cut == Some(self.at) {
            self.cut = None;
            return Err(io::Error::from(io::ErrorKind::Interrupted));
        }
        match (self.bytes.get(self.at), buf.first_mut()) {
            (Some(byte), Some(place)) => {
                *place = *byte;
                self.at = self.at.saturating_add(1);
                Ok(1)
            }
            _ => Ok(0),
        }
    }
}

#[test]
fn a_reader_that_fails_in_mid_stream_fails_once(rt: HostRuntime) -> Result<(), Fail> {
    let mut source = Reading::new(Flaky {
        bytes: b"abc",
        at: 0,
        cut: Some(2),
    });
    let (answers, bytes) = three_at_a_time(&mut source, 5, rt.alloc())?;
    assert_eq!(rt;
        answers.as_slice(),
        [Some(1), Some(1), None, Some(1), Some(0)].as_slice()
    );
    assert_eq!(rt; bytes.as_slice(), b"abc".as_slice());
    Ok(())
}

// ================ sinks

// Gives two pieces through the bound.
fn two_pieces<K: Sink>(sink: &mut K, first: &[u8], second: &[u8]) -> (bool, bool) {
    let first = sink.give(first).is_ok();
    let second = sink.give(second).is_ok();
    (first, second)
}

#[test]
fn a_sink_takes_what_fits(rt: HostRuntime) -> Result<(), Fail> {
    let mut sink = MemorySink::with_room(rt.alloc(), 10)?;
    assert_eq!(rt;
        two_pieces(&mut sink, b"power 1: ", b"a sound 0"),
        (true, false)
    );
    assert_eq!(rt; sink.bytes(), b"power 1: a".as_slice());
    assert_eq!(rt; two_pieces(&mut sink, b"", b"b"), (true, false));
    assert_eq!(rt; sink.bytes(), b"power 1: a".as_slice());
    Ok(())
}

// Takes at most two bytes a call, and fails once, or takes none for ever, when it has so many.
#[derive(Drop)]
struct Choppy {
    got: Vec<u8>,
    cut: Option<usize>,
    full: Option<usize>,
}

impl Write for Choppy {
    fn write(&mut self, buf: &[u8]) -> io::Result<usize> {
        if self.full == Some(self.got.len()) {
            return Ok(0);
        }
        if self.cut == Some(self.got.len()) {
            self.cut = None;
            return Err(io::Error::from(io::ErrorKind::Interrupted));
        }
        let most = buf.len().min(2);
        self.got.extend_from_slice(&buf[..most])?;
        Ok(most)
    }

    fn flush(&mut self) -> io::Result<()> {
        Ok(())
    }
}

fn writer_of(alloc: Global, cut: Option<usize>, full: Option<usize>) -> Choppy {
    Choppy {
        got: Vec::new(alloc),
        cut,
        full,
    }
}

#[test]
fn a_writer_takes_all_in_pieces(rt: HostRuntime) {
    let mut writer = writer_of(rt.alloc(), None, None);
    assert_eq!(rt;
        two_pieces(&mut Writing::new(&mut writer), b"abcde", b"fg"),
        (true, true)
    );
    assert_eq!(rt; writer.got.as_slice(), b"abcdefg".as_slice());
}

#[test]
fn a_writer_that_fails_in_mid_stream_has_taken_a_front(rt: HostRuntime) {
    let mut writer = writer_of(rt.alloc(), Some(4), None);
    assert_eq!(rt;
        two_pieces(&mut Writing::new(&mut writer), b"abcdef", b"gh"),
        (false, true)
    );
    assert_eq!(rt; writer.got.as_slice(), b"abcdgh".as_slice());
}

#[test]
fn a_writer_that_takes_nothing_more_is_a_fault(rt: HostRuntime) {
    let mut writer = writer_of(rt.alloc(), None, Some(2));
    assert_eq!(rt;
        two_pieces(&mut Writing::new(&mut writer), b"abc", b""),
        (false, true)
    );
    assert_eq!(rt; writer.got.as_slice(), b"ab".as_slice());
}

// ================ draws

fn first_word<W: Draws>(draws: &mut W, lap: u64, index: u64) -> u64 {
    draws.block(lap, index)[0]
}

#[test]
fn listed_blocks_stand_in_lap_0_alone(rt: HostRuntime) -> Result<(), Fail> {
    let mut draws = ListDraws::of(vec![in rt.alloc(); [7; 16], [8; 16]]?);
    assert_eq!(rt; first_word(&mut draws, 0, 0), 7);
    assert_eq!(rt; first_word(&mut draws, 0, 1), 8);
    assert_eq!(rt; first_word(&mut draws, 0, 2), 0);
    assert_eq!(rt; first_word(&mut draws, 1, 1), 0);
    assert_eq!(rt; draws.block(0, 1), [8; 16]);
    Ok(())
}

fn whole_block<W: Draws>(draws: &mut W, lap: u64, index: u64) -> Block {
    draws.block(lap, index)
}

#[test]
fn the_first_block_of_seed_0_is_the_key_stream_of_the_zero_key(rt: HostRuntime) {
    let mut draws = ChaChaDraws::new(0);
    assert_eq!(rt;
        whole_block(&mut draws, 0, 0),
        [
            0x903df1a0ade0b876,
            0x28bd8653e56a5d40,
            0x1aed8da0b819d2bd,
            0xc70d778bccef36a8,
            0x8d4857517c5941da,
            0x374ad8b83fe02477,
            0x1ca11815f4b8436a,
            0x8665eeb269b687c3,
            0x7a385155bee7079f,
            0x0d082d737c97ba98,
            0x6965e348a0290fcb,
            0xed7aee323e53c612,
            0x434ee69c7621b729,
            0xd539d874b03371d5,
            0x45fb0a51281fed31,
            0x6f4d794b1f0ae1ac,
        ]
    );
}

// By an implementation of ChaCha20 that isn't the program's.
#[test]
fn blocks_are_those_of_seed_lap_and_index(rt: HostRuntime) {
    let mut draws = ChaChaDraws::new(1);
    assert_eq!(rt; first_word(&mut draws, 0, 1), 0x865f08a2383e30bd);
    assert_eq!(rt;
        whole_block(&mut draws, 2, 3),
        [
            0x195b4331b05e5bd8,
            0x649381d172f5d00c,
            0xf75753eadfb5b8a5,
            0x3411a01324844c51,
            0x0c0df2deefc7b4f7,
            0x0df65b7c564982e6,
            0x8caae3f4fa8ec1ca,
            0x1a22639ea94767da,
            0xc330cde5323d0255,
            0x390ce1f11925d648,
            0x770a82cf205313ff,
            0xd47b45811eba9165,
            0x2443543649ec2995,
            0xc655e2a4b388ce38,
            0xb6bc2d922cafdf00,
            0xce114ddacec8351f,
        ]
    );
    assert_eq!(rt; first_word(&mut draws, 0, 1), 0x865f08a2383e30bd);
}

#[test]
fn the_last_block_of_the_last_stream_is_there(rt: HostRuntime) {
    let mut draws = ChaChaDraws::new(0x0123456789abcdef);
    assert_eq!(rt;
        whole_block(&mut draws, u64::MAX, u64::MAX),
        [
            0x6ad434e085c4d102,
            0x220f603c1da7a526,
            0xbd32be964209b615,
            0x7fb3cddeb14ccc46,
            0x0ad49ad7eb5c1dc2,
            0xc94f0a285dca4c87,
            0x7529b1acfd87a512,
            0x187301c94083b3f3,
            0x22cfa4e3f801fbf3,
            0xff7c33527aaad93e,
            0x60789a73c82458eb,
            0x2d378f3e9c2c47fd,
            0x8af8a15e2a422762,
            0x5051d86321c43b52,
            0x8f154e0f09cd09e2,
            0xd80d34d9f6e09703,
        ]
    );
}

// ================ texts

const METERS_OF_ONE_BILL: &str = "BillIn 0000000500
CoinIn 0000000000
VoucherIn 0000000000
Wagered 0000000000
Won 0000000000
VoucherOut 0000000000
CoinOut 0000000000
HandWin 0000000000
HandCancel 0000000000
GamesPlayed 0000000000
GamesWon 0000000000
PowerUps 0000000001
LogicOpen 0000000000
MainOpen 9999999999
CashboxOpen 0000000000
DropOpen 0000000001
";

#[test]
fn meters_are_ten_digits(rt: HostRuntime) {
    let mut text = Text::new();
    let mut totals = [0; 16];
    totals[0] = 500;
    totals[11] = 1;
    totals[13] = 9999999999;
    totals[15] = 10000000001;
    push_meters(&mut text, &totals);
    assert_eq!(rt; text.as_str(), METERS_OF_ONE_BILL);
}

fn reply_is(rt: &impl Abort, reply: Reply, wanted: &str) {
    let mut text = Text::new();
    push_reply(&mut text, reply);
    assert_eq!(rt; text.as_str(), wanted);
}

#[test]
fn replies_have_numbers_and_names(rt: HostRuntime) {
    reply_is(&rt, Reply::Taken, "taken");
    reply_is(
        &rt,
        Reply::Refused(Refusal::CreditLimit),
        "refused 2 credit-limit",
    );
    reply_is(
        &rt,
        Reply::Refused(Refusal::LockedUp(Condition::Handpay)),
        "refused 1 locked-up handpay",
    );
    reply_is(
        &rt,
        Reply::Refused(Refusal::DoorAlready),
        "refused 16 door-already",
    );
}

#[test]
fn names_and_numbers(rt: HostRuntime) {
    let mut text = Text::new();
    text.push_str(
        Event::Gamble {
            colour: Colour::Red,
        }
        .device()
        .name(),
    );
    push_number(&mut text, 68719476736);
    text.push_str(Device::Attendant.name());
    push_number(&mut text, 0);
    text.push_str(Meter::HandCancel.name());
    push_number(&mut text, u64::MAX);
    text.push_str(Condition::CashboxDoor.name());
    assert_eq!(rt;
        text.as_str(),
        "player68719476736attendant0HandCancel18446744073709551615cashbox-door"
    );
}
