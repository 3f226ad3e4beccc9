//! What a core is: a history kept as its view.

ghost use Rattle.std.specs.Prelude.{◌≡◌, ◌≤◌, ℕ, List, length, Option};
ghost use Rattle.std.specs.Coded.{Coded};
ghost use Rattle.gd_base.specs.Judging.Answer.{answer, after_answer, is_draw_needed, IsDrawFor};
ghost use Rattle.gd_base.specs.Judging.Machine.{Machine};
ghost use Rattle.gd_base.specs.Payloads.LoadedView.{view_loaded};
ghost use Rattle.gd_base.specs.Payloads.Spelled.{Spelled, Shows, load_answer};

use crate::device::Device;
use crate::layout::PAYLOAD_LEN;
use crate::limits::MOST_ENTRIES;
use crate::play::Block;
use crate::step::{Loaded, Numbered, Stepped, What};
use crate::text::Text;

/// A history kept as its view. No call takes memory, and none changes what the core means by events and payloads.
pub trait Core {
    /// What is seen of a history. It is data.
    ghost View: { Type 0 };

    ghost coded: { Coded View };

    /// What an event makes of a view, and which view a payload spells.
    ghost meaning: { Self → Machine View };

    /// The view of the history so far.
    ghost view: { Self → View };

    /// Whether a draw is to be handed to `step`: at a new play that is taken, and nowhere else.
    fn needs_draw(&self, numbered: &Numbered) -> bool
        ensures { result ≡ is_draw_needed (meaning self.now) (view self.now) numbered.now };

    /// The index of the next play's block.
    fn draw_index(&self) -> u64
        ensures { result ≡ (meaning self.now).index (view self.now) };

    /// Answers a numbered event: a new one is one entry more, a repeat gets the kept reply, any other changes nothing.
    fn step(&mut self, numbered: &Numbered, draw: Option<(u64, Block)>) -> Stepped
        requires draw { IsDrawFor (meaning self.old) (view self.old) numbered.now draw }
        ensures answer { result ≡ answer (meaning self.old) (view self.old) numbered.now }
        ensures view { view self.new ≡ after_answer (meaning self.old) (view self.old) numbered.now draw result }
        ensures same { meaning self.new ≡ meaning self.old };

    /// Writes the payload that spells the view.
    fn write_image(&self, payload: &mut [u8])
        requires { length payload.old ≡ PAYLOAD_LEN }
        ensures { (meaning self.now).spelled payload.new ≡ Shows (view self.now) };

    /// Takes the view that a payload spells. After any other answer than Read the core is as after `clear`.
    fn load(&mut self, payload: &[u8]) -> Loaded
        requires { length payload.now ≡ PAYLOAD_LEN }
        ensures answer { result ≡ load_answer ((meaning self.old).spelled payload.now) }
        ensures view { view self.new ≡ view_loaded (meaning self.old) ((meaning self.old).spelled payload.now) }
        ensures same { meaning self.new ≡ meaning self.old };

    /// Takes the empty history.
    fn clear(&mut self)
        ensures view { view self.new ≡ (meaning self.old).empty }
        ensures same { meaning self.new ≡ meaning self.old };

    /// The number of entries, at most 2^36.
    fn count(&self) -> u64
        ensures value { result ≡ (meaning self.now).count (view self.now) }
        ensures most { result ≤ MOST_ENTRIES };

    /// A device's last number, 0 at first.
    fn last(&self, device: Device) -> u64
        ensures value { result ≡ (meaning self.now).last (view self.now) device }
        ensures most { result ≤ (meaning self.now).count (view self.now) };

    /// The open order's number, or 0.
    fn open_order(&self) -> u64
        ensures { result ≡ (meaning self.now).open_order (view self.now) };

    /// Writes a text of the view over what stands in `into`.
    fn show(&self, what: What, into: &mut Text)
        ensures { into.new.bytes ≡ (meaning self.now).text what (view self.now) };
}
