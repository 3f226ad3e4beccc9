//! The calls of the machine as a core.

ghost use Rattle.std.specs.Prelude.{◌≡◌, IfOk};
ghost use Rattle.gd_base.specs.Histories.View.{View};
ghost use Rattle.gd_base.specs.Histories.ViewOf.{empty_view};
ghost use Rattle.gd_base.specs.Payloads.ViewCode.{coded_view};
ghost use Rattle.gd_games.specs.Digest.{digest_of};
ghost use Rattle.gd_image.specs.Words.{platform_setup, platform_view};
ghost use Rattle.gd_machine.specs.Meaning.{the_machine};

use crate::loading::load_machine;
use crate::platform::Platform;
use crate::writing::write_machine;
use gd_base::{Block, Core, Device, Loaded, Numbered, Order, Setup, Stepped, Text, What};
use gd_machine::Machine;
use std::alloc::{AllocError, Global};

impl Platform {
    /// The machine of the empty history under a setup, or that there is no memory for its recall. No other call takes
    /// memory.
    pub fn new(alloc: Global, setup: Setup) -> Result<Platform, AllocError>
        ensures setup { IfOk result (λ p. platform_setup p ≡ setup) }
        ensures empty { IfOk result (λ p. platform_view p ≡ empty_view (digest_of setup)) }
    {
        let machine = Machine::new(alloc, setup)?;
        Ok(Platform { machine })
    }

    /// The digest of its setup.
    pub fn digest(&self) -> &[u8; 32]
        ensures { result.now ≡ digest_of (platform_setup self.now) }
    {
        self.machine.digest()
    }

    /// The open order, with the cents that remain to be paid.
    pub fn order(&self) -> Option<Order>
        ensures { result ≡ (platform_view self.now).order }
    {
        self.machine.payout().open_order()
    }

    /// The balance in cents.
    pub fn credit(&self) -> u64
        ensures { result ≡ (platform_view self.now).balance }
    {
        self.machine.account().balance()
    }
}

impl Core for Platform {
    ghost View = { View };

    ghost coded = { coded_view };

    ghost meaning = { λ p. the_machine (platform_setup p) };

    ghost view = { platform_view };

    fn needs_draw(&self, numbered: &Numbered) -> bool {
        self.machine.needs_draw(numbered)
    }

    fn draw_index(&self) -> u64 {
        self.machine.draw_index()
    }

    fn step(&mut self, numbered: &Numbered, draw: Option<(u64, Block)>) -> Stepped {
        self.machine.step(numbered, draw)
    }

    fn write_image(&self, payload: &mut [u8]) {
        write_machine(&self.machine, payload);
    }

    fn load(&mut self, payload: &[u8]) -> Loaded {
        load_machine(&mut self.machine, payload)
    }

    fn clear(&mut self) {
        self.machine.clear();
    }

    fn count(&self) -> u64 {
        self.machine.count()
    }

    fn last(&self, device: Device) -> u64 {
        self.machine.kept(device).0
    }

    fn open_order(&self) -> u64 {
        match self.order() {
            Some(order) => order.number,
            None => 0,
        }
    }

    fn show(&self, what: What, into: &mut Text) {
        self.machine.show(what, into);
    }
}
