//! What a trial has counted so far, and the digest of its setup.

ghost use Rattle.std.specs.Prelude.{◌≡◌, ◌≤◌, ◌<◌, ◌+◌, ◌++◌, ◌∷◌, [], nat_le, length, drop};
ghost use Rattle.gd_top.specs.Code.Falls.{falls_by};

use crate::ended::Falls;
use crate::memory::MOST_POWER_ONS;
use crate::script::reader::MOST_LINES;
use arrayvec::ArrayVec;

/// The most offers of a trial: each line has one at most, and each power-on at most two more.
pub(crate) const MOST_OFFERS: u64 = 1_000_512;

const _: () = prove!(MOST_OFFERS == MOST_LINES + 2 * MOST_POWER_ONS);

/// What a trial has counted so far, and the digest of its setup. One is a local of the trial, and is lent down.
#[derive(Drop)]
pub(crate) struct Counts {
    /// The lines that were carried out.
    pub(crate) lines: u64,
    /// How often the power was turned on.
    pub(crate) power_ons: u64,
    /// The memories that were cleared. It is the lap that blocks of random words are taken from.
    pub(crate) lap: u64,
    /// The events that were offered, the openings and the makings in place of a locked memory.
    pub(crate) offers: u64,
    /// Of each armed cut whether it counts calls, in order.
    pub(crate) calls: ArrayVec<bool, 256>,
    /// The offers in which cuts came that counted calls, in order.
    pub(crate) falls: Falls,
    /// The digest of the given setup. It is told beside that of a memory of another.
    pub(crate) given: [u8; 32],
}

impl Counts {
    /// Nothing yet, under a setup of this digest.
    pub(crate) fn new(given: [u8; 32]) -> Counts
        ensures lines { result.lines ≡ 0 }
        ensures power_ons { result.power_ons ≡ 0 }
        ensures lap { result.lap ≡ 0 }
        ensures offers { result.offers ≡ 0 }
        ensures calls { result.calls.items ≡ [] }
        ensures falls { result.falls.items ≡ [] }
        ensures given { result.given ≡ given }
    {
        Counts {
            lines: 0,
            power_ons: 0,
            lap: 0,
            offers: 0,
            calls: ArrayVec::new(),
            falls: Falls::new(),
            given,
        }
    }

    /// Whether no further cut or power-on is allowed.
    pub(crate) fn is_at_limit(&self) -> bool
        ensures { result ≡ nat_le MOST_POWER_ONS (self.now.power_ons + length self.now.calls.items) }
    {
        self.power_ons.saturating_add(self.calls.len() as u64) >= MOST_POWER_ONS
    }

    /// The first armed cut came in the last offer.
    pub(crate) fn fall(&mut self)
        requires some { 0 < length self.old.calls.items }
        requires room { length self.old.falls.items < 256 }
        requires few { self.old.offers ≤ MOST_OFFERS }
        ensures lines { self.new.lines ≡ self.old.lines }
        ensures power_ons { self.new.power_ons ≡ self.old.power_ons }
        ensures lap { self.new.lap ≡ self.old.lap }
        ensures given { self.new.given ≡ self.old.given }
        ensures offers { self.new.offers ≡ self.old.offers }
        ensures calls { self.new.calls.items ≡ drop 1 self.old.calls.items }
        ensures falls { self.new.falls.items
            ≡ self.old.falls.items ++ falls_by self.old.calls.items self.old.offers }
    {
        if self.calls.remove(0) {
            self.falls.push(self.offers as u32);
        }
    }
}
