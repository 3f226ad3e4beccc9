//! A machine as the tests step it.

ghost use Rattle.gd_machine.specs.Words.{machine_setup, machine_view, IsWhole};

use gd_base::{Block, Event, Meter, Numbered, Refusal, Reply, Setup, Stepped, Text, What};
use gd_machine::Machine;
use std::alloc::{AllocError, Global};
use std::process::Abort;

/// A machine, each of whose plays is on the same block.
#[derive(Drop)]
pub(crate) struct Tested {
    pub(crate) machine: Machine,
    pub(crate) words: Block,
    ghost is_whole: { IsWhole (machine_setup machine) (machine_view machine) },
}

/// An event under its device's number, and how it is answered.
pub(crate) type Row = (u64, Event, Stepped);

/// The answer to a new event that is taken.
pub(crate) const TAKEN: Stepped = Stepped::New(Reply::Taken);

/// The answer to a new event that is refused.
pub(crate) fn refused(why: Refusal) -> Stepped {
    Stepped::New(Reply::Refused(why))
}

impl Tested {
    /// A machine of the empty history.
    pub(crate) fn new(alloc: Global, setup: Setup, words: Block) -> Result<Tested, AllocError> {
        let machine = Machine::new(alloc, setup)?;
        Ok(Tested { machine, words })
    }

    /// Answers one event, with a draw where one is needed.
    fn step(&mut self, numbered: &Numbered) -> Stepped {
        if self.machine.needs_draw(numbered) {
            let index = self.machine.draw_index();
            return self.machine.step(numbered, Some((index, self.words)));
        }
        self.machine.step(numbered, None)
    }

    /// Answers each event as wanted.
    pub(crate) fn steps(&mut self, rt: &impl Abort, rows: &[Row]) {
        for (number, event, wanted) in rows {
            let numbered = Numbered {
                number: *number,
                event: *event,
            };
            assert_eq!(rt; self.step(&numbered), *wanted, "{number} {event:?}");
        }
    }

    /// Shows this text.
    pub(crate) fn shows(&self, rt: &impl Abort, what: What, wanted: &str) {
        let mut text = Text::new();
        self.machine.show(what, &mut text);
        assert_eq!(rt; text.as_str(), wanted);
    }

    /// These meters have these totals.
    pub(crate) fn counts(&self, rt: &impl Abort, wanted: &[(Meter, u64)]) {
        for (meter, total) in wanted {
            assert_eq!(rt; self.machine.account().meter(*meter), *total, "{meter:?}");
        }
    }
}
