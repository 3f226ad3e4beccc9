//! An event that is offered until it is answered.

ghost use Rattle.std.specs.Prelude.{◌≡◌, ◌≢◌, ◌≤◌, ◌+◌, ◌*◌, ℕ};
ghost use Rattle.gd_base.specs.declared.event.Event.{Event};
ghost use Rattle.gd_base.specs.declared.step.Stepped.{Stepped as SteppedData};
ghost use Rattle.gd_base.specs.Judging.Answer.{is_new};
ghost use Rattle.gd_cabinet.specs.Answers.{cabinet_answer};
ghost use Rattle.gd_top.specs.Code.Memory.{moment, moment_on, Does, Sits};
ghost use Rattle.gd_top.specs.Report.AnswerText.{answer_text};
ghost use Rattle.gd_top.specs.Run.Items.{event_meaning};

use crate::halt::Halt;
use crate::item::lock::tell_lock;
use crate::item::opening::reopen;
use crate::memory::Memory;
use crate::memory::counts::Counts;
use crate::report::lines::{give_text, push_answer_line, push_full_line, push_step_line};
use crate::script::reader::MOST_LINES;
use gd_base::{Core, Draws, Numbered, Sink, Text};
use gd_cabinet::{Answer, Cabinet};
use gd_disk::LabDisk;

/// Offers an event under its number, as often as a cut comes in that, and prints its answer. After a cut the memory is opened
/// again; where it is locked then, the event is given up. A write fault comes after the event was committed, or in the lines of
/// an opening.
pub(crate) fn carry_event<C: Core, K: Sink, L: LabDisk, W: Draws>(
    cabinet: Cabinet<C, L, W>,
    counts: &mut Counts,
    output: &mut K,
    text: &mut Text,
    e: &Numbered,
) -> (Memory<C, L, W>, Result<(), Halt>)
    requires not_start { e.now.event ≢ Event.Start }
    requires sits { Sits
        (moment_on C.meaning C.view L.state W.block_of K.taken K.faults cabinet counts.old output.old) }
    requires few { counts.old.offers + 1 ≤ MOST_LINES + 2 * counts.old.power_ons }
    ensures does { Does (λ M B. event_meaning M B e.now) result.1
        (moment_on C.meaning C.view L.state W.block_of K.taken K.faults cabinet counts.old output.old)
        (moment C.meaning C.view L.state W.block_of K.taken K.faults result.0 counts.new output.new) }
    ensures lines { counts.new.lines ≡ counts.old.lines }
    ensures offers { counts.new.offers + 2 * counts.old.power_ons ≤ counts.old.offers + 1 + 2 * counts.new.power_ons }
{
    let mut cabinet = cabinet;
    loop {
        let armed = cabinet.cuts_armed();
        match cabinet.submit(e) {
            Ok(answer) => {
                if is_new(&answer) {
                    counts.offers += 1;
                }
                write_answer(text, e, &answer);
                let given = give_text(output, text);
                return (Memory::On(cabinet), given);
            }
            Err(_) => {
                counts.offers += 1;
                if cabinet.cuts_armed() >= armed {
                    return (Memory::On(cabinet), Err(Halt::DiskFault));
                }
                counts.fall();
                let (memory, ended) = reopen(cabinet.close(), counts, output, text);
                if ended.is_err() {
                    return (memory, ended);
                }
                match memory {
                    Memory::On(opened) => cabinet = opened,
                    Memory::Locked(parts) => {
                        let given = tell_lock(output, text);
                        return (Memory::Locked(parts), given);
                    }
                    Memory::Off(_) => unreachable!(),
                }
            }
        }
    }
}

/// Whether an answer is that of a new event.
pub(crate) fn is_new(answer: &Answer) -> bool
    ensures { (stepped : SteppedData) (count : ℕ) → answer.now ≡ cabinet_answer stepped count
        → result ≡ is_new stepped }
{
    matches!(answer, Answer::Ack { again: false, .. })
}

/// Writes the line of an answer over what stands in `text`.
pub(crate) fn write_answer(text: &mut Text, e: &Numbered, answer: &Answer)
    ensures { (stepped : SteppedData) (count : ℕ) → answer.now ≡ cabinet_answer stepped count
        → text.new.bytes ≡ answer_text e.now stepped count }
{
    text.clear();
    match answer {
        Answer::Ack {
            reply,
            again,
            count,
        } => push_answer_line(text, *again, e.event.device(), e.number, *reply, *count),
        Answer::OutOfStep { expected } => push_step_line(text, e.event.device(), *expected),
        Answer::HistoryFull => push_full_line(text, e.event.device()),
    }
}
