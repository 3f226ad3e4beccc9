//! When each answer comes.

ghost use Rattle.gd_base.specs.declared.step.Numbered.{Numbered};
ghost use Rattle.gd_base.specs.Laws.Exact.{AnswersExactly};
ghost use Rattle.gd_base.specs.Judging.Machine.{Machine};

use crate::core_trait::Core;

/// For every machine by the views of a core: each of the four answers comes exactly where `specs/Exact` says.
pub fn exact<C: Core>()
    ensures { (M : Machine C.View) (v : C.View) (e : Numbered) → AnswersExactly M v e }
{}
