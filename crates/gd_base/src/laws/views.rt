//! Views and whole histories.

ghost use Rattle.gd_base.specs.Laws.WholeHistory.{IsViewEnough, IsWholeHistory, AreThemselves};

/// The view that moves entry by entry is the view of the whole history, as sums, the latest and the last n.
pub fn whole_history()
    ensures enough { IsViewEnough }
    ensures whole { IsWholeHistory }
    ensures itself { AreThemselves }
{}
