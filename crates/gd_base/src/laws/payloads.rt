//! What a payload spells.

ghost use Rattle.gd_base.specs.Laws.ListsIn.{HasReadLists, IsToldByParts, ReadsItsLists, RecordsLists, SpellsLists};
ghost use Rattle.gd_base.specs.Laws.OneView.{HasOneView, SpellsOneThing};
ghost use Rattle.gd_base.specs.Laws.Spelling.{IsSpelling, ReadsBack, ShowsByParts};

/// A payload spells at most one view.
pub fn one_view()
    ensures view { HasOneView }
    ensures spelled { SpellsOneThing }
{}

/// A payload has just the lists that are read in it, and so lists in one way at most.
pub fn lists_of_payload()
    ensures reads { ReadsItsLists }
    ensures had { HasReadLists }
{}

/// The lists of a view that keeps the rules of a view are such as a payload can have, and its payload has them. Any
/// payload that has them and is as that one outside of the lists is that one.
pub fn lists_of_view()
    ensures recorded { RecordsLists }
    ensures spelled { SpellsLists }
    ensures parts { IsToldByParts }
{}

/// A view that keeps the rules of a view is read from its payload.
pub fn reads_back()
    ensures { ReadsBack }
{}

/// The function that tells what a payload spells tells just what is spelled, of whatever bytes.
pub fn is_spelling()
    ensures { IsSpelling }
{}

/// Whatever has the lists of a view that keeps all rules, and outside of the lists what stands in the payload of that
/// view, shows that view.
pub fn by_parts()
    ensures { ShowsByParts }
{}
