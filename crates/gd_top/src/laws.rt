//! What holds of every history. Each contract is a law, and its function has an empty body, or calls another law.

ghost use Rattle.gd_base.specs.declared.setup.Setup.{Setup as SetupData};
ghost use Rattle.gd_base.specs.Judging.Machine.{Blocks};
ghost use Rattle.gd_machine.specs.Meaning.{the_machine};
ghost use Rattle.gd_top.specs.Claims.AllRules.{SpellsEachHistory};
ghost use Rattle.gd_top.specs.Claims.NothingLost.{Acknowledged, NothingLost};
ghost use Rattle.gd_top.specs.Claims.OneHistory.{BeginsEmpty, OneLegalHistory, OneLegalHistoryOverImages};
ghost use Rattle.gd_top.specs.Examples.Alterations.{AlteredBefore, AlteredCopies, ForgedImages, Locks};
ghost use Rattle.gd_top.specs.Examples.Clearing.{Cleared, ClearingsCut, UnderLock};
ghost use Rattle.gd_top.specs.Examples.Cuts.{ArmedCuts, CutsAtCalls, CutsAtSyncs, Flights, Limits, OtherViews, Synced};
ghost use Rattle.gd_top.specs.Examples.OverProduct.{ProductAlterations, ProductPowerCuts, ProductReports};
ghost use Rattle.gd_top.specs.Examples.Reports.{ImageReports, PlainReports, RepeatsAndSteps, ScriptFaults};

use gd_base::Setup;
use gd_machine::laws::empty_is_whole;

/// In every trial and in every run over an image, whatever is found and wherever the power falls, the history is legal
/// and the view is its view. In a trial it begins with the empty view, unless a view was found that no order of writing
/// explains.
pub fn one_legal_history()
    ensures trials { (setup : SetupData) (blocks : Blocks)
        → OneLegalHistory (the_machine setup) blocks }
    ensures images { (setup : SetupData) (blocks : Blocks)
        → OneLegalHistoryOverImages (the_machine setup) blocks }
    ensures begins { (setup : SetupData) (blocks : Blocks)
        → BeginsEmpty (the_machine setup) blocks }
{}

/// What was recorded at the end of a line of a trial stays recorded, whatever is found and wherever the power falls, until
/// a memory is cleared or a view is found that no order of writing explains. The line of an event ends with its answer, and
/// what it acknowledges is recorded then.
pub fn nothing_lost()
    ensures stays { (setup : SetupData) (blocks : Blocks)
        → NothingLost (the_machine setup) blocks }
    ensures acknowledged { (setup : SetupData) (blocks : Blocks)
        → Acknowledged (the_machine setup) blocks }
{}

/// The view of each legal history from nothing keeps all rules of a view: no money is lost or made, no number is too wide
/// for its place in a payload, and the open play is one that its words and choices allow. Its payload spells it. So it is
/// where blocks are of sixteen words of 64 bits, and a voucher's id has 64 bits.
pub fn all_rules_kept(setup: &Setup)
    ensures { SpellsEachHistory setup.now }
{
    empty_is_whole(setup);
}

/// Reports, statuses and counts of whole runs are as `specs/Examples` has them: over a machine that takes bills alone, and
/// over the machine of the product.
pub fn example_reports()
    ensures plain { PlainReports }
    ensures repeats { RepeatsAndSteps }
    ensures faults { ScriptFaults }
    ensures images { ImageReports }
    ensures syncs { CutsAtSyncs }
    ensures calls { CutsAtCalls }
    ensures armed { ArmedCuts }
    ensures synced { Synced }
    ensures limits { Limits }
    ensures other_views { OtherViews }
    ensures flights { Flights }
    ensures altered { AlteredCopies }
    ensures locks { Locks }
    ensures altered_before { AlteredBefore }
    ensures forged { ForgedImages }
    ensures under_lock { UnderLock }
    ensures cleared { Cleared }
    ensures clearings { ClearingsCut }
    ensures product { ProductReports }
    ensures product_cuts { ProductPowerCuts }
    ensures product_alterations { ProductAlterations }
{}
