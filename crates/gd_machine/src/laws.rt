//! What is known of the machine's meaning. Each contract is a law: its function has an empty body, or tells what a type
//! makes true.

ghost use Rattle.gd_base.specs.declared.setup.Setup.{Setup as SetupData};
ghost use Rattle.gd_base.specs.Histories.ViewOf.{empty_view};
ghost use Rattle.gd_base.specs.Laws.TellsViews.{TellsViews};
ghost use Rattle.gd_games.specs.Digest.{digest_of};
ghost use Rattle.gd_machine.specs.Meaning.{the_machine};
ghost use Rattle.gd_machine.specs.Words.{IsWhole};

use crate::machine::digest_fits;
use gd_base::Setup;
use gd_games::setup_digest;

/// Two views that payloads spell, and that the test calls the same, are one; and a view that a payload spells, with no
/// entry and with the text of the empty state, is the empty view. So it is under each setup.
pub fn tells_views()
    ensures { (setup : SetupData) → TellsViews (the_machine setup) }
{}

/// The view of the empty history keeps all rules of a view.
pub fn empty_is_whole(setup: &Setup)
    ensures { IsWhole setup.now (empty_view (digest_of setup.now)) }
{
    digest_fits(&setup_digest(setup));
}
