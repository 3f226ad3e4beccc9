//! What the player chooses.

ghost use Rattle.std.specs.Prelude.{◌≡◌, ◌<◌, ◌+◌, ◌*◌, ◌^◌, IsTrue, if◌then◌else◌, Some, None};
ghost use Rattle.gd_base.specs.Histories.Rounds.{colour_bit};
ghost use Rattle.gd_play.specs.Judging.{is_choosing, choice_in, asks_for};

use gd_base::{Colour, Event, MOST_HOLD, MOST_PICK, MOST_TURNS, StageOpen};

/// The choice that a pick or a hold makes, if the stage asks for it.
pub(crate) fn choice_of(phase: StageOpen, event: Event) -> Option<u8>
    requires { IsTrue (is_choosing event) }
    ensures { result ≡ if asks_for phase event then Some (choice_in event) else None }
{
    match (phase, event) {
        (StageOpen::Pick, Event::Pick { door }) if 1 <= door && door <= MOST_PICK => Some(door),
        (StageOpen::Hold, Event::Hold { mask }) if mask <= MOST_HOLD => Some(mask),
        _ => None,
    }
}

/// The colours with that of one turn more: bit t - 1 is 1 for black in turn t.
pub(crate) fn with_colour(colours: u8, turns: u8, colour: Colour) -> u8
    requires turns { turns < MOST_TURNS }
    requires colours { colours < 2 ^ turns }
    ensures { result ≡ colours + colour_bit colour * 2 ^ turns }
{
    match colour {
        Colour::Red => colours,
        Colour::Black => colours + (1 << turns),
    }
}
