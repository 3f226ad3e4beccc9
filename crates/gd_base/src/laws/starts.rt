//! Starts.

ghost use Rattle.std.specs.Prelude.{◌≡◌, false};
ghost use Rattle.gd_base.specs.declared.event.Event.{Event};
ghost use Rattle.gd_base.specs.declared.refusal.Reply.{Reply};
ghost use Rattle.gd_base.specs.declared.setup.Setup.{Setup};
ghost use Rattle.gd_base.specs.Judging.Draws.{is_drawn};
ghost use Rattle.gd_base.specs.Judging.Rule.{rule};
ghost use Rattle.gd_base.specs.Histories.View.{View};

/// A start is taken whatever stands open, and draws nothing.
pub fn always_taken()
    ensures taken { (setup : Setup) (v : View) → rule setup v Event.Start ≡ Reply.Taken }
    ensures undrawn { (setup : Setup) (v : View) → is_drawn setup v Event.Start ≡ false }
{}
