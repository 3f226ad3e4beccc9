//! The indexes of blocks.

ghost use Rattle.gd_base.specs.declared.setup.Setup.{Setup};
ghost use Rattle.gd_base.specs.Histories.Entry.{Entry};
ghost use Rattle.gd_base.specs.Laws.Indexes.{MovesIndex, RiseStrictly, NoneIsZero};
ghost use Rattle.gd_base.specs.Histories.View.{View};

/// No block is used twice in one history, and block 0 in none that begins with a start.
pub fn no_block_twice()
    ensures step { (setup : Setup) (v : View) (e : Entry) → MovesIndex setup v e }
    ensures rise { RiseStrictly }
    ensures none_is_zero { NoneIsZero }
{}
