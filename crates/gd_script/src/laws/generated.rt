//! What comes among the items of a soak run.

ghost use Rattle.std.specs.Prelude.{◌≡◌, ◌==◌, ◌≤◌, ◌%◌, ℕ, true};
ghost use Rattle.std.specs.List.{count_by};
ghost use Rattle.gd_script.specs.declared.limits.TheConstants.{MOST_GENERATED};
ghost use Rattle.gd_script.specs.Generated.{generated, is_soak_item, items_generated};
ghost use Rattle.gd_script.specs.Items.{is_cut};

/// Each item is an event other than a start, under its device's next number, an event of an order, or a cut. A cut comes in
/// the middle of each 500, and nowhere else.
pub fn soak_items()
    ensures kinds { (seed k : ℕ) → is_soak_item (generated seed k) ≡ true }
    ensures cuts { (seed k : ℕ) → is_cut (generated seed k) ≡ (k % 500 == 250) }
{}

/// Of as many items as a run can have at most 200 are cuts.
pub fn few_cuts()
    ensures { (seed n : ℕ) → n ≤ MOST_GENERATED → count_by is_cut (items_generated seed n) ≤ 200 }
{}
