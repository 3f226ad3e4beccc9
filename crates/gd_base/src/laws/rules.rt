//! The rules of a view.

ghost use Rattle.gd_base.specs.Laws.Preserved.{KeepsAllRules, KeepsAllRulesOver};

/// The next entry of the machine, over a view that keeps all rules of a view and those of its setup, keeps them all. It
/// is so for each event, where blocks are of sixteen words of 64 bits, and a voucher's id has 64 bits.
pub fn all_kept()
    ensures { KeepsAllRules }
{}

/// So does each legal history over such a view, where the same holds of the blocks and of the id of each voucher.
pub fn all_kept_over()
    ensures { KeepsAllRulesOver }
{}
