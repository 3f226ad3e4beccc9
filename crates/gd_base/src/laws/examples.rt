//! Worked examples, which are computed.

ghost use Rattle.gd_base.specs.Examples.Chance.{Hands, LeastWords, LineRows, Straights, TableRows, Windows};
ghost use Rattle.gd_base.specs.Examples.FullHistory.{FullHistory};
ghost use Rattle.gd_base.specs.Examples.Histories.{AceLow, CancelledCredit, Evening, Gambles, HopperRunsEmpty};
ghost use Rattle.gd_base.specs.Examples.Histories.{OneBill, Pick, RollsOver, RoyalFlush, Vouchers};
ghost use Rattle.gd_base.specs.Examples.Loading.{AreForeign, AreShown, NoneSpelled, OneByte};
ghost use Rattle.gd_base.specs.Examples.Payloads.{ArePossible, Lengths};
ghost use Rattle.gd_base.specs.Examples.Premises.{ArePremises};
ghost use Rattle.gd_base.specs.Examples.Texts.{Logs, MetersText, Orders, Recalls, States};

/// The tables, and what words, windows, lines, prizes and hands show and win, are as `specs/Examples/Chance` has them.
pub fn chance()
    ensures words { LeastWords }
    ensures windows { Windows }
    ensures hands { Hands }
    ensures tables { TableRows }
    ensures lines { LineRows }
    ensures straights { Straights }
{}

/// Replies, totals and balances of whole histories are as `specs/Examples/Histories` has them.
pub fn histories()
    ensures one_bill { OneBill }
    ensures rolls_over { RollsOver }
    ensures pick { Pick }
    ensures vouchers { Vouchers }
    ensures royal_flush { RoyalFlush }
    ensures hopper { HopperRunsEmpty }
    ensures ace_low { AceLow }
    ensures gambles { Gambles }
    ensures evening { Evening }
    ensures cancelled { CancelledCredit }
{}

/// Texts of views are as `specs/Examples/Texts` has them.
pub fn texts()
    ensures meters { MetersText }
    ensures states { States }
    ensures orders { Orders }
    ensures recalls { Recalls }
    ensures logs { Logs }
{}

/// The lengths of payloads, and the views that keep the rules of a view, are as `specs/Examples/Payloads` has them.
pub fn payloads()
    ensures lengths { Lengths }
    ensures possible { ArePossible }
{}

/// What payloads spell, and what they spell with a byte changed, is as `specs/Examples/Loading` has it.
pub fn loading()
    ensures shown { AreShown }
    ensures foreign { AreForeign }
    ensures byte { OneByte }
    ensures none { NoneSpelled }
{}

/// A history of 2^36 entries is shown by a view that a payload spells, and answers as `specs/Examples/FullHistory` has
/// it.
pub fn full_history()
    ensures { FullHistory }
{}

/// What `laws::rules::all_kept` asks of the id of a voucher and of blocks is needed: an id of 65 bits is taken, and a
/// block of fifteen words or of wider ones is drawn, and the view after it breaks a rule.
pub fn premises()
    ensures { ArePremises }
{}
