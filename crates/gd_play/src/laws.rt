//! How a machine's play is that of a history. Each function has an empty body, and its contract is a law.

ghost use Rattle.gd_play.specs.Histories.{JudgesAsRule, BeginsAsHistory, MovesAsHistory, KeepsRecord};

/// A pick, a hold, a gamble and a take are refused exactly as by the rule while nothing locks the machine up. The play
/// that is begun or moved on, the play that has ended, and their records are those of the history with the entry.
pub fn of_history()
    ensures judged { JudgesAsRule }
    ensures begun { BeginsAsHistory }
    ensures moved { MovesAsHistory }
    ensures record { KeepsRecord }
{}
