//! Whether records of the lists keep the rules that no setup names, beside those that lists keep by themselves.

ghost use Rattle.std.specs.Prelude.{◌≡◌, ◌≤◌, ◌&&◌, IsTrue, length, map};
ghost use Rattle.std.specs.List.{list_all};
ghost use Rattle.gd_base.specs.Payloads.Recorded.{are_recorded};
ghost use Rattle.gd_base.specs.Payloads.ViewRules.{fall_from, is_event as is_event_of, is_play_record};
ghost use Rattle.gd_image.specs.Places.{is_newest_below};

use crate::all_of::all_of;
use crate::open_parts::is_whole_record;
use gd_base::{BILLS_KEPT, EVENTS_KEPT, EventRecord, PLAYS_KEPT, PlayRecord, VOUCHERS_KEPT};
use gd_recall::Recall;

/// Whether the newest place is below a limit.
fn is_below(newest: Option<u64>, limit: u128) -> bool
    ensures { result ≡ is_newest_below limit newest }
{
    match newest {
        None => true,
        Some(place) => u128::from(place) < limit,
    }
}

/// Whether the places of each list, which fall, are below their limits.
pub(crate) fn are_placed(recall: &Recall, play_limit: u128, limit: u128) -> bool
    requires { IsTrue (are_recorded recall.now.lists) }
    ensures { result ≡ (fall_from play_limit (map (λ p. p.place) recall.now.lists.plays)
        && fall_from limit (map (λ e. e.place) recall.now.lists.events)
        && fall_from limit (map (λ b. b.place) recall.now.lists.bills)
        && fall_from limit (map (λ r. r.place) recall.now.lists.vouchers)) }
{
    all_of(&[
        is_below(recall.play(0).map(|p| p.place), play_limit),
        is_below(recall.event(0).map(|e| e.place), limit),
        is_below(recall.bill(0).map(|b| b.place), limit),
        is_below(recall.voucher(0).map(|v| v.place), limit),
    ])
}

/// Whether a significant event has a code of the list, and a detail that goes with it.
fn is_event(event: &EventRecord) -> bool
    ensures { result ≡ is_event_of event.now }
{
    let detail = event.detail;
    match event.code {
        1 => detail == 0,
        2 | 3 => detail >= 1 && detail <= 4,
        4 | 5 => detail >= 5 && detail <= 10,
        6..=8 => true,
        _ => false,
    }
}

/// Whether each significant event has a detail of its code.
pub(crate) fn are_events(recall: &Recall) -> bool
    ensures { result ≡ list_all is_event_of recall.now.lists.events }
{
    for i in 0..recall.event_count() as u16 {
        match recall.event(i) {
            Some(event) => {
                if !is_event(&event) {
                    return false;
                }
            }
            None => return true,
        }
    }
    true
}

/// Whether the record of each finished play keeps its rules.
pub(crate) fn are_plays(recall: &Recall) -> bool
    ensures { result ≡ list_all is_play_record recall.now.lists.plays }
{
    for i in 0..recall.play_count() as u8 {
        match recall.play(i) {
            Some(play) => {
                if !is_whole_record(&play) {
                    return false;
                }
            }
            None => return true,
        }
    }
    true
}

/// What the room of the lists makes true.
pub(crate) fn are_short(recall: &Recall)
    ensures plays { length recall.now.lists.plays ≤ PLAYS_KEPT }
    ensures events { length recall.now.lists.events ≤ EVENTS_KEPT }
    ensures bills { length recall.now.lists.bills ≤ BILLS_KEPT }
    ensures vouchers { length recall.now.lists.vouchers ≤ VOUCHERS_KEPT }
{
    let _plays = recall.play_count();
    let _events = recall.event_count();
    let _bills = recall.bill_count();
    let _vouchers = recall.voucher_count();
}
