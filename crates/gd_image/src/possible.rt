//! Whether what was read is a view that keeps the rules that no setup names.

ghost use Rattle.std.specs.Prelude.{◌≡◌, ◌≤◌, ◌+◌, ◌<◌, ◌^◌, IsTrue, true, length, nat_lt};
ghost use Rattle.std.specs.List.{list_all};
ghost use Rattle.gd_base.specs.Payloads.Recorded.{are_recorded};
ghost use Rattle.gd_base.specs.Payloads.ViewRules.{is_possible as is_possible_view, are_places as are_places_of};
ghost use Rattle.gd_image.specs.Read.{read_view};

use crate::all_of::all_of;
use crate::counts::{are_numbered, are_within};
use crate::open_parts::{
    has_number, is_one_open, is_open_placed, is_open_record, is_small_order, is_some_handpay,
};
use crate::read_fields::ReadFields;
use crate::recalled::{are_events, are_placed, are_plays, are_short};
use crate::sums::are_balanced;
use gd_base::{MOST_ENTRIES, Reply};
use gd_recall::Recall;

/// What the type of bytes makes true.
fn bytes_fit(bytes: &[u8])
    ensures { list_all (λ b. nat_lt b 256) bytes.now ≡ true }
{}

/// What the type of totals makes true.
fn totals_fit(totals: &[u64; 16])
    ensures { length totals.now ≡ 16 }
{}

/// What the type of what is kept makes true.
fn kept_fit(kept: &[(u64, Option<Reply>); 9])
    ensures { length kept.now ≡ 9 }
{}

/// What the types of the fields make true.
fn fields_fit(fields: &ReadFields)
    ensures digest { length fields.now.digest ≡ 32 }
    ensures bytes { list_all (λ b. nat_lt b 256) fields.now.digest ≡ true }
    ensures totals { length fields.now.parts.account.totals ≡ 16 }
    ensures doors { length fields.now.parts.conditions.doors ≡ 4 }
    ensures tilts { length fields.now.parts.conditions.tilts ≡ 6 }
    ensures kept { length fields.now.parts.kept ≡ 9 }
{
    bytes_fit(&fields.digest);
    totals_fit(fields.parts.account.totals());
    let _flags = fields.parts.conditions.parts();
    kept_fit(&fields.parts.kept);
}

/// Whether the places of the lists are at most the count of entries, and those of the finished plays below that of the
/// open one.
fn are_places(fields: &ReadFields, recall: &Recall) -> bool
    requires { IsTrue (are_recorded recall.now.lists) }
    ensures { result ≡ are_places_of (read_view fields.now recall.now.lists) }
{
    let limit = u128::from(fields.count) + 1;
    match &fields.parts.open_play {
        None => are_placed(recall, limit, limit),
        Some(play) => are_placed(recall, u128::from(play.place), limit),
    }
}

/// Whether what was read keeps the rules that no setup names. The lists are such as a payload can have.
pub(crate) fn is_possible(fields: &ReadFields, recall: &Recall) -> bool
    requires { IsTrue (are_recorded recall.now.lists) }
    ensures { result ≡ is_possible_view (read_view fields.now recall.now.lists) }
{
    fields_fit(fields);
    are_short(recall);
    let payout = &fields.parts.payout;
    let order = payout.open_order();
    let handpay = payout.open_handpay();
    let is_open = fields.parts.open_play.is_some();
    all_of(&[
        fields.count <= MOST_ENTRIES,
        are_numbered(&fields.parts.kept, fields.count),
        are_balanced(fields),
        are_within(fields.parts.account.totals(), fields.count),
        payout.orders() <= fields.count,
        are_places(fields, recall),
        is_small_order(order),
        has_number(payout.orders(), order),
        is_some_handpay(handpay),
        is_one_open(order.is_some(), handpay.is_some(), is_open),
        are_events(recall),
        are_plays(recall),
        is_open_record(&fields.parts.open_play),
        is_open_placed(&fields.parts.open_play, fields.count),
    ])
}
