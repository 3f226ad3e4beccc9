//! What a payload spells, by what was read of it.

ghost use Rattle.std.specs.Prelude.{◌≡◌, IsTrue, length, Some};
ghost use Rattle.gd_base.specs.declared.step.Loaded.{Loaded as LoadedData};
ghost use Rattle.gd_base.specs.Judging.Product.{same_numbers};
ghost use Rattle.gd_base.specs.Payloads.Lists.{no_lists};
ghost use Rattle.gd_base.specs.Payloads.ListsIn.{lists_in, lists_read, outside};
ghost use Rattle.gd_base.specs.Payloads.Loading.{spelled, told_under, view_read};
ghost use Rattle.gd_base.specs.Payloads.Spelled.{Shows, load_answer};
ghost use Rattle.gd_base.specs.Payloads.ViewRules.{is_open_as, is_possible as is_possible_view};
ghost use Rattle.gd_image.specs.Outside.{has_choice, outside_bytes};
ghost use Rattle.gd_image.specs.Read.{read_view};

use crate::all_of::{all_of, are_same, are_same_between};
use crate::possible::is_possible;
use crate::read_fields::ReadFields;
use crate::under_setup::is_possible_under;
use gd_base::{LISTS_AT, LISTS_LEN, Loaded, PAYLOAD_LEN, PLAYS_AT, Setup};
use gd_recall::Recall;

/// Whether the fields, written again, are what stands outside of the lists.
fn stand_outside(fields: &ReadFields, payload: &[u8]) -> bool
    requires size { length payload.now ≡ PAYLOAD_LEN }
    requires choice { IsTrue (is_open_as has_choice fields.now.parts.open_play) }
    ensures { result ≡ same_numbers (outside payload.now) (outside_bytes (read_view fields.now no_lists)) }
{
    let mut written = [0; PLAYS_AT];
    fields.fields().write(&mut written);
    all_of(&[
        are_same_between(payload, &written, 0, LISTS_AT),
        are_same_between(payload, &written, LISTS_AT + LISTS_LEN, PLAYS_AT),
    ])
}

/// What is told of a view that keeps the rules that no setup names: that it is one of this setup, whose digest is given,
/// or of another, or none. Rules that name the setup are tried on its own views alone.
fn told_under(setup: &Setup, digest: &[u8; 32], fields: &ReadFields, recall: &Recall) -> Loaded
    requires { IsTrue (is_possible_view (read_view fields.now recall.now.lists)) }
    ensures { result ≡ load_answer (told_under setup.now digest.now (read_view fields.now recall.now.lists)) }
{
    if !are_same(&fields.digest, digest) {
        return Loaded::Differs {
            kept: fields.digest,
        };
    }
    if !is_possible_under(setup, fields, recall) {
        return Loaded::Unreadable;
    }
    Loaded::Read
}

/// What a payload spells to a machine of this setup, whose digest is given, where the fields and the lists were read of
/// it: a view, a view of another setup, or none. What no setup names is tried first.
pub(crate) fn spelling(
    setup: &Setup,
    digest: &[u8; 32],
    fields: &ReadFields,
    recall: &Recall,
    payload: &[u8],
) -> Loaded
    requires size { length payload.now ≡ PAYLOAD_LEN }
    requires fields { read_view fields.now (lists_read payload.now) ≡ view_read payload.now }
    requires lists { lists_in payload.now ≡ Some recall.now.lists }
    ensures answer { result ≡ load_answer (spelled setup.now digest.now payload.now) }
    ensures shown { result ≡ LoadedData.Read →
        spelled setup.now digest.now payload.now ≡ Shows (read_view fields.now recall.now.lists) }
{
    if !is_possible(fields, recall) {
        return Loaded::Unreadable;
    }
    if !stand_outside(fields, payload) {
        return Loaded::Unreadable;
    }
    told_under(setup, digest, fields, recall)
}
