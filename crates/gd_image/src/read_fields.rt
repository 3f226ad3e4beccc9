//! All of a view but its lists, read of a payload.

ghost use Rattle.std.specs.Prelude.{◌≡◌, ◌≤◌, length, take};
ghost use Rattle.gd_base.specs.Payloads.ListsIn.{lists_read};
ghost use Rattle.gd_base.specs.Payloads.Lists.{Lists};
ghost use Rattle.gd_base.specs.Payloads.Loading.{view_read};
ghost use Rattle.gd_base.specs.Payloads.Reading.{number_at, open_read, order_of, sixteen_at};
ghost use Rattle.gd_image.specs.Read.{read_view, view_by};

use crate::fields::Fields;
use crate::flags::{door_flags, tilt_flags};
use crate::kept::all_kept_at;
use crate::numbers::number_at;
use crate::payouts::{handpay_at, order_of_kind};
use gd_account::{Account, AccountParts};
use gd_base::{
    BALANCE_AT, COUNT_AT, DOORS_AT, HANDPAY_AT, KEPT_AT, OPEN_AT, ORDER_AMOUNT_AT, ORDER_AT,
    ORDERS_AT, PAYLOAD_LEN, PlayRecord, SETUP_DIGEST_LEN, TILTS_AT, TOTALS_AT,
};
use gd_doors::Conditions;
use gd_machine::MachineParts;
use gd_payout::Payout;
use gd_recall::read_play;

/// All that a payload tells beside the lists, as [`Fields`], read and owned.
#[derive(Drop)]
pub(crate) struct ReadFields {
    pub(crate) digest: [u8; 32],
    pub(crate) count: u64,
    pub(crate) parts: MachineParts,
}

impl ReadFields {
    /// The same by reference.
    pub(crate) fn fields(&self) -> Fields<'_>
        ensures { (l : Lists) → view_by result l ≡ read_view self.now l }
    {
        Fields {
            digest: &self.digest,
            count: self.count,
            account: &self.parts.account,
            payout: &self.parts.payout,
            conditions: &self.parts.conditions,
            open_play: self.parts.open_play.as_ref(),
            kept: &self.parts.kept,
        }
    }
}

/// The setup's digest.
fn digest_in(payload: &[u8]) -> [u8; 32]
    requires { SETUP_DIGEST_LEN ≤ length payload.now }
    ensures { result ≡ take SETUP_DIGEST_LEN payload.now }
{
    let mut digest = [0; 32];
    digest.copy_from_slice(&payload[..SETUP_DIGEST_LEN]);
    digest
}

/// The balance and the sixteen totals.
fn account_in(payload: &[u8]) -> Account
    requires { length payload.now ≡ PAYLOAD_LEN }
    ensures balance { result.balance ≡ number_at BALANCE_AT payload.now }
    ensures totals { result.totals ≡ sixteen_at TOTALS_AT payload.now }
{
    Account::from_parts(AccountParts {
        balance: number_at(payload, BALANCE_AT),
        amounts: [
            number_at(payload, TOTALS_AT),
            number_at(payload, TOTALS_AT + 8),
            number_at(payload, TOTALS_AT + 16),
            number_at(payload, TOTALS_AT + 24),
            number_at(payload, TOTALS_AT + 32),
            number_at(payload, TOTALS_AT + 40),
            number_at(payload, TOTALS_AT + 48),
            number_at(payload, TOTALS_AT + 56),
            number_at(payload, TOTALS_AT + 64),
        ],
        counts: [
            number_at(payload, TOTALS_AT + 72),
            number_at(payload, TOTALS_AT + 80),
            number_at(payload, TOTALS_AT + 88),
            number_at(payload, TOTALS_AT + 96),
            number_at(payload, TOTALS_AT + 104),
            number_at(payload, TOTALS_AT + 112),
            number_at(payload, TOTALS_AT + 120),
        ],
    })
}

/// The number of orders so far, the open order and the open handpay.
fn payout_in(payload: &[u8]) -> Payout
    requires { length payload.now ≡ PAYLOAD_LEN }
    ensures orders { result.orders ≡ (view_read payload.now).orders }
    ensures order { result.order ≡ (view_read payload.now).order }
    ensures handpay { result.handpay ≡ (view_read payload.now).handpay }
{
    let orders = number_at(payload, ORDERS_AT);
    let amount = number_at(payload, ORDER_AMOUNT_AT);
    let order = order_of_kind(payload[ORDER_AT], orders, amount);
    Payout::from_parts(orders, order, handpay_at(payload, HANDPAY_AT))
}

/// The open play behind a byte that isn't 0, or none.
fn open_play_in(payload: &[u8]) -> Option<PlayRecord>
    requires { length payload.now ≡ PAYLOAD_LEN }
    ensures { result ≡ open_read OPEN_AT payload.now }
{
    match payload[OPEN_AT] {
        0 => None,
        _ => Some(read_play(payload, OPEN_AT + 1)),
    }
}

/// All that a payload tells beside the lists, whatever its bytes are.
pub(crate) fn read_fields(payload: &[u8]) -> ReadFields
    requires { length payload.now ≡ PAYLOAD_LEN }
    ensures { read_view result (lists_read payload.now) ≡ view_read payload.now }
{
    ReadFields {
        digest: digest_in(payload),
        count: number_at(payload, COUNT_AT),
        parts: MachineParts {
            account: account_in(payload),
            payout: payout_in(payload),
            conditions: Conditions::from_parts(
                door_flags(payload[DOORS_AT]),
                tilt_flags(payload[TILTS_AT]),
            ),
            open_play: open_play_in(payload),
            kept: all_kept_at(payload, KEPT_AT),
        },
    }
}
