//! All of a view but its lists, written into a payload.

ghost use Rattle.std.specs.Prelude.{◌≡◌, ◌≤◌, ◌∷◌, [], IsTrue, length, option_copied};
ghost use Rattle.gd_base.specs.Payloads.Bytes.{flags, filled_part, open_bytes};
ghost use Rattle.gd_base.specs.Payloads.Lists.{no_lists};
ghost use Rattle.gd_base.specs.Payloads.ListsIn.{outside};
ghost use Rattle.gd_base.specs.Payloads.ViewRules.{is_open_as};
ghost use Rattle.gd_image.specs.Outside.{fields_bytes, outside_bytes, has_choice};
ghost use Rattle.gd_image.specs.Read.{view_by};

use crate::flags::{door_byte, tilt_byte};
use crate::kept::put_kept;
use crate::numbers::{put_bytes, put_number, put_numbers};
use crate::payouts::{handpay_image, order_image};
use gd_account::Account;
use gd_base::{
    BALANCE_AT, COUNT_AT, DOORS_AT, HANDPAY_AT, KEPT_AT, LISTS_AT, LISTS_LEN, OPEN_AT,
    OPEN_PLAY_LEN, ORDER_AT, PLAY_LEN, PLAYS_AT, PlayRecord, Reply, TOTALS_AT,
};
use gd_doors::Conditions;
use gd_payout::Payout;
use gd_recall::play_image;

/// All that a payload tells beside the lists: a setup's digest, the number of entries, and the parts of a machine.
#[derive(Drop)]
pub(crate) struct Fields<'a> {
    pub(crate) digest: &'a [u8; 32],
    pub(crate) count: u64,
    pub(crate) account: &'a Account,
    pub(crate) payout: &'a Payout,
    pub(crate) conditions: &'a Conditions,
    pub(crate) open_play: Option<&'a PlayRecord>,
    pub(crate) kept: &'a [(u64, Option<Reply>); 9],
}

/// The flags of the doors and those of the tilts, a byte each.
fn flags_image(conditions: &Conditions) -> [u8; 2]
    ensures { result ≡ flags conditions.now.doors ∷ flags conditions.now.tilts ∷ [] }
{
    let (doors, tilts) = conditions.parts();
    [door_byte(doors), tilt_byte(tilts)]
}

/// Writes the open play with a byte 1 before its record, and zeros behind it.
fn write_open(play: Option<&PlayRecord>, into: &mut [u8])
    requires size { length into.old ≡ OPEN_PLAY_LEN }
    requires choice { IsTrue (is_open_as has_choice (option_copied play)) }
    ensures { into.new ≡ filled_part OPEN_PLAY_LEN (open_bytes (option_copied play.entry)) }
{
    match play {
        None => into.fill(0),
        Some(play) => {
            let (mark, rest) = into.split_at_mut(1);
            let (record, zeros) = rest.split_at_mut(PLAY_LEN);
            mark.fill(1);
            record.copy_from_slice(&play_image(play));
            zeros.fill(0);
        }
    }
}

impl<'a> Fields<'a> {
    /// Writes the head but for the numbers of the lists.
    fn write_head(&self, head: &mut [u8])
        requires { length head.old ≡ LISTS_AT }
        ensures { head.new ≡ fields_bytes (view_by self.now no_lists) }
    {
        let digest = self.digest;
        let conditions = self.conditions;
        let kept = self.kept;
        put_bytes(head, 0, digest);
        put_number(head, COUNT_AT, self.count);
        put_number(head, BALANCE_AT, self.account.balance());
        put_numbers(head, TOTALS_AT, self.account.totals());
        put_bytes(head, DOORS_AT, &flags_image(conditions));
        let handpay = self.payout.open_handpay();
        put_bytes(head, HANDPAY_AT, &handpay_image(handpay));
        let order = self.payout.open_order();
        put_bytes(head, ORDER_AT, &order_image(self.payout.orders(), order));
        put_kept(head, KEPT_AT, kept);
    }

    /// Writes all that stands outside of the lists, and touches no place of a list. The records of the lists may be left
    /// out of what is written to.
    pub(crate) fn write(&self, payload: &mut [u8])
        requires size { PLAYS_AT ≤ length payload.old }
        requires choice { IsTrue (is_open_as has_choice (option_copied self.now.open_play)) }
        ensures written { outside payload.new ≡ outside_bytes (view_by self.now no_lists) }
        ensures size { length payload.new ≡ length payload.old }
    {
        let (head, rest) = payload.split_at_mut(LISTS_AT);
        let (_numbers, rest) = rest.split_at_mut(LISTS_LEN);
        let (zeros, rest) = rest.split_at_mut(OPEN_AT - LISTS_AT - LISTS_LEN);
        let (open, _lists) = rest.split_at_mut(OPEN_PLAY_LEN);
        self.write_head(head);
        zeros.fill(0);
        write_open(self.open_play, open);
    }
}
