//! A machine written into a payload.

ghost use Rattle.std.specs.Prelude.{◌≡◌, length};
ghost use Rattle.gd_base.specs.Payloads.Lists.{Lists};
ghost use Rattle.gd_base.specs.Payloads.Loading.{spelled};
ghost use Rattle.gd_base.specs.Payloads.Spelled.{Shows};
ghost use Rattle.gd_games.specs.Digest.{digest_of};
ghost use Rattle.gd_image.specs.Read.{view_by, with_lists};
ghost use Rattle.gd_machine.specs.Words.{machine_setup, machine_view, IsWhole};

use crate::fields::Fields;
use gd_base::PAYLOAD_LEN;
use gd_machine::Machine;

/// All that a machine's payload tells beside the lists, by reference.
fn fields_of(machine: &Machine) -> Fields<'_>
    ensures { (l : Lists) → view_by result l
        ≡ with_lists l (record (machine_view machine.now) { digest = digest_of (machine_setup machine.now) }) }
{
    Fields {
        digest: machine.digest(),
        count: machine.count(),
        account: machine.account(),
        payout: machine.payout(),
        conditions: machine.conditions(),
        open_play: machine.open_play(),
        kept: machine.all_kept(),
    }
}

/// Writes the payload that spells the machine's view, which keeps all rules of a view. No memory is taken, and each
/// byte but for zeros is written once.
pub(crate) fn write_machine(machine: &Machine, payload: &mut [u8])
    requires size { length payload.old ≡ PAYLOAD_LEN }
    requires whole { IsWhole (machine_setup machine.now) (machine_view machine.now) }
    ensures { spelled (machine_setup machine.now) (digest_of (machine_setup machine.now)) payload.new
        ≡ Shows (machine_view machine.now) }
{
    fields_of(machine).write(payload);
    machine.recall().write_image(payload);
}
