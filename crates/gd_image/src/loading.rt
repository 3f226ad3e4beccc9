//! A machine taken from a payload.

ghost use Rattle.std.specs.Prelude.{◌≡◌, length, map, sum, None, Some};
ghost use Rattle.gd_base.specs.declared.step.Loaded.{Loaded as LoadedData};
ghost use Rattle.gd_base.specs.Payloads.Lists.{Lists};
ghost use Rattle.gd_base.specs.Payloads.ListsIn.{lists_in, lists_read};
ghost use Rattle.gd_base.specs.Payloads.LoadedView.{view_loaded};
ghost use Rattle.gd_base.specs.Payloads.Loading.{spelled, view_read};
ghost use Rattle.gd_base.specs.Payloads.Spelled.{Shows, load_answer};
ghost use Rattle.gd_games.specs.Digest.{digest_of};
ghost use Rattle.gd_image.specs.Read.{is_read, read_view};
ghost use Rattle.gd_machine.specs.Meaning.{the_machine};
ghost use Rattle.gd_machine.specs.Words.{machine_setup, machine_view, IsWhole};

use crate::read_fields::{ReadFields, read_fields};
use crate::spelling::spelling;
use gd_account::{Account, AccountParts};
use gd_base::{Loaded, PAYLOAD_LEN};
use gd_doors::Conditions;
use gd_machine::{Machine, MachineParts};
use gd_payout::Payout;

/// The parts of a machine of the empty history.
fn no_parts() -> MachineParts
    ensures numbers { sum (map (λ k. k.0) result.kept) ≡ 0 }
    ensures play { result.open_play ≡ None }
{
    MachineParts {
        account: Account::from_parts(AccountParts {
            balance: 0,
            amounts: [0; 9],
            counts: [0; 7],
        }),
        payout: Payout::from_parts(0, None, None),
        conditions: Conditions::from_parts([false; 4], [false; 6]),
        open_play: None,
        kept: [(0, None); 9],
    }
}

/// Whether the answer is Read.
fn is_read(loaded: Loaded) -> bool
    ensures { result ≡ is_read loaded }
{
    match loaded {
        Loaded::Read => true,
        _ => false,
    }
}

/// Puts the lists of a payload into the machine, and tells what the payload spells to it. The fields were read of it.
fn told(machine: &mut Machine, fields: &ReadFields, payload: &[u8]) -> Loaded
    requires size { length payload.now ≡ PAYLOAD_LEN }
    requires fields { read_view fields.now (lists_read payload.now) ≡ view_read payload.now }
    ensures setup { machine_setup machine.new ≡ machine_setup machine.old }
    ensures answer { result
        ≡ load_answer (spelled (machine_setup machine.old) (digest_of (machine_setup machine.old)) payload.now) }
    ensures shown { result ≡ LoadedData.Read → (l : Lists) × (lists_in payload.now ≡ Some l)
        × (spelled (machine_setup machine.old) (digest_of (machine_setup machine.old)) payload.now ≡ Shows (read_view fields.now l)) }
{
    if !machine.restore(no_parts(), payload) {
        return Loaded::Unreadable;
    }
    spelling(
        machine.setup(),
        machine.digest(),
        fields,
        machine.recall(),
        payload,
    )
}

/// Makes the machine that of the view that a payload spells to it. After any other answer than Read it is as after
/// `clear`.
pub(crate) fn load_machine(machine: &mut Machine, payload: &[u8]) -> Loaded
    requires { length payload.now ≡ PAYLOAD_LEN }
    ensures setup { machine_setup machine.new ≡ machine_setup machine.old }
    ensures answer { result
        ≡ load_answer (spelled (machine_setup machine.old) (digest_of (machine_setup machine.old)) payload.now) }
    ensures view { machine_view machine.new ≡ view_loaded (the_machine (machine_setup machine.old))
        (spelled (machine_setup machine.old) (digest_of (machine_setup machine.old)) payload.now) }
    ensures whole { IsWhole (machine_setup machine.new) (machine_view machine.new) }
{
    let fields = read_fields(payload);
    let loaded = told(machine, &fields, payload);
    if !is_read(loaded) {
        machine.clear();
        return loaded;
    }
    machine.restore(fields.parts, payload);
    loaded
}
