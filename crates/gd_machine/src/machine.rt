//! The machine.

ghost use Rattle.std.specs.Prelude.{◌≡◌, IfOk, true, length, nat_lt, option_copied, replicate};
ghost use Rattle.std.specs.List.{list_all};
ghost use Rattle.gd_base.specs.Histories.Devices.{kept_at};
ghost use Rattle.gd_base.specs.Histories.Numbers.{device_place};
ghost use Rattle.gd_base.specs.Histories.ViewOf.{empty_view};
ghost use Rattle.gd_base.specs.Payloads.Lists.{lists_of};
ghost use Rattle.gd_games.specs.Digest.{digest_of};
ghost use Rattle.gd_play.specs.Moving.{open_stage_of};
ghost use Rattle.gd_play.specs.PlayMachine.{play_machine_play, play_machine_stage, play_machine_table};

mod conditions;
mod judging;
mod money;
mod noting;
mod paying;
mod playing;
mod restoring;
mod settling;
mod showing;
mod stepping;

use crate::games::Games;
use gd_account::{Account, AccountParts};
use gd_base::{Device, PlayRecord, Reply, Setup};
use gd_doors::Conditions;
use gd_games::setup_digest;
use gd_payout::Payout;
use gd_play::PlayMachine;
use gd_recall::Recall;
use std::alloc::{AllocError, Global};

/// The machine: money, what is to be paid out, doors and tilts, the one open play, each device's last number and the
/// reply to it, and what is recalled. Contracts see its setup and its view.
#[derive(Drop)]
pub struct Machine {
    setup: Setup,
    digest: [u8; 32],
    count: u64,
    account: Account,
    payout: Payout,
    conditions: Conditions,
    plays: PlayMachine<Games>,
    kept: [(u64, Option<Reply>); 9],
    recall: Recall,
    ghost has_digest: { digest ≡ digest_of setup },
    ghost has_table: { (play_machine_table plays).setup ≡ setup },
    ghost has_stage: { play_machine_stage plays ≡ open_stage_of setup (play_machine_play plays) },
}

impl Machine {
    ghost use Rattle.gd_machine.specs.Words.{machine_setup, machine_view, IsWhole};

    /// A machine of the empty history, or that there is no memory for its recall.
    pub fn new(alloc: Global, setup: Setup) -> Result<Machine, AllocError>
        ensures setup { IfOk result (λ m. machine_setup m ≡ setup) }
        ensures empty { IfOk result (λ m. machine_view m ≡ empty_view (digest_of setup)) }
        ensures whole { IfOk result (λ m. IsWhole (machine_setup m) (machine_view m)) }
    {
        let recall = Recall::new(alloc)?;
        let digest = setup_digest(&setup);
        digest_fits(&digest);
        Ok(Machine {
            setup,
            digest,
            count: 0,
            account: no_money(),
            payout: Payout::from_parts(0, None, None),
            conditions: Conditions::from_parts([false; 4], [false; 6]),
            plays: PlayMachine::from_parts(Games { setup }, None),
            kept: [(0, None); 9],
            recall,
        })
    }

    /// Makes it a machine of the empty history.
    pub fn clear(&mut self)
        ensures setup { machine_setup self.new ≡ machine_setup self.old }
        ensures empty { machine_view self.new ≡ empty_view (digest_of (machine_setup self.old)) }
        ensures whole { IsWhole (machine_setup self.new) (machine_view self.new) }
    {
        digest_fits(&self.digest);
        self.count = 0;
        self.account = no_money();
        self.payout = Payout::from_parts(0, None, None);
        self.conditions = Conditions::from_parts([false; 4], [false; 6]);
        self.plays = PlayMachine::from_parts(Games { setup: self.setup }, None);
        self.kept = [(0, None); 9];
        self.recall.clear();
    }

    /// Its setup.
    pub fn setup(&self) -> &Setup
        ensures { result.now ≡ machine_setup self.now }
    {
        &self.setup
    }

    /// The digest of its setup.
    pub fn digest(&self) -> &[u8; 32]
        ensures { result.now ≡ digest_of (machine_setup self.now) }
    {
        &self.digest
    }

    /// How many entries its history has.
    pub fn count(&self) -> u64
        ensures { result ≡ (machine_view self.now).count }
    {
        self.count
    }

    /// The balance and the meters.
    pub fn account(&self) -> &Account
        ensures balance { result.now.balance ≡ (machine_view self.now).balance }
        ensures totals { result.now.totals ≡ (machine_view self.now).totals }
    {
        &self.account
    }

    /// What is to be paid out.
    pub fn payout(&self) -> &Payout
        ensures orders { result.now.orders ≡ (machine_view self.now).orders }
        ensures order { result.now.order ≡ (machine_view self.now).order }
        ensures handpay { result.now.handpay ≡ (machine_view self.now).handpay }
    {
        &self.payout
    }

    /// Which doors are open and which tilts stand.
    pub fn conditions(&self) -> &Conditions
        ensures doors { result.now.doors ≡ (machine_view self.now).doors }
        ensures tilts { result.now.tilts ≡ (machine_view self.now).tilts }
    {
        &self.conditions
    }

    /// What is recalled.
    pub fn recall(&self) -> &Recall
        ensures { result.now.lists ≡ lists_of (machine_view self.now) }
    {
        &self.recall
    }

    /// The play that is open, if there is one.
    pub fn open_play(&self) -> Option<&PlayRecord>
        ensures { option_copied result ≡ (machine_view self.now).play }
    {
        self.plays.open()
    }

    /// A device's last number, and the reply to it.
    pub fn kept(&self, device: Device) -> (u64, Option<Reply>)
        ensures { result ≡ kept_at (machine_view self.now).kept (device_place device) }
    {
        self.kept[device.place()]
    }

    /// Each device's last number, and the reply to it, in the order of the devices.
    pub fn all_kept(&self) -> &[(u64, Option<Reply>); 9]
        ensures { result.now ≡ (machine_view self.now).kept }
    {
        &self.kept
    }
}

/// What the type of bytes makes true.
fn bytes_fit(bytes: &[u8])
    ensures { list_all (λ b. nat_lt b 256) bytes.now ≡ true }
{}

/// What the type of a digest makes true.
pub(crate) fn digest_fits(digest: &[u8; 32])
    ensures long { length digest.now ≡ 32 }
    ensures bytes { list_all (λ b. nat_lt b 256) digest.now ≡ true }
{
    bytes_fit(digest);
}

/// An account without money.
pub(crate) fn no_money() -> Account
    ensures { result ≡ record { balance = 0; totals = replicate 16 0 } }
{
    Account::from_parts(AccountParts {
        balance: 0,
        amounts: [0; 9],
        counts: [0; 7],
    })
}
