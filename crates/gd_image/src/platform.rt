//! The machine as a core: the struct alone.

ghost use Rattle.gd_machine.specs.Words.{machine_setup, machine_view, IsWhole};

use gd_machine::Machine;

/// A machine whose view keeps all rules of a view, so that each of its calls may be made at any time. It is the core of
/// the product. Contracts see its setup and its view.
#[derive(Drop)]
pub struct Platform {
    pub(crate) machine: Machine,
    ghost whole: { IsWhole (machine_setup machine) (machine_view machine) },
}
