// A publisher and its clients.
ghost use Rattle.std.specs.Prelude.{◌≡◌, length};
ghost use Rattle.ty_script.specs.declared.event.TheConstants.{CLIENTS};

use crate::chain::Chain;
use crate::slot::Slot;

/// The chain, the time in milliseconds, and the clients: client c is at place c - 1.
#[derive(Drop)]
pub struct Run {
    pub(crate) chain: Chain,
    pub(crate) time: u64,
    pub(crate) slots: Vec<Slot>,
    pub ghost all: { length slots.items ≡ CLIENTS },
}
