//! Every interleaving of one publisher with clients that join, step, lose connections and return.
#![tactic(auto)]

mod chain;
mod client;
mod events;
mod fault;
mod laws;
mod line;
mod publisher;
mod run;
mod script;
mod simulation;
mod slot;
mod stop;
mod text;
mod told;
mod world;

pub use chain::Chain;
pub use client::{Client, Connection, Mark, Marks};
pub use fault::WorldFault;
pub use laws::{clients_rebuild_the_worlds, script_faults_stay, scripts_rebuild_the_worlds};
pub use run::Run;
pub use simulation::{SimFault, simulate};
pub use slot::Slot;
pub use told::Told;
pub use ty_script::{CLIENTS, Event, EventFault, TIME_LIMIT, read_event};
pub use world::{Out, World};
