//! Texts of addresses, of networks with a prefix length, and of ports.
#![tactic(auto)]

mod address;
mod cidr;
mod cut;
mod fault;
mod laws;
mod ports;

pub use address::{Ip, read_ip};
pub use cidr::{Cidr, read_cidr};
pub use fault::NetFault;
pub use laws::{
    addresses_are_those_of_the_grammar, networks_are_those_of_the_grammar,
    ports_are_those_of_the_grammar,
};
pub use ports::{GREATEST_PORT, PortRange, read_ports};
