//! What rules over JSON values are made of: tests, the order in which rules are tried, and the rules' names.
#![tactic(auto)]

mod check;
mod part;
mod rule;
mod test;
mod text;
mod tree;

pub use check::{Check, Done, IfGiven, ListOf, Row, Then};
pub use part::{HasPorts, IpVersion, NamedPorts, Profiles, Protocol};
pub use rule::{Rule, ValueFault};
pub use test::{
    Anything, ArrayOf, Both, FilledArray, IsBool, IsObject, IsText, Nothing, Optional, Or,
    Required, Test, TextOf, TextTest, WhereAlso, Whole, WholeWithin, given, is_whole_within,
};
pub use text::{
    Action, ActionOrEmpty, Filled, Interface, InterfaceOrAll, Mac, PortName, ProtocolName,
    ProtocolWithPorts, This,
};
pub use tree::has_float;
