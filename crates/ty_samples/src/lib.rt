//! One call of each kind where memory is ample, from a text's making to a server's turn: tests alone.
#![tactic(auto)]

#[cfg(test)]
mod served;
#[cfg(test)]
mod tests;
#[cfg(test)]
mod values;
