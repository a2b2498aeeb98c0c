//! Breadcrumbs: the next one from the last and a batch, and the snapshot of one.
#![tactic(auto)]

mod crumb;
mod laws;
mod snapshots;
mod successor;

pub use crumb::Crumb;
pub use laws::the_book_grows_by_the_next_batch;
pub use snapshots::{new_delta, snapshot};
pub use successor::{Followed, Made, next_crumb, next_crumb_in};
