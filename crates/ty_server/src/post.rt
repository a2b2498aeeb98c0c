// A door with its worker, in one value, so that a slice of them can go to threads.
use crate::worker::{DoorFault, Worker};

/// A door with its worker, and what the worker's run answered.
#[derive(Drop)]
pub struct Post<D> {
    pub door: D,
    pub worker: Worker,
    pub answer: Result<u64, DoorFault>,
}
