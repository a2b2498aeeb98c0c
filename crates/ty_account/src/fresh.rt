// A node that is not entered yet.
ghost use Rattle.std.specs.Prelude.{◌≡◌, IfOk};

use crate::block::Block;
use crate::node::Place;
use std::alloc::Global;
use ty_base::NoMemory;

/// A node that isn't linked: an item, with the place for the node after it.
#[derive(Drop)]
pub struct Fresh<T> {
    pub(crate) item: T,
    pub(crate) after: Block<Place<T>, Global>,
    pub(crate) next: *mut Place<T>,
    pub ghost there: { after.at ≡ next },
}

impl<T: Drop> Fresh<T> {
    /// After `NoMemory` the item is dropped.
    pub fn new(alloc: Global, item: T) -> Result<Fresh<T>, NoMemory>
        ensures { IfOk result (λ f. f.item ≡ item) }
    {
        let (after, next) = Block::of(Box::new(alloc, Place { node: None })?);
        Ok(Fresh { item, after, next })
    }
}

unsafe impl<T: Send> Send for Fresh<T> {}
