// A block of memory with a value in it, whose address is known before others may read it.
ghost use Rattle.std.specs.Prelude.{◌≡◌, [], ◌∷◌};
ghost use Rattle.std.specs.Box.Ownership.{box_owns};

use crate::hoard::{Deeds, Hoard, Known};
use std::alloc::{Allocator, Global};
use std::marker::{Model, PhantomData};

/// A value in a block of its own, at an address that its holder may tell. Nobody else reads it.
pub struct Block<T, A: Allocator> {
    pub(crate) at: *mut T,
    pub(crate) alloc: A,
    pub ghost value: { T },
}

impl<T, A: Allocator> Model for Block<T, A> {
    ghost also_owns = { λ b. box_owns (A.dealloc_token b.alloc) T.row b.at b.value };
}

impl<T: Drop, A: Allocator> Block<T, A> {
    /// The block of a box, and where it lies. Safe, since the block owns what the box owned.
    pub fn of(value: Box<T, A>) -> (Block<T, A>, *mut T)
        ensures { (result.0.at ≡ result.1) × (result.0.value ≡ value.value) }
    {
        let (at, alloc) = Box::into_raw_with_allocator(value);
        (Block { at, alloc }, at)
    }

    /// The box again. Safe, since a block owns what a box at its address owns.
    pub fn into_box(self) -> Box<T, A>
        ensures { result.value ≡ self.value }
    {
        let Block { at, alloc } = self;
        unsafe { Box::from_raw(alloc, at) }
    }

    /// Writes a value over the one that is there, which is not dropped. Safe, since nobody else reads the block.
    pub fn fill(self, value: T) -> Block<T, A>
        ensures { (result.at ≡ self.at) × (result.value ≡ value) }
    {
        let Block { at, alloc } = self;
        unsafe {
            std::ptr::write(at, value);
        }
        Block { at, alloc }
    }
}

impl<T: Drop> Block<T, Global> {
    /// Lends the block for as long as the hoard lives: what shows where the value lies, and the deed to the block.
    pub fn lend(self, hoard: &Hoard) -> (Known<T>, Deeds<T>)
        ensures known { (result.0.at ≡ self.at) × (result.0.life ≡ hoard.now.life) × (result.0.value ≡ self.value) }
        ensures deed { (result.1.life ≡ hoard.now.life) × (result.1.lots ≡ (self.at, self.value) ∷ []) }
    {
        let Block { at: _, alloc: _ } = self;
        let _ = hoard;
        (
            Known {
                marker: PhantomData,
            },
            Deeds {
                marker: PhantomData,
            },
        )
    }
}

impl<T: Drop, A: Allocator> Drop for Block<T, A> {
    fn drop(self) {
        drop(self.into_box());
    }
}

unsafe impl<T: Send, A: Allocator + Send> Send for Block<T, A> {}
