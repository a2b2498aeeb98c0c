// Blocks that are lent for as long as one value lives. Whoever holds it may read them, and takes no lock.
ghost use Rattle.std.specs.Prelude.{◌≡◌, ℕ, List, [], ◌∷◌};
ghost use base.Fml.{flft};
ghost use base.Before.{before};
ghost use base.Stored.{coded_list, coded×};
ghost use Rattle.std.specs.Borrow.{full_share};
ghost use denote.RawPtr.{Ptr};
ghost use denote.Builtin.{RawPtr};
ghost use Rattle.ty_account.specs.steps.Blocks.{lent, all_deeds, all_blocks, IsFirst};

use crate::block::Block;
use std::alloc::Global;
use std::marker::{Model, PhantomData};

/// What blocks are lent for. It has no bytes.
pub struct Hoard {
    marker: PhantomData<()>,
    pub ghost life: { ℕ },
}

impl Model for Hoard {
    ghost also_owns = { λ h. flft (h.life ∷ []) full_share };

    ghost also_shares = { λ h _ κ. before κ (h.life ∷ []) };
}

/// What shows that this value lies at this address for as long as a hoard lives. It has no bytes, and can be copied.
pub struct Known<T> {
    pub(crate) marker: PhantomData<T>,
    pub ghost at: { Ptr },
    pub ghost life: { ℕ },
    pub ghost value: { T },
}

impl<T> Model for Known<T> {
    ghost also_owns = { λ k. lent T.row k.life k.at k.value };

    ghost also_shares = { λ k _ κ. lent T.row k.life k.at k.value };
}

/// The right to lent blocks once their hoard is over, in a row. It has no bytes, and no drop, so that nobody loses a block.
pub struct Deeds<T> {
    pub(crate) marker: PhantomData<T>,
    pub ghost life: { ℕ },
    pub ghost lots: { List (Ptr × T) } by { coded_list (coded× RawPtr.coded T.code) },
}

impl<T> Model for Deeds<T> {
    ghost also_owns = { λ d. all_deeds T.row d.life d.lots };
}

/// Blocks of the heap, in a row, of which the program knows no address. It has no bytes.
pub struct Freed<T> {
    marker: PhantomData<T>,
    pub ghost lots: { List (Ptr × T) } by { coded_list (coded× RawPtr.coded T.code) },
}

impl<T> Model for Freed<T> {
    ghost also_owns = { λ f. all_blocks T.row f.lots };
}

impl Hoard {
    /// A new life.
    pub fn new() -> Hoard {
        Hoard {
            marker: PhantomData,
        }
    }

    /// The value at this address. Safe, since the block is lent for the hoard's life, which doesn't end while the hoard is
    /// borrowed.
    pub fn get<'a, T>(&'a self, at: *mut T, known: &Known<T>) -> &'a T
        requires { (known.now.life ≡ self.now.life) × (known.now.at ≡ at) }
        ensures { result.now ≡ known.now.value }
    {
        let _ = known;
        unsafe { &*at }
    }

    /// Ends the life. The blocks that were lent for it are owned again.
    pub fn end<T>(self, deeds: Deeds<T>) -> Freed<T>
        requires { deeds.life ≡ self.life }
        ensures { result.lots ≡ deeds.lots }
    {
        let Hoard { marker: _ } = self;
        let Deeds { marker: _ } = deeds;
        Freed {
            marker: PhantomData,
        }
    }
}

impl<T> Known<T> {
    /// The same right once more.
    pub fn again(&self) -> Known<T>
        ensures { result ≡ self.now }
    {
        Known {
            marker: PhantomData,
        }
    }
}

impl<T> Freed<T> {
    /// The first block, which lies at this address, and the others. Safe, since the block is owned and lies there.
    pub fn next(self, alloc: Global, at: *mut T) -> (Block<T, Global>, Freed<T>)
        requires { IsFirst at self.lots }
        ensures { self.lots ≡ (at, result.0.value) ∷ result.1.lots }
    {
        let Freed { marker: _ } = self;
        (
            Block { at, alloc },
            Freed {
                marker: PhantomData,
            },
        )
    }
}

impl<T> Drop for Known<T> {
    fn drop(self) {
        let Known { marker: _ } = self;
    }
}

// A hoard that is dropped never ends, so its blocks stay lent.
impl Drop for Hoard {
    fn drop(self) {
        let Hoard { marker: _ } = self;
    }
}

// Blocks that are dropped here are never given back, since nobody knows where they lie.
impl<T> Drop for Freed<T> {
    fn drop(self) {
        let Freed { marker: _ } = self;
    }
}

unsafe impl Send for Hoard {}

unsafe impl Sync for Hoard {}

unsafe impl<T: Sync> Send for Known<T> {}

unsafe impl<T: Sync> Sync for Known<T> {}
