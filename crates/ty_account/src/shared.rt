// What all holders of an account share: its word, and its nodes.
ghost use Rattle.std.specs.Prelude.{◌≡◌, true, length};
ghost use Rattle.ty_account.specs.steps.Rules.{word_in};
ghost use Rattle.ty_account.specs.steps.Rights.{life_of};
ghost use Rattle.ty_account.specs.steps.Histories.{is_legal, StartsAt, IsRow, HasNode, next_in};

use crate::history::{Law, Mark, Reply};
use crate::hoard::{Freed, Hoard};
use crate::last::{Last, Taking};
use crate::node::{Node, Place};
use crate::standing::Standing;
use crate::step::{Head, Looking};
use logbook::Seen;
use std::alloc::Global;

/// What all holders share. The last one that lets it go gives every node back.
pub(crate) struct Shared<T: Standing> {
    pub(crate) hoard: Hoard,
    pub(crate) head: Head<T>,
    pub(crate) seen: Seen<Mark<T>, Reply<T>, Law<T>>,
    pub(crate) last: Last,
    // Where the first node stands. The pointer owns nothing.
    pub(crate) first: *mut Place<T>,
    pub(crate) alloc: Global,
    pub ghost word: { head ≡ word_in seen.book },
    pub ghost life: { hoard.life ≡ life_of seen.names },
    pub ghost named: { last.names ≡ seen.names },
    pub ghost legal: { is_legal seen.log ≡ true },
    pub ghost starts: { StartsAt first seen.log },
}

impl<T: Standing + Drop> Drop for Shared<T> {
    fn drop(self) {
        let Shared {
            hoard,
            head,
            mut seen,
            last,
            first,
            alloc,
        } = self;
        let mut offer = last.asking(&seen);
        let found = head.load::<Looking<T>, Taking>(&mut seen, &mut offer);
        let freed = hoard.end(Last::deeds(offer.into_gain()));
        give_back(alloc, freed, first, found / 2 + 1);
    }
}

// Gives nodes back, one after another, with no recursion. Each leads to the next.
fn give_back<T: Drop>(alloc: Global, all: Freed<Place<T>>, first: *mut Place<T>, count: u64)
    requires count { count ≡ length all.lots }
    requires row { IsRow first all.lots }
{
    let mut freed = all;
    let mut at = first;
    let mut left = count;
    while left > 0 {
        let (block, rest) = freed.next(alloc, at);
        freed = rest;
        at = let_go(Box::into_inner(block.into_box()));
        left -= 1;
    }
}

// Drops a node's item, and tells where the node leads.
fn let_go<T: Drop>(place: Place<T>) -> *mut Place<T>
    requires { HasNode place.node }
    ensures { result ≡ next_in place.node }
{
    match place.node {
        Some(node) => {
            let Node { item, next } = node;
            drop(item);
            next
        }
        None => unreachable!(),
    }
}

unsafe impl<T: Standing + Send + Sync> Send for Shared<T> {}

unsafe impl<T: Standing + Send + Sync> Sync for Shared<T> {}
