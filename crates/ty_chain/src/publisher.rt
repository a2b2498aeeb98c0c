// The one publisher of a chain.
ghost use Rattle.ty_base.specs.declared.limits.TheConstants.{INPUT_BYTES};
ghost use Rattle.std.specs.Prelude.{◌≡◌, ◌+◌, ◌<◌, ◌≤◌, ◌++◌, ◌∷◌, [], Bool, false, true, List, length, IfOk, OnErr, OnOk};
ghost use Rattle.std.specs.Arc.{arc_value};
ghost use Rattle.std.specs.List.{fold};
ghost use Rattle.ty_base.specs.declared.item.Item.{Item};
ghost use Rattle.ty_base.specs.Feed.{after, book, same_world};
ghost use Rattle.ty_account.specs.Known.{known};
ghost use Rattle.ty_base.specs.Batches.{IsBatch, IsClosed, IsNextBatch};
ghost use Rattle.ty_crumb.specs.Batches.{next_entries};
ghost use Rattle.ty_crumb.specs.Crumbs.{CrumbStands, world_of};
ghost use Rattle.ty_chain.specs.Publishing.{IsPublished, is_nothing_new, issued};
ghost use Rattle.ty_chain.specs.Shown.{entry_by};
ghost use Rattle.ty_chain.specs.steps.Issued.{IsAtEnd, IsIssued, grown};

use crate::parcel::Parcel;
use crate::place::Place;
use crate::stop::{Front, Stop};
use std::alloc::Global;
use std::marker::{Model, PhantomData};
use std::sync::Arc;
use ty_account::{Fresh, Named, Pen, Spot, Walked, front_copy};
use ty_base::{Item, NoMemory};
use ty_crumb::{Crumb, Made, next_crumb};

/// What a batch came to.
#[derive(Clone, Copy, Debug, PartialEq, Eq)]
pub enum Published {
    /// A breadcrumb with this number.
    Crumb(u64),
    /// Nothing: map and status are as they were.
    Unchanged,
}

/// The publisher keeps the pen of the chain's account. Contracts see its last breadcrumb, the whole list, and how many
/// items were published so far.
#[derive(Drop)]
pub struct Publisher<L: Named> {
    pen: Pen<Stop>,
    // It stands at the last breadcrumb.
    spot: Spot<Stop>,
    parcel: Arc<Parcel, Global>,
    cut: u64,
    of: PhantomData<L>,
}

impl<L: Named> Model for Publisher<L> {
    ghost use Rattle.std.specs.Prelude.{◌≡◌};
    ghost use Rattle.std.specs.Arc.{arc_value};
    ghost use Rattle.ty_chain.specs.Publishing.{Issued, issued};
    ghost use Rattle.ty_crumb.specs.Crumbs.{CrumbStands};
    ghost use Rattle.ty_chain.specs.steps.Issued.{IsAtEnd, IsIssued};
    ghost use Rattle.std.specs.Coded.{codes};
    ghost use Rattle.ty_map.specs.steps.Code.{shape_code};

    ghost Value = { Issued };

    ghost coded = { Prim.hlevel (codes, shape_code) };

    ghost view = { λ p. issued (arc_value p.parcel).crumb p.pen p.cut };

    ghost invariant = { λ p. (p.pen.account ≡ L.account) × IsIssued (issued (arc_value p.parcel).crumb p.pen p.cut)
        × IsAtEnd p.pen p.spot × CrumbStands (arc_value p.spot.item.parcel).crumb p.spot.entries };
}

// Enters what the breadcrumb adds, with its node, and goes there. It takes no memory.
fn enter(pen: &mut Pen<Stop>, spot: &mut Spot<Stop>, parcel: &Parcel, node: Fresh<Stop>)
    requires end { IsAtEnd pen.old spot.old }
    requires room { length pen.old.entries < INPUT_BYTES }
    requires same { (arc_value node.item.parcel).crumb ≡ parcel.now.crumb }
    requires stands { CrumbStands parcel.now.crumb (pen.old.entries ++ entry_by parcel.now.crumb ∷ []) }
    ensures entered { pen.new ≡ known pen.old.account (pen.old.entries ++ entry_by parcel.now.crumb ∷ []) false }
    ensures end { IsAtEnd pen.new spot.new }
    ensures stands { CrumbStands (arc_value spot.new.item.parcel).crumb spot.new.entries }
{
    pen.enter_as(parcel, node);
    let mut front = front_copy(pen.front());
    match spot.step(&mut front) {
        Walked::Next => {}
        Walked::Empty => unreachable!(),
        Walked::Closed => unreachable!(),
    }
}

impl<L: Named> Publisher<L> {
    // A publisher that has published nothing.
    pub(crate) fn new(pen: Pen<Stop>, spot: Spot<Stop>, parcel: Arc<Parcel, Global>) -> Publisher<L>
        requires account { pen.account ≡ L.account }
        requires begun { IsIssued (issued (arc_value parcel).crumb pen 0) }
        requires end { IsAtEnd pen spot }
        requires stands { CrumbStands (arc_value spot.item.parcel).crumb spot.entries }
        ensures { result ≡ issued (arc_value parcel).crumb pen 0 }
    {
        Publisher {
            pen,
            spot,
            parcel,
            cut: 0,
            of: PhantomData,
        }
    }

    // The place goes to the last breadcrumb.
    pub(crate) fn post_at(&self, place: &mut Place<L>) {
        place.go_to(&self.spot, self.pen.front());
    }

    /// The last breadcrumb, which stands for the whole list.
    pub fn crumb(&self) -> &Crumb
        ensures crumb { result.now ≡ self.now.crumb }
        ensures stands { CrumbStands self.now.crumb self.now.known.entries }
    {
        &self.parcel.crumb
    }

    /// How many items were published so far, those of batches that changed nothing too.
    pub fn cut(&self) -> u64
        ensures cut { result ≡ self.now.cut }
        ensures behind { self.now.crumb.cut ≤ self.now.cut }
    {
        self.cut
    }

    /// The front that knows the whole list.
    pub fn front(&self) -> &Front
        ensures whole { result.now ≡ self.now.known }
        ensures open { self.now.known.closed ≡ false }
        ensures account { self.now.known.account ≡ L.account }
    {
        self.pen.front()
    }

    /// Publishes one batch at a time in milliseconds: its items are counted, and where they change map or status, the
    /// list grows by the entry of the next breadcrumb, which lies at the chain's end then. Before the list grows all
    /// memory is taken, and want of memory leaves everything as it was. It waits for nobody.
    pub fn publish(
        &mut self,
        alloc: Global,
        items: &[Item],
        now: u64,
    ) -> Result<Published, NoMemory>
        requires batch { IsBatch items.now }
        requires few { self.old.cut + length items.now < INPUT_BYTES }
        ensures unchanged { IfOk result (λ p. is_nothing_new p ≡ same_world (world_of self.old.crumb) (fold after (world_of self.old.crumb) items.now)) }
        ensures entries { OnOk result (self.new.known ≡ known self.old.known.account (self.old.known.entries ++ next_entries self.new.cut (world_of self.old.crumb) items.now) false) }
        ensures crumb { IfOk result (λ p. IsPublished p items.now now self.old.crumb self.new.crumb) }
        ensures cut { OnOk result (self.new.cut ≡ self.old.cut + length items.now) }
        ensures book { (ended : Bool) (before : List Item) → IsClosed before → IsNextBatch ended before items.now
            → self.old.cut ≡ length before → self.old.known.entries ≡ book false before
            → OnOk result (self.new.known.entries ≡ book ended (before ++ items.now)) }
        ensures same { OnErr result (self.new ≡ self.old) }
    {
        let cut = self.cut + items.len() as u64;
        match next_crumb(alloc, &self.parcel.crumb, items, cut, now)? {
            Made::Unchanged => {
                self.cut = cut;
                Ok(Published::Unchanged)
            }
            Made::Crumb(next) => {
                let number = next.number;
                self.issue(alloc, next, cut)?;
                Ok(Published::Crumb(number))
            }
        }
    }

    // Puts the next breadcrumb at the chain's end.
    fn issue(&mut self, alloc: Global, next: Crumb, cut: u64) -> Result<(), NoMemory>
        requires room { length self.old.known.entries < INPUT_BYTES }
        requires stands { CrumbStands next (self.old.known.entries ++ entry_by next ∷ []) }
        requires behind { next.cut ≤ cut }
        requires few { next.number ≤ cut }
        ensures issued { OnOk result (self.new ≡ grown next self.old.known cut) }
        ensures same { OnErr result (self.new ≡ self.old) }
    {
        let parcel = Arc::new(alloc, Parcel::new(alloc, next)?)?;
        let node = Fresh::new(alloc, Stop::of(&parcel)?)?;
        enter(&mut self.pen, &mut self.spot, &parcel, node);
        self.parcel = parcel;
        self.cut = cut;
        Ok(())
    }

    /// Closes the account, and gives the front that knows the whole list. It waits for nobody.
    pub fn close(self) -> Front
        ensures whole { result ≡ known self.known.account self.known.entries true }
        ensures account { result.account ≡ L.account }
    {
        let Publisher {
            pen,
            spot: _,
            parcel: _,
            cut: _,
            of: _,
        } = self;
        pen.close()
    }
}
