// The account: a word and nodes that threads share.
ghost use Rattle.std.specs.Prelude.{◌≡◌, ◌⊎◌, [], ◌∷◌, length, false, IfOk};
ghost use mathlib.Core.List.{IsPrefix};
ghost use Rattle.ty_account.specs.Known.{known, standpoint, KnowsMore};

use crate::block::Block;
use crate::front::{Front, Look};
use crate::history::{Law, Mark, Reply};
use crate::hoard::{Hoard, Known};
use crate::node::{Node, Place};
use crate::pen::Pen;
use crate::right::Right;
use crate::shared::Shared;
use crate::spot::Spot;
use crate::standing::Standing;
use logbook::{Opening, Seen, Word};
use std::alloc::Global;
use std::marker::{Model, PhantomData};
use std::sync::Arc;
use ty_base::NoMemory;

/// An account: one list of entries that only grows, possibly closed at its end, with a node for each place. Contracts see
/// which account it is. Only `start` and `share` take memory. The nodes are given back with the last account, pen or spot.
#[derive(Drop)]
pub struct Account<T: Standing> {
    shared: Arc<Shared<T>, Global>,
}

impl<T: Standing> Model for Account<T> {
    ghost use Rattle.std.specs.Arc.{arc_value};
    ghost use Rattle.ty_account.specs.Known.{Name, name_of};

    ghost Value = { Name };

    ghost view = { λ a. name_of (arc_value a.shared).seen.book (arc_value a.shared).seen.names };

    ghost invariant = { λ a. Unit {0} };
}

/// The history of a new account: its first node.
struct Begin<T> {
    of: PhantomData<T>,
}

impl<T: Standing> Opening<Known<Place<T>>, Mark<T>> for Begin<T> {
    ghost use Rattle.std.specs.Prelude.{[], ◌∷◌};
    ghost use Rattle.ty_account.specs.declared.history.Mark.TheVariants.{Opened};

    ghost log = { λ n known. Opened known.at known.value ∷ [] };
}

impl<T: Standing + Drop + Send + Sync> Account<T> {
    /// A new account, without entries and open, with its one pen, a front, and a spot at place 0. The first item has to stand
    /// for the empty list. After `NoMemory` it is dropped.
    pub fn start(
        alloc: Global,
        first: T,
    ) -> Result<(Account<T>, Pen<T>, Front<T>, Spot<T>), NoMemory>
        requires { T.stands first [] }
        ensures pen { IfOk result (λ r. r.1 ≡ known r.0 [] false) }
        ensures front { IfOk result (λ r. r.2 ≡ known r.0 [] false) }
        ensures spot { IfOk result (λ r. r.3 ≡ standpoint r.0 [] first) }
    {
        let (last, next) = Block::of(Box::new(alloc, Place { node: None })?);
        let node = Node { item: first, next };
        let (block, at) = Block::of(Box::new(alloc, Place { node: Some(node) })?);
        let hoard = Hoard::new();
        let (known, deeds) = block.lend(&hoard);
        let (start, right, taking) = Right::begin(&known, deeds);
        let (seen, mut pens) = Seen::open_row::<Known<Place<T>>, Begin<T>>(&known, start, 1);
        let mut pen = pens.take();
        let shared = Arc::new(
            alloc,
            Shared {
                hoard,
                head: Word::tracked(0, &mut pen),
                seen: seen.again(),
                last: taking,
                first: at,
                alloc,
            },
        )?;
        let writes = Arc::try_clone(&shared)?;
        let reads = Arc::try_clone(&shared)?;
        Ok((
            Account { shared },
            Pen::begun(writes, right, seen.again(), last),
            Front::of(0, seen.again()),
            Spot::begun(reads, seen, known, at),
        ))
    }
}

impl<T: Standing> Account<T> {
    /// Another holder of the same account.
    pub fn share(&self) -> Result<Account<T>, NoMemory>
        ensures { IfOk result (λ a. a ≡ self.now) }
    {
        Ok(Account {
            shared: Arc::try_clone(&self.shared)?,
        })
    }

    /// The list at one step of this call. The front knows it afterwards.
    pub fn look(&self, front: &mut Front<T>) -> Look
        requires { front.old.account ≡ self.now }
        ensures more { KnowsMore front.old front.new }
        ensures count { result.count ≡ length front.new.entries }
        ensures closed { result.closed ≡ front.new.closed }
    {
        let _read = front.follow(&self.shared.head, &self.shared.seen);
        front.look()
    }

    /// Of two fronts one knows a prefix of what the other knows. The first one knows afterwards what the one that
    /// knew more did. It makes no look.
    pub fn meet(&self, front: &mut Front<T>, other: &Front<T>)
        requires one { front.old.account ≡ self.now }
        requires two { other.now.account ≡ self.now }
        ensures this { KnowsMore front.old front.new }
        ensures that { KnowsMore other.now front.new }
        ensures longer { (front.new ≡ front.old) ⊎ (front.new ≡ other.now) }
        ensures prefix { IsPrefix front.old.entries other.now.entries
            ⊎ IsPrefix other.now.entries front.old.entries }
    {
        *front = front.longer(other);
    }
}

unsafe impl<T: Standing + Send + Sync> Send for Account<T> {}

unsafe impl<T: Standing + Send + Sync> Sync for Account<T> {}
