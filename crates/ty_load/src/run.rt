// The run of a load.
ghost use Rattle.std.specs.Prelude.{◌≡◌, IfOk};
ghost use Rattle.ty_load.specs.Summary.{summary};
ghost use Rattle.ty_load.specs.steps.Plans.{Does, entire};

use crate::catch::catch_up_all;
use crate::steps::{enter_all, feed};
use crate::summary::tell;
use crate::turns::finish;
use std::alloc::Global;
use ty_base::{NoMemory, Text};
use ty_core::{World, WorldFault};

/// Runs the load that is made from a number, and tells the last breadcrumb's number and its count of pairs, and those of
/// the breadcrumb that each client holds then.
pub fn load(alloc: Global, number: u64) -> Result<Text, NoMemory>
    ensures { IfOk result (λ text. text ≡ summary number) }
{
    let mut world = World::new(alloc)?;
    match play(alloc, &mut world, number) {
        Ok(()) => tell(alloc, &world, number),
        Err(WorldFault::Feed(_)) => Text::of(alloc, ""),
        Err(WorldFault::NoMemory) => Err(NoMemory),
    }
}

// All that happens.
fn play(alloc: Global, world: &mut World, number: u64) -> Result<(), WorldFault>
    ensures { Does result world.old world.new (entire number) }
{
    enter_all(alloc, world)?;
    feed(alloc, world, number)?;
    finish(alloc, world)?;
    catch_up_all(alloc, world)
}
