// What happens to a world.
ghost use Rattle.std.specs.Prelude.{◌∷◌, [], map};
ghost use Rattle.ty_script.specs.Fits.{IsEvent, IsClient};
ghost use Rattle.ty_core.specs.Run.{on, end};
ghost use Rattle.ty_load.specs.Load.{enters};
ghost use Rattle.ty_load.specs.steps.Plans.{Does, always};

use std::alloc::Global;
use ty_core::{Event, World, WorldFault};

pub(crate) fn happen(alloc: Global, world: &mut World, e: &Event) -> Result<(), WorldFault>
    requires { IsEvent world.old.run.time e.now }
    ensures { Does result world.old world.new (always (on e.now ∷ [])) }
{
    world.event(alloc, e)?;
    Ok(())
}

pub(crate) fn finish(alloc: Global, world: &mut World) -> Result<(), WorldFault>
    ensures { Does result world.old world.new (always (end ∷ [])) }
{
    world.finish(alloc)?;
    Ok(())
}

// A client joins and is heard.
pub(crate) fn enter(alloc: Global, world: &mut World, c: u64) -> Result<(), WorldFault>
    requires { IsClient c }
    ensures { Does result world.old world.new (always (map on (enters c))) }
{
    happen(alloc, world, &Event::Join(c))?;
    happen(alloc, world, &Event::Hear(c))
}
