// Each client gets to the last breadcrumb.
ghost use Rattle.std.specs.Prelude.{◌≡◌, ◌+◌, List, map, replicate};
ghost use Rattle.ty_script.specs.Fits.{IsClient};
ghost use Rattle.ty_script.specs.declared.event.Event.TheVariants.{Step};
ghost use Rattle.ty_core.specs.Clients.{newest};
ghost use Rattle.ty_core.specs.Run.{Happening, State, on, going, run, trail, link};
ghost use Rattle.ty_core.specs.Held.{WorldStands};
ghost use Rattle.ty_load.specs.Load.{clients, caught_up, load_end, steps_left};
ghost use Rattle.ty_load.specs.steps.Plans.{Does, always, catching};

use crate::turns::happen;
use std::alloc::Global;
use ty_core::{Event, World, WorldFault};
use ty_script::GET_BYTES;

pub(crate) fn catch_up_all(alloc: Global, world: &mut World) -> Result<(), WorldFault>
    ensures { Does result world.old world.new (catching clients) }
{
    for c in 1..9 {
        catch_up(alloc, world, c)?;
    }
    Ok(())
}

// A client steps until it is pending, and gets all.
fn catch_up(alloc: Global, world: &mut World, c: u64) -> Result<(), WorldFault>
    requires { IsClient c }
    ensures { Does result world.old world.new (λ r. caught_up r c) }
{
    let n = steps_behind(world, c);
    step_on(alloc, world, c, n)?;
    happen(alloc, world, &Event::Step(c))?;
    happen(alloc, world, &Event::Get(c, GET_BYTES))
}

// The steps of a client's connection to the last breadcrumb. One more tells that it is pending.
fn steps_behind(world: &World, c: u64) -> u64
    requires { IsClient c }
    ensures { (hs : List Happening) (s : State) → WorldStands world.now hs → run hs ≡ going s
        → result + 1 ≡ steps_left (newest (trail s)) (link s c) }
{
    match world.offered(c) {
        Some(n) => world.crumb().number.saturating_sub(n),
        None => 0,
    }
}

fn step_on(alloc: Global, world: &mut World, c: u64, n: u64) -> Result<(), WorldFault>
    requires { IsClient c }
    ensures { Does result world.old world.new (always (map on (replicate n (Step c)))) }
{
    for _ in 0..n {
        happen(alloc, world, &Event::Step(c))?;
    }
    Ok(())
}
