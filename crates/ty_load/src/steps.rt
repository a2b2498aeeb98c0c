// The steps of a load.
ghost use Rattle.std.specs.Prelude.{◌∷◌, [], map, flat_map};
ghost use Rattle.ty_script.specs.Fits.{IsClient};
ghost use Rattle.ty_script.specs.declared.event.Event.TheVariants.{Step, Get, Cut};
ghost use Rattle.ty_core.specs.Run.{on};
ghost use Rattle.ty_load.specs.Load.{clients, enters, every, load_step, load_steps};
ghost use Rattle.ty_load.specs.steps.Plans.{Does, always};

use crate::line::{client_of, load_line, next_word};
use crate::turns::{enter, happen};
use std::alloc::Global;
use ty_core::{Event, World, WorldFault};

pub(crate) fn enter_all(alloc: Global, world: &mut World) -> Result<(), WorldFault>
    ensures { Does result world.old world.new (always (map on (flat_map enters clients))) }
{
    for c in 1..9 {
        enter(alloc, world, c)?;
    }
    Ok(())
}

// The feed's lines, and what comes between them.
pub(crate) fn feed(alloc: Global, world: &mut World, number: u64) -> Result<(), WorldFault>
    ensures { Does result world.old world.new (always (map on (load_steps 20000 0 number))) }
{
    let mut x = number;
    for k in 0..20_000 {
        x = next_word(x);
        step(alloc, world, k + 1, x)?;
    }
    Ok(())
}

fn step(alloc: Global, world: &mut World, k: u64, x: u64) -> Result<(), WorldFault>
    ensures { Does result world.old world.new (always (map on (load_step k x))) }
{
    let c = client_of(x);
    let line = load_line(alloc, x)?;
    happen(alloc, world, &Event::Line(line))?;
    read_at(alloc, world, k, c)?;
    renew_at(alloc, world, k, c)
}

// A client reads in every tenth step.
fn read_at(alloc: Global, world: &mut World, k: u64, c: u64) -> Result<(), WorldFault>
    requires { IsClient c }
    ensures { Does result world.old world.new
        (always (map on (every 10 k (Step c ∷ Get c 65536 ∷ [])))) }
{
    if k % 10 != 0 {
        return Ok(());
    }
    happen(alloc, world, &Event::Step(c))?;
    happen(alloc, world, &Event::Get(c, 65_536))
}

// A client loses its connection in every thousandth step, and returns.
fn renew_at(alloc: Global, world: &mut World, k: u64, c: u64) -> Result<(), WorldFault>
    requires { IsClient c }
    ensures { Does result world.old world.new (always (map on (every 1000 k (Cut c ∷ enters c)))) }
{
    if k % 1000 != 0 {
        return Ok(());
    }
    happen(alloc, world, &Event::Cut(c))?;
    enter(alloc, world, c)
}
