// What is told of a load.
ghost use Rattle.std.specs.Prelude.{◌≡◌, ◌++◌, ℕ, List, Option, option_copied, flat_map, string_bytes, IfOk, OnOk};
ghost use Rattle.ty_core.specs.Run.{Happening, State, going, run};
ghost use Rattle.ty_core.specs.Held.{WorldStands};
ghost use Rattle.ty_load.specs.Load.{clients};
ghost use Rattle.ty_load.specs.Summary.{held_by, held_line, named_number, summary_of};

use std::alloc::Global;
use ty_base::{NoMemory, Text};
use ty_client::At;
use ty_core::World;

pub(crate) fn tell(alloc: Global, world: &World, number: u64) -> Result<Text, NoMemory>
    ensures { IfOk result (λ text. (hs : List Happening) (s : State) → WorldStands world.now hs
        → run hs ≡ going s → text ≡ summary_of number s) }
{
    let crumb = world.crumb();
    let mut out = String::new(alloc);
    push_number(&mut out, "load", number)?;
    push_number(&mut out, "crumbs", crumb.number)?;
    push_number(&mut out, "pairs", crumb.pairs.len() as u64)?;
    push_clients(&mut out, world)?;
    Ok(Text::from_string(out))
}

fn push_number(out: &mut String, name: &str, n: u64) -> Result<(), NoMemory>
    ensures { OnOk result (string_bytes out.new ≡ string_bytes out.old ++ named_number name.now n) }
{
    write!(out, "{name} {n}\n")?;
    Ok(())
}

fn push_clients(out: &mut String, world: &World) -> Result<(), NoMemory>
    ensures { OnOk result ((hs : List Happening) (s : State) → WorldStands world.now hs
        → run hs ≡ going s → string_bytes out.new
        ≡ string_bytes out.old ++ flat_map (λ c. held_line c (held_by s c)) clients) }
{
    for c in 1..9 {
        push_held(out, c, world.held(c))?;
    }
    Ok(())
}

fn push_held(out: &mut String, c: u64, held: Option<&At>) -> Result<(), NoMemory>
    ensures { OnOk result (string_bytes out.new
        ≡ string_bytes out.old ++ held_line c (option_copied held.entry)) }
{
    let Some(at) = held else {
        return Ok(());
    };
    let number = at.number;
    let count = at.pairs.len();
    write!(out, "client {c} at {number} {count}\n")?;
    Ok(())
}
