// The doors of the system that the words ask for.
ghost use Rattle.std.specs.Prelude.{◌<◌, ◌≤◌, length, IfOk};

use std::net::{Net, TcpListener, TcpStream};
use std::rt::Clock;
use ty_base::NoMemory;
use ty_os::OsDoor;
use ty_top::Needs;

/// So many doors as the words ask for, all on one listening socket, or to nowhere where its address can't be bound.
/// Where the words ask for none, one door to nowhere, at which nobody is served.
pub(crate) fn doors_for<
    R: Net<Listener = TcpListener, Stream = TcpStream> + Clock + Clone + AllocGlobal,
>(rt: &R, needs: &Needs) -> Result<Vec<OsDoor<R>>, NoMemory>
    ensures { IfOk result (λ v. (0 < length v.items) × (length v.items ≤ 64)) }
{
    let mut doors = Vec::new(rt.alloc());
    let Needs::Listen { at, workers } = needs else {
        doors.push(OsDoor::nowhere(rt.clone()?))?;
        return Ok(doors);
    };
    let listener = TcpListener::bind(rt, at.as_str()).ok();
    for _ in 0..*workers {
        doors.push(door(rt, &listener)?)?;
    }
    if doors.is_empty() || doors.len() > 64 {
        return Err(NoMemory);
    }
    Ok(doors)
}

fn door<R: Net<Listener = TcpListener, Stream = TcpStream> + Clock + Clone>(
    rt: &R,
    listener: &Option<TcpListener>,
) -> Result<OsDoor<R>, NoMemory> {
    let rt = rt.clone()?;
    match listener.as_ref().and_then(|l| l.try_clone().ok()) {
        Some(listener) => Ok(OsDoor::listening(rt, listener)),
        None => Ok(OsDoor::nowhere(rt)),
    }
}

/// A door that dials the address that the words give, or one to nowhere where they give none.
pub(crate) fn dialler<
    R: Net<Listener = TcpListener, Stream = TcpStream> + Clock + Clone + AllocGlobal,
>(rt: &R, needs: &Needs) -> Result<OsDoor<R>, NoMemory> {
    match needs {
        Needs::Dial { at } => {
            let at = String::from_str(rt.alloc(), at.as_str())?;
            Ok(OsDoor::dialling(rt.clone()?, at))
        }
        _ => Ok(OsDoor::nowhere(rt.clone()?)),
    }
}
