//! The program: standard input, standard output and standard error, sockets, and the top call.
#![tactic(auto)]

mod doors;

use doors::{dialler, doors_for};
use std::process::ExitCode;
use std::rt::Env;
use std::{env, io};
use ty_base::{NoMemory, Sink, Text, give_all};
use ty_os::{OsClock, OsSink, OsSource};
use ty_top::{needs, top};

fn main(rt: HostRuntime) -> ExitCode {
    let mut notes = OsSink::new(rt.stderr());
    let Ok(words) = words(&rt) else {
        return out_of_memory(&mut notes);
    };
    let Ok(needs) = needs(rt.alloc(), &words) else {
        return out_of_memory(&mut notes);
    };
    let (Ok(mut doors), Ok(mut dial)) = (doors_for(&rt, &needs), dialler(&rt, &needs)) else {
        return out_of_memory(&mut notes);
    };
    let Ok(time) = rt.clone() else {
        return out_of_memory(&mut notes);
    };
    let clock = OsClock::new(time);
    let mut source = OsSource::new(rt.stdin());
    let mut sink = OsSink::new(rt.stdout());
    ExitCode::from(top(
        &rt,
        rt.alloc(),
        &words,
        &mut source,
        &mut sink,
        &mut notes,
        &mut doors,
        &mut dial,
        &clock,
    ))
}

fn out_of_memory<E: Sink>(notes: &mut E) -> ExitCode {
    let _ = give_all(notes, b"typha: out of memory\n");
    ExitCode::from(5)
}

// The words behind the program's name. Where one isn't UTF-8 there are none, and `top` refuses that.
fn words<R: Env + AllocGlobal>(rt: &R) -> Result<Vec<Text>, NoMemory> {
    let mut words = Vec::new(rt.alloc());
    match env::args(rt) {
        Ok(args) => {
            for word in args.skip(1) {
                words.push(Text::from_string(word))?;
            }
        }
        Err(e) if e.kind() == io::ErrorKind::OutOfMemory => return Err(NoMemory),
        Err(_) => {}
    }
    Ok(words)
}
