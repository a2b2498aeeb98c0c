//! Measures the held map, the frames, many sessions and the chain. The map runs beside std's `BTreeMap`.
#![tactic(auto)]

mod batch;
mod chain;
mod frames;
mod hold;
mod puts;
mod sessions;

use chain::publish_and_follow;
use frames::{read_all, written};
use hold::publish_and_hold;
use puts::{all_keys, into_btree, into_pairs};
use sessions::{Encoding, Offering, deliver};
use std::alloc::Global;
use std::marker::Brand;
use std::process::ExitCode;
use std::rt::{Clock, Env};
use std::sync::Wait;
use std::thread::Threads;
use std::time::{Duration, Instant};
use std::{env, io};
use ty_base::{NoMemory, read_u64};
use ty_chain::Opening;

const USAGE: &str =
    "usage: ty_bench puts COUNT KEYS [BATCH] | frames COUNT | sessions COUNT CRUMBS encoded|each [held] | chain CRUMBS FOLLOWERS | hold CRUMBS ROUNDS";

fn main(rt: HostRuntime) -> io::Result<ExitCode> {
    let mut args = env::args(&rt)?.skip(1);
    let mode = args.next();
    let count = number(args.next());
    let keys = number(args.next());
    let third = args.next();
    let batch = third.as_ref().and_then(|w| read_u64(w.as_bytes()));
    let encoding = encoding(third);
    let offering = offering(args.next());
    match (mode.as_ref().map(|m| m.as_str()), count, keys, encoding) {
        (Some("puts"), Some(count), Some(keys), None) => {
            measure_puts(&rt, count, keys, batch.unwrap_or(0))?
        }
        (Some("frames"), Some(count), None, None) => measure_frames(&rt, count)?,
        (Some("chain"), Some(crumbs), Some(followers), None) => run_chain(&rt, crumbs, followers)?,
        (Some("hold"), Some(crumbs), Some(rounds), None) => run_holds(&rt, crumbs, rounds)?,
        (Some("sessions"), Some(count), Some(crumbs), Some(encoding)) => {
            run_sessions(&rt, count, crumbs, encoding, offering)?
        }
        _ => rt.println(USAGE)?,
    }
    Ok(ExitCode::SUCCESS)
}

fn number(word: Option<String>) -> Option<u64> {
    read_u64(word?.as_bytes())
}

fn encoding(word: Option<String>) -> Option<Encoding> {
    match word.as_ref().map(|w| w.as_str()) {
        Some("each") => Some(Encoding::Each),
        Some("encoded") => Some(Encoding::Encoded),
        _ => None,
    }
}

fn offering(word: Option<String>) -> Offering {
    match word.as_ref().map(|w| w.as_str()) {
        Some("held") => Offering::Held,
        _ => Offering::Fresh,
    }
}

fn elapsed<R: Clock>(rt: &R, start: Instant) -> io::Result<u128> {
    Ok(start.elapsed(rt)?.as_micros().max(1))
}

// So many puts of texts over so many keys, into the map and into std's, each with a batch's old map kept or with none.
fn measure_puts<R: Clock + Print + AllocGlobal>(
    rt: &R,
    count: u64,
    keys: u64,
    batch: u64,
) -> io::Result<()> {
    let Ok(all) = all_keys(rt.alloc(), keys) else {
        return rt.println("out of memory");
    };
    let start = Instant::now(rt)?;
    let pairs = into_pairs(rt.alloc(), count, &all, batch);
    let map = elapsed(rt, start)?;
    let start = Instant::now(rt)?;
    let btree = into_btree(rt.alloc(), count, &all);
    let peer = elapsed(rt, start)?;
    if pairs.is_err() || btree.is_err() {
        return rt.println("out of memory");
    }
    println!(rt; "puts {count} keys {keys} batch {batch}: map {map} us, BTreeMap {peer} us")
}

// So many frames of 100 deltas each, written and read back in pieces of 65,536 bytes.
fn measure_frames<R: Clock + Print + AllocGlobal>(rt: &R, count: u64) -> io::Result<()> {
    let start = Instant::now(rt)?;
    let Ok(bytes) = written(rt.alloc(), count) else {
        return rt.println("out of memory");
    };
    let writing = elapsed(rt, start)?;
    let start = Instant::now(rt)?;
    let read = read_all(rt.alloc(), &bytes);
    let reading = elapsed(rt, start)?;
    let Ok(read) = read else {
        return rt.println("out of memory");
    };
    let size = bytes.len();
    println!(rt;
        "frames {count} of {size} bytes: written in {writing} us, {read} read in {reading} us"
    )
}

// So many breadcrumbs, delivered to so many sessions. It tells no time, and the same however the
// deltas are encoded.
fn run_sessions<R: Print + AllocGlobal>(
    rt: &R,
    count: u64,
    crumbs: u64,
    encoding: Encoding,
    offering: Offering,
) -> io::Result<()> {
    let Ok(done) = deliver(rt.alloc(), count, crumbs, encoding, offering) else {
        return rt.println("out of memory, or a session ended");
    };
    println!(rt;
        "sessions {count}: {} breadcrumbs, {} deliveries, {} bytes",
        done.crumbs, done.deliveries, done.bytes
    )
}

// So many breadcrumbs, published while so many followers step along them in threads. It tells no
// time.
fn run_chain<R: Print + AllocGlobal + Threads + Wait + Sync>(
    rt: &R,
    crumbs: u64,
    followers: u64,
) -> io::Result<()> {
    let Ok(steps) = chain_steps(rt, rt.alloc(), crumbs, followers) else {
        return rt.println("out of memory");
    };
    println!(rt; "chain: {crumbs} breadcrumbs, {followers} followers, {steps} steps")
}

fn chain_steps<R: Threads + Wait + Sync>(
    rt: &R,
    alloc: Global,
    crumbs: u64,
    followers: u64,
) -> Result<u64, NoMemory> {
    let opening = Opening::new(alloc, 0)?;
    publish_and_follow::<Brand, R>(rt, alloc, opening, crumbs, followers as usize)
}

// So many chains, one after another, each with so many breadcrumbs that a follower at the first one
// holds.
fn run_holds<R: Print + AllocGlobal + Wait>(rt: &R, crumbs: u64, rounds: u64) -> io::Result<()> {
    for round in 0..rounds {
        let Ok(last) = last_held(rt, rt.alloc(), crumbs) else {
            return rt.println("out of memory");
        };
        println!(rt; "hold {round}: breadcrumb {last} was the last")?;
    }
    Ok(())
}

fn last_held<R: Wait>(rt: &R, alloc: Global, crumbs: u64) -> Result<u64, NoMemory> {
    let opening = Opening::new(alloc, 0)?;
    publish_and_hold::<Brand, R>(rt, alloc, opening, crumbs)
}
