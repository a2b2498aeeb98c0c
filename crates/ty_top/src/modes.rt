// What the words ask for, over anything that gives and takes bytes.
ghost use Rattle.std.specs.Prelude.{◌≡◌, ◌≤◌, ◌⊎◌, List, ℕ, None, Some};
ghost use Rattle.ty_base.specs.Causes.{Rose};
ghost use Rattle.ty_base.specs.Devices.{seen};
ghost use Rattle.ty_words.specs.Words.{command_of};
ghost use Rattle.ty_top.specs.Endings.{Came, IsGood};
ghost use Rattle.ty_top.specs.Headline.{TellsWorlds};
ghost use Rattle.ty_top.specs.Outcomes.{CameTo, IsLocalOf};
ghost use Rattle.ty_top.specs.declared.ending.Outcome.{Outcome};
ghost use Rattle.ty_words.specs.declared.words.Command.{Command};
ghost use Rattle.ty_words.specs.declared.words.ServeWords.{ServeWords};
ghost use Rattle.ty_words.specs.declared.words.FollowWords.{FollowWords};

use crate::ending::{Ending, Local, Outcome};
use crate::follow::follow_source;
use crate::load::give_summary;
use crate::notes::tell;
use crate::sim::sim_source;
use crate::stream::stream_source;
use std::alloc::Global;
use ty_base::{Sink, Source, Text};
use ty_words::{Command, read_words};

/// Does what the words ask for: reads the source, writes to the sink, and tells of each status but 0 in one
/// line to the notes. A fault of the notes changes nothing else. A write fault leaves a front of the bytes.
/// Words of a mode with connections are handed on, with nothing read, written or told. What each status tells is
/// said by the law `statuses_tell`.
pub fn local<S: Source, K: Sink, E: Sink>(
    alloc: Global,
    words: &[Text],
    source: &mut S,
    sink: &mut K,
    notes: &mut E,
) -> Local
    // Each ending has its cause, its status and its note, and the words that are handed on are those that were given.
    ensures ended { (outcome : Outcome) × CameTo (command_of words.now) outcome
        (seen (S.seen source.old) (K.seen sink.old)) (seen (S.seen source.new) (K.seen sink.new))
        × IsLocalOf outcome result (E.seen notes.old) (E.seen notes.new) }
    // Whatever a script says: the maps that its clients rebuild are the worlds of their numbers.
    ensures headline { command_of words.now ≡ Some Command.Sim → result ≡ Local.Done 0
        → TellsWorlds (seen (S.seen source.old) (K.seen sink.old)) (seen (S.seen source.new) (K.seen sink.new)) }
    ensures usage { result ≡ Local.Done 1 → command_of words.now ≡ None }
    ensures refused { command_of words.now ≡ None → (result ≡ Local.Done 1) ⊎ (result ≡ Local.Done 5) }
    ensures serve { (w : ServeWords) → command_of words.now ≡ Some (Command.Serve w)
        → (result ≡ Local.Serve w) ⊎ (result ≡ Local.Done 5) }
    ensures follow { (w : FollowWords) → command_of words.now ≡ Some (Command.FollowAt w)
        → (result ≡ Local.Follow w) ⊎ (result ≡ Local.Done 5) }
    ensures read { result ≡ Local.Done 3 → Rose (S.seen source.old).faults (S.seen source.new).faults }
    ensures write { result ≡ Local.Done 4 → Rose (K.seen sink.old).faults (K.seen sink.new).faults }
    ensures reads { (S.seen source.old).faults ≤ (S.seen source.new).faults }
    ensures writes { (K.seen sink.old).faults ≤ (K.seen sink.new).faults }
    // Where nothing is wrong with the input and no device fails, only want of memory stands in the way.
    ensures complete { (command : Command) (bytes : List ℕ) → command_of words.now ≡ Some command
        → (S.seen source.old).left ≡ Some bytes → IsGood command bytes
        → ¬ (Rose (S.seen source.old).faults (S.seen source.new).faults)
        → ¬ (Rose (K.seen sink.old).faults (K.seen sink.new).faults)
        → (result ≡ Local.Done 0) ⊎ (result ≡ Local.Done 5) }
{
    let outcome = run(alloc, words, source, sink);
    told(notes, outcome)
}

// Tells of an ending, and hands on words.
fn told<E: Sink>(notes: &mut E, outcome: Outcome) -> Local
    ensures { IsLocalOf outcome result (E.seen notes.old) (E.seen notes.new) }
{
    match outcome {
        Outcome::Ended(ending) => {
            tell(notes, ending);
            Local::Done(ending.status())
        }
        Outcome::Serve(words) => Local::Serve(words),
        Outcome::Follow(words) => Local::Follow(words),
    }
}

fn run<S: Source, K: Sink>(alloc: Global, words: &[Text], source: &mut S, sink: &mut K) -> Outcome
    ensures came { CameTo (command_of words.now) result (seen (S.seen source.old) (K.seen sink.old))
        (seen (S.seen source.new) (K.seen sink.new)) }
    ensures reads { (S.seen source.old).faults ≤ (S.seen source.new).faults }
    ensures writes { (K.seen sink.old).faults ≤ (K.seen sink.new).faults }
{
    match read_words(alloc, words) {
        Err(_) => Outcome::Ended(Ending::Memory),
        Ok(None) => Outcome::Ended(Ending::Usage),
        Ok(Some(command)) => run_command(alloc, command, source, sink),
    }
}

fn run_command<S: Source, K: Sink>(
    alloc: Global,
    command: Command,
    source: &mut S,
    sink: &mut K,
) -> Outcome
    ensures came { CameTo (Some command) result (seen (S.seen source.old) (K.seen sink.old))
        (seen (S.seen source.new) (K.seen sink.new)) }
    ensures reads { (S.seen source.old).faults ≤ (S.seen source.new).faults }
    ensures writes { (K.seen sink.old).faults ≤ (K.seen sink.new).faults }
{
    let ending = match command {
        Command::Stream { from } => Ending::Stream(stream_source(alloc, from, source, sink)),
        Command::Follow { brief } => Ending::Follow(follow_source(alloc, brief, source, sink)),
        Command::Sim => Ending::Sim(sim_source(alloc, source, sink)),
        Command::Load { number } => Ending::Load(give_summary(alloc, number, sink)),
        Command::Serve(words) => return Outcome::Serve(words),
        Command::FollowAt(words) => return Outcome::Follow(words),
    };
    Outcome::Ended(ending)
}
