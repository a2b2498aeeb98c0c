// The top call, over anything that gives and takes bytes and connections.
ghost use Rattle.std.specs.Prelude.{◌≡◌, ◌≤◌, ◌<◌, ◌⊎◌, ℕ, List, None, Some, length};
ghost use Rattle.ty_base.specs.Causes.{Rose};
ghost use Rattle.ty_base.specs.Devices.{seen};
ghost use Rattle.ty_words.specs.Words.{command_of};
ghost use Rattle.ty_words.specs.declared.words.Command.{Command};
ghost use Rattle.ty_words.specs.declared.words.ServeWords.{ServeWords};
ghost use Rattle.ty_words.specs.declared.words.FollowWords.{FollowWords};
ghost use Rattle.ty_intake.specs.Faults.{feed_fault};
ghost use Rattle.ty_top.specs.Endings.{IsGood, whole_feed};
ghost use Rattle.ty_top.specs.GoodLinks.{AreGoodLinks};
ghost use Rattle.ty_top.specs.Headline.{TellsWorlds};
ghost use Rattle.ty_top.specs.Program.{IsRun, SomeRose, around};

use crate::dialling::follow_dialled;
use crate::ending::Local;
use crate::link_ending::LinkEnding;
use crate::link_notes::tell_of_links;
use crate::modes::local;
use crate::serving::serve_source;
use std::alloc::Global;
use std::sync::Wait;
use std::thread::Threads;
use ty_base::{Clock, Door, Sink, Source, Text};
use ty_words::hosts_fit;

/// Does what the words ask for, and answers the exit status: what `local` does, or serves the source's feed at the
/// doors, or follows a server over the dialler. Of each status but 0 it tells in one line to the notes, whose fault
/// changes nothing else. Serving and following wait for peers. `needs` says which doors it wants.
pub fn top<
    R: Threads + Wait + Sync,
    S: Source + Send,
    K: Sink,
    E: Sink,
    D: Door + Send + Drop,
    C: Clock + Sync,
>(
    rt: &R,
    alloc: Global,
    words: &[Text],
    source: &mut S,
    sink: &mut K,
    notes: &mut E,
    doors: &mut Vec<D>,
    dial: &mut D,
    clock: &C,
) -> u8
    requires doors { (w : ServeWords) → command_of words.now ≡ Some (Command.Serve w)
        → (0 < length doors.old.items) × (length doors.old.items ≤ 64) }
    // Each ending has its cause, its status and its note.
    ensures ended { IsRun D.gave D.got D.count D.sight D.Link.sight D.Link.count (C.gives clock.now) (command_of words.now) result
        (around (S.seen source.old) (K.seen sink.old) (E.seen notes.old) doors.old.items dial.old)
        (around (S.seen source.new) (K.seen sink.new) (E.seen notes.new) doors.new.items dial.new) }
    // Whatever a script says: the maps that its clients rebuild are the worlds of their numbers.
    ensures headline { command_of words.now ≡ Some Command.Sim → result ≡ 0
        → TellsWorlds (seen (S.seen source.old) (K.seen sink.old)) (seen (S.seen source.new) (K.seen sink.new)) }
    ensures usage { result ≡ 1 → command_of words.now ≡ None }
    ensures refused { command_of words.now ≡ None → (result ≡ 1) ⊎ (result ≡ 5) }
    ensures read { result ≡ 3 → Rose (S.seen source.old).faults (S.seen source.new).faults }
    ensures write { result ≡ 4 → Rose (K.seen sink.old).faults (K.seen sink.new).faults }
    ensures door { result ≡ 7 → SomeRose D.count doors.old.items doors.new.items
        ⊎ Rose (D.count dial.old) (D.count dial.new) }
    // Where nothing is wrong with the input of a mode over source and sink and no device fails, only want of memory stands in the way.
    ensures complete { (command : Command) (bytes : List ℕ) → command_of words.now ≡ Some command
        → (S.seen source.old).left ≡ Some bytes → IsGood command bytes
        → ¬ (Rose (S.seen source.old).faults (S.seen source.new).faults)
        → ¬ (Rose (K.seen sink.old).faults (K.seen sink.new).faults)
        → (result ≡ 0) ⊎ (result ≡ 5) }
    // The same of a feed that is served, and of what dialled links bring.
    ensures serve_complete { (w : ServeWords) (bytes : List ℕ) → command_of words.now ≡ Some (Command.Serve w)
        → (S.seen source.old).left ≡ Some bytes → feed_fault (whole_feed bytes) ≡ None
        → ¬ (Rose (S.seen source.old).faults (S.seen source.new).faults)
        → ¬ (SomeRose D.count doors.old.items doors.new.items)
        → (result ≡ 0) ⊎ (result ≡ 5) }
    ensures follow_complete { (w : FollowWords) → command_of words.now ≡ Some (Command.FollowAt w)
        → AreGoodLinks D.sight D.Link.sight D.Link.count dial.old dial.new
        → ¬ (Rose (D.count dial.old) (D.count dial.new))
        → ¬ (Rose (K.seen sink.old).faults (K.seen sink.new).faults)
        → (result ≡ 0) ⊎ (result ≡ 5) }
    ensures reads { (S.seen source.old).faults ≤ (S.seen source.new).faults }
    ensures writes { (K.seen sink.old).faults ≤ (K.seen sink.new).faults }
{
    match local(alloc, words, source, sink, notes) {
        Local::Done(status) => status,
        Local::Serve(_) => {
            let end = LinkEnding::Serve(serve_source(rt, alloc, source, doors, clock));
            tell_of_links(notes, end);
            end.status()
        }
        Local::Follow(words) => {
            hosts_fit();
            let end = LinkEnding::Dial(follow_dialled(rt, alloc, &words, dial, sink));
            tell_of_links(notes, end);
            end.status()
        }
    }
}
