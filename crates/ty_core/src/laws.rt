// Laws of the definitions.
ghost use Rattle.std.specs.Prelude.{◌≡◌, ◌++◌, ◌<◌, ◌≤◌, ℕ, List, Some, None, length, map, true, false};
ghost use Rattle.std.specs.List.{AllByRecursion};
ghost use Rattle.ty_base.specs.declared.limits.TheConstants.{INPUT_BYTES};
ghost use Rattle.ty_wire.specs.declared.message.Msg.{Msg};
ghost use Rattle.ty_client.specs.Heard.{Hears};
ghost use Rattle.ty_client.specs.Rebuilt.{Rebuilt, ats};
ghost use Rattle.ty_core.specs.Clients.{newest, down};
ghost use Rattle.ty_core.specs.Run.{State, Happening, going, run, book_of, trail, client, link};
ghost use Rattle.ty_core.specs.Report.{report, world_shown};
ghost use Rattle.ty_script.specs.Fits.{IsClient};
ghost use Rattle.ty_intake.specs.Lines.{Feed};
ghost use Rattle.ty_core.specs.Script.{script_fault, whole_script};
ghost use Rattle.ty_core.specs.declared.simulation.SimFault.{SimFault};
ghost use Rattle.ty_core.specs.Interleavings.{IsScript, IsWorldOf, ShowsWorlds, AreRising, RebuildsWorlds};
ghost use Rattle.ty_core.specs.declared.client.Connection.{Connection};

/// Every interleaving of one publisher with clients that join, step, lose connections and return: each map that the report
/// shows, published, rebuilt or held, is the world of its number, the fold from scratch of the feed's items up to that
/// breadcrumb's cut, and stays so whatever happens later. What reaches a client on one connection, cut behind any byte,
/// reads without a fault and rebuilds worlds, each of its number, and the numbers rise. What a client holds is the number
/// of a breadcrumb that is there. Clients at one number hold equal maps and statuses.
pub fn clients_rebuild_the_worlds()
    ensures told { (hs : List Happening) (s : State) → IsScript hs → run hs ≡ going s
        → AllByRecursion (ShowsWorlds s) (report hs) }
    ensures received { (hs : List Happening) (s : State) (c : ℕ) (k : Connection) (bytes more : List ℕ)
        → IsScript hs → run hs ≡ going s → IsClient c → link s c ≡ Some k
        → bytes ++ more ≡ down (book_of s) k → length bytes < INPUT_BYTES
        → (ms : List Msg) × (ns : List ℕ) × Hears bytes ms None × (ats ms ≡ map (world_shown s) ns)
        × AreRising ns (newest (trail s)) }
    ensures held { (hs : List Happening) (s : State) (c n : ℕ) → IsScript hs → run hs ≡ going s → IsClient c
        → (client s c).held ≡ Some n → n ≤ newest (trail s) }
    ensures equal { (s : State) (a b : Rebuilt) → IsWorldOf s a → IsWorldOf s b → a.number ≡ b.number → a ≡ b }
{}

/// A fault that a script has shown is that of the whole script, whatever comes behind.
pub fn script_faults_stay()
    ensures { (read : Feed) (more bytes : List ℕ) (fault : SimFault) → read.ended ≡ false → read.bytes ++ more ≡ bytes
        → script_fault read ≡ Some fault → script_fault (record { bytes = bytes; ended = true }) ≡ Some fault }
{}

/// A script that was read to its end and has no fault says an interleaving, whose last happening is the feed's end: each
/// event can happen at its time and none brings a fault, and so clients rebuild the worlds.
pub fn scripts_rebuild_the_worlds()
    ensures script { (read : Feed) → read.ended ≡ true → script_fault read ≡ None → IsScript (whole_script read) }
    ensures worlds { (read : Feed) → read.ended ≡ true → script_fault read ≡ None → RebuildsWorlds (whole_script read) }
{}
