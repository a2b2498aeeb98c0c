// A client and its connection, as numbers and marks.
use std::alloc::Global;
use std::marker::Model;
use ty_base::NoMemory;

/// A client: the number of the breadcrumb that it holds, if it holds one, and its connection, if it has one.
#[derive(Drop)]
pub struct Client {
    pub held: Option<u64>,
    pub link: Option<Connection>,
}

/// A connection. Times are in milliseconds: of its opening, of the client's last message, of the joining, and of the
/// last ping, at first the joining.
#[derive(Drop)]
pub struct Connection {
    pub opened: u64,
    pub heard: u64,
    pub joined: u64,
    pub pinged: u64,
    pub has_joined: bool,
    /// How many messages are on their way up.
    pub up: u64,
    /// What was queued.
    pub marks: Marks,
    /// The number of the last breadcrumb that was joined or offered.
    pub offered: u64,
    /// How many bytes were delivered.
    pub got: u64,
}

/// What a server queues: the hello and the snapshot of a breadcrumb; a group up to a breadcrumb; a ping with its time.
#[derive(Clone, Copy, Debug, PartialEq, Eq)]
pub enum Mark {
    Start(u64),
    Group(u64),
    Ping(u64),
}

/// A list of marks.
#[derive(Drop)]
pub struct Marks {
    list: Vec<Mark>,
}

impl Model for Marks {
    ghost use Rattle.std.specs.Prelude.{List, map};
    ghost use Rattle.ty_marks.specs.Marks.{Mark as TheMark};
    ghost use Rattle.ty_core.specs.Marked.{the_mark};

    ghost Value = { List TheMark };

    ghost view = { λ m. map the_mark m.list.items };
}

impl Marks {
    ghost use Rattle.std.specs.Prelude.{◌≡◌, [], ◌∷◌, ◌++◌, map, OnOk, OnErr};
    ghost use Rattle.ty_core.specs.Marked.{the_mark};

    /// The empty list.
    pub fn new(alloc: Global) -> Marks
        ensures { result ≡ [] }
    {
        Marks {
            list: Vec::new(alloc),
        }
    }

    /// All of them, in order.
    pub fn as_slice(&self) -> &[Mark]
        ensures { map the_mark result.now ≡ self.now }
    {
        &self.list
    }

    /// Adds one at the end. Want of memory leaves the list as it was.
    pub fn push(&mut self, mark: Mark) -> Result<(), NoMemory>
        ensures ok { OnOk result (self.new ≡ self.old ++ the_mark mark ∷ []) }
        ensures err { OnErr result (self.new ≡ self.old) }
    {
        self.list.push(mark)?;
        Ok(())
    }
}
