// What a run wants of the system. It bears the name of the call that tells it, so it stands in a module of its own.
use ty_base::Text;

/// The doors that a run wants.
#[derive(Drop)]
pub enum Needs {
    /// None: the words are refused, or of a mode without connections.
    Nothing,
    /// So many doors that listen at an address, 1 to 64.
    Listen { at: Text, workers: u64 },
    /// A dialler of an address.
    Dial { at: Text },
}
