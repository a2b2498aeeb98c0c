// Where deltas end in their text.

// The bytes of a delta's text, its comma counted, and the bytes of its key and value.
#[derive(Clone, Copy)]
pub struct Mark {
    pub len: usize,
    pub weight: usize,
}

// The deltas of a message: how many, and the bytes of their text, the last comma counted.
#[derive(Clone, Copy)]
pub struct Front {
    pub count: usize,
    pub len: usize,
}
