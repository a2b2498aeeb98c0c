// What a link in memory will bring.

/// One piece of what a link will bring.
#[derive(Debug, Drop)]
pub enum Piece {
    /// Bytes, which come in one take or several.
    Bytes(Vec<u8>),
    /// Nothing has come yet.
    Quiet,
    /// The peer has closed.
    End,
}
