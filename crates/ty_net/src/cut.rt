// The parts of a text round the first byte of a kind.
ghost use Rattle.std.specs.Prelude.{◌≡◌, ◌==◌};
ghost use Rattle.std.specs.List.{before_first, after_first, position};

/// What stands before the first such byte, or the whole text where there is none.
pub(crate) fn before(text: &[u8], mark: u8) -> &[u8]
    ensures { result.now ≡ before_first (λ b. b == mark) text.now }
{
    match place(text, mark) {
        Some(place) => &text[..place],
        None => text,
    }
}

/// What stands after the first such byte, or nothing where there is none.
pub(crate) fn after(text: &[u8], mark: u8) -> &[u8]
    ensures { result.now ≡ after_first (λ b. b == mark) text.now }
{
    match place(text, mark) {
        Some(place) => &text[place + 1..],
        None => &[],
    }
}

// Where the first such byte stands.
fn place(text: &[u8], mark: u8) -> Option<usize>
    ensures { result ≡ position (λ b. b == mark) text.now }
{
    text.iter().position(|b| *b == mark)
}
