// A stretch of a key's text.
ghost use Rattle.std.specs.Prelude.{◌+◌, ◌≤◌, length};
ghost use Rattle.ty_base.specs.declared.limits.TheConstants.{KEY_BYTES};

/// A stretch of a text of at most `KEY_BYTES` bytes, and the offset of its first byte.
#[derive(Clone, Copy)]
pub struct Span<'a> {
    pub at: usize,
    pub bytes: &'a [u8],
    ghost within: { at + length bytes.now ≤ KEY_BYTES },
}
