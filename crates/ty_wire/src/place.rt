// Bytes that are put at places of a buffer, which has room for them.
ghost use Rattle.std.specs.Prelude.{◌≡◌, ◌+◌, ◌≤◌, length, take, vec_len, vec_capacity};
ghost use Rattle.json.specs.Filled.{Placed};

const ZEROS: [u8; 1024] = [0; 1024];

// Puts bytes at a place. It gives where they end.
#[inline(always)]
pub(crate) fn place(buf: &mut [u8], at: usize, bytes: &[u8]) -> usize
    requires { at + length bytes.now ≤ length buf.old }
    ensures { Placed buf.old buf.new at bytes.now result }
{
    let end = at + bytes.len();
    buf[at..end].copy_from_slice(bytes);
    end
}

// Lengthens to so many bytes at least, a block at a time. The new ones are to be overwritten.
pub(crate) fn lengthen(out: &mut Vec<u8>, wanted: usize)
    requires { wanted ≤ vec_capacity out.old }
    ensures front { take (vec_len out.old) out.new.items ≡ out.old.items }
    ensures longer { vec_len out.old ≤ vec_len out.new }
    ensures enough { wanted ≤ vec_len out.new }
    ensures capacity { vec_capacity out.old ≤ vec_capacity out.new }
{
    while out.len() < wanted {
        let step = ZEROS.len().min(out.capacity() - out.len());
        out.extend_from_slice(&ZEROS[..step]).unwrap();
    }
}
