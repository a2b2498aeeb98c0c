// Numbers as decimal digits.
ghost use Rattle.std.specs.Prelude.{◌≡◌, ◌++◌, ◌+◌, ◌-◌, ◌*◌, decimal, OnOk, OnErr, None, if◌then◌else◌, IsTrue, ◌↔◌};
ghost use Rattle.std.specs.Char.{is_ascii_digit};
ghost use Rattle.std.specs.Str.{all_ascii_digits};
ghost use Rattle.ty_base.specs.Numbers.{BeginsNumeral, read_number, value_after, within_64_bits};

use crate::text::NoMemory;
use itoa::Buffer;

/// Appends a number's decimal digits. Want of memory leaves what was there.
pub fn print_u64(n: u64, out: &mut Vec<u8>) -> Result<(), NoMemory>
    ensures ok { OnOk result (out.new.items ≡ out.old.items ++ decimal n) }
    ensures err { OnErr result (out.new.items ≡ out.old.items) }
{
    let mut buffer = Buffer::new();
    out.extend_from_slice(buffer.format(n).as_bytes())?;
    Ok(())
}

/// The number below 2^64 that decimal digits write, without a leading zero but in `0` itself.
pub fn read_u64(text: &[u8]) -> Option<u64>
    ensures { result ≡ read_number text.now }
{
    if !begins_numeral(text) {
        return None;
    }
    value_of(text)
}

// Whether there is a first byte, and no 0 before another.
fn begins_numeral(text: &[u8]) -> bool
    ensures { IsTrue result ↔ BeginsNumeral text.now }
{
    !text.is_empty() && (text[0] != b'0' || text.len() == 1)
}

// The number below 2^64 that digits write, where they are all digits.
fn value_of(text: &[u8]) -> Option<u64>
    ensures { result ≡ (if all_ascii_digits text.now then within_64_bits (value_after 0 text.now) else None) }
{
    let mut n: u64 = 0;
    for digit in text {
        n = and_digit(n, *digit)?;
    }
    Some(n)
}

// One digit more.
fn and_digit(n: u64, digit: u8) -> Option<u64>
    ensures { result ≡ (if is_ascii_digit digit then within_64_bits (10 * n + (digit - 48)) else None) }
{
    if !digit.is_ascii_digit() {
        return None;
    }
    n.checked_mul(10)?.checked_add(u64::from(digit - b'0'))
}
