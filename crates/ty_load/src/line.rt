// The words of a load, and the line that each says.
ghost use Rattle.std.specs.Prelude.{◌≡◌, ◌++◌, IfOk, OnOk, string_bytes};
ghost use Rattle.ty_script.specs.Fits.{IsClient};
ghost use Rattle.ty_load.specs.Load.{next_word as word_after, client_of as client_said, load_line as line_said, value_member};

use std::alloc::Global;
use ty_base::{NoMemory, Text};

pub(crate) fn next_word(x: u64) -> u64
    ensures { result ≡ word_after x }
{
    x.wrapping_mul(6_364_136_223_846_793_005)
        .wrapping_add(1_442_695_040_888_963_407)
}

pub(crate) fn client_of(x: u64) -> u64
    ensures is { result ≡ client_said x }
    ensures client { IsClient result }
{
    (x >> 50) % 8 + 1
}

pub(crate) fn load_line(alloc: Global, x: u64) -> Result<Text, NoMemory>
    ensures { IfOk result (λ t. t ≡ line_said x) }
{
    let key = (x >> 33) % 2000;
    let mut line = String::new(alloc);
    write!(line, "{{\"key\":\"/calico/v1/config/k{key}\"")?;
    push_value(&mut line, x)?;
    line.push_str("}")?;
    Ok(Text::from_string(line))
}

fn push_value(line: &mut String, x: u64) -> Result<(), NoMemory>
    ensures { OnOk result (string_bytes line.new ≡ string_bytes line.old ++ value_member x) }
{
    if (x >> 20) % 8 == 0 {
        return Ok(());
    }
    let value = (x >> 44) % 1000;
    write!(line, ",\"value\":\"v{value}\"")?;
    Ok(())
}
