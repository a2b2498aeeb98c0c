// The text of one delta, by `json`'s writer.
ghost use Rattle.std.specs.Prelude.{◌≡◌, ◌<◌, ◌^◌, ◌++◌, OnOk, IfOk};
ghost use Rattle.ty_wire.specs.Wire.{new_pair, kind_text as kind_word, DeltaHasUtf8, ValueHasUtf8};
ghost use Rattle.ty_wire.specs.Cut.{value_len as len_of_value};
ghost use Rattle.ty_wire.specs.Cut.{weight as weight_of_delta};
ghost use Rattle.ty_wire.specs.steps.Tokens.{delta_tokens, value_tokens};
ghost use Rattle.ty_group.specs.steps.Pieces.{piece};

use json::Writer;
use ty_base::{Delta, Kind, NoMemory, Text};

// Appends a delta's text and a comma.
pub(crate) fn append_piece(text: Vec<u8>, delta: &Delta) -> Result<Vec<u8>, NoMemory>
    ensures { IfOk result (λ v. v.items ≡ text.items ++ piece delta.now) }
{
    let mut writer = Writer::new(text);
    put_delta(&mut writer, delta)?;
    let mut text = writer.into_inner();
    text.push(b',')?;
    Ok(text)
}

fn put_delta(writer: &mut Writer, delta: &Delta) -> Result<(), NoMemory>
    ensures tokens { OnOk result (writer.new.tokens ≡ writer.old.tokens ++ delta_tokens delta.now) }
    ensures before { OnOk result (writer.new.before ≡ writer.old.before) }
{
    writer.begin_object()?;
    writer.key("key")?;
    writer.string(delta.key.as_str())?;
    writer.key("type")?;
    writer.string(kind_text(delta.kind))?;
    put_rest(writer, &delta.value)
}

// The value, where there is one, and the closing bracket.
fn put_rest(writer: &mut Writer, value: &Option<Text>) -> Result<(), NoMemory>
    ensures tokens { OnOk result (writer.new.tokens
        ≡ writer.old.tokens ++ value_tokens value.now) }
    ensures before { OnOk result (writer.new.before ≡ writer.old.before) }
{
    if let Some(value) = value {
        writer.key("value")?;
        writer.string(value.as_str())?;
    }
    writer.end_object()?;
    Ok(())
}

fn kind_text(kind: Kind) -> &'static str
    ensures { result.now ≡ kind_word kind }
{
    match kind {
        Kind::New => "new",
        Kind::Updated => "updated",
        Kind::Deleted => "deleted",
    }
}

// The bytes of a delta's key and value.
pub(crate) fn weight_of(delta: &Delta) -> usize
    ensures weight { result ≡ weight_of_delta delta.now }
    ensures utf8 { DeltaHasUtf8 delta.now }
{
    delta.key.bytes().len() + value_len(&delta.value)
}

// The bytes of a pair's key and value.
pub(crate) fn weight_of_pair(key: &Text, value: &Text) -> usize
    ensures { result ≡ weight_of_delta (new_pair key.now value.now) }
{
    key.bytes().len() + value.bytes().len()
}

fn value_len(value: &Option<Text>) -> usize
    ensures len { result ≡ len_of_value value.now }
    ensures utf8 { ValueHasUtf8 value.now }
    ensures small { result < 2 ^ 63 }
{
    match value {
        Some(value) => value.bytes().len(),
        None => 0,
    }
}
