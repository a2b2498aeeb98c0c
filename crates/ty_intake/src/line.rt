// What one line of a feed says, and its item.
ghost use Rattle.std.specs.Prelude.{◌≡◌, IfOk, IsUtf8, codes, None, true, false, option_map};
ghost use Rattle.serde_json.specs.View.{view};
ghost use Rattle.serde_json.specs.Find.{get};
ghost use Rattle.ty_values.specs.Items.{said};
ghost use Rattle.ty_intake.specs.Lines.{is_space as space, is_blank_line as blank};
ghost use Rattle.ty_intake.specs.Line.{said_by, said_by_json, said_in, by_members, update_in as update, is_absent_or_text};
ghost use Rattle.ty_intake.specs.steps.Progress.{IsLineTold};

use crate::intake::IntakeFault;
use serde_json::{Category, Value};
use std::alloc::Global;
use std::str;
use ty_base::{Item, LINE_BYTES, NoMemory, Text, read_status};
use ty_values::{Line, clean};

/// The item of a line, if it has one, or its fault.
#[derive(Drop)]
pub(crate) enum Told {
    Gives(Option<Item>),
    Fails(IntakeFault),
}

/// What is told of a line with this number.
pub(crate) fn read_line(alloc: Global, bytes: &[u8], line: u64) -> Result<Told, NoMemory>
    ensures { IfOk result (λ told. IsLineTold line bytes.now told) }
{
    if bytes.len() > LINE_BYTES {
        return Ok(Told::Fails(IntakeFault::LongLine { line }));
    }
    if !is_utf8(bytes) {
        return Ok(Told::Fails(IntakeFault::BadUtf8 { line }));
    }
    match said_line(alloc, bytes)? {
        Some(said) => Ok(Told::Gives(clean(alloc, &said)?.item)),
        None => Ok(Told::Fails(IntakeFault::BadLine { line })),
    }
}

fn is_utf8(bytes: &[u8]) -> bool
    ensures yes { result ≡ true → IsUtf8 bytes.now }
    ensures no { result ≡ false → ¬ (IsUtf8 bytes.now) }
{
    match str::from_utf8(bytes) {
        Ok(_) => true,
        Err(_) => false,
    }
}

// What a line says, or none where it is bad.
#[tactic(auto, unfolding(crate::specs::Line::said_by))]
fn said_line(alloc: Global, line: &[u8]) -> Result<Option<Line>, NoMemory>
    ensures { IfOk result (λ o. option_map said o ≡ said_by line.now) }
{
    if is_blank_line(line) {
        return Ok(Some(Line::Blank));
    }
    json_line(alloc, line)
}

/// Whether a line has nothing but spaces, tabs and carriage returns.
fn is_blank_line(line: &[u8]) -> bool
    ensures { result ≡ blank line.now }
{
    line.iter().all(|b| is_space(*b))
}

fn is_space(b: u8) -> bool
    ensures { result ≡ space b }
{
    b == b' ' || b == b'\t' || b == b'\r'
}

// What a line says that is a JSON text.
fn json_line(alloc: Global, line: &[u8]) -> Result<Option<Line>, NoMemory>
    ensures { IfOk result (λ o. option_map said o ≡ said_by_json line.now) }
{
    match Value::from_slice(alloc, line) {
        Ok(mut value) => line_in(alloc, &mut value),
        Err(e) => match e.classify() {
            Category::Memory => Err(NoMemory),
            _ => Ok(None),
        },
    }
}

// What a JSON value says: an update where there is a key, or a status, and not both. Its member for the value is
// taken out.
#[tactic(auto, unfolding(crate::specs::Line::said_in))]
fn line_in(alloc: Global, line: &mut Value) -> Result<Option<Line>, NoMemory>
    ensures { IfOk result (λ o. option_map said o ≡ said_in (view line.old)) }
{
    let Some(key) = line.get("key") else {
        return Ok(status_said(line));
    };
    if line.get("status").is_some() {
        return Ok(None);
    }
    match key.as_str() {
        Some(key) => {
            let key = Text::of(alloc, key)?;
            Ok(update_in(key, line))
        }
        None => Ok(None),
    }
}

// The status of a line without a key.
fn status_said(line: &Value) -> Option<Line>
    ensures { option_map said result
        ≡ by_members None (get (codes "status") (view line.now)) (view line.now) }
{
    let status = line.get("status")?.as_str()?;
    Some(Line::Status(read_status(status.as_bytes())?))
}

// The update of a key.
fn update_in(key: Text, line: &mut Value) -> Option<Line>
    ensures { option_map said result ≡ update key (view line.old) }
{
    if !has_good_revision(line) {
        return None;
    }
    Some(Line::Update {
        key,
        value: take_value(line),
    })
}

// Whether the revision is absent or a string.
fn has_good_revision(line: &Value) -> bool
    ensures { result ≡ is_absent_or_text (get (codes "revision") (view line.now)) }
{
    match line.get("revision") {
        None => true,
        Some(revision) => revision.is_string(),
    }
}

// The member for the value, without a copy.
fn take_value(line: &mut Value) -> Option<Value>
    ensures { option_map view result ≡ get (codes "value") (view line.old) }
{
    match line.get_mut("value") {
        Some(value) => Some(value.take()),
        None => None,
    }
}
