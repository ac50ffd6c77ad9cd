ghost use Rattle.std.specs.Prelude.{◌≡◌, ◌≤◌, length, IfOk, OnOk, Ok};
ghost use Rattle.std.specs.List.{All};
ghost use Rattle.serde_json.specs.View.{view, items_view};
ghost use Rattle.no_profile.specs.Texts.{IsAgain, line_data, lines_data, profile_data, text_of};
ghost use Rattle.no_profile.specs.Ranges.{IsRanged};
ghost use Rattle.no_profile.specs.Reading.{MOST_BYTES, Reads};

use crate::profile::{Line, Profile};
use no_ir::{Bytes, List, NoMemory};
use no_names::spelled_name;
use serde_json::{Value, json};
use std::alloc::Global;

/// A line as an object.
fn line_value(alloc: Global, line: &Line) -> Result<Value, NoMemory>
    ensures value { IfOk result (λ value. view value ≡ line_data line.now) }
    ensures again { IsAgain line.now }
{
    let name = spelled_name(alloc, line.name.as_slice())?;
    let value = json!(in alloc; {
        "calls": line.calls,
        "name": name,
        "pages": line.pages,
        "steps": line.steps,
    })?;
    Ok(value)
}

/// Lines as a list of objects.
fn line_values(alloc: Global, lines: &[Line]) -> Result<Vec<Value>, NoMemory>
    ensures values { IfOk result (λ values. items_view values.items ≡ lines_data lines.now) }
    ensures again { OnOk result (All IsAgain lines.now) }
{
    let mut values = Vec::new(alloc);
    for line in lines {
        values.push(line_value(alloc, line)?)?;
    }
    Ok(values)
}

/// A profile as an object.
fn profile_value(alloc: Global, profile: &Profile) -> Result<Value, NoMemory>
    ensures value { IfOk result (λ value. view value ≡ profile_data profile.now) }
    ensures again { OnOk result (All IsAgain profile.now.lines) }
{
    let lines = line_values(alloc, profile.lines.as_slice())?;
    let value = json!(in alloc; {
        "functions": lines,
        "steps": profile.steps,
        "version": 1u64,
    })?;
    Ok(value)
}

/// The text of a profile (docs/FORMATS.md, "Profiles"): one JSON object in UTF-8 with no space and no line feed, its members
/// in the order of bytes. Where it isn't longer than a text may be that is read, it reads as the same profile.
pub fn profile_text(alloc: Global, profile: &Profile) -> Result<Bytes, NoMemory>
    requires { IsRanged profile.now }
    ensures text { IfOk result (λ text. text ≡ text_of profile.now) }
    ensures again { IfOk result (λ text. length text ≤ MOST_BYTES → Reads text (Ok profile.now)) }
{
    let value = profile_value(alloc, profile)?;
    let text = value.to_vec(alloc)?;
    Ok(List::from_vec(text))
}
