ghost use Rattle.std.specs.Prelude.{◌≡◌, ◌⊎◌, codes, length, option_copied, option_map, option_and_then, IfOk};
ghost use Rattle.serde_json.specs.Data.{Members, object};
ghost use Rattle.serde_json.specs.Find.{as_array, as_object, as_str, get};
ghost use Rattle.serde_json.specs.View.{view, items_view, members_view};
ghost use Rattle.no_profile.specs.Ranges.{IsRanged};
ghost use Rattle.no_profile.specs.Reading.{Reads, TellsFirst, earlier, first_wrong, functions_in, is_wrong, judged, line_in, line_with, lines_of, name_at, number_at, size, unless_wrong, up_to, version_in, whole_in, with_name};
ghost use Rattle.no_profile.specs.Told.{Opens, Told};

use crate::fault::{ProfileError, ProfileFault};
use crate::profile::{Line, Profile};
use no_ir::{Bytes, List, NoMemory};
use no_names::name_by;
use serde_json::{Map, Value};
use std::alloc::Global;
use std::cmp::Ordering;

/// The most bytes of a text.
const MOST_BYTES: usize = 1_048_576;
/// The most calls and steps.
const MOST_STEPS: u64 = 4_294_967_296;
/// The most pages.
const MOST_PAGES: u64 = 1_048_576;

// ---- numbers, names and lines

/// A number where it is not above the greatest.
fn up_to(most: u64, number: u64) -> Option<u64>
    ensures { result ≡ up_to most number }
{
    if number <= most { Some(number) } else { None }
}

/// The member of a name, where it is a whole number.
fn whole_at(value: &Value, name: &str) -> Option<u64>
    ensures { result ≡ option_and_then whole_in (get name.now (view value.now)) }
{
    match value.get(name) {
        Some(member) => member.as_u64(),
        None => None,
    }
}

/// The member of a name, where it is a whole number that is not above the greatest.
fn number_at(value: &Value, name: &str, most: u64) -> Option<u64>
    ensures { result ≡ number_at most name.now (view value.now) }
{
    match whole_at(value, name) {
        Some(number) => up_to(most, number),
        None => None,
    }
}

/// The member `name`, where it is a text.
fn spelling_at(value: &Value) -> Option<&str>
    ensures { option_copied result ≡ option_and_then as_str (get (codes "name") (view value.now)) }
{
    match value.get("name") {
        Some(member) => member.as_str(),
        None => None,
    }
}

/// The name of which the member `name` is the one spelling.
fn name_at(alloc: Global, value: &Value) -> Result<Option<Bytes>, NoMemory>
    ensures { IfOk result (λ name. name ≡ name_at (view value.now)) }
{
    match spelling_at(value) {
        Some(text) => name_by(alloc, text.as_bytes()),
        None => Ok(None),
    }
}

/// A line, where all its members were found.
fn line_with(
    calls: Option<u64>,
    name: Option<Bytes>,
    pages: Option<u64>,
    steps: Option<u64>,
) -> Option<Line>
    ensures { result ≡ line_with calls name pages steps }
{
    match (calls, name, pages, steps) {
        (Some(calls), Some(name), Some(pages), Some(steps)) => Some(Line {
            name,
            calls,
            steps,
            pages,
        }),
        _ => None,
    }
}

/// How many members an object has; 0 for what is no object.
fn size(value: &Value) -> usize
    ensures { result ≡ size (view value.now) }
{
    match value.as_object() {
        Some(members) => members.len(),
        None => 0,
    }
}

/// The line that an object is.
fn line_in(alloc: Global, value: &Value) -> Result<Option<Line>, NoMemory>
    ensures { IfOk result (λ line. line ≡ line_in (view value.now)) }
{
    if size(value) != 4 {
        return Ok(None);
    }
    let name = name_at(alloc, value)?;
    Ok(line_with(
        number_at(value, "calls", MOST_STEPS),
        name,
        number_at(value, "pages", MOST_PAGES),
        number_at(value, "steps", MOST_STEPS),
    ))
}

/// The lines that items are, where each is one.
fn lines_of(alloc: Global, values: &[Value]) -> Result<Option<List<Line>>, NoMemory>
    ensures { IfOk result (λ lines. lines ≡ lines_of (items_view values.now)) }
{
    let mut lines = List::new(alloc);
    for value in values {
        let Some(line) = line_in(alloc, value)? else {
            return Ok(None);
        };
        lines.push(line)?;
    }
    Ok(Some(lines))
}

// ---- the members of a profile

/// The items in the member `functions`.
fn items_in(value: &Value) -> Option<&Vec<Value>>
    ensures { option_map (λ items. items_view items.now.items) result ≡ option_and_then as_array (get (codes "functions") (view value.now)) }
{
    match value.get("functions") {
        Some(member) => member.as_array(),
        None => None,
    }
}

/// The lines in the member `functions`.
fn functions_in(alloc: Global, value: &Value) -> Result<Option<List<Line>>, NoMemory>
    ensures { IfOk result (λ lines. lines ≡ functions_in (view value.now)) }
{
    match items_in(value) {
        Some(items) => lines_of(alloc, items.as_slice()),
        None => Ok(None),
    }
}

/// The number in the member `version`; 0 where it is missing or no whole number.
fn version_in(value: &Value) -> u64
    ensures { result ≡ version_in (view value.now) }
{
    whole_at(value, "version").unwrap_or(0)
}

/// Whether the member of a name is wrong, where it is told of `functions` and `steps` whether they were found.
fn is_wrong(functions: bool, steps: bool, name: &str) -> bool
    ensures { result ≡ is_wrong functions steps name.now }
{
    if name == "functions" {
        !functions
    } else if name == "steps" {
        !steps
    } else {
        name != "version"
    }
}

/// Of two names the one that comes first in the order of bytes.
fn earlier<'a>(found: Option<&'a str>, name: &'a str) -> &'a str
    ensures { result.now ≡ earlier (option_copied found.entry) name.now }
{
    match found {
        Some(found) => match name.cmp(found) {
            Ordering::Less => name,
            _ => found,
        },
        None => name,
    }
}

/// The first name so far, with one name more that counts where it is wrong.
fn with_name<'a>(
    functions: bool,
    steps: bool,
    found: Option<&'a str>,
    name: &'a str,
) -> Option<&'a str>
    ensures { option_copied result ≡ with_name (is_wrong functions steps) (option_copied found.entry) name.now }
{
    if is_wrong(functions, steps, name) {
        Some(earlier(found, name))
    } else {
        found
    }
}

/// Of the names that have to be there and those that are there, the first in the order of bytes that is wrong.
fn first_wrong<'a>(functions: bool, steps: bool, members: &'a Map<String, Value>) -> Option<&'a str>
    ensures { option_copied result ≡ first_wrong functions steps (members_view members.now.entries) }
{
    let found = with_name(functions, steps, None, "functions");
    let mut found = with_name(functions, steps, found, "steps");
    for (name, _member) in members.iter() {
        found = with_name(functions, steps, found, name.as_str());
    }
    found
}

// ---- the whole

/// The fault of a member, or want of memory for its name.
fn member_fault(alloc: Global, name: &str) -> ProfileError
    ensures { (result ≡ ProfileError.NoMemory) ⊎ (result ≡ ProfileError.Fault (ProfileFault.Member name.now)) }
{
    match List::from_slice(alloc, name.as_bytes()) {
        Ok(name) => ProfileError::Fault(ProfileFault::Member(name)),
        Err(_) => ProfileError::NoMemory,
    }
}

/// The first wrong name of an object.
fn wrong_in(value: &Value, functions: bool, steps: bool) -> Option<&str>
    ensures { option_copied result ≡ option_and_then (first_wrong functions steps) (as_object (view value.now)) }
{
    match value.as_object() {
        Some(members) => first_wrong(functions, steps, members),
        None => None,
    }
}

/// The profile where no name is wrong.
fn unless_wrong(
    alloc: Global,
    wrong: Option<&str>,
    lines: Option<List<Line>>,
    steps: Option<u64>,
) -> Result<Profile, ProfileError>
    ensures { Told (unless_wrong (option_copied wrong.entry) lines steps) result }
{
    match wrong {
        Some(name) => Err(member_fault(alloc, name)),
        None => Ok(Profile {
            steps: steps.unwrap_or(0),
            lines: lines.unwrap_or(List::new(alloc)),
        }),
    }
}

/// What an object is as a profile; its version is judged first.
fn judged(alloc: Global, value: &Value) -> Result<Profile, ProfileError>
    ensures { (members : Members) → view value.now ≡ object members → Told (judged members) result }
{
    let version = version_in(value);
    if version != 1 {
        return Err(ProfileError::Fault(ProfileFault::Version(version)));
    }
    let lines = functions_in(alloc, value)?;
    let steps = number_at(value, "steps", MOST_STEPS);
    let wrong = wrong_in(value, lines.is_some(), steps.is_some());
    unless_wrong(alloc, wrong, lines, steps)
}

/// The object that a text is.
fn object_in(alloc: Global, text: &[u8]) -> Result<Value, ProfileError>
    ensures { Opens text.now result }
{
    match Value::from_slice(alloc, text) {
        Ok(value) if value.is_object() => Ok(value),
        Ok(_) => Err(ProfileError::Fault(ProfileFault::NotJson)),
        Err(error) if error.is_memory() => Err(ProfileError::NoMemory),
        Err(_) => Err(ProfileError::Fault(ProfileFault::NotJson)),
    }
}

/// Reads the text of a profile (docs/FORMATS.md, "Profiles"): JSON in UTF-8 with any spaces and its members in any order; of a
/// member that is given twice the last counts. The first fault is told in the order: too long, no JSON or no object, another
/// version, the first wrong member.
pub fn read_profile(alloc: Global, text: &[u8]) -> Result<Profile, ProfileError>
    ensures reads { Reads text.now result }
    ensures first { TellsFirst text.now result }
    ensures ranged { IfOk result (λ p. IsRanged p) }
{
    if text.len() > MOST_BYTES {
        return Err(ProfileError::Fault(ProfileFault::TooLong));
    }
    match object_in(alloc, text) {
        Ok(value) => judged(alloc, &value),
        Err(error) => Err(error),
    }
}
