ghost use Rattle.std.specs.Prelude.{◌≡◌, IfOk, OnOk};
ghost use Rattle.no_read_rules.specs.Spelled.{spelled};
ghost use Rattle.no_read_toplevel.specs.Grouping.{nothing_set, set_by, set_by_all, found_in, grouped, all_grouped, no_groups};
ghost use Rattle.no_read_toplevel.specs.Modules.{joined, latest, with_mark, with_marks};

use crate::tops::Top;
use no_ir::{List, Names, NoMemory};
use no_lex::Token;
use no_read_attributes::Mark;
use no_read_rules::spelled;
use std::alloc::Global;

/// What attributes set on a function: whether it is bound to the device, and the address that the device has for it.
#[derive(Clone, Copy, Debug, PartialEq, Eq)]
pub struct Settings {
    pub bound: bool,
    pub address: Option<u32>,
}

/// What the groups of each name set.
#[derive(Drop)]
pub(crate) struct Groups {
    pub names: Names,
    pub settings: List<Settings>,
}

fn nothing_set() -> Settings
    ensures { result ≡ nothing_set }
{
    Settings {
        bound: false,
        address: None,
    }
}

fn set_by(s: Settings, mark: Mark) -> Settings
    ensures { result ≡ set_by s mark }
{
    match mark {
        Mark::Bound => Settings {
            bound: true,
            address: s.address,
        },
        Mark::Address(number) => Settings {
            bound: s.bound,
            address: Some(number),
        },
        Mark::Group(_) => s,
    }
}

fn set_by_all(start: Settings, marks: &[Mark]) -> Settings
    ensures { result ≡ set_by_all start marks.now }
{
    let mut settings = start;
    for mark in marks {
        settings = set_by(settings, *mark);
    }
    settings
}

/// What the groups of a name set; nothing where there is none.
fn found_in(groups: &Groups, name: &[u8]) -> Settings
    ensures { result ≡ found_in groups.now name.now }
{
    match groups.names.find(name) {
        Some(at) if at < groups.settings.len() => groups.settings.as_slice()[at],
        _ => nothing_set(),
    }
}

/// More attributes of the groups of a name.
fn group(groups: &mut Groups, name: &[u8], marks: &[Mark]) -> Result<(), NoMemory>
    ensures { OnOk result (groups.new ≡ grouped groups.old name.now marks.now) }
{
    if groups.names.len() >= u32::MAX as usize {
        return Err(NoMemory);
    }
    let at = groups.names.number(name)? as usize;
    if at < groups.settings.len() {
        let settings = set_by_all(groups.settings.as_slice()[at], marks);
        groups.settings.set(at, settings);
    } else {
        groups.settings.push(set_by_all(nothing_set(), marks))?;
    }
    Ok(())
}

fn latest(found: Option<u32>, next: Option<u32>) -> Option<u32>
    ensures { result ≡ latest found next }
{
    match next {
        None => found,
        Some(number) => Some(number),
    }
}

fn joined(s: Settings, of_group: Settings) -> Settings
    ensures { result ≡ joined s of_group }
{
    Settings {
        bound: s.bound || of_group.bound,
        address: latest(s.address, of_group.address),
    }
}

fn with_mark(text: &[u8], groups: &Groups, s: Settings, mark: Mark) -> Settings
    ensures { result ≡ with_mark text.now (found_in groups.now) s mark }
{
    match mark {
        Mark::Group(token) => joined(s, found_in(groups, spelled(text, &token))),
        _ => set_by(s, mark),
    }
}

/// What attributes set on a function, those of its groups too.
pub(crate) fn with_marks(text: &[u8], groups: &Groups, marks: &[Mark]) -> Settings
    ensures { result ≡ with_marks text.now (found_in groups.now) nothing_set marks.now }
{
    let mut settings = nothing_set();
    for mark in marks {
        settings = with_mark(text, groups, settings, *mark);
    }
    settings
}

/// What all groups of a text set.
pub(crate) fn all_grouped(alloc: Global, text: &[u8], tops: &[Top]) -> Result<Groups, NoMemory>
    ensures { IfOk result (λ g. g ≡ all_grouped text.now no_groups tops.now) }
{
    let mut groups = Groups {
        names: Names::new(alloc)?,
        settings: List::new(alloc),
    };
    for top in tops {
        if let Top::Group(token, marks) = top {
            group(&mut groups, spelled(text, token), marks.as_slice())?;
        }
    }
    Ok(groups)
}
