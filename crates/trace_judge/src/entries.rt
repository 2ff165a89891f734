//! The places of the links in the table of a trace: how one is looked up, added, and given a line.
ghost use Rattle.std.specs.Prelude.{◌≡◌, ◌≢◌, ◌<◌, ◌≤◌, ◌+◌, ℕ, length, max, option_map, IfOk, OnOk, None, Some};
ghost use Rattle.axi_beats.specs.Bus.{IsBusWidth};
ghost use Rattle.port_rules.specs.StandsFor.{HasSmallAddresses};
ghost use Rattle.trace_judge.specs.Entries.{EntryTakes, HasTaken};
ghost use Rattle.trace_judge.specs.Table.{link_entry};

use crate::link_state::LinkState;
use axi_beats::NoMemory;
use axi_history::PortRound;
use std::alloc::{AllocError, Global};

/// What is kept of a link, or nothing where no line of it was given.
pub(crate) fn link_entry(links: &[Option<LinkState>], link: u32) -> Option<&LinkState>
    ensures { option_map (λ state. state.now) result ≡ link_entry links.now link }
{
    match links.get(link as usize) {
        Some(entry) => entry.as_ref(),
        None => None,
    }
}

/// Makes a place for a link, and for those before it, where there is none. Without memory some places may be added.
pub(crate) fn grow(links: &mut Vec<Option<LinkState>>, link: u32) -> Result<(), AllocError>
    ensures size { OnOk result (length links.new.items ≡ max (length links.old.items) (link + 1)) }
    ensures entries { OnOk result ((k : ℕ) → link_entry links.new.items k ≡ link_entry links.old.items k) }
{
    while links.len() <= link as usize {
        links.push(None)?;
    }
    Ok(())
}

/// Gives a line of this number to its link, which has a place. Without memory the link is lost.
pub(crate) fn add_to_link(
    links: &mut Vec<Option<LinkState>>,
    alloc: Global,
    r: &PortRound,
    line: u32,
) -> Result<(), NoMemory>
    requires place { r.now.link < length links.old.items }
    requires bus { IsBusWidth r.now.kind.bus }
    requires small { HasSmallAddresses r.now }
    requires first { 1 ≤ r.now.round }
    requires takes { EntryTakes (link_entry links.old.items r.now.link) r.now.kind }
    ensures size { OnOk result (length links.new.items ≡ length links.old.items) }
    ensures others { OnOk result ((k : ℕ) → k ≢ r.now.link → link_entry links.new.items k ≡ link_entry links.old.items k) }
    ensures entry { OnOk result
        (HasTaken (link_entry links.old.items r.now.link) (link_entry links.new.items r.now.link) line r.now) }
{
    add_line(&mut links[r.link as usize], alloc, r, line)
}

/// Gives a line to what is kept of its link, where it stands. It is the first line where nothing is kept.
fn add_line(
    entry: &mut Option<LinkState>,
    alloc: Global,
    r: &PortRound,
    line: u32,
) -> Result<(), NoMemory>
    requires bus { IsBusWidth r.now.kind.bus }
    requires small { HasSmallAddresses r.now }
    requires first { 1 ≤ r.now.round }
    requires takes { EntryTakes entry.old r.now.kind }
    ensures { OnOk result (HasTaken entry.old entry.new line r.now) }
{
    match entry {
        Some(state) => state.take_line(r, line),
        None => {
            *entry = Some(first_line(alloc, r, line)?);
            Ok(())
        }
    }
}

/// A link with its first line, of this number.
fn first_line(alloc: Global, r: &PortRound, line: u32) -> Result<LinkState, NoMemory>
    requires bus { IsBusWidth r.now.kind.bus }
    requires small { HasSmallAddresses r.now }
    requires first { 1 ≤ r.now.round }
    ensures { IfOk result (λ state. HasTaken None (Some state) line r.now) }
{
    let mut state = LinkState::new(alloc, r.kind);
    state.take_line(r, line)?;
    Ok(state)
}
