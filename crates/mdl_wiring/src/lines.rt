ghost use Rattle.std.specs.Prelude.{◌≡◌, ◌++◌, IfOk, OnOk, option_map, option_to_list};
ghost use Rattle.std.specs.Option.{option_copied};
ghost use Rattle.mdl_tree.specs.Walks.{first_value};
ghost use Rattle.mdl_tree.specs.Values.{section_tree, trees_of};
ghost use Rattle.mdl_wiring.specs.Members.{members_seen};
ghost use Rattle.mdl_wiring.specs.NameMaps.{AreNamesOf};
ghost use Rattle.mdl_wiring.specs.Lines as written;
ghost use Rattle.mdl_wiring.specs.Held.{place_seen, places_seen, ends_seen};

use crate::member::{Member, Shape};
use crate::names::{Names, place_of};
use crate::sections::take_parts;
use base_core::Memory;
use mdl_tree::Section;
use std::alloc::Global;

/// A block that a line names: its place among the members, and its ports.
#[derive(Clone, Copy, Drop)]
pub(crate) struct Named {
    pub at: usize,
    pub shape: Shape,
}

/// A place that a line names: the line of the section that names it, the block, if there is one of that name, and the
/// text of the port, if there is one.
#[derive(Clone, Copy, Drop)]
pub(crate) struct Place<'a> {
    pub line: u32,
    pub named: Option<Named>,
    pub port: Option<&'a [u8]>,
}

/// One end of a line: from where it leads, and to where.
#[derive(Clone, Copy, Drop)]
pub(crate) struct LineEnd<'a> {
    pub source: Place<'a>,
    pub target: Place<'a>,
}

/// The text of a section's parameter, if it has it.
fn text_named<'a>(section: &'a Section, name: &[u8]) -> Option<&'a [u8]>
    ensures { option_copied result ≡ first_value name.now (section_tree section.now).items }
{
    match section.param(name) {
        Some(text) => Some(text.bytes()),
        None => None,
    }
}

/// The first block of this name.
fn member_named(members: &[Member], names: &Names, name: &[u8]) -> Option<Named>
    requires { AreNamesOf (members_seen members.now) names.now }
    ensures { result ≡ written.member_named (members_seen members.now) name.now }
{
    let at = place_of(names, name)?;
    let member = members.get(at)?;
    Some(Named {
        at,
        shape: member.shape,
    })
}

/// The place that a section names by these two parameters, if it names a block.
fn named_by<'a>(
    members: &[Member],
    names: &Names,
    section: &'a Section,
    block: &[u8],
    port: &[u8],
) -> Option<Place<'a>>
    requires { AreNamesOf (members_seen members.now) names.now }
    ensures { option_map place_seen result
        ≡ written.named_by (members_seen members.now) block.now port.now
        (section_tree section.now) }
{
    let name = text_named(section, block)?;
    Some(Place {
        line: section.line,
        named: member_named(members, names, name),
        port: text_named(section, port),
    })
}

/// The place from which a line leads, if it has one.
fn source_of<'a>(members: &[Member], names: &Names, line: &'a Section) -> Option<Place<'a>>
    requires { AreNamesOf (members_seen members.now) names.now }
    ensures { option_map place_seen result
        ≡ written.source_of (members_seen members.now) (section_tree line.now) }
{
    named_by(members, names, line, b"SrcBlock", b"SrcPort")
}

/// The place to which a part of a line leads, if it names one.
fn target_of<'a>(members: &[Member], names: &Names, part: &'a Section) -> Option<Place<'a>>
    requires { AreNamesOf (members_seen members.now) names.now }
    ensures { option_map place_seen result
        ≡ written.target_of (members_seen members.now) (section_tree part.now) }
{
    named_by(members, names, part, b"DstBlock", b"DstPort")
}

/// Takes a line's ends from this source to the places that its parts name.
fn take_targets<'a>(
    ends: &mut Vec<LineEnd<'a>>,
    members: &[Member],
    names: &Names,
    source: Place<'a>,
    parts: &[&'a Section],
) -> Result<(), Memory>
    requires { AreNamesOf (members_seen members.now) names.now }
    ensures { OnOk result (ends_seen ends.new.items ≡ ends_seen ends.old.items
        ++ written.ends_to (members_seen members.now) (place_seen source.entry)
        (trees_of parts.now)) }
{
    for part in parts {
        if let Some(target) = target_of(members, names, *part) {
            ends.push(LineEnd { source, target })?;
        }
    }
    Ok(())
}

/// The places that lines name: those from which they lead, also to nowhere, and the ends of lines with such a place.
#[derive(Drop)]
pub(crate) struct LinePlaces<'a> {
    pub sources: Vec<Place<'a>>,
    pub ends: Vec<LineEnd<'a>>,
}

/// Takes the place from which one line leads, if it has one, and the line's ends.
fn take_line<'a>(
    alloc: Global,
    sources: &mut Vec<Place<'a>>,
    ends: &mut Vec<LineEnd<'a>>,
    members: &[Member],
    names: &Names,
    line: &'a Section,
) -> Result<(), Memory>
    requires { AreNamesOf (members_seen members.now) names.now }
    ensures sources { OnOk result (places_seen sources.new.items ≡ places_seen sources.old.items
        ++ option_to_list (written.source_of (members_seen members.now) (section_tree line.now))) }
    ensures ends { OnOk result (ends_seen ends.new.items ≡ ends_seen ends.old.items
        ++ written.ends_of_line (members_seen members.now) (section_tree line.now)) }
{
    let Some(source) = source_of(members, names, line) else {
        return Ok(());
    };
    sources.push(source)?;
    let mut parts = Vec::new(alloc);
    take_parts(&mut parts, line)?;
    take_targets(ends, members, names, source, parts.as_slice())
}

/// The places that these lines name.
pub(crate) fn places_of<'a>(
    alloc: Global,
    members: &[Member],
    names: &Names,
    lines: &[&'a Section],
) -> Result<LinePlaces<'a>, Memory>
    requires { AreNamesOf (members_seen members.now) names.now }
    ensures sources { IfOk result (λ named. places_seen named.sources.items
        ≡ written.sources_among (members_seen members.now) (trees_of lines.now)) }
    ensures ends { IfOk result (λ named. ends_seen named.ends.items
        ≡ written.ends_among (members_seen members.now) (trees_of lines.now)) }
{
    let mut sources = Vec::new(alloc);
    let mut ends = Vec::new(alloc);
    for line in lines {
        take_line(alloc, &mut sources, &mut ends, members, names, *line)?;
    }
    Ok(LinePlaces { sources, ends })
}
