//! The hints of the instances of a view.

ghost use Rattle.std.specs.Prelude.{◌≡◌, ◌++◌, IfOk, OnOk, flat_map, string_bytes};
ghost use Rattle.smf_dep.specs.Members.{members};
ghost use Rattle.smf_reasons.specs.ViewHints.{hint_block, hint_text, member_hints, member_programs, programs_of};

use crate::exclusions::put_clash_hints;
use crate::hints::{push_programs, put_hints};
use smf_dep::{GraphMember, members};
use smf_fmri::{InstanceFmri, Items, Text};
use smf_state::View;
use std::alloc::{AllocError, Global};

/// Puts a name and its lines, if there are any.
fn put_block(out: &mut String, name: &InstanceFmri, lines: &str) -> Result<(), AllocError>
    ensures { OnOk result (string_bytes out.new ≡ string_bytes out.old ++ hint_block name.now lines.now) }
{
    if lines.is_empty() {
        return Ok(());
    }
    out.push_str(name.print())?;
    out.push_str("\n")?;
    out.push_str(lines)?;
    out.push_str("\n")
}

/// Puts the hints of an instance.
#[tactic(auto, unfolding(crate::specs::ViewHints::member_hints))]
fn put_member_hints(
    alloc: Global,
    missing: &[Text],
    members: &[GraphMember],
    out: &mut String,
    member: &GraphMember,
) -> Result<(), AllocError>
    ensures { OnOk result
        (string_bytes out.new ≡ string_bytes out.old ++ member_hints missing.now members.now member.now) }
{
    let mut lines = String::new(alloc);
    put_hints(alloc, missing, &mut lines, member.composed.as_slice())?;
    put_clash_hints(&mut lines, member, members)?;
    put_block(out, &member.name, lines.as_str())
}

fn put_all_hints(
    alloc: Global,
    missing: &[Text],
    out: &mut String,
    members: &[GraphMember],
) -> Result<(), AllocError>
    ensures { OnOk result (string_bytes out.new ≡ string_bytes out.old ++ hint_text missing.now members.now) }
{
    for member in members {
        put_member_hints(alloc, missing, members, out, member)?;
    }
    Ok(())
}

/// The likely mistakes of a view's instances, which are no flaws: a block for each instance that has one, in number
/// order. `missing` has the programs of methods that are not there.
pub fn hint_text(alloc: Global, view: &View, missing: &[Text]) -> Result<Text, AllocError>
    ensures { IfOk result (λ text. text ≡ hint_text missing.now (members view.now.items)) }
{
    let present = members(alloc, view.items.as_slice())?;
    let mut out = String::new(alloc);
    put_all_hints(alloc, missing, &mut out, present.as_slice())?;
    Ok(Text::from_string(out))
}

#[tactic(auto, unfolding(crate::specs::ViewHints::member_programs))]
fn push_member_programs(
    alloc: Global,
    member: &GraphMember,
    all: &mut Items<Text>,
) -> Result<(), AllocError>
    ensures { OnOk result (all.new ≡ all.old ++ member_programs member.now) }
{
    push_programs(alloc, member.composed.as_slice(), all)
}

fn push_all_programs(
    alloc: Global,
    members: &[GraphMember],
    all: &mut Items<Text>,
) -> Result<(), AllocError>
    ensures { OnOk result (all.new ≡ all.old ++ programs_of members.now) }
{
    for member in members {
        push_member_programs(alloc, member, all)?;
    }
    Ok(())
}

/// The programs of all methods of a view's instances, as they come.
pub fn programs_of(alloc: Global, view: &View) -> Result<Items<Text>, AllocError>
    ensures { IfOk result (λ programs. programs ≡ programs_of (members view.now.items)) }
{
    let present = members(alloc, view.items.as_slice())?;
    let mut all = Items::new(alloc);
    push_all_programs(alloc, present.as_slice(), &mut all)?;
    Ok(all)
}
