//! Instances that exclude each other.

ghost use Rattle.std.specs.List.{list_any};
ghost use Rattle.std.specs.Prelude.{◌≡◌, ◌++◌, OnOk, codes, flat_map, string_bytes};
ghost use Rattle.smf_reasons.specs.Texts.{line_end};
ghost use Rattle.smf_reasons.specs.Exclusions.{any_excludes, are_enabled, clash, clash_hint, clash_hints, clash_text, excludes, has_exclusion, is_exclusion, is_exclusion_of};

use crate::cycles::is_among;
use smf_dep::{Dependency, GraphMember, Grouping};
use std::alloc::AllocError;

fn is_exclusion(dependency: &Dependency) -> bool
    ensures { result ≡ is_exclusion dependency.now }
{
    dependency.grouping == Grouping::ExcludeAll
}

/// True if a dependency excludes an instance.
fn is_exclusion_of(member: &GraphMember, dependency: &Dependency) -> bool
    ensures { result ≡ is_exclusion_of member.now dependency.now }
{
    is_exclusion(dependency) && is_among(member, dependency.entities.as_slice())
}

fn any_excludes(member: &GraphMember, dependencies: &[Dependency]) -> bool
    ensures { result ≡ any_excludes member.now dependencies.now }
{
    dependencies
        .iter()
        .any(|dependency| is_exclusion_of(member, dependency))
}

/// True if an instance excludes another.
fn excludes(from: &GraphMember, to: &GraphMember) -> bool
    ensures { result ≡ excludes from.now to.now }
{
    match &from.dependencies {
        None => false,
        Some(dependencies) => any_excludes(to, dependencies.as_slice()),
    }
}

fn any_exclusion(dependencies: &[Dependency]) -> bool
    ensures { result ≡ list_any is_exclusion dependencies.now }
{
    dependencies
        .iter()
        .any(|dependency| is_exclusion(dependency))
}

/// True if an instance excludes anything.
fn has_exclusion(member: &GraphMember) -> bool
    ensures { result ≡ has_exclusion member.now }
{
    match &member.dependencies {
        None => false,
        Some(dependencies) => any_exclusion(dependencies.as_slice()),
    }
}

fn are_enabled(one: &GraphMember, other: &GraphMember) -> bool
    ensures { result ≡ are_enabled one.now other.now }
{
    one.enabled && other.enabled && one.name != other.name
}

/// True if two instances exclude each other, and both are enabled.
#[tactic(auto, unfolding(crate::specs::Exclusions::clash))]
fn clash(one: &GraphMember, other: &GraphMember) -> bool
    ensures { result ≡ clash one.now other.now }
{
    are_enabled(one, other) && excludes(one, other) && excludes(other, one)
}

/// Puts a hint about an instance and another one.
fn put_clash(out: &mut String, other: &str) -> Result<(), AllocError>
    ensures { OnOk result (string_bytes out.new ≡ string_bytes out.old ++ clash_text other.now) }
{
    out.push_str("Hint: It and ")?;
    out.push_str(other)?;
    out.push_str(" exclude each other, and both are enabled: each waits for the other.\n")
}

/// Puts a hint if two instances exclude each other, and both are enabled.
#[tactic(auto, unfolding(crate::specs::Exclusions::clash_hint))]
fn put_clash_hint(
    out: &mut String,
    one: &GraphMember,
    other: &GraphMember,
) -> Result<(), AllocError>
    ensures { OnOk result (string_bytes out.new ≡ string_bytes out.old ++ clash_hint one.now other.now) }
{
    if !clash(one, other) {
        return Ok(());
    }
    put_clash(out, other.name.print())
}

fn put_each_clash(
    out: &mut String,
    one: &GraphMember,
    members: &[GraphMember],
) -> Result<(), AllocError>
    ensures { OnOk result (string_bytes out.new ≡ string_bytes out.old ++ flat_map (clash_hint one.now) members.now) }
{
    for other in members {
        put_clash_hint(out, one, other)?;
    }
    Ok(())
}

/// Puts a hint for each instance of a view that excludes one and is excluded by it, if both are enabled.
#[tactic(auto, unfolding(crate::specs::Exclusions::clash_hints))]
pub(crate) fn put_clash_hints(
    out: &mut String,
    one: &GraphMember,
    members: &[GraphMember],
) -> Result<(), AllocError>
    ensures { OnOk result (string_bytes out.new ≡ string_bytes out.old ++ clash_hints members.now one.now) }
{
    if !has_exclusion(one) {
        return Ok(());
    }
    put_each_clash(out, one, members)
}
