ghost use Rattle.smf_model.specs.Next.{current_instance};
ghost use Rattle.smf_watch.specs.Loops.{line_of, lines_of, loop_text};
ghost use Rattle.smf_watch.specs.Remedies.{StopsAtOne, clears_of, edit_of, event_of, marks_of, remedied};
ghost use Rattle.smf_watch.specs.declared.remedies.Remedy.TheVariants as remedies;
ghost use Rattle.smf_world.specs.Reached.{IsLater};
ghost use Rattle.smf_world.specs.Schedule.{on};
ghost use Rattle.smf_node.specs.Faults.{IsLack};
ghost use Rattle.std.specs.Prelude.{◌≡◌, ◌++◌, IfErr, IfOk, OnErr, OnOk};

use smf_fmri::{InstanceFmri, Items, Text};
use smf_model::{Edit, Journal, Mark};
use smf_node::{Node, NodeFault};
use std::alloc::{AllocError, Global};

/// What a server does about an instance that fails, as an administrator would.
#[derive(Clone, Copy)]
pub enum Remedy {
    /// It is marked for maintenance.
    Marks(u64),
    /// It is cleared, and so tried again.
    Clears(u64),
}

/// The line about an instance that ended too often.
#[tactic(auto, unfolding(crate::specs::Loops::loop_text))]
fn loop_text(alloc: Global, name: &InstanceFmri) -> Result<Text, AllocError>
    ensures { IfOk result (λ text. text ≡ loop_text name.now) }
{
    let text = format!(in alloc; "smf: {name}: restarting too quickly, marked for maintenance")?;
    Ok(Text::from_string(text))
}

/// Adds what is told of an instance, if it is there.
fn push_line<J: Journal>(
    alloc: Global,
    node: &Node<J>,
    instance: u64,
    lines: &mut Items<Text>,
) -> Result<(), AllocError>
    ensures { OnOk result (lines.new ≡ lines.old ++ line_of (current_instance node.now.world.now instance)) }
{
    match node.repository().instance(instance)? {
        Some(instance) => {
            let line = loop_text(alloc, &instance.name)?;
            lines.push(line)?;
            Ok(())
        }
        None => Ok(()),
    }
}

/// The lines about instances that ended too often.
pub fn lines_of<J: Journal>(
    alloc: Global,
    node: &Node<J>,
    numbers: &[u64],
) -> Result<Items<Text>, AllocError>
    ensures { IfOk result (λ lines. lines ≡ lines_of node.now.world.now numbers.now) }
{
    let mut lines: Items<Text> = Items::new(alloc);
    for number in numbers {
        push_line(alloc, node, *number, &mut lines)?;
    }
    Ok(lines)
}

/// Adds the marks of these.
fn push_marks(remedies: &mut Vec<Remedy>, numbers: &[u64]) -> Result<(), AllocError>
    ensures { OnOk result (remedies.new.items ≡ remedies.old.items ++ marks_of numbers.now) }
{
    for number in numbers {
        remedies.push(Remedy::Marks(*number))?;
    }
    Ok(())
}

/// Adds that these are cleared.
fn push_clears(remedies: &mut Vec<Remedy>, numbers: &[u64]) -> Result<(), AllocError>
    ensures { OnOk result (remedies.new.items ≡ remedies.old.items ++ clears_of numbers.now) }
{
    for number in numbers {
        remedies.push(Remedy::Clears(*number))?;
    }
    Ok(())
}

/// Some are marked, and then others are cleared.
pub(crate) fn remedies_of(
    alloc: Global,
    marked: &[u64],
    cleared: &[u64],
) -> Result<Vec<Remedy>, AllocError>
    ensures { IfOk result (λ remedies. remedies.items ≡ marks_of marked.now ++ clears_of cleared.now) }
{
    let mut remedies = Vec::new(alloc);
    push_marks(&mut remedies, marked)?;
    push_clears(&mut remedies, cleared)?;
    Ok(remedies)
}

fn edit_of(remedy: Remedy) -> Edit
    ensures { result ≡ edit_of remedy }
{
    match remedy {
        Remedy::Marks(instance) => Edit::Mark {
            instance,
            mark: Mark::Maintenance,
        },
        Remedy::Clears(instance) => Edit::Clear(instance),
    }
}

fn give_remedy<J: Journal>(node: &mut Node<J>, remedy: Remedy) -> Result<(), NodeFault>
    ensures ok { OnOk result (node.new ≡ on node.old (event_of remedy)) }
    ensures err { OnErr result (node.new ≡ node.old) }
    ensures fault { IfErr result (IsLack J.write_fails node.old.world (event_of remedy)) }
{
    let _reply = node.apply(edit_of(remedy))?;
    Ok(())
}

/// Marks and clears instances, as an administrator does. A fault leaves what was done before it.
pub fn remedy_all<J: Journal>(node: &mut Node<J>, remedies: &[Remedy]) -> Result<(), NodeFault>
    ensures ok { OnOk result (node.new ≡ remedied remedies.now node.old) }
    ensures err { IfErr result (StopsAtOne J.write_fails remedies.now node.old node.new) }
    ensures later { IsLater node.old.world node.new.world }
{
    for one in remedies {
        give_remedy(node, *one)?;
    }
    Ok(())
}
