ghost use Rattle.std.specs.Prelude.{◌≡◌, ◌∷◌, ◌++◌, [], IfOk};
ghost use Rattle.smf_model.specs.Next.{acceptance_with, refusal_with};

use crate::change::{Change, Outcome};
use crate::command::CommandReply;
use crate::tables::Tables;
use smf_fmri::Items;
use std::alloc::{AllocError, Global};
use std::marker::Model;

/// The outcome of a command, unless memory runs out.
pub(crate) type Asked = Result<Outcome, AllocError>;

/// The value that a command is planned over, and the memory for the plan. A clause sees the value.
#[derive(Drop)]
pub(crate) struct Planner<'a> {
    pub(crate) alloc: Global,
    pub(crate) tables: &'a Tables,
}

impl<'a> Model for Planner<'a> {
    ghost use Rattle.smf_model.specs.Contents.{Holdings};

    ghost Value = { Holdings };

    ghost view = { λ p. p.tables.now };
}

/// Changes, and one more after them.
pub(crate) fn with_change(
    mut changes: Items<Change>,
    change: Change,
) -> Result<Items<Change>, AllocError>
    ensures { IfOk result (λ all. all ≡ changes ++ change ∷ []) }
{
    changes.push(change)?;
    Ok(changes)
}

/// Drops a reply in whose place a refusal or a fault comes. The drop costs one proof here, and none at each exit.
pub(crate) fn let_go(_reply: CommandReply) {}

impl<'a> Planner<'a> {
    pub(crate) fn over(alloc: Global, tables: &'a Tables) -> Planner<'a>
        ensures { result ≡ tables.now }
    {
        Planner { alloc, tables }
    }

    /// A refusal changes nothing.
    pub(crate) fn refusal_with(&self, reply: CommandReply) -> Asked
        ensures { IfOk result (λ r. r ≡ refusal_with reply) }
    {
        Ok(Outcome {
            changes: Items::new(self.alloc),
            reply,
        })
    }

    /// An accepted command makes one revision. If none is left, the command is refused.
    pub(crate) fn acceptance_with(&self, changes: Items<Change>, reply: CommandReply) -> Asked
        ensures { IfOk result (λ r. r ≡ acceptance_with self.now changes reply) }
    {
        match self.tables.revision().next() {
            None => {
                let_go(reply);
                self.refusal_with(CommandReply::Limit)
            }
            Some(next) => match with_change(changes, Change::SetRevision(next)) {
                Ok(changes) => Ok(Outcome { changes, reply }),
                Err(fault) => {
                    let_go(reply);
                    Err(fault)
                }
            },
        }
    }

    /// A command with one change.
    pub(crate) fn one(&self, change: Change, reply: CommandReply) -> Asked
        ensures { IfOk result (λ r. r ≡ acceptance_with self.now (change ∷ []) reply) }
    {
        match with_change(Items::new(self.alloc), change) {
            Ok(changes) => self.acceptance_with(changes, reply),
            Err(fault) => {
                let_go(reply);
                Err(fault)
            }
        }
    }
}
