ghost use Rattle.std.specs.Prelude.{◌≡◌, IfOk};
ghost use Rattle.smf_model.specs.Next.{outcome_of_command, asked_edit, restarters_named, with_owners};

use crate::command::{Command, Edit};
use crate::planner::{Asked, Planner};

impl Planner<'_> {
    /// The changes of a client's edit, with the owners that it leaves to write, and its reply.
    #[tactic(auto, unfolding(crate::specs::Next::asked_edit, crate::specs::Next::with_owners))]
    fn asked_edit(&self, edit: &Edit) -> Asked
        ensures { IfOk result
            (λ r. r ≡ with_owners self.now (restarters_named self.now edit.now) (asked_edit self.now edit.now)) }
    {
        match edit {
            Edit::AddService(name) => self.add_service(name),
            Edit::AddInstance { service, name } => self.add_instance(service, name),
            Edit::DeleteService(name) => self.delete_service(name),
            Edit::DeleteInstance(number) => self.delete_instance(*number),
            Edit::AddGroup {
                owner,
                name,
                group_type,
                non_persistent,
            } => self.add_new_group(owner, name, group_type, *non_persistent),
            Edit::DeleteGroup { owner, name } => self.delete_group(owner, name),
            Edit::Property {
                owner,
                group,
                change,
            } => self.change_property(owner, group, change),
            Edit::Enable {
                instance,
                enabled,
                temporary,
            } => self.enable(*instance, *enabled, *temporary),
            Edit::Restart(number) => self.restart(*number),
            Edit::Refresh(number) => self.refresh(*number),
            Edit::Clear(number) => self.clear(*number),
            Edit::Mark {
                instance,
                mark: how,
            } => self.mark(*instance, *how),
            Edit::Revert { instance, snapshot } => self.revert(*instance, *snapshot),
        }
    }

    /// The changes of a command, and its reply.
    #[tactic(auto, unfolding(crate::specs::Next::outcome_of_command))]
    pub(crate) fn outcome_of_command(&self, command: &Command) -> Asked
        ensures { IfOk result (λ r. r ≡ outcome_of_command self.now command.now) }
    {
        match command {
            Command::Edit(edit) => self.asked_edit(edit),
            Command::Propose(proposal) => self.answer(proposal),
            Command::Launch(name) => self.launch(name),
            Command::Boot => self.boot(),
        }
    }
}
