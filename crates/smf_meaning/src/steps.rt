ghost use Rattle.std.specs.Prelude.{◌≡◌, ℕ, Ok};
ghost use Rattle.smf_state.specs.declared.row.Row.{Row as AnyRow};
ghost use Rattle.smf_state.specs.declared.step.Proposal.{Proposal as AnyProposal};
ghost use Rattle.smf_state.specs.Rows.{result_of_proposal};
ghost use Rattle.smf_meaning.specs.Runs.{StepsOn};

/// A granted step that begins a run takes the one after the last, and no step leads to uninitialized.
pub fn steps_take_the_next_run()
    ensures { (before after : AnyRow) (p : AnyProposal) (revision : ℕ) → result_of_proposal before p revision ≡ Ok after
        → StepsOn p.step before after }
{}
