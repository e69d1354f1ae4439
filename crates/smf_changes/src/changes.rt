ghost use Rattle.std.specs.Prelude.{◌≡◌, ◌++◌, ◌-◌, ℕ, IsSome, List, None, Some, length, min};
ghost use Rattle.smf_fmri.specs.ByKey.{Rises, lookup};
ghost use Rattle.smf_changes.specs.Candidates.{AllRunTheirOwn, candidates, instances_named, touched_among};
ghost use Rattle.smf_changes.specs.Changes.{IsBeyond, IsPatched, by_itself, changes_since, most_recent, recent, touched_numbers};
ghost use Rattle.smf_state.specs.declared.view.ChangedItem.{ChangedItem};
ghost use Rattle.smf_state.specs.Patched.{by_changed};
ghost use Rattle.smf_model.specs.declared.change.Change.{Change as AnyChange};
ghost use Rattle.smf_model.specs.declared.command.Command.{Command as AnyCommand};
ghost use Rattle.smf_model.specs.History.{history, holdings_after_commands};
ghost use Rattle.smf_model.specs.Contents.{Holdings};
ghost use Rattle.smf_model.specs.Laws.{IsNumbered};
ghost use Rattle.smf_model.specs.Look.{holdings_after_changes};

/// The view of a value, with the changes made since, is the view of the newest value.
pub fn a_view_is_patched()
    ensures { (h : Holdings) (cs ds : List AnyCommand) (to : ℕ) (items : List ChangedItem) → IsNumbered h
        → IsPatched (recent h (ds ++ cs)) (holdings_after_commands h cs) (holdings_after_commands h (ds ++ cs)) to items }
{}

/// Changes are given since each revision from the first value on that is at most 256 below the newest, and no other.
pub fn changes_are_exact()
    ensures none { (h : Holdings) (cs : List AnyCommand) (from : ℕ) → IsBeyond h (holdings_after_commands h cs) from
        → changes_since (recent h cs) (holdings_after_commands h cs) from ≡ None }
    ensures only { (h : Holdings) (cs : List AnyCommand) (from : ℕ)
        → changes_since (recent h cs) (holdings_after_commands h cs) from ≡ None → IsBeyond h (holdings_after_commands h cs) from }
    ensures kept { (h : Holdings) (cs : List AnyCommand)
        → length (recent h cs) ≡ min most_recent ((holdings_after_commands h cs).revision - h.revision) }
    ensures rising { (nss : List (List ℕ)) (h : Holdings) (from to : ℕ) (items : List ChangedItem)
        → changes_since nss h from ≡ Some (to, items) → Rises by_changed items }
{}

/// The commands that were accepted give the lists of all commands, since a refused command touches nothing.
pub fn refusals_leave_no_list()
    ensures { (h : Holdings) (cs : List AnyCommand) → recent (history h cs).first (history h cs).past ≡ recent h cs }
{}

/// The numbers that changes touch are among their candidates, so a reader of views looks at no other item.
pub fn touched_are_candidates()
    ensures within { (h : Holdings) (cs : List AnyChange) (n : ℕ) → IsNumbered h
        → IsSome (lookup by_itself (touched_numbers h (holdings_after_changes h cs)) n) → IsSome (lookup by_itself (candidates h cs) n) }
    ensures found { (h : Holdings) (cs : List AnyChange) → IsNumbered h
        → touched_numbers h (holdings_after_changes h cs) ≡ touched_among (candidates h cs) h (holdings_after_changes h cs) }
    ensures own { (h : Holdings) (cs : List AnyChange) → IsNumbered h → AllRunTheirOwn h
        → touched_numbers h (holdings_after_changes h cs) ≡ touched_among (instances_named h cs) h (holdings_after_changes h cs) }
{}
