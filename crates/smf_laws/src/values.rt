ghost use Rattle.std.specs.List.{AllByRecursion};
ghost use Rattle.std.specs.Prelude.{List};
ghost use Rattle.smf_model.specs.declared.command.Command.{Command as AnyCommand};
ghost use Rattle.smf_model.specs.History.{holdings_after_commands};
ghost use Rattle.smf_model.specs.Contents.{Holdings};
ghost use Rattle.smf_model.specs.Laws.{IsNumbered};
ghost use Rattle.smf_model.specs.Look.{empty};
ghost use Rattle.smf_model.specs.Next.{next};
ghost use Rattle.smf_laws.specs.Consistent.{IsConsistent, IsNamedCommand};

/// The empty value keeps the rules of a store, and so does each value that commands make of it, one after another.
pub fn values_stay_consistent()
    ensures first { IsConsistent empty }
    ensures kept { (h : Holdings) (c : AnyCommand) → IsNumbered h → IsConsistent h → IsNamedCommand c
        → IsConsistent (next h c).0 }
    ensures made { (cs : List AnyCommand) → AllByRecursion IsNamedCommand cs
        → IsConsistent (holdings_after_commands empty cs) }
{}
