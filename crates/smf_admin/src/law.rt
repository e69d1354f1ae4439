//! Laws that the definitions of this crate keep.

ghost use Rattle.smf_admin.specs.Instances.{Answers, found_of};
ghost use Rattle.smf_fmri.specs.Name.{read_pattern};
ghost use Rattle.smf_admin.specs.Examples.{CommandsHaveTheirFlags, FlagsAreOnce, FlagsEnd, FlagsJoin, MarksAreRead, OthersAreRefused};
ghost use Rattle.std.specs.Prelude.{List, ℕ};
ghost use Rattle.smf_admin.specs.Output.{IsListing, entries, unsorted_entries};
ghost use Rattle.smf_admin.specs.declared.list_options.Options.{Options as AnyOptions};
ghost use Rattle.smf_model.specs.declared.held.InstanceName.{InstanceName as AnyName};
ghost use Rattle.smf_state.specs.declared.view.ViewItem.{ViewItem as AnyItem};

/// svcs prints the instances that are to be shown, in the byte order of their names, and of several of one name the
/// last. If no two instances have one name, it prints these and no others, each once.
pub fn listings_are_in_order()
    ensures { (view : List AnyItem) (o : AnyOptions) → IsListing view (unsorted_entries view o) (entries view o) }
{}

/// A word that is a pattern stands for the only instance whose name it matches. If none or several match, the answer
/// says so. A word that is no pattern matches nothing.
pub fn answers_are_of_what_matches()
    ensures { (view : List AnyName) (word : List ℕ) → Answers (read_pattern word) word view (found_of view word) }
{}

/// Words are read as svcs(1) and svcadm(1M) write them: one example for each rule.
pub fn words_are_read_so()
    ensures joined { FlagsJoin }
    ensures ended { FlagsEnd }
    ensures once { FlagsAreOnce }
    ensures others { OthersAreRefused }
    ensures marks { MarksAreRead }
    ensures flags { CommandsHaveTheirFlags }
{}
