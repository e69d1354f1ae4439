//! Laws of the definitions.

ghost use Rattle.std.specs.Prelude.{ℕ, List};
ghost use Rattle.smf_show.specs.DateLaws.{IsInItsYear};
ghost use Rattle.smf_show.specs.PastLaws.{ContractLivesIn, SinceIsToldBy, TellsLiveStart};
ghost use Rattle.smf_show.specs.declared.past.Dated.{Dated as AnyDated};

/// An instance has its state since the time of a line that tells it, behind lines that told another state last, and no line
/// behind it tells another one.
pub fn a_state_is_told_since_it_came()
    ensures { (lines : List AnyDated) → SinceIsToldBy lines }
{}

/// A contract that lives was begun or found by a line, and no line behind it ends it.
pub fn a_live_contract_was_not_ended()
    ensures { (lines : List AnyDated) → ContractLivesIn lines }
{}

/// The days from 1970 to a day are those of the years before its year, and those of its year that are over.
pub fn a_day_is_in_its_year()
    ensures { (days : ℕ) → IsInItsYear days }
{}

/// The contract that lives is one that an audit of the chronicle takes for a live start of the instance. If the audit never
/// finds two, it is that one.
pub fn a_live_contract_is_the_audits()
    ensures { (lines : List AnyDated) → TellsLiveStart lines }
{}
