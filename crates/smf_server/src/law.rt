//! The laws of turns, one after another, and of a life that goes on.

ghost use Rattle.std.specs.Prelude.{◌≡◌, ℕ, List, Option, true};
ghost use Rattle.smf_contract.specs.Begun.{table_of_found};
ghost use Rattle.smf_contract.specs.declared.contract.Holder.TheVariants.{Held};
ghost use Rattle.smf_contract.specs.declared.found.Found.{Found as AnyFound};
ghost use Rattle.smf_script.specs.Forgets.{AgreesAnew};
ghost use Rattle.smf_edge.specs.Answers.{Seen};
ghost use Rattle.smf_edge.specs.Ledgers.{ledger_over};
ghost use Rattle.smf_model.specs.Contents.{Holdings};
ghost use Rattle.smf_node.specs.FoundContracts.{are_fit};
ghost use Rattle.smf_server.specs.Life.{HasStayed, is_uncut, state_after_find};
ghost use Rattle.smf_server.specs.Turns.{Between, TurnsFollow};
ghost use Rattle.smf_watch.specs.Traffic.{Passed};
ghost use Rattle.smf_watch.specs.declared.ask.Onward.{Onward as AnyOnward};
ghost use Rattle.smf_watch.specs.declared.retries.Retry.{Retry as AnyRetry};
ghost use Rattle.smf_watch.specs.declared.terms.Term.{Term as AnyTerm};
ghost use Rattle.smf_world.specs.declared.item.Item.{Item as AnyItem};

use smf_edge::Kids;
use smf_model::Journal;
use smf_watch::Timer;

/// Turn after turn, requests are replied to in their order, each done on what all turns before it left, also on what turns
/// left that failed.
pub fn turns_follow<T: Timer, J: Journal, K: Kids>(_timer: &T, _journal: &J)
    ensures { TurnsFollow K.skills (T.says _timer.now) J.write_fails }
{}

/// A node that goes on with the contracts that were found agrees at the end of its life with children that began with
/// them, unless a request was ended by a fault.
pub fn a_continued_life_agrees<T: Timer, J: Journal, K: Kids>(_timer: &T, _journal: &J)
    ensures { (h : Holdings) (last : ℕ) (fs : List AnyFound) (seen : Seen) (retries : List AnyRetry) (t : Between) (most : ℕ) (how : AnyOnward)
        (was is : Option (List Passed)) (told_was told_is : Option (List AnyItem))
        (terms_was terms_is : Option (List (List AnyTerm))) → are_fit 0 last fs ≡ true
        → seen.ledger ≡ ledger_over (table_of_found (Held 0) last fs)
        → (stayed : HasStayed K.skills (T.says _timer.now) J.write_fails most how was is told_was told_is terms_was
        terms_is (state_after_find h last fs seen retries) t) → is_uncut stayed.served.turns ≡ true
        → AgreesAnew t.standing.course.progress.world t.standing.course.seen.ledger }
{}
