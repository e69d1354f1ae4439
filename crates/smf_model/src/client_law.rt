ghost use Rattle.std.specs.Prelude.{List};
ghost use Rattle.smf_model.specs.Journals.{IsRevised};
ghost use Rattle.smf_model.specs.Whole.{Whole};
ghost use Rattle.smf_model.specs.Clients.{AreGiven, Given as AnyGiven, IsEdited, IsGiven, LeavesFirstOf, LeavesThisOrLater};

use crate::journal::Journal;

/// A crash after edits, or within one, leaves what it could leave before them, or what the first of them make.
pub fn a_crash_leaves_the_first_edits<J: Journal>()
    ensures { (before after : Whole J) (all : List AnyGiven)
        → AreGiven (λ r. r.held) (λ old edit end new. IsEdited J.is_clean J.is_sound J.stands J.could old edit new) before all after
        → LeavesFirstOf J.could before all after }
{}

/// An edit that was accepted outlasts a crash after it, over a disk that gives back what was written. The crash leaves
/// its value, or what the first of the edits after it make.
pub fn an_accepted_edit_outlasts_a_crash<J: Journal>()
    ensures { (before middle after : Whole J) (g : AnyGiven) (all : List AnyGiven)
        → IsGiven (λ r. r.held) (λ old edit end new. IsEdited J.is_clean J.is_sound J.stands J.could old edit new) before g middle
        → IsRevised before.held middle.held
        → AreGiven (λ r. r.held) (λ old edit end new. IsEdited J.is_clean J.is_sound J.stands J.could old edit new) middle all after
        → J.is_clean after.journal
        → LeavesThisOrLater J.could middle.held all after }
{}
