ghost use Rattle.std.specs.Prelude.{ℕ, List, map};
ghost use Rattle.smf_contract.specs.Begun.{table_of_found};
ghost use Rattle.smf_contract.specs.declared.contract.Holder.TheVariants.{Held, Inherited};
ghost use Rattle.smf_contract.specs.declared.found.Found.{Found as AnyFound};
ghost use Rattle.smf_contract.specs.Entries.{Contracts};
ghost use Rattle.smf_contract.specs.Laws.{Ascends, IsOrdered};
ghost use Rattle.smf_script.specs.Agrees.{AgreesSince, AreAlike, Before, before_over, before_trail};
ghost use Rattle.smf_edge.specs.Ledgers.{Ledger, ledger_over, remaining};
ghost use Rattle.smf_model.specs.Contents.{Holdings};
ghost use Rattle.smf_past.specs.Forgotten.{forgotten};
ghost use Rattle.smf_past.specs.Lived.{continued};
ghost use Rattle.smf_past.specs.Remains.{remains};
ghost use Rattle.smf_world.specs.World.{World};

/// A node that goes on with the contracts that are found agrees with children that begin with them. If its past is
/// forgotten they agree on, and so they do if both forget with it what is over.
pub fn a_beginning_agrees()
    ensures continued { (h : Holdings) (t u : Contracts) → IsOrdered u → AreAlike t u
        → AgreesSince (before_over t) (continued h t) (ledger_over u) }
    ensures found { (h : Holdings) (last : ℕ) (fs : List AnyFound) → Ascends 0 (map (λ (f : AnyFound). f.id) fs) last
        → AgreesSince (before_over (table_of_found Inherited last fs)) (continued h (table_of_found Inherited last fs))
        (ledger_over (table_of_found (Held 0) last fs)) }
    ensures forgotten { (b : Before) (w : World) (l : Ledger) → AgreesSince b w l
        → AgreesSince (before_trail b w) (forgotten w) l }
    ensures remaining { (b : Before) (w : World) (l : Ledger) → AgreesSince b w l
        → AgreesSince (before_over (remains w).table) (remains w) (remaining l) }
{}
