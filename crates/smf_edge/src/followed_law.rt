ghost use Rattle.std.specs.Prelude.{ℕ, List, map};
ghost use Rattle.smf_contract.specs.Begun.{table_of_found};
ghost use Rattle.smf_contract.specs.Laws.{Ascends};
ghost use Rattle.smf_contract.specs.declared.contract.Holder.{Holder as AnyHolder};
ghost use Rattle.smf_contract.specs.declared.found.Found.{Found as AnyFound};
ghost use Rattle.smf_edge.specs.Ledgers.{ledger_over};
ghost use Rattle.smf_edge.specs.FollowedBeginnings.{found_posts};
ghost use Rattle.smf_edge.specs.Followed.{IsFollowed};

/// Children may begin with the contracts that are found: each has as many members as was told of it.
pub fn found_contracts_are_followed()
    ensures { (who : AnyHolder) (last : ℕ) (fs : List AnyFound) → Ascends 0 (map (λ (f : AnyFound). f.id) fs) last
        → IsFollowed (ledger_over (table_of_found who last fs)) (found_posts fs) }
{}
