ghost use Rattle.std.specs.Prelude.{◌≡◌, ℕ, ◌+◌, List, IfOk, map};
ghost use Rattle.std.specs.List.{AllByRecursion};
ghost use Rattle.smf_contract.specs.Begun.{table_of_found};
ghost use Rattle.smf_contract.specs.declared.contract.Contract.{Contract as AnyContract};
ghost use Rattle.smf_contract.specs.declared.contract.Holder.{Holder as AnyHolder};
ghost use Rattle.smf_contract.specs.declared.found.Found.{Found as AnyFound};
ghost use Rattle.smf_contract.specs.Calls.{result_of_spawn, result_of_fork};
ghost use Rattle.smf_contract.specs.declared.terms.Terms.{Terms};
ghost use Rattle.smf_contract.specs.Entries.{Contracts};
ghost use Rattle.smf_contract.specs.Called.{table_after_contract_call, emptied_by};
ghost use Rattle.smf_contract.specs.Laws.{Ascends, Call, table_after_call, after, is_among, is_lost, IsOrdered, NeverFalls, StaysEmpty};
ghost use Rattle.smf_contract.specs.Thinned.{thinned};
ghost use Rattle.smf_contract.specs.declared.call.ContractCall.{ContractCall};

/// A law of the definitions: no call gives a member to a contract that has none.
pub fn an_empty_contract_stays_empty()
    ensures { (t : Contracts) (call : Call) → StaysEmpty t (table_after_call t call) }
{}

/// A law of the definitions: a call empties exactly the contracts that had a member before it and are left in the table
/// without one.
pub fn an_emptied_contract_had_members()
    ensures { (t : Contracts) (call : ContractCall) (id : ℕ)
        → is_among id (emptied_by t call) ≡ is_lost id t (table_after_contract_call t call) }
{}

/// A law of the definitions: ids and process numbers stand in order and none is above the last ones. A new contract and
/// a new process get the next ones. The last ones never fall, so none is used again.
pub fn numbers_stay_in_order()
    ensures every { (calls : List Call) → IsOrdered (after calls) }
    ensures next { (t : Contracts) (call : Call) → IsOrdered t → IsOrdered (table_after_call t call) }
    ensures spawned { (t : Contracts) (actor cookie : ℕ) (terms : Terms)
        → IfOk (result_of_spawn t actor cookie terms)
        (λ r. (r.1.contract ≡ t.last_contract + 1) × (r.1.process ≡ t.last_process + 1)) }
    ensures forked { (t : Contracts) (process : ℕ) → IfOk (result_of_fork t process) (λ r. r.1 ≡ t.last_process + 1) }
    ensures last { (t : Contracts) (call : Call) → NeverFalls t (table_after_call t call) }
{}

/// A law of the definitions: contracts that are there stand in order, each with its holder. Tables of the same contracts
/// differ in their holders alone.
pub fn found_contracts_stand_in_order()
    ensures ordered { (who : AnyHolder) (last : ℕ) (fs : List AnyFound)
        → Ascends 0 (map (λ (f : AnyFound). f.id) fs) last → IsOrdered (table_of_found who last fs) }
    ensures held { (who : AnyHolder) (last : ℕ) (fs : List AnyFound)
        → AllByRecursion (λ c. c.holder ≡ who) (table_of_found who last fs).contracts }
    ensures same { (who other : AnyHolder) (last : ℕ) (fs : List AnyFound) → table_of_found who last fs
        ≡ record (table_of_found other last fs) {
          contracts =
              map (λ (c : AnyContract). record c { holder = who }) (table_of_found other last fs).contracts;
        } }
{}

/// A law of the definitions: a table stays in order when the contracts without members are gone. Each member is still in
/// a contract of the table.
pub fn a_thinned_table_stays_in_order()
    ensures { (t : Contracts) → IsOrdered t → IsOrdered (thinned t) }
{}
