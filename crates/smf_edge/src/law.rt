ghost use Rattle.smf_contract.specs.declared.contract.Holder.{Holder as AnyHolder};
ghost use Rattle.smf_contract.specs.Entries.{Contracts};
ghost use Rattle.smf_contract.specs.Laws.{IsOrdered};
ghost use Rattle.smf_edge.specs.Beginnings.{AreHeldBy, held_table};

/// Children may begin with the contracts of any table in order, once one holder has them all.
pub fn a_table_may_be_held()
    ensures ordered { (h : AnyHolder) (t : Contracts) → IsOrdered t → IsOrdered (held_table h t) }
    ensures held { (h : AnyHolder) (t : Contracts) → AreHeldBy h (held_table h t).contracts }
{}
