//! Process contracts: who holds which, what processes are in it, and what happened to them.
//! Modules: `terms` (event sets), `event`, `contract` (the entries of the table), `call`, `table` (the calls) over
//! `lookup` and `change`; `ends` (the contracts that a call empties), `book` (the contracts by their ids), `members`
//! (the processes of each contract), `past` (its events); `law`, `cookie`, `fault`.
#![tactic(auto)]

mod book;
mod call;
mod change;
mod contract;
mod cookie;
mod ends;
mod event;
mod fault;
mod found;
mod law;
mod lookup;
mod members;
mod past;
mod table;
mod terms;

pub use call::ContractCall;
pub use contract::{Contract, Holder, Member, Report, Status};
pub use cookie::{Cookie, CookieFault, Method};
pub use event::{ContractEvent, EventKind, Exit, Failure};
pub use fault::ContractFault;
pub use found::Found;
pub use law::{
    a_thinned_table_stays_in_order, an_emptied_contract_had_members, an_empty_contract_stays_empty,
    found_contracts_stand_in_order, numbers_stay_in_order,
};
pub use table::{ContractTable, Made};
pub use terms::{EventSet, Terms};
