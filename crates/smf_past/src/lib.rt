//! A world may forget its past. A world that begins with what is held and with the contracts that live does what the
//! world with that past does. So whatever holds of the trail of one world holds of the trails of many lives, put together.
//! Nothing here runs.
#![tactic(auto)]

mod law;

pub use law::{
    a_beginning_is_safe, a_beginning_stands, a_life_goes_on, a_new_process_goes_on,
    a_past_changes_nothing, a_past_may_be_forgotten_often, a_table_may_be_thinned,
    forgetting_is_safe, losses_are_safe,
};
