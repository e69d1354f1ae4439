//! What a repository holds, as texts for programs and for people.
//! Modules: `shown` (an instance, with what is shown of it), `chosen` (the instances that words mean),
//! `texts` (texts of what a repository holds). Of instances: `json` (JSON), `well` (whether they are as they should be),
//! `long` (lines about each), `metrics` and `properties` (properties as svcprop prints them).
//! For tables: `past` (what a chronicle tells of an instance), `dates` (times as texts), `row` (an instance with its past),
//! `columns` (what stands in them), `rows` (which, and in which order) and `table`; `law` (what it means that a chronicle tells something).
#![tactic(auto)]

mod chosen;
mod columns;
mod dates;
mod json;
mod law;
mod long;
mod metrics;
mod past;
mod properties;
mod row;
mod rows;
mod shown;
mod table;
mod texts;
mod well;

pub use chosen::{configured_instances, running_instances, shown_instances, table_rows};
pub use columns::Column;
pub use json::json_text;
pub use law::{
    a_day_is_in_its_year, a_live_contract_is_the_audits, a_live_contract_was_not_ended,
    a_state_is_told_since_it_came,
};
pub use long::long_text;
pub use metrics::metrics_text;
pub use past::{Dated, Past, Standing, past_of};
pub use properties::{Selection, properties_text};
pub use row::{DatedChronicle, NumberCell, TableRow};
pub use rows::{Direction, SortKey};
pub use shown::{Configured, Shown};
pub use table::{TableOptions, table_text};
pub use texts::{all_well, json_of, long_of, metrics_of, table_of};
pub use well::are_well;
