use smf_contract::Method;
use smf_dep::{DependencyFault, Grouping};
use smf_fmri::{Fmri, InstanceFmri, Items};
use smf_method::MethodFault;
use smf_state::State;
use smf_value::Name;

/// An instance that an entity stands for, with its state; an entity that stands for none is absent.
#[derive(Drop)]
pub struct Standing {
    pub name: Fmri,
    pub state: Option<State>,
}

/// Why an instance that is enabled does not run, or what of it is wrong before it is started.
#[derive(Drop)]
pub enum Reason {
    /// A transition to this state is under way.
    UnderWay(State),
    /// svc.startd's graph orders it to this state, before anything else.
    Ordered(State),
    /// Its row of this number says so.
    Maintenance {
        instance: u64,
        row: u64,
    },
    /// `general/restarter` can't be read.
    UnreadableRestarter,
    /// The snapshot `running` can't be read.
    UnreadableSnapshot,
    UnreadableGroup {
        group: Name,
        fault: DependencyFault,
    },
    NotMet {
        group: Name,
        grouping: Grouping,
        /// The entities on which alone the group would not be met.
        standings: Items<Standing>,
    },
    /// Entities that a group wants, which stand for no instance.
    NamesNothing {
        group: Name,
        grouping: Grouping,
        standings: Items<Standing>,
    },
    /// The restarter's instance is absent, or does not run.
    RestarterIsOff(Items<Standing>),
    NoStartMethod,
    UnreadableMethod {
        method: Method,
        fault: MethodFault,
    },
    /// The instances of a cycle, each of which cites the next, and the last the first.
    OnCycle(Items<InstanceFmri>),
    /// What is configured is not what its snapshot `running` holds. No view tells that.
    Unrefreshed,
}

/// An instance, and why it does not run, or what of it is wrong. There are no reasons why if it runs, is not enabled,
/// or is about to start.
#[derive(Drop)]
pub struct Told {
    pub name: InstanceFmri,
    pub state: State,
    pub reasons: Items<Reason>,
}
