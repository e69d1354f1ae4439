ghost use Rattle.std.specs.Prelude.{◌≡◌};
ghost use Rattle.smf_world.specs.Safe.{is_start};

use smf_contract::Method;
use smf_fmri::InstanceFmri;
use smf_method::CommandText;
use smf_state::State;

/// An item of the trail, which shows things in the order in which they happened.
#[derive(Drop)]
pub enum Item {
    /// A row that the repository committed: an instance was added, a proposal granted, or a boot or a move reset it.
    Committed {
        instance: u64,
        number: u64,
        state: State,
        next: Option<State>,
    },
    /// A row that a restarter took.
    Held {
        name: InstanceFmri,
        launch: u64,
        instance: u64,
        number: u64,
        state: State,
    },
    /// A method was begun. The contract is 0 for a built-in, which makes none.
    Spawned {
        contract: u64,
        instance: u64,
        run: u64,
        method: Method,
        /// The revision that its order was decided on.
        revision: u64,
        command: CommandText,
    },
    /// A contract was first found empty.
    Emptied(u64),
    Boot,
}

/// True for the method whose contract is a live start until it is empty.
pub fn is_start(method: Method) -> bool
    ensures { result ≡ is_start method }
{
    match method {
        Method::Start => true,
        Method::Stop => false,
        Method::Refresh => false,
    }
}
