// The clock of a server.
use smf_watch::Timer;
use std::rt::{Clock, HostRuntime};
use std::time::Duration;

/// The clock of the system.
#[derive(Drop)]
pub struct SystemTimer<'a> {
    pub rt: &'a HostRuntime,
}

impl<'a> Timer for SystemTimer<'a> {
    ghost says = { λ _ _. Unit {0} };

    fn now(&self) -> Duration {
        self.rt.monotonic().unwrap_or(Duration::from_secs(0))
    }
}
