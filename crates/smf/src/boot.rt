// A boot that failed, and the wait for the next one.
use smf_host::{FileDesk, SystemTimer};
use smf_lines::tell;
use smf_node::NodeFault;
use smf_script::{ScriptFault, fault_text};
use smf_server::{Desk, ServerInput, Timer};
use std::time::Duration;

/// The status of a request that comes before the boot.
const FAULT: u8 = 3;

/// So many tries are made a second apart.
const QUICK: u32 = 10;

/// The seconds between two tries after these.
const PAUSE: u64 = 10;

/// The boots that failed so far, and the words of the last fault.
#[derive(Drop)]
pub(crate) struct Tries {
    count: u32,
    words: &'static str,
}

/// True if a later boot may do better: a disk may get room, and memory may be given back.
fn may_pass(fault: &NodeFault) -> bool {
    matches!(fault, NodeFault::Database | NodeFault::Memory)
}

impl Tries {
    pub(crate) fn new() -> Tries {
        Tries {
            count: 0,
            words: "",
        }
    }

    /// The time until the next boot is tried.
    fn pause(&self) -> Duration {
        if self.count < QUICK {
            Duration::from_secs(1)
        } else {
            Duration::from_secs(PAUSE)
        }
    }

    /// Tells a fault, unless the last boot failed by it too.
    fn note(&mut self, rt: &HostRuntime, fault: NodeFault) -> u8 {
        let words = fault_text(&ScriptFault::Node(fault));
        let is_known = self.words == words;
        self.words = words;
        self.count = self.count.saturating_add(1);
        if is_known {
            FAULT
        } else {
            tell(&mut rt.stderr(), words)
        }
    }

    /// Waits for the next try, and refuses what is asked meanwhile. False if no more is asked.
    fn wait(&self, rt: &HostRuntime, desk: &mut FileDesk<'_>) -> bool {
        let timer = SystemTimer { rt };
        let begun = timer.now();
        for _ in 0..u64::MAX {
            match desk.next() {
                ServerInput::Tick => {
                    if timer.now().saturating_sub(begun) >= self.pause() {
                        return true;
                    }
                }
                ServerInput::Request(_request) => {
                    let _is_written = desk.refuse(self.words.as_bytes(), FAULT);
                }
                ServerInput::End | ServerInput::Leave => return false,
            }
        }
        false
    }

    /// What comes after a boot that failed: none if another is tried after a wait, or the status of the run.
    pub(crate) fn fail(
        &mut self,
        rt: &HostRuntime,
        desk: &mut FileDesk<'_>,
        fault: NodeFault,
    ) -> Option<u8> {
        let may_pass = may_pass(&fault);
        let status = self.note(rt, fault);
        if !may_pass {
            return Some(status);
        }
        if self.wait(rt, desk) { None } else { Some(0) }
    }
}
