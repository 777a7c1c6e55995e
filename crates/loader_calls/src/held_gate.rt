use loader_gate::gate::Gate;
use std::sync::atomic::{AtomicBool, Ordering};
use std::thread;

/// How many turns the pass of the first module waits for that of the second.
const MOST_TURNS: u32 = 10_000_000;

/// Holds whoever claimed the module 0 until another has come with the module 1, or the turns are used up.
#[derive(Drop)]
pub(crate) struct HeldGate {
    has_begun: AtomicBool,
    has_met_limit: AtomicBool,
}

impl HeldGate {
    pub(crate) fn new() -> HeldGate {
        HeldGate {
            has_begun: AtomicBool::new(false),
            has_met_limit: AtomicBool::new(false),
        }
    }

    /// Whether a loader waited in vain.
    pub(crate) fn has_met_limit(&self) -> bool {
        self.has_met_limit.load(Ordering::SeqCst)
    }
}

impl Gate for HeldGate {
    fn pass(&self, _loader: u32, module: u32) {
        if module == 1 {
            self.has_begun.store(true, Ordering::SeqCst);
            return;
        }
        for _turn in 0..MOST_TURNS {
            if self.has_begun.load(Ordering::SeqCst) {
                return;
            }
            thread::yield_now();
        }
        self.has_met_limit.store(true, Ordering::SeqCst);
    }
}
