use crossbeam_utils::sync::{EventCount, Key};
use std::sync::atomic::{AtomicBool, AtomicU64, Ordering};

/// What workers wait for: that a client makes an edit or comes to its end.
#[derive(Drop)]
pub(crate) struct Watch {
    /// Whether the clients have begun.
    begun: AtomicBool,
    /// How many clients haven't done their first command.
    waiting: AtomicU64,
    /// How many clients haven't come to their end.
    left: AtomicU64,
    events: EventCount,
}

impl Watch {
    /// A watch over so many clients, none of which has begun.
    pub(crate) fn new(clients: usize) -> Watch {
        Watch {
            begun: AtomicBool::new(false),
            waiting: AtomicU64::new(clients as u64),
            left: AtomicU64::new(clients as u64),
            events: EventCount::new(),
        }
    }

    /// The clients begin.
    pub(crate) fn begin(&self) {
        self.begun.store(true, Ordering::SeqCst);
    }

    /// A client is ahead of its command with this number: ahead of the second one it has done its first.
    pub(crate) fn before(&self, number: u32) {
        if number == 2 {
            self.first_done();
        }
    }

    // One more client has done its first command, or has none to do. The last one wakes the workers that sleep, since
    // they may compute then what is stale.
    fn first_done(&self) {
        if self.waiting.fetch_sub(1, Ordering::SeqCst) == 1 {
            self.wake();
        }
    }

    /// Whether each client has done its first command, or has come to its end.
    pub(crate) fn all_have_begun(&self) -> bool {
        self.waiting.load(Ordering::SeqCst) == 0
    }

    /// One client has come to its end, after it began so many commands. It wakes the workers that sleep.
    pub(crate) fn leave(&self, commands: usize) {
        if commands < 2 {
            self.first_done();
        }
        let _ = self.left.fetch_sub(1, Ordering::SeqCst);
        self.wake();
    }

    /// Whether all clients have come to their end.
    pub(crate) fn none_left(&self) -> bool {
        self.left.load(Ordering::SeqCst) == 0
    }

    /// Announces a wait: it ends with the next wake-up after this call. None before the clients have begun, since they
    /// may be waiting for this thread.
    pub(crate) fn announce(&self) -> Option<Key<'_>> {
        if self.begun.load(Ordering::SeqCst) {
            Some(self.events.prepare_wait())
        } else {
            None
        }
    }

    /// Wakes the workers that sleep, and ends each wait that was announced. It is one load where there is none.
    pub(crate) fn wake(&self) {
        self.events.notify_all();
    }
}
