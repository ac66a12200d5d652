//! What the thread of a reader does.
use status_board::BoardReader;
use std::sync::Wait;
use std::sync::atomic::{AtomicBool, AtomicU64, Ordering};
use std::thread;
use std::time::{Clock, Duration};

/// What readers share: when to stop, and how many views came.
#[derive(Drop)]
pub struct Looks {
    // How long each waits between two views.
    pause: Duration,
    stop: AtomicBool,
    views: AtomicU64,
    // How many of the views had a higher prefix than the one that the reader saw before.
    later: AtomicU64,
}

impl Looks {
    /// No view has come yet.
    pub fn new(pause: Duration) -> Looks {
        Looks {
            pause,
            stop: AtomicBool::new(false),
            views: AtomicU64::new(0),
            later: AtomicU64::new(0),
        }
    }

    /// Readers look no more.
    pub fn stop(&self) {
        self.stop.store(true, Ordering::SeqCst);
    }

    /// How many views came to readers that have stopped, and how many of them had a higher prefix than the one before.
    pub fn counts(&self) -> (u64, u64) {
        let views = self.views.load(Ordering::SeqCst);
        (views, self.later.load(Ordering::SeqCst))
    }

    // Gives up the processor, or waits where there is a pause.
    fn rest<R: Clock>(&self, rt: &R) {
        if self.pause.is_zero() {
            thread::yield_now();
        } else {
            thread::sleep(rt, self.pause);
        }
    }

    /// A reader asks for one view after another until it is to stop.
    pub fn look_on<R: Wait + Clock>(&self, rt: &R, mut reader: BoardReader) {
        let (mut views, mut later, mut last) = (0_u64, 0_u64, 0_u64);
        'looks: for _ in rt.forever() {
            if self.stop.load(Ordering::SeqCst) {
                break;
            }
            let view = reader.view(rt);
            let prefix = view.prefix();
            reader = view.leave();
            views = views.saturating_add(1);
            later = later.saturating_add(u64::from(last < prefix));
            last = prefix;
            self.rest(rt);
        }
        self.views.fetch_add(views, Ordering::SeqCst);
        self.later.fetch_add(later, Ordering::SeqCst);
    }
}
