//! Threads that wait until all are let go.

use std::sync::{Condvar, Mutex, Wait};

/// What threads wait at until they are let go.
#[derive(Drop)]
pub(crate) struct Hold {
    is_open: Mutex<bool>,
    changed: Condvar,
}

impl Hold {
    /// Nobody is let go yet.
    pub(crate) fn new() -> Hold {
        Hold {
            is_open: Mutex::new(false),
            changed: Condvar::new(),
        }
    }

    /// Waits to be let go.
    pub(crate) fn wait<R: Wait>(&self, rt: &R) {
        let is_open = self.is_open.lock(rt);
        let _open = self.changed.wait_while(rt, is_open, |is_open| !*is_open);
    }

    /// Lets all go.
    pub(crate) fn let_go<R: Wait>(&self, rt: &R) {
        *self.is_open.lock(rt) = true;
        self.changed.notify_all();
    }
}
