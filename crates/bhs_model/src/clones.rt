//! Copies of what agents say and hear.

ghost use Rattle.std.specs.Prelude.{◌≡◌, IfOk};

use crate::commands::Command;
use crate::events::Event;
use crate::replies::Reply;
use crate::setups::Setup;
use bhs_net::Memory;

impl Setup {
    /// An equal setup.
    pub fn try_clone(&self) -> Result<Setup, Memory>
        ensures { IfOk result (λ copy. copy ≡ self.now) }
    {
        Setup::clone(self)
    }
}

impl Command {
    /// An equal command, its texts copied by their own allocators.
    pub fn try_clone(&self) -> Result<Command, Memory>
        ensures { IfOk result (λ copy. copy ≡ self.now) }
    {
        Command::clone(self)
    }
}

impl Event {
    /// An equal event, its texts copied by their own allocators.
    pub fn try_clone(&self) -> Result<Event, Memory>
        ensures { IfOk result (λ copy. copy ≡ self.now) }
    {
        Event::clone(self)
    }
}

impl Reply {
    /// An equal reply, its text copied by its own allocator.
    pub fn try_clone(&self) -> Result<Reply, Memory>
        ensures { IfOk result (λ copy. copy ≡ self.now) }
    {
        Reply::clone(self)
    }
}
