//! Which schedule a tournament has.

use crate::delays::Delays;

/// How the turns of a tournament choose whom they deliver.
#[derive(Clone, Copy, Debug)]
pub enum ScheduleKind {
    /// A turn's word picks out of the pool of those on a link.
    Adaptive,
    /// Each turn's word picks one of all agents, which arrives if its delay on the link has passed.
    Oblivious(Delays),
}
