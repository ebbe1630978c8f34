//! The parts of a shared match.

use crate::locked_match::LockedMatch;
use crate::pass::Pass;
use bhs_deliveries::Held;
use bhs_model::Setup;
use bhs_net::Net;
use bhs_time::ScheduleKind;

/// The parts of a shared match that no thread uses any more: what stood under its locks, and its parameters.
#[derive(Debug, Drop)]
pub struct Parts {
    pub game: u32,
    pub inner: LockedMatch,
    /// The unclaimed passes by agent; None for a claimed one.
    pub left: Vec<Option<Pass>>,
    pub net: Net,
    pub setup: Setup,
    pub held: Held,
    pub schedule: ScheduleKind,
}
