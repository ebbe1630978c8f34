//! What every command reports: its faults and exit statuses, and names as they are printed.

pub(crate) mod appeal_faults;
pub(crate) mod causes;
pub(crate) mod faults;
pub(crate) mod names;
pub(crate) mod statuses;
