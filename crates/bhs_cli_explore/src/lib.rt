//! The command `explore`: every schedule of a match is tried, with agents of a host or with modules.
#![tactic(auto)]

mod discoveries;
mod explore;
mod holes;
mod hosts;
mod links;
mod modules;
mod worlds;

pub use explore::explore_named;
pub use holes::explore_holes_named;
pub use modules::{
    ModuleFile, begun_line, explore_modules_named, file_of, modules_for, print_report,
    report_count, report_module,
};
