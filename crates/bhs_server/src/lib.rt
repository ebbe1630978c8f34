//! A contest over TCP: one thread for each session, and one for the deliveries of each match.
#![tactic(auto)]

mod clients;
mod connections;
mod contest_end;
mod crowds;
mod hold;
mod origins;
mod pace;
mod ports;
mod queue;
mod rejections;
mod server;
mod session_context;
mod sessions;
mod settlement;
mod start_errors;
mod strays;
mod threads;
mod turns;
mod visits;
mod watch;

pub use connections::SessionHooks;
pub use pace::{Pace, PaceStep};
pub use ports::{MatchPort, SessionAgent};
pub use rejections::{Rejection, rejection_line};
pub use server::{Contest, Limits, Served, run_server};
pub use settlement::{Refused, Settled};
pub use start_errors::StartError;
pub use strays::Strays;
pub use threads::can_start;
pub use turns::deal;
pub use visits::{EndedSession, TURNS, attend};
pub use watch::{Blind, Outside, Watch};
