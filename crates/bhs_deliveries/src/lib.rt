//! Which of the agents on their way arrives next: the words of a stream, which a seed and a number fix, pick it out of
//! the pool. An agent whose link is held stays there.
#![tactic(auto)]

mod dealers;
mod draws;
mod faults;
mod held;
mod laws;
mod marks;
mod picks;
mod timeliness;
mod turns;

pub use dealers::Dealer;
pub use draws::{Drawn, draw};
pub use faults::HeldFault;
pub use held::Held;
pub use laws::{
    delays_have_their_own_streams, draws_are_those_of_the_model, gives_its_stream_in_order,
    gives_the_word_at_its_place, turns_follow_their_schedule, words_are_those_of_chacha8,
    worked_draws,
};
pub use picks::pick;
pub use timeliness::{Schedule, Untimely, first_untimely};
pub use turns::{Waits, deliver, draw_oblivious};
