//! Who says what agents do.

ghost use Rattle.std.specs.Prelude.{IfOk};
ghost use Rattle.bhs_schedules.specs.Dialogues.{QuestionAnswer, Begins, GoesOn, item_with};

use crate::answers::{Latest, TeamAnswer, TeamFault};

/// Deterministic agents. Contracts see the questions to a team as steps from one state to the next. A memory that was
/// not told before has the next number, counted from 0.
pub trait Team {
    // The transition relation of a team: in the first state it may answer this question so, and is then in the second
    // state.
    ghost answers: { Self → QuestionAnswer → Self → Type 0 };

    /// What an agent holds at the start.
    fn begin(&mut self, agent: u16) -> Result<TeamAnswer, TeamFault>
        ensures { IfOk result (λ strategy. answers self.old (Begins agent strategy.memory strategy.step) self.new) };

    /// What an agent holds that held this memory before, and to which this has happened; `shown` is the text of the
    /// whiteboard that a reply shows. It is asked once.
    fn next(&mut self, before: u32, latest: Latest, shown: &str) -> Result<TeamAnswer, TeamFault>
        ensures { IfOk result (λ strategy.
            answers self.old (GoesOn before (item_with latest shown.now) strategy.memory strategy.step) self.new) };
}
