//! Laws of sessions.

ghost use Rattle.std.specs.Prelude.{◌≡◌, ℕ, List, [], ◌++◌};
ghost use Rattle.bhs_wire.specs.Lines.{Line, lines};
ghost use Rattle.bhs_session.specs.declared.endings.Ended.{Ended};
ghost use Rattle.bhs_session.specs.Phase.{Finished};
ghost use Rattle.bhs_session.specs.Session.{Point, Session, fresh};

use crate::endings::Ended;
use crate::port::Port;
use bhs_stream::{Input, Output};

/// The lines that a session took are the first of the lines that it read, in order.
pub fn lines_in_order<I: Input, O: Output, P: Port>()
    ensures { (from input : I) (output : O) (start : P) (turns : ℕ) (p : Point O P) →
        Session I.gives O.takes P.calls from (fresh output start turns) input p
        → (left : List Line) × (lines p.read ≡ p.taken ++ left) }
{}

/// A session that may not read at all asks its port nothing and writes nothing. It ends by its turns.
pub fn no_turns<I: Input, O: Output, P: Port>()
    ensures { (from input : I) (output : O) (start : P) (p : Point O P) (ended : Ended) →
        Session I.gives O.takes P.calls from (fresh output start 0) input p
        → p.phase ≡ Finished ended
        → (ended ≡ Ended.Turns) × (input ≡ from) × (p.output ≡ output) × (p.port ≡ start) × (p.written ≡ []) ×
        (p.read ≡ []) }
{}
