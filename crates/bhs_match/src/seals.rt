//! A match that has ended.

ghost use Rattle.std.specs.Prelude.{◌≡◌, ◌<◌, ◌≤◌, true, length, map, List, IfOk, IfSome, option_and_then};
ghost use Rattle.std.specs.List.{All};
ghost use Rattle.bhs_net.specs.Network.{nodes_of};
ghost use Rattle.bhs_model.specs.declared.events.Event.{Event as EventData};
ghost use Rattle.bhs_model.specs.Kept.{kept, lost};
ghost use Rattle.bhs_model.specs.KeptReplies.{kept_replies};
ghost use Rattle.bhs_model.specs.Places.{names};
ghost use Rattle.bhs_model.specs.Marks.{events_of, read, read_if, text_at, board_of};
ghost use Rattle.bhs_model.specs.InOrder.{replies};
ghost use Rattle.bhs_model.specs.Sites.{sites};
ghost use Rattle.bhs_model.specs.Setups.{IsNormal};
ghost use Rattle.bhs_state.specs.Agents.{position_of};
ghost use Rattle.bhs_world.specs.Faults.{IsWithinLimits};
ghost use Rattle.bhs_match.specs.Laws.{IsLogOf};
ghost use Rattle.bhs_match.specs.Matches.{world_in, state_of, most_kept};

use crate::games::Match;
use crate::sites::Site;
use bhs_model::{Kept, Mark, Reply, Setup};
use bhs_net::{Memory, Net};
use bhs_state::Standing;
use std::marker::Model;

/// A match that has ended, for reading alone.
#[derive(Debug, Drop)]
pub struct Sealed {
    pub(crate) game: Match,
}

impl Model for Sealed {
    ghost use Rattle.std.specs.Prelude.{◌≡◌, true};
    ghost use Rattle.bhs_match.specs.Matches.{Play, state_of};

    ghost Value = { Play };

    ghost view = { λ sealed. sealed.game };

    ghost invariant = { λ sealed. (state_of sealed.game).closed ≡ true };
}

impl Sealed {
    /// The events that were kept, in order, each with the mark of its reply.
    pub fn log(&self) -> &[Kept]
        ensures log { result.now ≡ self.now.log }
        ensures closed { (state_of self.now).closed ≡ true }

        // It holds what the definitions keep, with what they reply.
        ensures kept { kept (world_in self.now) (events_of self.now.log) ≡ events_of self.now.log }
        ensures replies { map (λ one. read_if self.now.log one.mark) self.now.log
            ≡ replies (world_in self.now) (events_of self.now.log) }

        // The log's replies are those that the kept events got among all events.
        ensures heard { (events : List EventData) → IsLogOf (world_in self.now) events self.now.log
            → map (λ one. read_if self.now.log one.mark) self.now.log ≡ kept_replies (world_in self.now) events }

        // A mark that shows a whiteboard names the last Write there that was answered Written.
        ensures shown { map (λ one. option_and_then board_of one.mark) self.now.log
            ≡ names (world_in self.now) (events_of self.now.log) }
        ensures bound { length self.now.log ≤ most_kept self.now.setup.agents self.now.setup.quota }
    {
        self.game.log()
    }

    /// Returns the site of each event of the log: the node at which the agent spoke, or the target node of a Deliver.
    pub fn sites(&self) -> &[Site]
        ensures sites { result.now ≡ sites (world_in self.now) (events_of self.now.log) }
        ensures count { length result.now ≡ length self.now.log }
        ensures range { All (λ site. IfSome site (λ node. node < nodes_of self.now.net)) result.now }
    {
        self.game.sites()
    }

    /// Returns the agent's final standing, `Outside` for unknown agents.
    pub fn standing(&self, agent: u16) -> Standing
        ensures { position_of result ≡ (state_of self.now).position agent }
    {
        self.game.standing(agent)
    }

    /// Returns whether the agent is lost; false if there is no such agent.
    pub fn is_lost(&self, agent: u16) -> bool
        ensures { result ≡ lost (world_in self.now) (events_of self.now.log) agent }
    {
        self.game.is_lost(agent)
    }

    /// Returns the whiteboard text of a mark of this log, or the empty text for a mark without a whiteboard.
    pub fn text(&self, mark: &Mark) -> &str
        ensures { result.now ≡ text_at self.now.log (board_of mark.now) }
    {
        self.game.text(mark)
    }

    /// Returns the reply that a mark of this log stands for.
    pub fn reply(&self, mark: &Mark) -> Result<Reply, Memory>
        ensures { IfOk result (λ reply. reply ≡ read self.now.log mark.now) }
    {
        self.game.reply(mark)
    }

    /// The network.
    pub fn net(&self) -> &Net
        ensures { result.now ≡ self.now.net }
    {
        self.game.net()
    }

    /// How the match was set up, in normal form.
    pub fn setup(&self) -> &Setup
        ensures setup { result.now ≡ self.now.setup }
        ensures normal { IsNormal self.now.net self.now.setup }
        ensures within { IsWithinLimits self.now.net self.now.setup }
    {
        self.game.setup()
    }
}
