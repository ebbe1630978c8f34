//! The summary of a tournament's matches.

ghost use Rattle.std.specs.Prelude.{◌≡◌, IfOk, string_bytes};
ghost use Rattle.bhs_cli.specs.Summary.{match_line, summary_from};

use bhs_net::Memory;
use bhs_setups::Ready;
use std::alloc::Global;

/// The lines of matches, by number.
pub fn summary(alloc: Global, ready: &[Ready]) -> Result<String, Memory>
    ensures { IfOk result (λ text. string_bytes text ≡ summary_from 0 ready.now) }
{
    let mut text = String::new(alloc);
    for (game, one) in ready.iter().enumerate() {
        let line = match_line(alloc, game, one)?;
        text.push_str(line.as_str())?;
    }
    Ok(text)
}

fn match_line(alloc: Global, game: usize, ready: &Ready) -> Result<String, Memory>
    ensures { IfOk result (λ text. string_bytes text ≡ match_line game ready.now) }
{
    let team = ready.team.as_str();
    let nodes = ready.game.net().nodes();
    let links = ready.game.net().links();
    let agents = ready.game.setup().agents;
    format!(in alloc; "match {game} {team} nodes {nodes} links {links} agents {agents}\n")
}
