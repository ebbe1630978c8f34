//! The built-in tournament, used if none is named.

ghost use Rattle.std.specs.Prelude.{◌≡◌, IfOk, MatchResult};
ghost use Rattle.bhs_files.specs.declared.faults.FileFault.TheVariants as faults;
ghost use Rattle.bhs_setups.specs.Lineups.{contest};
ghost use Rattle.bhs_files.specs.Tournaments.{plan};
ghost use Rattle.bhs_setups.specs.Fresh.{AreFresh};
ghost use Rattle.bhs_cli.specs.BuiltIn as texts;

use bhs_files::{FileFault, Tournament, read_network, read_tournament};
use bhs_net::{Memory, Net};
use bhs_setups::Lineup;
use bhs_tournament::assemble;
use std::alloc::Global;

// The network of the built-in tournament, as its file.
const NETWORK: &str = "version = 1
nodes = 3
links = [[0,0,1,0],[1,1,2,0],[2,1,0,1]]
";

// The built-in tournament, as its file.
const TOURNAMENT: &str = "version = 2
seed = \"0000000000000000000000000000000000000000000000000000000000000000\"

[[match]]
team = \"red\"
network = \"tri.toml\"
home = 0
holes = [2]
quota = 10
board = 8
keys = [\"ka\", \"kb\"]
held = []
";

/// Returns the built-in tournament, which is rehearsed if none is named.
pub fn built_in(alloc: Global) -> Result<Lineup, Memory>
    ensures made { IfOk result (λ lineup. contest lineup ≡ texts.built_in) }
    ensures fresh { IfOk result (λ lineup. AreFresh lineup.ready.items) }
{
    match assembled(alloc) {
        Ok(lineup) => Ok(lineup),
        Err(FileFault::Memory) => Err(Memory),
        Err(_) => unreachable!(),
    }
}

fn assembled(alloc: Global) -> Result<Lineup, FileFault>
    ensures { MatchResult result (λ lineup. contest lineup ≡ texts.built_in) (λ fault. fault ≡ faults.Memory) }
{
    let network = network(alloc)?;
    assemble(alloc, tournament(alloc)?, &[network])
}

fn network(alloc: Global) -> Result<Net, FileFault>
    ensures { MatchResult result (λ net. net ≡ texts.triangle) (λ fault. fault ≡ faults.Memory) }
{
    read_network(alloc, NETWORK)
}

fn tournament(alloc: Global) -> Result<Tournament, FileFault>
    ensures { MatchResult result (λ tournament. plan tournament ≡ texts.plan) (λ fault. fault ≡ faults.Memory) }
{
    read_tournament(alloc, TOURNAMENT)
}
