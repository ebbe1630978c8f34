//! The parameters of serving a contest: from the given words, and defaults for the others.

ghost use Rattle.std.specs.Prelude.{◌≡◌, ◌≢◌, [], true};

use bhs_cli_words::Hosting;

// How many milliseconds the matches of a course wait for their agents, if no word says it.
const GATHER: u32 = 60_000;

/// How a contest is served.
#[derive(Clone, Copy, Drop)]
pub struct ServeOptions<'a> {
    /// With what the names of the replays begin.
    pub(crate) prefix: &'a str,
    pub(crate) sessions: u32,
    pub(crate) turns: u32,
    pub(crate) pause: u32,
    pub(crate) grace: u32,
    pub(crate) gather: u32,
    pub(crate) early: bool,
    pub(crate) log: bool,
    /// Whether an operator may ask for something on standard input.
    pub(crate) hears: bool,
}

/// How the tournament of a file is served. Without a prefix it is served as suits a course: the replays are named by
/// the file, the matches wait for their agents, each is closed once its agents are done, and what happens is reported.
pub fn options_of<'a>(tournament: &'a str, hosting: &'a Hosting) -> ServeOptions<'a>
    ensures gather { hosting.now.prefix ≢ [] → result.gather ≡ hosting.now.gather }
    ensures early { hosting.now.prefix ≢ [] → result.early ≡ hosting.now.early }
    ensures log { hosting.now.prefix ≢ [] → result.log ≡ hosting.now.log }
    ensures prefix { hosting.now.prefix ≢ [] → result.prefix.now ≡ hosting.now.prefix }
    ensures early_course { hosting.now.prefix ≡ [] → result.early ≡ true }
    ensures log_course { hosting.now.prefix ≡ [] → result.log ≡ true }
    ensures gather_course { hosting.now.prefix ≡ [] → result.gather ≢ 0 }
    ensures sessions { result.sessions ≡ hosting.now.sessions }
    ensures turns { result.turns ≡ hosting.now.turns }
    ensures pause { result.pause ≡ hosting.now.pause }
    ensures grace { result.grace ≡ hosting.now.grace }
{
    let given = hosting.prefix.as_str();
    let is_course = given.is_empty();
    let prefix = if is_course {
        stem_of(tournament)
    } else {
        given
    };
    let gather = if is_course && hosting.gather == 0 {
        GATHER
    } else {
        hosting.gather
    };
    ServeOptions {
        prefix,
        sessions: hosting.sessions,
        turns: hosting.turns,
        pause: hosting.pause,
        grace: hosting.grace,
        gather,
        early: hosting.early || is_course,
        log: hosting.log || is_course,
        hears: true,
    }
}

// The name of a tournament's file without its ending.
fn stem_of(tournament: &str) -> &str {
    tournament.strip_suffix(".toml").unwrap_or(tournament)
}
