//! The names of teams.

ghost use Rattle.std.specs.Prelude.{◌≡◌};
ghost use Rattle.bhs_text.specs.Teams.{is_team, is_sized, is_team_character};

/// The most characters of a team's name. The least is 1.
pub const MAX_TEAM: usize = 16;

/// Returns whether the text is a valid team name: 1 to `MAX_TEAM` characters from `a` to `z`, `0` to `9` and `-`.
pub fn is_team(name: &str) -> bool
    ensures { result ≡ is_team name.now }
{
    is_sized(name) && name.as_bytes().iter().all(|byte| is_team_character(*byte))
}

fn is_sized(name: &str) -> bool
    ensures { result ≡ is_sized name.now }
{
    1 <= name.len() && name.len() <= MAX_TEAM
}

fn is_team_character(byte: u8) -> bool
    ensures { result ≡ is_team_character byte }
{
    matches!(byte, b'a'..=b'z' | b'0'..=b'9' | b'-')
}
