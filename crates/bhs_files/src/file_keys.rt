//! The keys of a file.

ghost use Rattle.std.specs.Prelude.{◌≡◌};
ghost use Rattle.bhs_files.specs.Words.{word};

use std::fmt;

/// A key of a network file or a tournament file.
#[derive(Clone, Copy, Debug, PartialEq, Eq)]
pub enum FileKey {
    Version,
    Nodes,
    Links,
    Seed,
    Schedule,
    DelayScales,
    DelayOdds,
    Match,
    Team,
    Network,
    Home,
    Hole,
    Holes,
    Dark,
    Quota,
    Board,
    Keys,
    Held,
}

impl FileKey {
    /// The key as the files spell it.
    pub fn word(self) -> &'static str
        ensures { result.now ≡ word self }
    {
        match self {
            FileKey::Version => "version",
            FileKey::Nodes => "nodes",
            FileKey::Links => "links",
            FileKey::Seed => "seed",
            FileKey::Schedule => "schedule",
            FileKey::DelayScales => "delay_scales",
            FileKey::DelayOdds => "delay_odds",
            FileKey::Match => "match",
            FileKey::Team => "team",
            FileKey::Network => "network",
            FileKey::Home => "home",
            FileKey::Hole => "hole",
            FileKey::Holes => "holes",
            FileKey::Dark => "dark",
            FileKey::Quota => "quota",
            FileKey::Board => "board",
            FileKey::Keys => "keys",
            FileKey::Held => "held",
        }
    }
}

impl fmt::Display for FileKey {
    fn fmt<W: fmt::Write>(&self, f: &mut fmt::Formatter<W>) -> fmt::Result {
        f.write_str(self.word())
    }
}
