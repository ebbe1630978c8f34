//! What is done next in a match, by a word.

use crate::torus::PORTS;

const AGENTS: u16 = 16;

/// What is done next.
#[derive(Clone, Copy)]
pub enum BenchStep {
    /// An agent looks.
    Look { agent: u16 },
    /// An agent writes over what it sees.
    Write { agent: u16 },
    /// An agent departs by a port.
    Depart { agent: u16, port: u16 },
    /// An agent accuses a port that no node has.
    Accuse { agent: u16 },
    /// A word is drawn.
    Draw { word: u32 },
}

/// What a word picks: of sixteen words two look, two write, five depart, one accuses, and six draw.
pub fn deed_of(word: u32) -> BenchStep {
    let agent = (word / 16 % u32::from(AGENTS)) as u16;
    match word % 16 {
        0 | 1 => BenchStep::Look { agent },
        2 | 3 => BenchStep::Write { agent },
        4..=8 => BenchStep::Depart {
            agent,
            port: (word / 256 % u32::from(PORTS)) as u16,
        },
        9 => BenchStep::Accuse { agent },
        _ => BenchStep::Draw { word: word / 16 },
    }
}
