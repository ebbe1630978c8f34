//! The command line: from its words to an order.

/// What the program says of itself.
pub const USAGE: &str = "usage: bhs_bench step N [time]
       bhs_bench submit N [time]
       bhs_bench stages N [time]

step plays N events on a match of 16 agents with a quota of 1000 each, on a torus of 16 by 16 nodes. The events
are picked by the words of a fixed seed, so the counts that are printed are the same each time. A match that has
ended is followed by a new one.

submit tells 1001 commands for each of 64 agents, N times over: first by one thread to a match under no lock; then
by 1, 4 and 16 threads that share one match under its lock; then by 4 and 16 threads of which each has a match of its
own. The matches under locks are then settled. The first command of an agent lets it enter. Of each four that follow
one writes, one is refused, and two look.

stages does N times over, one after the other, what becomes of the line of a client: it reads four lines, a look, a
departure, a Write and a line that is no command; it plays four events, as step does; it writes the replies to four such
lines; and it prints these replies as those of a rehearsed connection. A line says how many lines or events there were.

  time   also prints the seconds that this took, and the events or commands in a second; of a stage, the nanoseconds
         of one line or event
";

/// The task of the program.
#[derive(Clone, Copy)]
pub enum BenchOrder {
    /// Shows the usage.
    Help,
    /// Plays this number of events; `is_timed` says whether the time is printed.
    Step { events: u64, is_timed: bool },
    /// Tells commands, this number of times; `is_timed` says whether the time is printed.
    Submit { rounds: u64, is_timed: bool },
    /// Does each stage of a line this number of times; `is_timed` says whether the time is printed.
    Stages { rounds: u64, is_timed: bool },
}

/// The order that the words after the program's name give, if they give one.
pub fn order_of(words: &[String]) -> Option<BenchOrder> {
    match words {
        [help] if help.as_str() == "--help" => Some(BenchOrder::Help),
        [deed, number] => order_to(deed.as_str(), number.as_str(), false),
        [deed, number, time] if time.as_str() == "time" => order_to(
            deed.as_str(),
            number.as_str(),
            true,
        ),
        _ => None,
    }
}

fn order_to(deed: &str, number: &str, is_timed: bool) -> Option<BenchOrder> {
    let number = number_of(number)?;
    match deed {
        "step" => Some(BenchOrder::Step {
            events: number,
            is_timed,
        }),
        "submit" => Some(BenchOrder::Submit {
            rounds: number,
            is_timed,
        }),
        "stages" => Some(BenchOrder::Stages {
            rounds: number,
            is_timed,
        }),
        _ => None,
    }
}

// The number that decimal digits spell, if it has 64 bits.
fn number_of(text: &str) -> Option<u64> {
    if text.bytes().all(|byte| byte.is_ascii_digit()) {
        text.parse::<u64>().ok()
    } else {
        None
    }
}
