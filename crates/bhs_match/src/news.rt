//! The arrivals of each agent.

ghost use Rattle.std.specs.Prelude.{◌≡◌, ◌<◌, ◌++◌, ◌∷◌, [], length, IfOk, replicate};
ghost use Rattle.bhs_match.specs.Keeping.{news_at, noted, noted_at, CanNote, HasShelf};

use bhs_model::{Event, Mark};
use std::alloc::{AllocError, Global};
use std::marker::Model;

/// The places of an agent's arrivals in the log.
#[derive(Debug, Drop)]
pub(crate) struct News {
    places: Vec<u32>,
}

impl Model for News {
    ghost use Rattle.std.specs.Prelude.{vec_capacity};
    ghost use Rattle.bhs_match.specs.Keeping.{Shelf};

    ghost Value = { Shelf };

    ghost view = { λ news. record { places = news.places.items; room = vec_capacity news.places } };
}

impl News {
    fn with_room(alloc: Global, room: u16) -> Result<News, AllocError>
        ensures { IfOk result (λ news. news ≡ record { places = []; room = room }) }
    {
        Ok(News {
            places: Vec::with_capacity(alloc, usize::from(room))?,
        })
    }

    fn places(&self) -> &[u32]
        ensures { result.now ≡ self.now.places }
    {
        &self.places
    }

    fn push(&mut self, place: u32)
        requires { length self.old.places < self.old.room }
        ensures { self.new ≡ record { places = self.old.places ++ place ∷ []; room = self.old.room } }
    {
        self.places.push_reserved(place);
    }
}

/// No news, with room for a number of places for each agent.
pub(crate) fn no_news(alloc: Global, agents: u16, room: u16) -> Result<Vec<News>, AllocError>
    ensures { IfOk result (λ news. news.items ≡ replicate agents (record { places = []; room = room })) }
{
    let mut news = Vec::with_capacity(alloc, usize::from(agents))?;
    for _ in 0..agents {
        news.push(News::with_room(alloc, room)?)?;
    }
    Ok(news)
}

/// The places of an agent's arrivals; none for a number without an agent.
pub(crate) fn places(news: &[News], agent: u16) -> &[u32]
    ensures { result.now ≡ (news_at news.now agent).places }
{
    match news.get(usize::from(agent)) {
        Some(news) => news.places(),
        None => &[],
    }
}

/// Notes an event that is kept at this place, where it is an arrival.
pub(crate) fn note(news: &mut Vec<News>, event: &Event, mark: Option<Mark>, place: u32)
    requires { CanNote news.old.items event.now mark }
    ensures { news.new.items ≡ noted news.old.items event.now mark place }
{
    if let (Event::Deliver { agent }, Some(_)) = (event, mark) {
        note_arrival(news, *agent, place);
    }
}

fn note_arrival(news: &mut Vec<News>, agent: u16, place: u32)
    requires { HasShelf news.old.items agent }
    ensures { news.new.items ≡ noted_at news.old.items agent place }
{
    let news = &mut news[usize::from(agent)];
    news.push(place);
}
