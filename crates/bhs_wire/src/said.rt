//! Reading an object's members as they come, without a tree.

ghost use Rattle.std.specs.Prelude.{◌≡◌, ◌<◌, length, Some, None, IfOk, OnOk, OnErr, MatchResult};
ghost use Rattle.json.specs.Json.{value, items, members};
ghost use Rattle.serde_json.specs.Data.{Data, Members, Num, number, no_members, put};
ghost use Rattle.serde_json.specs.Read.{of_json, of_items, of_members, converted, number_of};
ghost use Rattle.bhs_model.specs.declared.commands.Command.TheVariants.{Bad};
ghost use Rattle.bhs_wire.specs.declared.commands.First.TheVariants.{Tell};
ghost use Rattle.bhs_wire.specs.Said.{IsContentOf, IsSaidBy, rest_of, told, said_by_tokens};

use crate::numbers::{port_of, whole_number};
use json::{Invalid, Reader, Token};

// How deep arrays and objects may nest within an object.
const MAX_DEPTH: usize = 126;

// The relevant content of a value: a text, or a port.
#[derive(Clone, Copy, Drop)]
pub(crate) enum Content<'t> {
    Text(&'t str),
    Port(u16),
    Other,
}

// What the members of an object have at the keys that commands look at.
#[derive(Clone, Copy, Drop)]
pub(crate) struct Said<'t> {
    pub(crate) word: Content<'t>,
    pub(crate) key: Content<'t>,
    pub(crate) expect: Content<'t>,
    pub(crate) put: Content<'t>,
    pub(crate) port: Content<'t>,
}

impl<'t> Said<'t> {
    // What no member says.
    fn new() -> Said<'t>
        ensures { IsSaidBy result no_members }
    {
        Said {
            word: Content::Other,
            key: Content::Other,
            expect: Content::Other,
            put: Content::Other,
            port: Content::Other,
        }
    }

    // Adds a member. The last one of a name counts.
    fn add(&mut self, name: &str, content: Content<'t>)
        ensures { (before : Members) (d : Data) → IsSaidBy self.old before → IsContentOf content.entry d
            → IsSaidBy self.new (put name.now d before) }
    {
        match name {
            "do" => self.word = content,
            "key" => self.key = content,
            "expect" => self.expect = content,
            "put" => self.put = content,
            "port" => self.port = content,
            _ => {}
        }
    }
}

// What a text says that is one object, of which nothing was read yet.
pub(crate) fn read_object<'t>(reader: &mut Reader<'t>) -> Result<Said<'t>, Invalid>
    ensures ok { IfOk result (λ said. said_by_tokens reader.old ≡ told said) }
    ensures err { OnErr result (said_by_tokens reader.old ≡ Tell Bad) }
{
    let Token::BeginObject = reader.next().ok_or(Invalid)? else {
        return Err(Invalid);
    };
    let said = read_members(reader, MAX_DEPTH)?;
    match reader.next() {
        None => Ok(said),
        Some(_) => Err(Invalid),
    }
}

// The next value. Arrays and objects may nest `depth` deep.
#[cycle(read)]
fn read_value<'t>(reader: &mut Reader<'t>, depth: usize) -> Result<Content<'t>, Invalid>
    ensures ok { IfOk result (λ content. (d : Data)
        × (converted of_json (value depth reader.old) ≡ Some (d, reader.new)) × IsContentOf content d) }
    ensures shorter { OnOk result (length reader.new < length reader.old) }
    ensures err { OnErr result (converted of_json (value depth reader.old) ≡ None) }
{
    let token = reader.next().ok_or(Invalid)?;
    match token {
        Token::String(text) => Ok(Content::Text(text)),
        Token::Number(digits) => Ok(read_number(digits)?),
        Token::Bool(_) | Token::Null => Ok(Content::Other),
        Token::EndObject | Token::EndArray | Token::Key(_) | Token::Bad => Err(Invalid),
        Token::BeginArray => {
            if depth == 0 {
                return Err(Invalid);
            }
            skip_items(reader, depth - 1)?;
            Ok(Content::Other)
        }
        Token::BeginObject => {
            if depth == 0 {
                return Err(Invalid);
            }
            let _ = read_members(reader, depth - 1)?;
            Ok(Content::Other)
        }
    }
}

fn read_number<'t>(digits: &str) -> Result<Content<'t>, Invalid>
    ensures { MatchResult result
        (λ content. (n : Num) × (number_of digits.now ≡ Some n) × IsContentOf content (number n))
        (λ _. number_of digits.now ≡ None) }
{
    match port_of(whole_number(digits)?) {
        Some(port) => Ok(Content::Port(port)),
        None => Ok(Content::Other),
    }
}

// Passes over the items of an array, up to its end.
#[cycle(read)]
fn skip_items(reader: &mut Reader<'_>, depth: usize) -> Result<(), Invalid>
    ensures ok { OnOk result
        (rest_of (converted of_items (items (value depth) (length reader.old) reader.old)) ≡ Some reader.new) }
    ensures shorter { OnOk result (length reader.new < length reader.old) }
    ensures err { OnErr result
        (rest_of (converted of_items (items (value depth) (length reader.old) reader.old)) ≡ None) }
{
    'items: while !reader.take_end_array() {
        let _ = read_value(reader, depth)?;
    }
    Ok(())
}

// What the members of an object say, up to its end.
#[cycle(read)]
fn read_members<'t>(reader: &mut Reader<'t>, depth: usize) -> Result<Said<'t>, Invalid>
    ensures ok { IfOk result (λ said. (all : Members)
        × (converted (λ ms. of_members ms no_members) (members (value depth) (length reader.old) reader.old)
        ≡ Some (all, reader.new)) × IsSaidBy said all) }
    ensures shorter { OnOk result (length reader.new < length reader.old) }
    ensures err { OnErr result (converted (λ ms. of_members ms no_members)
        (members (value depth) (length reader.old) reader.old) ≡ None) }
{
    let mut said = Said::new();
    'members: while let Some(name) = reader.next_key()? {
        let content = read_value(reader, depth)?;
        said.add(name, content);
    }
    Ok(said)
}
