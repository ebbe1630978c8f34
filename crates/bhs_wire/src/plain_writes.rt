//! Short lines of Write that are spelled without a space and whose texts have no escape, as most clients spell them.
//! They are read without a look at JSON's tokens.

ghost use Rattle.std.specs.Prelude.{◌≡◌, IfSome};
ghost use Rattle.std.specs.List.{list_all};
ghost use Rattle.bhs_model.specs.declared.commands.Command.TheVariants.{Write};
ghost use Rattle.bhs_wire.specs.First.{first_of};
ghost use Rattle.bhs_wire.specs.Plain.{is_plain, IsPlainWrite};
ghost use Rattle.bhs_wire.specs.declared.commands.First.TheVariants.{Tell};

// The most bytes of a line that is looked through so.
const ROOM: usize = 128;

// What the line expects and puts, if it is spelled so.
pub(crate) fn plain_write(line: &str) -> Option<(&str, &str)>
    ensures { IfSome result (λ texts. first_of line.now ≡ Tell (Write texts.0.now texts.1.now)) }
{
    if line.len() > ROOM {
        return None;
    }
    texts_of(line)
}

// Returns the two texts of a line with this spelling.
fn texts_of(line: &str) -> Option<(&str, &str)>
    ensures { IfSome result (λ texts. IsPlainWrite line.now texts.0.now texts.1.now) }
{
    let texts = line.strip_prefix("{\"do\":\"write\",\"expect\":\"")?;
    let (expect, rest) = texts.split_once('"')?;
    let put = rest.strip_prefix(",\"put\":\"")?.strip_suffix("\"}")?;
    if is_plain(expect.as_bytes()) && is_plain(put.as_bytes()) {
        Some((expect, put))
    } else {
        None
    }
}

// Whether JSON escapes none of the bytes.
pub(crate) fn is_plain(bytes: &[u8]) -> bool
    ensures { result ≡ list_all is_plain bytes.now }
{
    bytes
        .iter()
        .all(|byte| *byte > 31 && *byte != b'"' && *byte != b'\\')
}
