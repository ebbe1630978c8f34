//! Members of JSON objects that the project writes.

ghost use Rattle.std.specs.Prelude.{◌≡◌, ◌++◌, ◌∷◌, [], OnOk, decimal};
ghost use Rattle.json.specs.Token.{key, string, number};

use bhs_net::Memory;
use json::Writer;

/// Writes a member with a text value. An `Err` may leave a partial member.
#[inline]
pub fn write_text(out: &mut Writer, name: &str, text: &str) -> Result<(), Memory>
    ensures ok { OnOk result (out.new.tokens ≡ out.old.tokens ++ key name.now ∷ string text.now ∷ []) }
    ensures before { out.new.before ≡ out.old.before }
{
    out.key(name)?;
    Ok(out.string(text)?)
}

/// Writes a member with a number value. An `Err` may leave a partial member.
#[inline]
pub fn write_number(out: &mut Writer, name: &str, value: u16) -> Result<(), Memory>
    ensures ok { OnOk result (out.new.tokens ≡ out.old.tokens ++ key name.now ∷ number (decimal value) ∷ []) }
    ensures before { out.new.before ≡ out.old.before }
{
    out.key(name)?;
    Ok(out.u64(u64::from(value))?)
}
