//! Reading the number that a token of JSON writes.

ghost use Rattle.std.specs.Prelude.{◌≡◌, ◌<◌, ◌==◌, length, slice_index, IsTrue, true, false, Some};
ghost use Rattle.std.specs.Prelude.{None, option_map, option_and_then, MatchResult};
ghost use Rattle.serde_json.specs.Find.{as_u64};
ghost use Rattle.serde_json.specs.Read.{number_of, number_from, float_of};
ghost use Rattle.bhs_wire.specs.First.{if_port};

use fast_float::Numeral;
use json::Invalid;

// The whole number that the digits write, if it has 64 bits; None if they write another number. A
// number out of a float's range is no JSON here.
pub(crate) fn whole_number(digits: &str) -> Result<Option<u64>, Invalid>
    ensures { MatchResult result (λ whole. option_map as_u64 (number_of digits.now) ≡ Some whole)
        (λ _. number_of digits.now ≡ None) }
{
    let bytes = digits.as_bytes();
    if has_minus(bytes) {
        below_zero(&Numeral::scan(&bytes[1..]))
    } else {
        unsigned(&Numeral::scan(bytes))
    }
}

fn has_minus(bytes: &[u8]) -> bool
    ensures value { result ≡ (slice_index bytes.now 0 == 45) }
    ensures len { IsTrue result → 0 < length bytes.now }
{
    !bytes.is_empty() && bytes[0] == b'-'
}

fn unsigned(numeral: &Numeral<'_>) -> Result<Option<u64>, Invalid>
    ensures { MatchResult result (λ whole. option_map as_u64 (number_from false numeral.now) ≡ Some whole)
        (λ _. number_from false numeral.now ≡ None) }
{
    match numeral.to_u64() {
        Some(number) => Ok(Some(number)),
        None => nearest(false, numeral),
    }
}

fn below_zero(numeral: &Numeral<'_>) -> Result<Option<u64>, Invalid>
    ensures { MatchResult result (λ whole. option_map as_u64 (number_from true numeral.now) ≡ Some whole)
        (λ _. number_from true numeral.now ≡ None) }
{
    if let Some(number) = numeral.to_i64(true) {
        if number < 0 {
            return Ok(None);
        }
    }
    nearest(true, numeral)
}

fn nearest(negative: bool, numeral: &Numeral<'_>) -> Result<Option<u64>, Invalid>
    ensures { MatchResult result (λ whole. option_map as_u64 (float_of negative numeral.now) ≡ Some whole)
        (λ _. float_of negative numeral.now ≡ None) }
{
    let number: f64 = numeral.to_float(negative);
    if number.is_finite() {
        Ok(None)
    } else {
        Err(Invalid)
    }
}

// The number of a port, if a whole number is one.
pub(crate) fn port_of(whole: Option<u64>) -> Option<u16>
    ensures { result ≡ option_and_then if_port whole }
{
    u16::try_from(whole?).ok()
}
