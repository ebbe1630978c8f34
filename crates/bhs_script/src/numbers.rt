//! Numbers in a script.

ghost use Rattle.std.specs.Prelude.{◌≡◌};
ghost use Rattle.bhs_script.specs.Number.{number, fitting, read_on};

/// The number below 2^32 that a text spells in decimal digits without leading zeros, if it spells one.
pub fn number_of(digits: &[u8]) -> Option<u32>
    ensures { result ≡ number digits.now }
{
    match digits {
        [] => None,
        [b'0'] => Some(0),
        [b'0', ..] => None,
        _ => value_of(digits),
    }
}

// A function of its own, whose loop keeps all in registers.
#[inline(never)]
fn value_of(digits: &[u8]) -> Option<u32>
    ensures { result ≡ fitting (read_on 0 digits.now) }
{
    let mut value: u64 = 0;
    for digit in digits {
        if !digit.is_ascii_digit() {
            return None;
        }
        value = 10 * value + u64::from(digit - b'0');
        if value > u64::from(u32::MAX) {
            return None;
        }
    }
    Some(value as u32)
}
