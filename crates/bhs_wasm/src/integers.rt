//! The instructions on integers.

ghost use Rattle.std.specs.Prelude.{◌≡◌, ◌^◌, ◌*◌, ◌%◌, ◌≤◌, ◌<◌};
ghost use Rattle.std.specs.Int.{w32, w64};
ghost use Rattle.bhs_wasm.specs.Integers as specs;

use crate::operators::{Binary, Unary};

// 1 if it holds, or else 0.
fn of_bool(is: bool) -> u32
    ensures { result ≡ specs.of_bool is }
{
    if is { 1 } else { 0 }
}

/// The value of an operator on one integer of 32 bits.
pub fn unary32(op: Unary, a: u32) -> u32
    ensures { result ≡ specs.unary w32 op a }
{
    match op {
        Unary::Clz => a.leading_zeros(),
        Unary::Ctz => a.trailing_zeros(),
        Unary::Popcnt => a.count_ones(),
        Unary::Eqz => of_bool(a == 0),
        Unary::Extend8 => extended32(a % 0x100, 0x80),
        Unary::Extend16 => extended32(a % 0x1_0000, 0x8000),
        Unary::Extend32 => a,
        Unary::Wrap => a,
    }
}

// The lower bits of a number, with the highest of them, `sign`, copied in front.
fn extended32(a: u32, sign: u32) -> u32
    requires low { a < 2 * sign }
    requires few { sign ≤ 2 ^ 15 }
    ensures { result ≡ specs.extended w32 a sign }
{
    if a < sign {
        a
    } else {
        a + (u32::MAX - (2 * sign - 1))
    }
}

/// The value of an operator on one integer of 64 bits.
pub fn unary64(op: Unary, a: u64) -> u64
    ensures { result ≡ specs.unary w64 op a }
{
    match op {
        Unary::Clz => u64::from(a.leading_zeros()),
        Unary::Ctz => u64::from(a.trailing_zeros()),
        Unary::Popcnt => u64::from(a.count_ones()),
        Unary::Eqz => u64::from(of_bool(a == 0)),
        Unary::Extend8 => extended64(a % 0x100, 0x80),
        Unary::Extend16 => extended64(a % 0x1_0000, 0x8000),
        Unary::Extend32 => extended64(a % 0x1_0000_0000, 0x8000_0000),
        Unary::Wrap => a % 0x1_0000_0000,
    }
}

fn extended64(a: u64, sign: u64) -> u64
    requires low { a < 2 * sign }
    requires few { sign ≤ 2 ^ 31 }
    ensures { result ≡ specs.extended w64 a sign }
{
    if a < sign {
        a
    } else {
        a + (u64::MAX - (2 * sign - 1))
    }
}

/// The value of an operator on two integers of 32 bits; None if it traps.
pub fn binary32(op: Binary, a: u32, b: u32) -> Option<u32>
    ensures { result ≡ specs.binary w32 op a b }
{
    match op {
        Binary::Add => Some(a.wrapping_add(b)),
        Binary::Sub => Some(a.wrapping_sub(b)),
        Binary::Mul => Some(a.wrapping_mul(b)),
        Binary::DivU => a.checked_div(b),
        Binary::RemU => a.checked_rem(b),
        Binary::DivS => div_s32(a, b),
        Binary::RemS => rem_s32(a, b),
        Binary::And => Some(a & b),
        Binary::Or => Some(a | b),
        Binary::Xor => Some(a ^ b),
        Binary::Shl => Some(a.wrapping_shl(b)),
        Binary::ShrS => Some(a.cast_signed().wrapping_shr(b).cast_unsigned()),
        Binary::ShrU => Some(a.wrapping_shr(b)),
        Binary::Rotl => Some(a.rotate_left(b)),
        Binary::Rotr => Some(a.rotate_right(b)),
        Binary::Eq => Some(of_bool(a == b)),
        Binary::Ne => Some(of_bool(a != b)),
        Binary::LtS => Some(of_bool(a.cast_signed() < b.cast_signed())),
        Binary::LtU => Some(of_bool(a < b)),
        Binary::GtS => Some(of_bool(b.cast_signed() < a.cast_signed())),
        Binary::GtU => Some(of_bool(b < a)),
        Binary::LeS => Some(of_bool(a.cast_signed() <= b.cast_signed())),
        Binary::LeU => Some(of_bool(a <= b)),
        Binary::GeS => Some(of_bool(b.cast_signed() <= a.cast_signed())),
        Binary::GeU => Some(of_bool(b <= a)),
    }
}

fn div_s32(a: u32, b: u32) -> Option<u32>
    ensures { result ≡ specs.binary w32 Binary.DivS a b }
{
    match a.cast_signed().checked_div(b.cast_signed()) {
        Some(x) => Some(x.cast_unsigned()),
        None => None,
    }
}

fn rem_s32(a: u32, b: u32) -> Option<u32>
    ensures { result ≡ specs.binary w32 Binary.RemS a b }
{
    if b == u32::MAX {
        return Some(0);
    }
    match a.cast_signed().checked_rem(b.cast_signed()) {
        Some(x) => Some(x.cast_unsigned()),
        None => None,
    }
}

/// The value of an operator on two integers of 64 bits; None if it traps.
pub fn binary64(op: Binary, a: u64, b: u64) -> Option<u64>
    ensures { result ≡ specs.binary w64 op a b }
{
    match op {
        Binary::Add => Some(a.wrapping_add(b)),
        Binary::Sub => Some(a.wrapping_sub(b)),
        Binary::Mul => Some(a.wrapping_mul(b)),
        Binary::DivU => a.checked_div(b),
        Binary::RemU => a.checked_rem(b),
        Binary::DivS => div_s64(a, b),
        Binary::RemS => rem_s64(a, b),
        Binary::And => Some(a & b),
        Binary::Or => Some(a | b),
        Binary::Xor => Some(a ^ b),
        Binary::Shl => Some(a.wrapping_shl(shift_of(b))),
        Binary::ShrS => Some(a.cast_signed().wrapping_shr(shift_of(b)).cast_unsigned()),
        Binary::ShrU => Some(a.wrapping_shr(shift_of(b))),
        Binary::Rotl => Some(a.rotate_left(shift_of(b))),
        Binary::Rotr => Some(a.rotate_right(shift_of(b))),
        Binary::Eq => Some(u64::from(of_bool(a == b))),
        Binary::Ne => Some(u64::from(of_bool(a != b))),
        Binary::LtS => Some(u64::from(of_bool(a.cast_signed() < b.cast_signed()))),
        Binary::LtU => Some(u64::from(of_bool(a < b))),
        Binary::GtS => Some(u64::from(of_bool(b.cast_signed() < a.cast_signed()))),
        Binary::GtU => Some(u64::from(of_bool(b < a))),
        Binary::LeS => Some(u64::from(of_bool(a.cast_signed() <= b.cast_signed()))),
        Binary::LeU => Some(u64::from(of_bool(a <= b))),
        Binary::GeS => Some(u64::from(of_bool(b.cast_signed() <= a.cast_signed()))),
        Binary::GeU => Some(u64::from(of_bool(b <= a))),
    }
}

// By how many bits an integer of 64 bits is shifted.
fn shift_of(b: u64) -> u32
    ensures low { result ≡ b % 64 }
    ensures same { result % 64 ≡ b % 64 }
{
    (b % 64) as u32
}

fn div_s64(a: u64, b: u64) -> Option<u64>
    ensures { result ≡ specs.binary w64 Binary.DivS a b }
{
    match a.cast_signed().checked_div(b.cast_signed()) {
        Some(x) => Some(x.cast_unsigned()),
        None => None,
    }
}

fn rem_s64(a: u64, b: u64) -> Option<u64>
    ensures { result ≡ specs.binary w64 Binary.RemS a b }
{
    if b == u64::MAX {
        return Some(0);
    }
    match a.cast_signed().checked_rem(b.cast_signed()) {
        Some(x) => Some(x.cast_unsigned()),
        None => None,
    }
}
