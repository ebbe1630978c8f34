//! The operators of the instructions on integers.

/// Operators on one integer. `Extend8`, `Extend16` and `Extend32` extend the sign of the lower bits; `Wrap` keeps the
/// lower 32 bits.
#[derive(Clone, Copy, Debug, PartialEq, Eq)]
pub enum Unary {
    Clz,
    Ctz,
    Popcnt,
    Eqz,
    Extend8,
    Extend16,
    Extend32,
    Wrap,
}

/// Operators on two integers. Comparisons give 1 or 0.
#[derive(Clone, Copy, Debug, PartialEq, Eq)]
pub enum Binary {
    Add,
    Sub,
    Mul,
    DivS,
    DivU,
    RemS,
    RemU,
    And,
    Or,
    Xor,
    Shl,
    ShrS,
    ShrU,
    Rotl,
    Rotr,
    Eq,
    Ne,
    LtS,
    LtU,
    GtS,
    GtU,
    LeS,
    LeU,
    GeS,
    GeU,
}
