//! The opcodes of instructions on numbers and memory.

ghost use Rattle.std.specs.Prelude.{◌≡◌, ◌^◌};
ghost use Rattle.bhs_wasm.specs.States.{count_of};
ghost use Rattle.bhs_wasm_read.specs.Opcodes as specs;

use bhs_wasm::{AccessSize, Binary, Instruction, Unary};

/// The type of a value. A value that no code reaches may have any type.
#[derive(Clone, Copy, Debug, PartialEq, Eq)]
pub(crate) enum ValueType {
    I32,
    I64,
    Unknown,
}

/// An instruction on numbers: how many operands it pops, of one type, and the type of its result.
#[derive(Clone, Copy)]
pub(crate) struct Numeric {
    pub(crate) instruction: Instruction,
    pub(crate) operands: u32,
    pub(crate) operand: ValueType,
    pub(crate) result: ValueType,
}

/// A load, or a store: how many bytes, of which type the value is, and what extends the sign of a value that is loaded.
#[derive(Clone, Copy)]
pub(crate) struct Access {
    pub(crate) bytes: AccessSize,
    pub(crate) value: ValueType,
    pub(crate) extends: Option<Instruction>,
}

use ValueType::{I32, I64};

/// The instruction on numbers that an opcode is.
pub(crate) fn numeric_of(code: u8) -> Option<Numeric>
    ensures { result ≡ specs.numeric code }
{
    match numeric32_of(code) {
        Some(numeric) => Some(numeric),
        None => numeric64_of(code),
    }
}

fn numeric32_of(code: u8) -> Option<Numeric>
    ensures { result ≡ specs.found code specs.numerics32 }
{
    match code {
        0x45 => one32(Unary::Eqz),
        0x46 => two32(Binary::Eq),
        0x47 => two32(Binary::Ne),
        0x48 => two32(Binary::LtS),
        0x49 => two32(Binary::LtU),
        0x4a => two32(Binary::GtS),
        0x4b => two32(Binary::GtU),
        0x4c => two32(Binary::LeS),
        0x4d => two32(Binary::LeU),
        0x4e => two32(Binary::GeS),
        0x4f => two32(Binary::GeU),
        0x67 => one32(Unary::Clz),
        0x68 => one32(Unary::Ctz),
        0x69 => one32(Unary::Popcnt),
        0x6a => two32(Binary::Add),
        0x6b => two32(Binary::Sub),
        0x6c => two32(Binary::Mul),
        0x6d => two32(Binary::DivS),
        0x6e => two32(Binary::DivU),
        0x6f => two32(Binary::RemS),
        0x70 => two32(Binary::RemU),
        0x71 => two32(Binary::And),
        0x72 => two32(Binary::Or),
        0x73 => two32(Binary::Xor),
        0x74 => two32(Binary::Shl),
        0x75 => two32(Binary::ShrS),
        0x76 => two32(Binary::ShrU),
        0x77 => two32(Binary::Rotl),
        0x78 => two32(Binary::Rotr),
        0xc0 => one32(Unary::Extend8),
        0xc1 => one32(Unary::Extend16),
        _ => None,
    }
}

fn numeric64_of(code: u8) -> Option<Numeric>
    ensures { result ≡ specs.found code specs.numerics64 }
{
    match code {
        0x50 => one(Instruction::Unary64(Unary::Eqz), I64, I32),
        0x51 => two64(Binary::Eq, I32),
        0x52 => two64(Binary::Ne, I32),
        0x53 => two64(Binary::LtS, I32),
        0x54 => two64(Binary::LtU, I32),
        0x55 => two64(Binary::GtS, I32),
        0x56 => two64(Binary::GtU, I32),
        0x57 => two64(Binary::LeS, I32),
        0x58 => two64(Binary::LeU, I32),
        0x59 => two64(Binary::GeS, I32),
        0x5a => two64(Binary::GeU, I32),
        0x79 => one64(Unary::Clz),
        0x7a => one64(Unary::Ctz),
        0x7b => one64(Unary::Popcnt),
        0x7c => two64(Binary::Add, I64),
        0x7d => two64(Binary::Sub, I64),
        0x7e => two64(Binary::Mul, I64),
        0x7f => two64(Binary::DivS, I64),
        0x80 => two64(Binary::DivU, I64),
        0x81 => two64(Binary::RemS, I64),
        0x82 => two64(Binary::RemU, I64),
        0x83 => two64(Binary::And, I64),
        0x84 => two64(Binary::Or, I64),
        0x85 => two64(Binary::Xor, I64),
        0x86 => two64(Binary::Shl, I64),
        0x87 => two64(Binary::ShrS, I64),
        0x88 => two64(Binary::ShrU, I64),
        0x89 => two64(Binary::Rotl, I64),
        0x8a => two64(Binary::Rotr, I64),
        0xa7 => one(Instruction::Unary64(Unary::Wrap), I64, I32),
        0xac => one(Instruction::Unary64(Unary::Extend32), I32, I64),
        0xad => one(Instruction::Unary64(Unary::Wrap), I32, I64),
        0xc2 => one64(Unary::Extend8),
        0xc3 => one64(Unary::Extend16),
        0xc4 => one64(Unary::Extend32),
        _ => None,
    }
}

fn one(instruction: Instruction, operand: ValueType, gives: ValueType) -> Option<Numeric>
    ensures { result ≡ Some (specs.one instruction operand gives) }
{
    Some(Numeric {
        instruction,
        operands: 1,
        operand,
        result: gives,
    })
}

fn one32(operator: Unary) -> Option<Numeric>
    ensures { result ≡ Some (specs.unop32 operator) }
{
    one(Instruction::Unary32(operator), I32, I32)
}

fn one64(operator: Unary) -> Option<Numeric>
    ensures { result ≡ Some (specs.unop64 operator) }
{
    one(Instruction::Unary64(operator), I64, I64)
}

fn two32(operator: Binary) -> Option<Numeric>
    ensures { result ≡ Some (specs.binop32 operator) }
{
    Some(Numeric {
        instruction: Instruction::Binary32(operator),
        operands: 2,
        operand: I32,
        result: I32,
    })
}

fn two64(operator: Binary, gives: ValueType) -> Option<Numeric>
    ensures { result ≡ Some (specs.two (Instruction.Binary64 operator) ValueType.I64 gives) }
{
    Some(Numeric {
        instruction: Instruction::Binary64(operator),
        operands: 2,
        operand: I64,
        result: gives,
    })
}

/// Returns the load instruction of an opcode.
pub(crate) fn load_of(code: u8) -> Option<Access>
    ensures { result ≡ specs.found code specs.loads }
{
    match code {
        0x28 => of_size(AccessSize::Four, I32, None),
        0x29 => of_size(AccessSize::Eight, I64, None),
        0x2c => of_size(
            AccessSize::One,
            I32,
            Some(Instruction::Unary32(Unary::Extend8)),
        ),
        0x2d => of_size(AccessSize::One, I32, None),
        0x2e => of_size(
            AccessSize::Two,
            I32,
            Some(Instruction::Unary32(Unary::Extend16)),
        ),
        0x2f => of_size(AccessSize::Two, I32, None),
        0x30 => of_size(
            AccessSize::One,
            I64,
            Some(Instruction::Unary64(Unary::Extend8)),
        ),
        0x31 => of_size(AccessSize::One, I64, None),
        0x32 => of_size(
            AccessSize::Two,
            I64,
            Some(Instruction::Unary64(Unary::Extend16)),
        ),
        0x33 => of_size(AccessSize::Two, I64, None),
        0x34 => of_size(
            AccessSize::Four,
            I64,
            Some(Instruction::Unary64(Unary::Extend32)),
        ),
        0x35 => of_size(AccessSize::Four, I64, None),
        _ => None,
    }
}

/// Returns the store instruction of an opcode.
pub(crate) fn store_of(code: u8) -> Option<Access>
    ensures { result ≡ specs.found code specs.stores }
{
    match code {
        0x36 => of_size(AccessSize::Four, I32, None),
        0x37 => of_size(AccessSize::Eight, I64, None),
        0x3a => of_size(AccessSize::One, I32, None),
        0x3b => of_size(AccessSize::Two, I32, None),
        0x3c => of_size(AccessSize::One, I64, None),
        0x3d => of_size(AccessSize::Two, I64, None),
        0x3e => of_size(AccessSize::Four, I64, None),
        _ => None,
    }
}

fn of_size(bytes: AccessSize, value: ValueType, extends: Option<Instruction>) -> Option<Access>
    ensures { result ≡ Some (specs.access bytes value extends) }
{
    Some(Access {
        bytes,
        value,
        extends,
    })
}

/// The greatest alignment of an access, its size, as a power of 2.
pub(crate) fn alignment_of(bytes: AccessSize) -> u32
    ensures { 2 ^ result ≡ count_of bytes }
{
    match bytes {
        AccessSize::One => 0,
        AccessSize::Two => 1,
        AccessSize::Four => 2,
        AccessSize::Eight => 3,
    }
}

/// Whether an opcode is one of floating-point numbers.
pub(crate) fn is_float(code: u8) -> bool
    ensures { result ≡ specs.is_float code }
{
    matches!(code, 0x2a | 0x2b | 0x38 | 0x39 | 0x43 | 0x44 | 0x5b..=0x66 | 0x8b..=0xa6 | 0xa8..=0xab | 0xae..=0xbf)
}
