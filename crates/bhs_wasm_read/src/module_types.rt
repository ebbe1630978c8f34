//! The types of a module: of its own functions and of the host functions.

ghost use Rattle.std.specs.Prelude.{◌≡◌};
ghost use Rattle.bhs_wasm_read.specs.Modules.{is_same};
ghost use Rattle.bhs_wasm_read.specs.Types.{signature_of};
ghost use Rattle.bhs_wasm_read.specs.Values.{ReadsAs};
ghost use Rattle.bhs_wasm_read.specs.Types as specs;

use crate::bytes::Bytes;
use crate::faults::FaultKind;
use crate::opcodes::ValueType;
use bhs_wasm::HostFunction;
use std::alloc::Global;

/// The most locals and operands of a function.
pub(crate) const MAX_LOCALS: u32 = 50_000;

// The most parameters of a function, and the most results, as in browsers: reading a block takes time for each of its
// type.
const MAX_PARAMETERS: u32 = 1_000;

/// A function's parameter types and result types.
#[derive(Drop)]
pub(crate) struct FunctionType {
    pub(crate) parameters: Vec<ValueType>,
    pub(crate) results: Vec<ValueType>,
}

impl FunctionType {
    /// Reads a type of functions.
    pub(crate) fn read(alloc: Global, bytes: &mut Bytes<'_>) -> Result<FunctionType, FaultKind>
        ensures { ReadsAs (λ own. signature_of own) (specs.signature bytes.old.left.now) result bytes.new.left.now }
    {
        if bytes.byte()? != 0x60 {
            return Err(FaultKind::Type);
        }
        let parameters = value_types(alloc, bytes)?;
        let results = value_types(alloc, bytes)?;
        Ok(FunctionType {
            parameters,
            results,
        })
    }

    /// Whether two types are equal.
    pub(crate) fn is_equal(&self, other: &FunctionType) -> bool
        ensures { result ≡ is_same (signature_of self.now) (signature_of other.now) }
    {
        self.parameters.as_slice() == other.parameters.as_slice()
            && self.results.as_slice() == other.results.as_slice()
    }

    /// Whether it takes this many integers of 32 bits and gives one.
    pub(crate) fn is_of_host(&self, parameters: usize) -> bool {
        self.parameters.len() == parameters
            && self.parameters.iter().all(|value| *value == ValueType::I32)
            && self.results.as_slice() == [ValueType::I32].as_slice()
    }
}

#[tactic(auto, unfolding(crate::specs::Values::over))]
fn value_types(alloc: Global, bytes: &mut Bytes<'_>) -> Result<Vec<ValueType>, FaultKind>
    ensures { ReadsAs (λ own. own.items) (specs.value_types bytes.old.left.now) result bytes.new.left.now }
{
    let count = bytes.u32()?;
    if count > MAX_PARAMETERS {
        return Err(FaultKind::Large);
    }
    let mut types = Vec::new(alloc);
    for _ in 0..count {
        types.push(value_type(bytes.byte()?)?)?;
    }
    Ok(types)
}

/// The type of values that a byte is.
pub(crate) fn value_type(byte: u8) -> Result<ValueType, FaultKind>
    ensures { result ≡ specs.value_type byte }
{
    match byte {
        0x7f => Ok(ValueType::I32),
        0x7e => Ok(ValueType::I64),
        0x7c | 0x7d => Err(FaultKind::Float),
        _ => Err(FaultKind::Type),
    }
}

/// Returns the host function with this name.
pub(crate) fn host_function_of(name: &str) -> Option<HostFunction>
    ensures { result ≡ specs.host_function name.now }
{
    match name {
        "enter" => Some(HostFunction::Enter),
        "look" => Some(HostFunction::Look),
        "write" => Some(HostFunction::Write),
        "depart" => Some(HostFunction::Depart),
        "accuse" => Some(HostFunction::Accuse),
        "leave" => Some(HostFunction::Leave),
        "sleep" => Some(HostFunction::Sleep),
        "ports" => Some(HostFunction::Ports),
        "came" => Some(HostFunction::Came),
        "board" => Some(HostFunction::Board),
        "argument" => Some(HostFunction::Argument),
        _ => None,
    }
}
