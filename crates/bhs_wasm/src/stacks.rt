//! Values on the stack.

ghost use Rattle.std.specs.Prelude.{◌≡◌, ◌≤◌, ◌++◌, take, drop, vec_len, OnOk};
ghost use Rattle.bhs_wasm.specs.States as specs;
ghost use Rattle.bhs_wasm.specs.States.{zeros};

use std::alloc::{AllocError, Global};

/// The lower 32 bits of a value.
pub(crate) fn low(value: u64) -> u32
    ensures { result ≡ specs.low value }
{
    (value % 0x1_0000_0000) as u32
}

/// Removes the values between two heights.
pub(crate) fn cut_stack(
    alloc: Global,
    stack: &mut Vec<u64>,
    to: usize,
    from: usize,
) -> Result<(), AllocError>
    requires order { to ≤ from }
    requires room { from ≤ vec_len stack.old }
    ensures { OnOk result (stack.new.items ≡ take to stack.old.items ++ drop from stack.old.items) }
{
    if from == stack.len() {
        stack.truncate(to);
        return Ok(());
    }
    if from + 1 == stack.len() {
        let value = stack[from];
        stack.truncate(to);
        stack.push(value)?;
        return Ok(());
    }
    let kept = Vec::from_slice(alloc, &stack[from..])?;
    stack.truncate(to);
    stack.extend_from_slice(&kept)?;
    Ok(())
}

/// Pushes zeros.
#[tactic(auto, unfolding(crate::specs::States::zeros))]
pub(crate) fn push_zeros(stack: &mut Vec<u64>, count: u32) -> Result<(), AllocError>
    ensures { OnOk result (stack.new.items ≡ stack.old.items ++ zeros count) }
{
    for _ in 0..count {
        stack.push(0)?;
    }
    Ok(())
}
