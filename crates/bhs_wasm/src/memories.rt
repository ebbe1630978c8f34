//! The memory of an instance.

ghost use Rattle.std.specs.Prelude.{◌≡◌, ◌+◌, ◌*◌, ◌^◌, ◌<◌, ◌≤◌, ◌++◌, length, slice_index, vec_len};
ghost use Rattle.std.specs.Prelude.{OnOk, IfOk, IsTrue};
ghost use Rattle.bhs_wasm.specs.States as specs;

use crate::instructions::AccessSize;
use crate::interpreters::Interpreter;
use std::alloc::{AllocError, Global};

// The bytes of a page, and the bytes by which the kept part of a memory grows.
const PAGE: u64 = 65_536;

const ROUND: u64 = 64;

// The byte at an address: 0 behind the bytes that are kept.
fn byte(memory: &[u8], at: u64) -> u64
    ensures same { result ≡ slice_index memory.now at }
    ensures small { result < 256 }
{
    match memory.get(at as usize) {
        Some(byte) => u64::from(*byte),
        None => 0,
    }
}

fn two(memory: &[u8], at: u64) -> u64
    requires { at < 2 ^ 40 }
    ensures same { result ≡ specs.two_at memory.now at }
    ensures small { result < 65_536 }
{
    byte(memory, at) + 256 * byte(memory, at + 1)
}

fn four(memory: &[u8], at: u64) -> u64
    requires { at < 2 ^ 39 }
    ensures same { result ≡ specs.four_at memory.now at }
    ensures small { result < 2 ^ 32 }
{
    two(memory, at) + 65_536 * two(memory, at + 2)
}

fn eight(memory: &[u8], at: u64) -> u64
    requires { at < 2 ^ 38 }
    ensures { result ≡ specs.eight_at memory.now at }
{
    four(memory, at) + 4_294_967_296 * four(memory, at + 4)
}

fn number(memory: &[u8], bytes: AccessSize, at: u64) -> u64
    requires { at < 2 ^ 38 }
    ensures { result ≡ specs.number_at bytes memory.now at }
{
    match bytes {
        AccessSize::One => byte(memory, at),
        AccessSize::Two => two(memory, at),
        AccessSize::Four => four(memory, at),
        AccessSize::Eight => eight(memory, at),
    }
}

/// The number of bytes.
pub(crate) fn count_of(bytes: AccessSize) -> u64
    ensures same { result ≡ specs.count_of bytes }
    ensures small { result ≤ 8 }
{
    match bytes {
        AccessSize::One => 1,
        AccessSize::Two => 2,
        AccessSize::Four => 4,
        AccessSize::Eight => 8,
    }
}

// Extends the kept part of a memory to an address.
#[tactic(auto, unfolding(crate::specs::States::zeros))]
fn reach(memory: &mut Vec<u8>, end: u64) -> Result<(), AllocError>
    requires { end < 2 ^ 60 }
    ensures { OnOk result (memory.new.items ≡ specs.reached end memory.old.items) }
{
    let length = (end + (ROUND - 1)) / ROUND * ROUND;
    let more = length.saturating_sub(memory.len() as u64);
    for _ in 0..more {
        memory.push(0)?;
    }
    Ok(())
}

// Writes bytes at an address of the kept part.
#[tactic(auto, unfolding(crate::specs::States::put_at))]
fn put_into(memory: &mut [u8], bytes: &[u8], at: u64)
    requires { at + length bytes.now ≤ length memory.old }
    ensures { memory.new ≡ specs.put_at memory.old bytes.now at }
{
    let mut place = at as usize;
    for byte in bytes {
        memory[place] = *byte;
        place += 1;
    }
}

// Returns the bytes from an address on.
#[tactic(auto, unfolding(crate::specs::States::bytes_at))]
fn copied(alloc: Global, memory: &[u8], at: u64, count: u64) -> Result<Vec<u8>, AllocError>
    requires { at + count < 2 ^ 60 }
    ensures { IfOk result (λ bytes. bytes.items ≡ specs.bytes_at memory.now at count) }
{
    let mut bytes = Vec::new(alloc);
    for k in 0..count {
        bytes.push(byte(memory, at + k) as u8)?;
    }
    Ok(bytes)
}

// One byte, repeated.
#[tactic(auto, unfolding(crate::specs::States::same_bytes))]
fn same(alloc: Global, byte: u8, count: u64) -> Result<Vec<u8>, AllocError>
    ensures { IfOk result (λ bytes. bytes.items ≡ specs.same_bytes byte count) }
{
    let mut bytes = Vec::new(alloc);
    for _ in 0..count {
        bytes.push(byte)?;
    }
    Ok(bytes)
}

impl Interpreter {
    ghost use Rattle.bhs_wasm.specs.States.{state_of};

    /// The size of the memory in bytes.
    pub(crate) fn size(&self) -> u64
        ensures same { result ≡ specs.size (state_of self.now) }
        ensures small { result < 2 ^ 49 }
    {
        u64::from(self.pages) * PAGE
    }

    // Returns whether all these bytes lie within the memory.
    pub(crate) fn is_within(&self, at: u64, count: u64) -> bool
        requires { at + count < 2 ^ 60 }
        ensures { result ≡ specs.is_within (state_of self.now) at count }
    {
        at + count <= self.size()
    }

    /// The little-endian number at an address; None if its bytes are not all in the memory.
    pub(crate) fn load(&self, bytes: AccessSize, at: u64) -> Option<u64>
        requires { at < 2 ^ 38 }
        ensures { result ≡ specs.loaded bytes at (state_of self.now) }
    {
        if self.is_within(at, count_of(bytes)) {
            Some(number(&self.memory, bytes, at))
        } else {
            None
        }
    }

    /// Writes bytes into the memory and returns true, or writes none and returns false if they do not fit.
    #[tactic(auto, using(crate::proofs::Lengths::le_reached))]
    pub(crate) fn put(&mut self, at: u64, bytes: &[u8]) -> Result<bool, AllocError>
        requires { at < 2 ^ 38 }
        ensures within { IfOk result (λ is. is ≡ specs.is_within (state_of self.old) at (length bytes.now)) }
        ensures done { IfOk result (λ is. IsTrue is → state_of self.new
            ≡ specs.with_memory
            (specs.put_at (specs.reached (at + length bytes.now) self.old.memory.items) bytes.now at)
            (state_of self.old)) }
    {
        let end = at.saturating_add(bytes.len() as u64);
        if end > self.size() {
            return Ok(false);
        }
        reach(&mut self.memory, end)?;
        put_into(&mut self.memory, bytes, at);
        Ok(true)
    }

    /// Returns a copy of the bytes from an address on.
    pub(crate) fn copied(&self, at: u64, count: u64) -> Result<Vec<u8>, AllocError>
        requires { at + count < 2 ^ 60 }
        ensures { IfOk result (λ bytes. bytes.items ≡ specs.bytes_at self.now.memory.items at count) }
    {
        copied(self.alloc, &self.memory, at, count)
    }

    /// One byte, repeated.
    pub(crate) fn same(&self, byte: u8, count: u64) -> Result<Vec<u8>, AllocError>
        ensures { IfOk result (λ bytes. bytes.items ≡ specs.same_bytes byte count) }
    {
        same(self.alloc, byte, count)
    }
}
