//! The bytes of a file, read one after another.

ghost use Rattle.std.specs.Prelude.{◌+◌, ◌<◌, ◌^◌, ◌↔◌, length, IsTrue};

use crate::faults::FaultKind;

/// The bytes of a file that are left of the part that is read.
#[derive(Drop)]
pub(crate) struct Bytes<'b> {
    left: &'b [u8],
    /// How many bytes stand behind the part.
    behind: usize,
    /// How many bytes of the file were left when what is read now began. A fault names it.
    pub(crate) start: usize,
    ghost in_file: { behind + length left.now < 2 ^ 64 },
}

impl<'b> Bytes<'b> {
    ghost use Rattle.std.specs.Prelude.{◌≡◌, ◌≤◌, ◌-◌, [], drop, take, IfOk, OnOk};
    ghost use Rattle.bhs_wasm_read.specs.Values as specs;
    ghost use Rattle.bhs_wasm_read.specs.Values.{Gives, GivesAs, SamePlace};

    pub(crate) fn new(file: &'b [u8]) -> Bytes<'b>
        ensures left { result.left.now ≡ file.now }
        ensures behind { result.behind ≡ 0 }
        ensures start { result.start ≡ length file.now }
    {
        Bytes {
            left: file,
            behind: 0,
            start: file.len(),
        }
    }

    /// How many bytes are left of the part.
    pub(crate) fn left(&self) -> usize
        ensures { result ≡ length self.now.left.now }
    {
        self.left.len()
    }

    /// Begins to read something that a fault can name.
    pub(crate) fn begin(&mut self)
        ensures left { self.new.left.now ≡ self.old.left.now }
        ensures behind { self.new.behind ≡ self.old.behind }
        ensures start { self.new.start ≡ self.old.behind + length self.old.left.now }
    {
        self.start = self.behind + self.left.len();
    }

    /// Begins a part of `count` bytes. The answer is the bytes behind the part.
    pub(crate) fn enter(&mut self, count: u32) -> Result<&'b [u8], FaultKind>
        ensures read { GivesAs (λ rest. rest.now) (specs.part self.old.left.now count) result self.new.left.now }
        ensures behind { IfOk result (λ rest. self.new.behind ≡ self.old.behind + length rest.now) }
        ensures start { self.new.start ≡ self.old.start }
    {
        match self.left.split_at_checked(count as usize) {
            Some((part, rest)) => {
                self.left = part;
                self.behind += rest.len();
                Ok(rest)
            }
            None => Err(FaultKind::End),
        }
    }

    /// Ends a part, which must have been read completely, and continues with the bytes after it.
    pub(crate) fn leave(&mut self, rest: &'b [u8]) -> Result<(), FaultKind>
        ensures read { Gives (specs.rest_behind self.old.left.now rest.now) result self.new.left.now }
        ensures behind { OnOk result (self.new.behind ≡ self.old.behind - length rest.now) }
        ensures start { self.new.start ≡ self.old.start }
    {
        if !self.left.is_empty() {
            return Err(FaultKind::Section);
        }
        self.left = rest;
        self.behind = self.behind.saturating_sub(rest.len());
        Ok(())
    }

    /// Passes over what is left of the part.
    pub(crate) fn skip(&mut self)
        ensures left { self.new.left.now ≡ [] }
        ensures place { SamePlace self.old self.new }
    {
        self.left = &self.left[self.left.len()..];
    }

    /// The next byte, which is not read.
    pub(crate) fn next(&self) -> Result<u8, FaultKind>
        ensures { Gives (specs.next self.now.left.now) result self.now.left.now }
    {
        self.left.first().copied().ok_or(FaultKind::End)
    }

    /// The next byte.
    pub(crate) fn byte(&mut self) -> Result<u8, FaultKind>
        ensures read { Gives (specs.byte self.old.left.now) result self.new.left.now }
        ensures place { SamePlace self.old self.new }
    {
        match self.left.split_first() {
            Some((byte, rest)) => {
                self.left = rest;
                Ok(*byte)
            }
            None => Err(FaultKind::End),
        }
    }

    /// The next bytes.
    pub(crate) fn take(&mut self, count: u32) -> Result<&'b [u8], FaultKind>
        ensures read { GivesAs (λ taken. taken.now) (specs.bytes self.old.left.now count) result self.new.left.now }
        ensures place { SamePlace self.old self.new }
    {
        match self.left.split_at_checked(count as usize) {
            Some((taken, rest)) => {
                self.left = rest;
                Ok(taken)
            }
            None => Err(FaultKind::End),
        }
    }

    // An unsigned number of at most this many bits, in LEB128.
    #[tactic(auto, unfolding(crate::specs::Values::unsigned))]
    fn unsigned(&mut self, bits: u32) -> Result<u32, FaultKind>
        requires { bits ≤ 32 }
        ensures read { Gives (specs.unsigned self.old.left.now bits) result self.new.left.now }
        ensures fits { IfOk result (λ value. value < 2 ^ bits) }
        ensures fewer { OnOk result (length self.new.left.now ≤ length self.old.left.now) }
        ensures place { SamePlace self.old self.new }
    {
        let byte = self.byte()?;
        if byte < 128 {
            return if is_below(byte, bits) {
                Ok(u32::from(byte))
            } else {
                Err(FaultKind::Number)
            };
        }
        if bits <= 7 {
            return Err(FaultKind::Number);
        }
        let higher = self.unsigned(bits - 7)?;
        Ok(higher * 128 + u32::from(byte - 128))
    }

    // A signed number of at most this many bits, in LEB128, as an unsigned one with the same bits.
    #[tactic(auto, unfolding(crate::specs::Values::signed))]
    fn signed(&mut self, bits: u32) -> Result<u64, FaultKind>
        requires some { 0 < bits }
        requires few { bits ≤ 64 }
        ensures read { Gives (specs.signed self.old.left.now bits) result self.new.left.now }
        ensures place { SamePlace self.old self.new }
    {
        let byte = self.byte()?;
        if byte < 64 {
            return if is_below(byte, bits - 1) {
                Ok(u64::from(byte))
            } else {
                Err(FaultKind::Number)
            };
        }
        if byte < 128 {
            return if is_below(127 - byte, bits - 1) {
                Ok(u64::MAX - u64::from(127 - byte))
            } else {
                Err(FaultKind::Number)
            };
        }
        if bits <= 7 {
            return Err(FaultKind::Number);
        }
        let higher = self.signed(bits - 7)?;
        Ok(higher.wrapping_mul(128).wrapping_add(u64::from(byte - 128)))
    }

    pub(crate) fn u32(&mut self) -> Result<u32, FaultKind>
        ensures read { Gives (specs.u32 self.old.left.now) result self.new.left.now }
        ensures fewer { OnOk result (length self.new.left.now ≤ length self.old.left.now) }
        ensures place { SamePlace self.old self.new }
    {
        self.unsigned(32)
    }

    /// A signed number of 32 bits, as an unsigned one with the same bits.
    pub(crate) fn s32(&mut self) -> Result<u64, FaultKind>
        ensures read { Gives (specs.s32 self.old.left.now) result self.new.left.now }
        ensures place { SamePlace self.old self.new }
    {
        Ok(self.signed(32)? % 0x1_0000_0000)
    }

    /// A signed number of 64 bits, as an unsigned one with the same bits.
    pub(crate) fn s64(&mut self) -> Result<u64, FaultKind>
        ensures read { Gives (specs.s64 self.old.left.now) result self.new.left.now }
        ensures place { SamePlace self.old self.new }
    {
        self.signed(64)
    }

    /// The number of a type, where a type of values could stand: a signed number of 33 bits, and not below 0.
    pub(crate) fn index_of_type(&mut self) -> Result<u32, FaultKind>
        ensures read { Gives (specs.index_of_type self.old.left.now) result self.new.left.now }
        ensures place { SamePlace self.old self.new }
    {
        let number = self.signed(33)?;
        if number > u64::from(u32::MAX) {
            return Err(FaultKind::Type);
        }
        Ok(number as u32)
    }

    /// A name, in UTF-8.
    pub(crate) fn name(&mut self) -> Result<&'b str, FaultKind>
        ensures read { GivesAs (λ name. name.now) (specs.name self.old.left.now) result self.new.left.now }
        ensures place { SamePlace self.old self.new }
    {
        let count = self.u32()?;
        match str::from_utf8(self.take(count)?) {
            Ok(name) => Ok(name),
            Err(_) => Err(FaultKind::Name),
        }
    }
}

// Whether a number has at most this many bits.
fn is_below(number: u8, bits: u32) -> bool
    requires { bits < 64 }
    ensures { IsTrue result ↔ (number < 2 ^ bits) }
{
    u64::from(number) < 1 << bits
}
