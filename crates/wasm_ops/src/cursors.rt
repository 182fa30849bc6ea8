//! A cursor over bytes, which reads what a module is spelt with (WebAssembly Core 1.0, sections 5.2.1 to 5.2.4).
ghost use Rattle.std.specs.Prelude.{◌≡◌, ℕ, List, ◌+◌, ◌-◌, ◌^◌, ◌<◌, ◌≤◌, ◌↔◌, [], length, take, drop, Ok, Err, IsTrue, IfOk, IfErr, OnOk, OnErr, option_map};
ghost use Rattle.wasm_ops.specs.declared.faults.Fault.{Fault as FaultValue};
ghost use Rattle.wasm_ops.specs.declared.numbers.Sign.TheVariants.{Unsigned, Signed};
ghost use Rattle.std.specs.Result.{result_map_both};
ghost use Rattle.wasm_ops.specs.declared.faults.Refusal.TheVariants.{CutShort};
ghost use Rattle.wasm_ops.specs.Input.{Input, end_of, Takes, cut_short, byte_from, bytes_from, window_from};
ghost use Rattle.wasm_ops.specs.NameInput.{ReadsName, ReadsText, RefusesName, as_text, name_from, text_from};
ghost use Rattle.wasm_ops.specs.NumberInput.{ReadsNumber, RefusesNumber, number_from, fault_of};

use crate::faults::{Fault, Refusal};
use crate::numbers::{LebFault, Sign, read_number};
use std::marker::Model;

/// A place in bytes, and the window from there that may be read.
///
/// Contracts see it as an `Input`: the place of the next byte, counted from the first one, the bytes that are left in the window, and the refusal that tells that the window ends within an item.
/// A call that is refused leaves it as it was.
#[derive(Drop)]
pub struct Cursor<'a> {
    at: u32,
    left: &'a [u8],
    cut: Refusal,
}

impl<'a> Model for Cursor<'a> {
    ghost use Rattle.std.specs.Prelude.{◌+◌, ◌^◌, ◌<◌, length};
    ghost use Rattle.wasm_ops.specs.Input.{Input};

    ghost Value = { Input };

    ghost view = { λ cursor. record { at = cursor.at; left = cursor.left.now; cut = cursor.cut } };

    ghost invariant = { λ cursor. cursor.at + length cursor.left.now < 2 ^ 32 };
}

impl<'a> Cursor<'a> {
    /// A cursor at a place in the bytes, whose window reaches up to `end`. An item that passes the end is refused there as `CutShort`.
    pub fn new(bytes: &'a [u8], at: u32, end: u32) -> Cursor<'a>
        requires order { at ≤ end }
        requires within { end ≤ length bytes.now }
        ensures at { result.at ≡ at }
        ensures left { result.left ≡ take (end - at) (drop at bytes.now) }
        ensures cut { result.cut ≡ CutShort }
    {
        let (_, behind) = bytes.split_at(at as usize);
        let (left, _) = behind.split_at((end - at) as usize);
        Cursor {
            at,
            left,
            cut: Refusal::CutShort,
        }
    }

    /// The place of the next byte.
    pub fn at(&self) -> u32
        ensures place { result ≡ self.now.at }
        ensures fits { end_of self.now < 2 ^ 32 }
    {
        self.at
    }

    /// Whether no byte is left in the window.
    pub fn is_at_end(&self) -> bool
        ensures { IsTrue result ↔ (self.now.left ≡ []) }
    {
        self.left.is_empty()
    }

    /// The next byte. Refused: as a cut where none is left, at the window's end.
    pub fn byte(&mut self) -> Result<u8, Fault>
        ensures { Takes (byte_from self.old) result self.old self.new }
    {
        let Some((first, rest)) = self.left.split_first() else {
            return Err(self.cut_short());
        };
        self.at += 1;
        self.left = rest;
        Ok(*first)
    }

    /// An unsigned number of 32 bits, in any spelling of at most 5 bytes.
    ///
    /// Refused: as a cut where the window ends within the number, at the window's end; `LebTooLong` where the fifth byte says that another one follows, and else `LebSpare` where its spare bits are not 0, both at the number's first byte.
    pub fn u32_leb(&mut self) -> Result<u32, Fault>
        ensures value { Takes (number_from Unsigned 32 self.old) result self.old self.new }
        ensures found { IfOk result (λ number. ReadsNumber Unsigned 32 self.old number self.new) }
        ensures below { IfOk result (λ number. number < 2 ^ 32) }
        ensures shorter { OnOk result (length self.new.left < length self.old.left) }
        ensures only { (number : ℕ) (after : Input) → ReadsNumber Unsigned 32 self.old number after → (result ≡ Ok number) × (self.new ≡ after) }
        ensures refused { IfErr result (RefusesNumber Unsigned 32 self.old) }
        ensures only_refused { (fault : FaultValue) → RefusesNumber Unsigned 32 self.old fault → result ≡ Err fault }
        ensures kept { OnErr result (self.new ≡ self.old) }
    {
        Ok(self.number(Sign::Unsigned, 32)? as u32)
    }

    /// A signed number of 32 bits in two's complement, in any spelling of at most 5 bytes.
    ///
    /// Refused like `u32_leb`, and the spare bits of the fifth byte have to be copies of the sign.
    pub fn s32_leb(&mut self) -> Result<u32, Fault>
        ensures value { Takes (number_from Signed 32 self.old) result self.old self.new }
        ensures found { IfOk result (λ number. ReadsNumber Signed 32 self.old number self.new) }
        ensures below { IfOk result (λ number. number < 2 ^ 32) }
        ensures shorter { OnOk result (length self.new.left < length self.old.left) }
        ensures only { (number : ℕ) (after : Input) → ReadsNumber Signed 32 self.old number after → (result ≡ Ok number) × (self.new ≡ after) }
        ensures refused { IfErr result (RefusesNumber Signed 32 self.old) }
        ensures only_refused { (fault : FaultValue) → RefusesNumber Signed 32 self.old fault → result ≡ Err fault }
        ensures kept { OnErr result (self.new ≡ self.old) }
    {
        Ok(self.number(Sign::Signed, 32)? as u32)
    }

    /// A signed number of 64 bits in two's complement, in any spelling of at most 10 bytes.
    ///
    /// Refused like `u32_leb`, where the tenth byte is the last one, and its spare bits have to be copies of the sign.
    pub fn s64_leb(&mut self) -> Result<u64, Fault>
        ensures value { Takes (number_from Signed 64 self.old) result self.old self.new }
        ensures found { IfOk result (λ number. ReadsNumber Signed 64 self.old number self.new) }
        ensures below { IfOk result (λ number. number < 2 ^ 64) }
        ensures shorter { OnOk result (length self.new.left < length self.old.left) }
        ensures only { (number : ℕ) (after : Input) → ReadsNumber Signed 64 self.old number after → (result ≡ Ok number) × (self.new ≡ after) }
        ensures refused { IfErr result (RefusesNumber Signed 64 self.old) }
        ensures only_refused { (fault : FaultValue) → RefusesNumber Signed 64 self.old fault → result ≡ Err fault }
        ensures kept { OnErr result (self.new ≡ self.old) }
    {
        self.number(Sign::Signed, 64)
    }

    /// The next bytes, `count` of them. Refused: as a cut where fewer are left in the window, at its end.
    pub fn take(&mut self, count: u32) -> Result<&'a [u8], Fault>
        ensures { Takes (bytes_from count self.old) (result_map_both (λ bytes. bytes.now) (λ fault. fault) result) self.old self.new }
    {
        if (self.left.len() as u64) < u64::from(count) {
            return Err(self.cut_short());
        }
        let (bytes, rest) = self.left.split_at(count as usize);
        self.at += count;
        self.left = rest;
        Ok(bytes)
    }

    /// A window over the next bytes, `count` of them, with the places that they have. An item that passes its end is refused there as `cut`.
    ///
    /// Refused: as a cut in this window where fewer are left in it, at its end.
    pub fn window(&mut self, count: u32, cut: Refusal) -> Result<Cursor<'a>, Fault>
        ensures { Takes (window_from count cut self.old) result self.old self.new }
    {
        let at = self.at;
        let left = self.take(count)?;
        Ok(Cursor { at, left, cut })
    }

    /// The text of a name (section 5.2.4).
    ///
    /// Refused like `u32_leb` at its length; then as a cut where the window ends within its text, at the window's end; then `NotUtf8` where the text is no UTF-8, at the text's first byte.
    pub fn text(&mut self) -> Result<&'a str, Fault>
        ensures value { Takes (text_from self.old) (result_map_both (λ text. text.now) (λ fault. fault) result) self.old self.new }
        ensures found { IfOk result (λ text. ReadsText self.old text.now self.new) }
        ensures before { IfOk result (λ text. length text.now ≤ self.new.at) }
        ensures shorter { OnOk result (length self.new.left < length self.old.left) }
        ensures only { (text : List ℕ) (after : Input) → ReadsText self.old text after → (result_map_both (λ read. read.now) (λ fault. fault) result ≡ Ok text) × (self.new ≡ after) }
        ensures refused { IfErr result (RefusesName self.old) }
        ensures only_refused { (fault : FaultValue) → RefusesName self.old fault → result ≡ Err fault }
        ensures kept { OnErr result (self.new ≡ self.old) }
    {
        self.take_text()
    }

    // The same as a function of what lies ahead.
    fn take_text(&mut self) -> Result<&'a str, Fault>
        ensures value { Takes (text_from self.old) (result_map_both (λ text. text.now) (λ fault. fault) result) self.old self.new }
        ensures before { IfOk result (λ text. length text.now ≤ self.new.at) }
    {
        let mut ahead = Cursor {
            at: self.at,
            left: self.left,
            cut: self.cut,
        };
        let len = ahead.u32_leb()?;
        let first = ahead.at;
        let Some(text) = text_of(ahead.take(len)?) else {
            return Err(Refusal::NotUtf8.at(first));
        };
        *self = ahead;
        Ok(text)
    }

    /// A name (section 5.2.4): the place of its text's first byte, and its length in bytes.
    ///
    /// Refused like `text`.
    pub fn name(&mut self) -> Result<(u32, u32), Fault>
        ensures value { Takes (name_from self.old) result self.old self.new }
        ensures found { IfOk result (λ name. ReadsName self.old name.0 name.1 self.new) }
        ensures shorter { OnOk result (length self.new.left < length self.old.left) }
        ensures only { (first len : ℕ) (after : Input) → ReadsName self.old first len after → (result ≡ Ok (first, len)) × (self.new ≡ after) }
        ensures refused { IfErr result (RefusesName self.old) }
        ensures only_refused { (fault : FaultValue) → RefusesName self.old fault → result ≡ Err fault }
        ensures kept { OnErr result (self.new ≡ self.old) }
    {
        self.take_name()
    }

    // The same as a function of what lies ahead.
    fn take_name(&mut self) -> Result<(u32, u32), Fault>
        ensures { Takes (name_from self.old) result self.old self.new }
    {
        let text = self.text()?;
        let behind = self.at();
        let len = text.len() as u32;
        Ok((behind - len, len))
    }

    // A number of so many bits, with the clauses of the calls above.
    fn number(&mut self, sign: Sign, bits: u32) -> Result<u64, Fault>
        requires some { 0 < bits }
        requires fits { bits ≤ 64 }
        ensures value { Takes (number_from sign bits self.old) result self.old self.new }
        ensures found { IfOk result (λ number. ReadsNumber sign bits self.old number self.new) }
        ensures below { IfOk result (λ number. number < 2 ^ bits) }
        ensures shorter { OnOk result (length self.new.left < length self.old.left) }
        ensures only { (number : ℕ) (after : Input) → ReadsNumber sign bits self.old number after → (result ≡ Ok number) × (self.new ≡ after) }
        ensures refused { IfErr result (RefusesNumber sign bits self.old) }
        ensures only_refused { (fault : FaultValue) → RefusesNumber sign bits self.old fault → result ≡ Err fault }
        ensures kept { OnErr result (self.new ≡ self.old) }
    {
        self.take_number(sign, bits)
    }

    // The same as a function of what lies ahead.
    fn take_number(&mut self, sign: Sign, bits: u32) -> Result<u64, Fault>
        requires some { 0 < bits }
        requires fits { bits ≤ 64 }
        ensures value { Takes (number_from sign bits self.old) result self.old self.new }
        ensures below { IfOk result (λ number. number < 2 ^ bits) }
    {
        match read_number(sign, bits, self.left) {
            Ok((number, rest)) => {
                self.at += (self.left.len() - rest.len()) as u32;
                self.left = rest;
                Ok(number)
            }
            Err(why) => Err(self.number_fault(why)),
        }
    }

    // The refusal of a number that begins here.
    fn number_fault(&self, why: LebFault) -> Fault
        ensures { result ≡ fault_of why self.now }
    {
        match why {
            LebFault::CutShort => self.cut_short(),
            LebFault::TooLong => Refusal::LebTooLong.at(self.at),
            LebFault::SpareBits => Refusal::LebSpare.at(self.at),
        }
    }

    // The window ends within an item.
    fn cut_short(&self) -> Fault
        ensures { result ≡ cut_short self.now }
    {
        self.cut.at(self.at + self.left.len() as u32)
    }
}

// The text that the bytes are in UTF-8.
fn text_of(bytes: &[u8]) -> Option<&str>
    ensures { option_map (λ text. text.now) result ≡ as_text bytes.now }
{
    match str::from_utf8(bytes) {
        Ok(text) => Some(text),
        Err(_) => None,
    }
}
