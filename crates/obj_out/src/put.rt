ghost use Rattle.std.specs.Prelude.{◌≡◌, ℕ, ◌+◌, ◌<◌, ◌≤◌, ◌^◌, [], ◌∷◌, ◌++◌, false, unsigned_abs, OnOk, length};
ghost use Rattle.subdiv_model.specs.NumberText.{number_text, fraction_text, rounded_text};
ghost use Rattle.obj_out.specs.Puts.{Begins, Puts, Ends};

use crate::waiting::Waiting;
use far_io::{Sink, WriteFailed, write_all_of};
use ratio128::Frac;

/// Text on its way to a sink, gathered in a buffer of 4,096 bytes. No call takes memory.
///
/// The text so far is everything put, in order: the part that the sink received since `new`, then the part that waits. Each call that puts
/// a text appends it.
///
/// `WriteFailed`: the sink failed in this call or an earlier one. The sink then holds what it held at `new` and a prefix of the text so
/// far. Every later call, `end` included, returns `WriteFailed` and leaves the sink unchanged.
#[derive(Drop)]
pub struct Out<'a, K: Sink> {
    sink: &'a mut K,
    waiting: Waiting,
    failed: bool,
}

impl<'a, K: Sink> Out<'a, K> {
    /// Returns an empty text over this sink. The call writes nothing.
    pub fn new(sink: &'a mut K) -> Out<'a, K>
        ensures { Begins result sink.entry.ghost_name sink.entry.now }
    {
        Out {
            sink,
            waiting: Waiting::new(),
            failed: false,
        }
    }

    /// Puts these bytes.
    pub fn put_bytes(&mut self, text: &[u8]) -> Result<(), WriteFailed>
        ensures { Puts K.Sink self.old self.new text.now result }
    {
        if self.failed {
            return Err(WriteFailed);
        }
        if text.len() <= self.waiting.free_bytes() {
            self.waiting.push(text);
            return Ok(());
        }
        self.hand_on()?;
        self.put_first(text)
    }

    /// Puts one byte.
    #[inline]
    pub fn put_byte(&mut self, byte: u8) -> Result<(), WriteFailed>
        ensures { Puts K.Sink self.old self.new (byte ∷ []) result }
    {
        if self.failed || self.waiting.free_bytes() == 0 {
            return self.put_bytes(&[byte]);
        }
        self.waiting.push_byte(byte);
        Ok(())
    }

    /// Puts a whole number in decimal digits.
    pub fn put_number(&mut self, n: u64) -> Result<(), WriteFailed>
        ensures { Puts K.Sink self.old self.new (number_text n) result }
    {
        self.reserve()?;
        self.waiting.push_number(n);
        Ok(())
    }

    /// Puts a byte, then a whole number in decimal digits.
    pub fn put_number_after(&mut self, byte: u8, n: u64) -> Result<(), WriteFailed>
        ensures { Puts K.Sink self.old self.new (byte ∷ number_text n) result }
    {
        self.reserve()?;
        self.waiting.push_number_after(byte, n);
        Ok(())
    }

    /// Puts a whole number of up to 128 bits in decimal digits.
    pub fn put_wide(&mut self, n: u128) -> Result<(), WriteFailed>
        ensures { Puts K.Sink self.old self.new (number_text n) result }
    {
        self.reserve()?;
        self.waiting.push_wide(n);
        Ok(())
    }

    /// Puts a byte, then a whole number of up to 128 bits in decimal digits.
    pub fn put_wide_after(&mut self, byte: u8, n: u128) -> Result<(), WriteFailed>
        ensures { Puts K.Sink self.old self.new (byte ∷ number_text n) result }
    {
        if n <= u64::MAX as u128 {
            return self.put_number_after(byte, n as u64);
        }
        self.put_long_after(byte, n)
    }

    // Puts a byte, then a whole number of up to 128 bits.
    fn put_long_after(&mut self, byte: u8, n: u128) -> Result<(), WriteFailed>
        ensures { Puts K.Sink self.old self.new (byte ∷ number_text n) result }
    {
        self.put_byte(byte)?;
        self.put_wide(n)
    }

    /// Puts a name, a space and a count in decimal digits.
    pub fn put_count(&mut self, name: &[u8], count: u64) -> Result<(), WriteFailed>
        ensures { Puts K.Sink self.old self.new (name.now ++ (32 ∷ number_text count)) result }
    {
        self.put_bytes(name)?;
        self.put_number_after(b' ', count)
    }

    /// Puts a fraction in lowest terms, whatever its terms are: `n/d`, or `n` if d is 1, with `-` before a negative one.
    ///
    /// The denominator is at least 1, and the numerator is any `i128` but the least.
    pub fn put_frac(&mut self, f: &Frac) -> Result<(), WriteFailed>
        requires positive { 0 < f.now.den }
        requires kept { unsigned_abs f.now.num < 2 ^ 127 }
        ensures { Puts K.Sink self.old self.new (fraction_text f.now.num f.now.den) result }
    {
        self.reserve()?;
        self.waiting.push_frac(f);
        Ok(())
    }

    /// Puts a byte, then a fraction in lowest terms, in the form of `put_frac`.
    ///
    /// The denominator is at least 1, and the numerator is any `i128` but the least.
    pub fn put_frac_after(&mut self, byte: u8, f: &Frac) -> Result<(), WriteFailed>
        requires positive { 0 < f.now.den }
        requires kept { unsigned_abs f.now.num < 2 ^ 127 }
        ensures { Puts K.Sink self.old self.new (byte ∷ fraction_text f.now.num f.now.den) result }
    {
        self.reserve()?;
        self.waiting.push_frac_after(byte, f);
        Ok(())
    }

    /// Puts a fraction rounded to `digits` decimals, half to even. Without decimals there is no point, and a fraction that rounds to 0 has
    /// no sign.
    ///
    /// `digits` is at most 18. The denominator is at least 1 and below 2^126, and the numerator is any `i128` but the least.
    pub fn put_decimal(&mut self, f: &Frac, digits: u32) -> Result<(), WriteFailed>
        requires few { digits ≤ 18 }
        requires positive { 0 < f.now.den }
        requires bounded { f.now.den < 2 ^ 126 }
        requires kept { unsigned_abs f.now.num < 2 ^ 127 }
        ensures { Puts K.Sink self.old self.new (rounded_text digits f.now.num f.now.den) result }
    {
        self.reserve()?;
        self.waiting.push_rounded(f, digits);
        Ok(())
    }

    /// Puts a byte, then a fraction rounded to `digits` decimals, in the form of `put_decimal`.
    ///
    /// `digits` is at most 18. The denominator is at least 1 and below 2^126, and the numerator is any `i128` but the least.
    pub fn put_decimal_after(&mut self, byte: u8, f: &Frac, digits: u32) -> Result<(), WriteFailed>
        requires few { digits ≤ 18 }
        requires positive { 0 < f.now.den }
        requires bounded { f.now.den < 2 ^ 126 }
        requires kept { unsigned_abs f.now.num < 2 ^ 127 }
        ensures { Puts K.Sink self.old self.new (byte ∷ rounded_text digits f.now.num f.now.den) result }
    {
        self.reserve()?;
        self.waiting.push_rounded_after(byte, f, digits);
        Ok(())
    }

    /// Passes on the waiting text and flushes the sink. The sink then holds what it held at `new` and the whole text.
    ///
    /// `WriteFailed`: an earlier call failed, or the write or the flush fails now. No clause states that the sink is flushed, because
    /// contracts do not see a flush.
    pub fn end(self) -> Result<(), WriteFailed>
        ensures { Ends K.Sink self.entry self.exit.0.now result }
    {
        let Out {
            sink,
            waiting,
            failed,
        } = self;
        if failed {
            return Err(WriteFailed);
        }
        write_all_of(sink, waiting.as_slice())?;
        sink.flush()
    }

    // Makes space for the text of one number.
    fn reserve(&mut self) -> Result<(), WriteFailed>
        ensures puts { Puts K.Sink self.old self.new [] result }
        ensures free { OnOk result (length self.new.waiting + 128 ≤ 4096) }
    {
        if self.failed {
            return Err(WriteFailed);
        }
        if self.waiting.free_bytes() >= 128 {
            return Ok(());
        }
        self.hand_on()
    }

    // Passes on the waiting text.
    fn hand_on(&mut self) -> Result<(), WriteFailed>
        requires { self.old.failed ≡ false }
        ensures puts { Puts K.Sink self.old self.new [] result }
        ensures empty { OnOk result (self.new.waiting ≡ []) }
    {
        match write_all_of(self.sink, self.waiting.as_slice()) {
            Ok(()) => {
                self.waiting.clear();
                Ok(())
            }
            Err(WriteFailed) => {
                self.failed = true;
                Err(WriteFailed)
            }
        }
    }

    // Puts a text while nothing waits. A text longer than the buffer goes straight to the sink.
    fn put_first(&mut self, text: &[u8]) -> Result<(), WriteFailed>
        requires fine { self.old.failed ≡ false }
        requires empty { self.old.waiting ≡ [] }
        ensures { Puts K.Sink self.old self.new text.now result }
    {
        if text.len() <= self.waiting.free_bytes() {
            self.waiting.push(text);
            return Ok(());
        }
        match write_all_of(self.sink, text) {
            Ok(()) => Ok(()),
            Err(WriteFailed) => {
                self.failed = true;
                Err(WriteFailed)
            }
        }
    }
}
