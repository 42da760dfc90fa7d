//! The texts of numbers, appended to the waiting text.

ghost use Rattle.std.specs.Prelude.{◌≡◌, ℕ, ◌+◌, ◌*◌, ◌/◌, ◌%◌, ◌<◌, ◌≤◌, ◌^◌, ℤ, unsigned_abs, [], ◌∷◌, ◌++◌, drop, length};
ghost use Rattle.subdiv_model.specs.NumberText.{number_text, sign_text, ratio_text, fraction_text, last_digits, decimal_text, rounded_sign, rounded_text};

use crate::rounding::{Decimal, rounded};
use crate::terms::lowest_terms;
use crate::waiting::Waiting;
use itoa::Buffer;
use ratio128::Frac;

impl Waiting {
    // Appends a whole number.
    pub(crate) fn push_number(&mut self, n: u64)
        requires fits { length self.old + 40 ≤ 4096 }
        ensures text { self.new ≡ self.old ++ number_text n }
        ensures short { length self.new ≤ length self.old + 40 }
    {
        self.push_digits(n);
    }

    // Appends a byte, then a whole number.
    pub(crate) fn push_number_after(&mut self, byte: u8, n: u64)
        requires fits { length self.old + 41 ≤ 4096 }
        ensures { self.new ≡ self.old ++ (byte ∷ number_text n) }
    {
        self.push_byte(byte);
        self.push_number(n);
    }

    // Appends a whole number of up to 128 bits; most fit 64.
    pub(crate) fn push_wide(&mut self, n: u128)
        requires fits { length self.old + 40 ≤ 4096 }
        ensures text { self.new ≡ self.old ++ number_text n }
        ensures short { length self.new ≤ length self.old + 40 }
    {
        if n <= u64::MAX as u128 {
            self.push_number(n as u64);
        } else {
            self.push_long(n);
        }
    }

    // Appends a whole number of up to 128 bits, in 128-bit arithmetic.
    fn push_long(&mut self, n: u128)
        requires fits { length self.old + 40 ≤ 4096 }
        ensures text { self.new ≡ self.old ++ number_text n }
        ensures short { length self.new ≤ length self.old + 40 }
    {
        let mut buffer = Buffer::new();
        self.push(buffer.format(n).as_bytes());
    }

    // Appends the numerator, then a slash and the denominator unless the denominator is 1.
    fn push_ratio(&mut self, num: u128, den: u128)
        requires fits { length self.old + 81 ≤ 4096 }
        ensures { self.new ≡ self.old ++ ratio_text (num, den) }
    {
        self.push_wide(num);
        if den != 1 {
            self.push_byte(b'/');
            self.push_wide(den);
        }
    }

    // Appends `-` for a negative number.
    fn push_sign(&mut self, num: i128)
        requires fits { length self.old + 1 ≤ 4096 }
        ensures text { self.new ≡ self.old ++ sign_text num }
        ensures short { length self.new ≤ length self.old + 1 }
    {
        if num < 0 {
            self.push_byte(b'-');
        }
    }

    // Appends a fraction in lowest terms, whatever its terms are.
    pub(crate) fn push_frac(&mut self, f: &Frac)
        requires fits { length self.old + 82 ≤ 4096 }
        requires positive { 0 < f.now.den }
        requires kept { unsigned_abs f.now.num < 2 ^ 127 }
        ensures { self.new ≡ self.old ++ fraction_text f.now.num f.now.den }
    {
        self.push_sign(f.num);
        let (num, den) = lowest_terms(f.num.unsigned_abs(), f.den);
        self.push_ratio(num, den);
    }

    // Appends a byte, then a fraction in lowest terms.
    pub(crate) fn push_frac_after(&mut self, byte: u8, f: &Frac)
        requires fits { length self.old + 83 ≤ 4096 }
        requires positive { 0 < f.now.den }
        requires kept { unsigned_abs f.now.num < 2 ^ 127 }
        ensures { self.new ≡ self.old ++ (byte ∷ fraction_text f.now.num f.now.den) }
    {
        self.push_byte(byte);
        self.push_frac(f);
    }

    // Appends a fraction rounded to `digits` decimals, half to even.
    pub(crate) fn push_rounded(&mut self, f: &Frac, digits: u32)
        requires fits { length self.old + 60 ≤ 4096 }
        requires positive { 0 < f.now.den }
        requires kept { unsigned_abs f.now.num < 2 ^ 127 }
        requires bounded { f.now.den < 2 ^ 126 }
        requires few { digits ≤ 18 }
        ensures { self.new ≡ self.old ++ rounded_text digits f.now.num f.now.den }
    {
        let number = rounded(f.num.unsigned_abs(), f.den, digits);
        self.push_rounded_sign(f.num, &number, digits);
        self.push_decimal(&number, digits);
    }

    // Appends a byte, then a rounded fraction.
    pub(crate) fn push_rounded_after(&mut self, byte: u8, f: &Frac, digits: u32)
        requires fits { length self.old + 61 ≤ 4096 }
        requires positive { 0 < f.now.den }
        requires kept { unsigned_abs f.now.num < 2 ^ 127 }
        requires bounded { f.now.den < 2 ^ 126 }
        requires few { digits ≤ 18 }
        ensures { self.new ≡ self.old ++ (byte ∷ rounded_text digits f.now.num f.now.den) }
    {
        self.push_byte(byte);
        self.push_rounded(f, digits);
    }

    // Appends `-` for a negative number that does not round to 0.
    fn push_rounded_sign(&mut self, num: i128, number: &Decimal, digits: u32)
        requires fits { length self.old + 1 ≤ 4096 }
        ensures text { self.new ≡ self.old ++ rounded_sign num (number.now.whole * 10 ^ digits + number.now.units) }
        ensures short { length self.new ≤ length self.old + 1 }
    {
        if number.whole != 0 || number.units != 0 {
            self.push_sign(num);
        }
    }

    // Appends a number with `digits` decimals, with a point before them unless there are none.
    fn push_decimal(&mut self, number: &Decimal, digits: u32)
        requires fits { length self.old + 59 ≤ 4096 }
        requires few { digits ≤ 18 }
        requires units { number.now.units < 10 ^ digits }
        ensures { self.new ≡ self.old ++ decimal_text digits (number.now.whole * 10 ^ digits + number.now.units) }
    {
        self.push_wide(number.whole);
        if digits != 0 {
            self.push_byte(b'.');
            self.push_last_digits(number.units, digits);
        }
    }

    // Appends the last `digits` digits of a number that has no more: the digits after the leading 1 of 10^digits + n.
    fn push_last_digits(&mut self, n: u64, digits: u32)
        requires fits { length self.old + digits ≤ 4096 }
        requires few { digits ≤ 18 }
        requires below { n < 10 ^ digits }
        ensures { self.new ≡ self.old ++ last_digits digits n }
    {
        let mut buffer = Buffer::new();
        self.push_behind_first(buffer.format(10u64.pow(digits) + n).as_bytes());
    }

    // Appends a text without its first byte.
    fn push_behind_first(&mut self, text: &[u8])
        requires fits { length self.old + length text.now ≤ 4097 }
        ensures { self.new ≡ self.old ++ drop 1 text.now }
    {
        if let [_, rest @ ..] = text {
            self.push(rest);
        }
    }
}
