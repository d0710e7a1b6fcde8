// Reading a line from left to right, by hexadecimal digits of either case.
ghost use Rattle.std.specs.Prelude.{◌≡◌, ◌+◌, ◌^◌, ◌<◌, ◌≤◌, IfOk};
ghost use Rattle.frames.specs.Digits.{digit_at, number_at, end_at, stands_at};

use crate::frame::TextFault;

// A line that is being read, and the place of the next character. After a fault that is the fault's place.
#[derive(Drop)]
pub struct Fields<'a> {
    line: &'a [u8],
    at: usize,
}

impl<'a> Fields<'a> {
    // The start of a line.
    pub fn new(line: &'a [u8]) -> Fields<'a>
        ensures line { result.line.now ≡ line.now }
        ensures start { result.at ≡ 0 }
    {
        Fields { line, at: 0 }
    }

    // The value of the next digit.
    pub fn digit(&mut self) -> Result<u32, TextFault>
        ensures value { result ≡ digit_at self.old.line.now self.old.at }
        ensures small { IfOk result (λ d. d < 16) }
        ensures after { self.new ≡ record self.old { at = stands_at (self.old.at + 1) result } }
    {
        let digit = self
            .line
            .get(self.at)
            .and_then(|character| char::from(*character).to_digit(16))
            .ok_or(TextFault { place: self.at })?;
        self.at += 1;
        Ok(digit)
    }

    // The number that the next digits write, so many of them, highest first.
    #[tactic(auto, using(crate::proofs::Numbers::read_none, crate::proofs::Numbers::number_small))]
    fn number(&mut self, digits: u32) -> Result<u32, TextFault>
        requires { digits ≤ 8 }
        ensures value { result ≡ number_at self.old.line.now self.old.at digits }
        ensures bound { IfOk result (λ n. n < 16 ^ digits) }
        ensures after { self.new ≡ record self.old { at = stands_at (self.old.at + digits) result } }
    {
        let mut number = 0;
        for _ in 0..digits {
            number = number * 16 + self.digit()?;
        }
        Ok(number)
    }

    // The number of one byte, in two digits.
    pub fn byte(&mut self) -> Result<u8, TextFault>
        ensures value { result ≡ number_at self.old.line.now self.old.at 2 }
        ensures after { self.new ≡ record self.old { at = stands_at (self.old.at + 2) result } }
    {
        let number = self.number(2)?;
        Ok(number as u8)
    }

    // The number of four bytes, in eight digits. It is inlined so that the place stays in a register while they are read.
    #[inline(always)]
    pub fn word(&mut self) -> Result<u32, TextFault>
        ensures value { result ≡ number_at self.old.line.now self.old.at 8 }
        ensures after { self.new ≡ record self.old { at = stands_at (self.old.at + 8) result } }
    {
        self.number(8)
    }

    // The line's end here, at the latest.
    pub fn end(&self) -> Result<(), TextFault>
        ensures { result ≡ end_at self.now.line.now self.now.at }
    {
        if self.line.len() <= self.at {
            Ok(())
        } else {
            Err(TextFault { place: self.at })
        }
    }
}
