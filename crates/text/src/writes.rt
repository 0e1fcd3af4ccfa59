// Texts and numbers written into a buffer.
ghost use Rattle.std.specs.Prelude.{◌≡◌, ◌+◌, ◌%◌};
ghost use Rattle.text.specs.Bytes.{written, next_place};
ghost use Rattle.text.specs.Numbers.{decimal};

// A buffer, and the place in it where the next text goes.
#[derive(Drop)]
pub struct Writer<'a> {
    pub buffer: &'a mut [u8],
    pub at: usize,
}

impl<'a> Writer<'a> {
    // Writes `bytes` and steps past them; where they do not fit, nothing changes.
    pub fn write_bytes(&mut self, bytes: &[u8])
        ensures after { self.new.buffer.now ≡ written self.old.buffer.now self.old.at bytes.now }
        ensures place { self.new.at ≡ next_place self.old.buffer.now self.old.at bytes.now }
        ensures lent { self.new.buffer.ghost_name ≡ self.old.buffer.ghost_name }
    {
        // The free room is compared, since self.at + bytes.len() may pass the largest usize.
        if self.at > self.buffer.len() || self.buffer.len() - self.at < bytes.len() {
            return;
        }
        let end = self.at + bytes.len();
        self.buffer[self.at..end].copy_from_slice(bytes);
        self.at = end;
    }

    // The same of a number's digits, of which there are at most three; a larger one writes nothing.
    #[tactic(auto, using(crate::proofs::Puts::written_none, crate::proofs::Puts::next_none))]
    pub fn write_number(&mut self, number: usize)
        ensures after { self.new.buffer.now ≡ written self.old.buffer.now self.old.at (decimal number) }
        ensures place { self.new.at ≡ next_place self.old.buffer.now self.old.at (decimal number) }
        ensures lent { self.new.buffer.ghost_name ≡ self.old.buffer.ghost_name }
    {
        match number {
            0..=9 => self.write_bytes(&[digit(number)]),
            10..=99 => self.write_bytes(&[digit(number / 10), digit(number)]),
            100..=999 => {
                self.write_bytes(&[digit(number / 100), digit(number / 10), digit(number)]);
            }
            _ => {}
        }
    }
}

// The byte of the last digit of a number.
fn digit(number: usize) -> u8
    ensures { result ≡ 48 + number % 10 }
{
    b'0' + (number % 10) as u8
}
