// A lent output that is filled from its front. What does not fit is left off.
ghost use Rattle.std.specs.Prelude.{◌≡◌, ◌≤◌, [], ◌∷◌, length};
ghost use Rattle.model.specs.Text.{decimal};
ghost use Rattle.printing.specs.Output.{Put};

// A lent output and the place of its next byte, which is never past the end.
#[derive(Drop)]
pub struct Output<'a> {
    pub bytes: &'a mut [u8],
    pub at: usize,
    pub ghost within: { at ≤ length bytes.now },
}

impl<'a> Output<'a> {
    pub fn new(bytes: &'a mut [u8]) -> Output<'a>
        ensures empty { (result.at ≡ 0) × (result.bytes.now ≡ bytes.old) }
        ensures same_output { result.bytes.ghost_name ≡ bytes.entry.ghost_name }
    {
        Output { bytes, at: 0 }
    }

    pub fn byte(&mut self, byte: u8)
        ensures put { Put self.old.bytes.now self.new.bytes.now self.old.at (byte ∷ []) self.new.at }
        ensures same_output { self.new.bytes.ghost_name ≡ self.old.bytes.ghost_name }
    {
        if self.at < self.bytes.len() {
            self.bytes[self.at] = byte;
            self.at += 1;
        }
    }

    pub fn text(&mut self, text: &[u8])
        ensures put { Put self.old.bytes.now self.new.bytes.now self.old.at text.now self.new.at }
        ensures same_output { self.new.bytes.ghost_name ≡ self.old.bytes.ghost_name }
    {
        for byte in text {
            self.byte(*byte);
        }
    }

    // A number in decimal: the digits of its tenth part, then its last digit.
    pub fn number(&mut self, n: usize)
        ensures put { Put self.old.bytes.now self.new.bytes.now self.old.at (decimal n) self.new.at }
        ensures same_output { self.new.bytes.ghost_name ≡ self.old.bytes.ghost_name }
    {
        if 10 <= n {
            self.number(n / 10);
        }
        self.byte(b'0' + (n % 10) as u8);
    }
}
