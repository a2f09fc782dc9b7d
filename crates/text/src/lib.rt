// Text into lent bytes. What has no room is dropped.
// Not by `write!`: it promises its bytes only where it answers Ok, and no contract says that it does, though a page never fails.
#![tactic(auto)]

ghost use Rattle.std.specs.Prelude.{◌≡◌, [], ◌∷◌, ◌<◌};
ghost use Rattle.text.specs.Numerals.{decimal, signed_text, hex8, digit as digit_of};
ghost use Rattle.text.specs.Written.{Writes};

// Lent bytes, and the place of the next one.
#[derive(Drop)]
pub struct Page<'a> {
    pub bytes: &'a mut [u8],
    pub at: usize,
}

// The digit d: `0` to `9`, then `a` to `f`. `char::from_digit` answers an option of a char, of which the byte is to be taken again.
fn digit(d: u64) -> u8
    requires { d < 16 }
    ensures { result ≡ digit_of d }
{
    if d < 10 {
        b'0' + d as u8
    } else {
        b'a' - 10 + d as u8
    }
}

impl Page<'_> {
    #[tactic(auto, using(crate::proofs::PageLaws::put_room, crate::proofs::PageLaws::put_full), unfolding(crate::specs::Page::puts))]
    pub fn put_byte(&mut self, byte: u8)
        ensures { Writes self.old (byte ∷ []) self.new }
    {
        if self.at < self.bytes.len() {
            self.bytes[self.at] = byte;
            self.at += 1;
        }
    }

    #[tactic(auto, using(crate::proofs::Writing::nothing))]
    pub fn put_bytes(&mut self, bytes: &[u8])
        ensures { Writes self.old bytes.now self.new }
    {
        for byte in bytes {
            self.put_byte(*byte);
        }
    }

    // The second law is of a digit put by itself, as an edit of this text has it.
    #[tactic(auto, using(crate::proofs::Printed::decimal_is, crate::proofs::NumeralLaws::decimal_small))]
    pub fn put_decimal(&mut self, n: u64)
        ensures { Writes self.old (decimal n) self.new }
    {
        self.put_bytes(itoa::Buffer::new().format(n).as_bytes());
    }

    #[tactic(auto, using(crate::proofs::Printed::signed_is))]
    pub fn put_signed(&mut self, z: i32)
        ensures { Writes self.old (signed_text z) self.new }
    {
        self.put_bytes(itoa::Buffer::new().format(z).as_bytes());
    }

    // Eight digits in base sixteen. `hex::encode_to_slice` may refuse, which would need a branch that nothing reaches.
    #[tactic(auto, using(crate::proofs::Writing::nothing), unfolding(crate::specs::Numerals::sixteens))]
    pub fn put_hex8(&mut self, n: u32)
        ensures { Writes self.old (hex8 n) self.new }
    {
        for i in 0..8u32 {
            self.put_byte(digit(u64::from(n >> (28 - 4 * i)) % 16));
        }
    }
}
