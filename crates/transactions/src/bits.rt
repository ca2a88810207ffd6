// The bits of a mask.
ghost use Rattle.std.specs.Prelude.{◌≡◌};
ghost use Rattle.std.specs.Iterator.{at_most};
ghost use Rattle.transactions.specs.Bits.{NextBit};

// Gives the numbers of the bits that are set, the lowest first.
#[derive(Drop)]
pub struct Bits(pub u32);

impl Iterator for Bits {
    type Item = u8;

    ghost next_gives = { λ s r t. NextBit s.0 r t.0 };

    ghost remaining = { λ s. at_most s.0 };

    fn next(&mut self) -> Option<u8> {
        let rest = self.0;
        if rest == 0 {
            return None;
        }
        self.0 = rest & (rest - 1);
        Some(rest.trailing_zeros() as u8)
    }
}
