// A sheet that has passed the check: what takes one asks nothing of its bytes.
ghost use Rattle.std.specs.Prelude.{◌≡◌};
ghost use Rattle.model.specs.Sheet.{verdict, accepted};

#[derive(Clone, Copy)]
pub struct Accepted<'a> {
    bytes: &'a [u8],
    pub ghost sound: { verdict bytes.now ≡ accepted },
}

impl<'a> Accepted<'a> {
    pub fn new(bytes: &'a [u8]) -> Accepted<'a>
        requires { verdict bytes.now ≡ accepted }
        ensures { result.bytes ≡ bytes.entry }
    {
        Accepted { bytes }
    }

    pub fn bytes(self) -> &'a [u8]
        ensures same { result ≡ self.entry.bytes }
        ensures sound { verdict result.now ≡ accepted }
    {
        self.bytes
    }
}
