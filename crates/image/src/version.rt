// The versions of an image: a choice of widths each.
ghost use Rattle.std.specs.Prelude.{◌≡◌, ◌≤◌, true, false, MatchOption};
ghost use Rattle.image.specs.Image.{wide, length_width};
ghost use Rattle.image.specs.Reading.{newest, known};

// The versions that are read and written are 1 to this one.
pub const NEWEST: u8 = 1;

// A version that is read and written, by its number.
#[derive(Clone, Copy)]
pub struct Version {
    pub number: u8,
    pub ghost known: { (1 ≤ number) × (number ≤ newest) },
}

impl Version {
    // The version that a number is, if it is one.
    pub fn of(number: u8) -> Option<Version>
        ensures { MatchOption result (known number ≡ false) (λ v. (v.number ≡ number) × (known number ≡ true)) }
    {
        if (1..=NEWEST).contains(&number) {
            return Some(Version { number });
        }
        None
    }

    // The bytes of P and of a weight.
    pub fn wide(self) -> usize
        ensures { result ≡ wide self.number }
    {
        2 * usize::from(self.number)
    }

    // The bytes of the length before a slot's entry.
    pub fn length_width(self) -> usize
        ensures { result ≡ length_width self.number }
    {
        self.wide() - 2
    }
}
