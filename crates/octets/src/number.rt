// Numbers in bytes: as many as the number's type has, at the places that an order of bytes gives.
ghost use Rattle.std.specs.Prelude.{◌≡◌, ℕ, ◌+◌, ◌-◌, ◌*◌, ◌^◌, ◌<◌, ◌≤◌, length};
ghost use Rattle.octets.specs.Number.{num, put};
ghost use Rattle.std.proofs.Common.{arith};

// A type of numbers, as wide as BYTES bytes.
pub trait Number: Copy {
    const BYTES: usize;

    ghost BYTES: { ℕ };

    // what a value counts
    ghost value: { Self → ℕ };

    // The value that counts n.
    fn narrow(n: u64) -> Self
        requires { n < 256 ^ BYTES }
        ensures { value result ≡ n };

    // What the value counts.
    fn wide(self) -> u64
        ensures { result ≡ value self };

    ghost no_wider: { BYTES ≤ 8 };
}

impl Number for u8 {
    const BYTES: usize = 1;

    ghost BYTES = { 1 };

    ghost value = { λ v. v };

    ghost no_wider = { Prim.omega arith };

    fn narrow(n: u64) -> u8 {
        n as u8
    }

    fn wide(self) -> u64 {
        u64::from(self)
    }
}

impl Number for u16 {
    const BYTES: usize = 2;

    ghost BYTES = { 2 };

    ghost value = { λ v. v };

    ghost no_wider = { Prim.omega arith };

    fn narrow(n: u64) -> u16 {
        n as u16
    }

    fn wide(self) -> u64 {
        u64::from(self)
    }
}

impl Number for u32 {
    const BYTES: usize = 4;

    ghost BYTES = { 4 };

    ghost value = { λ v. v };

    ghost no_wider = { Prim.omega arith };

    fn narrow(n: u64) -> u32 {
        n as u32
    }

    fn wide(self) -> u64 {
        u64::from(self)
    }
}

impl Number for u64 {
    const BYTES: usize = 8;

    ghost BYTES = { 8 };

    ghost value = { λ v. v };

    ghost no_wider = { Prim.omega arith };

    fn narrow(n: u64) -> u64 {
        n
    }

    fn wide(self) -> u64 {
        self
    }
}

// Where a number's bytes stand: byte k, counted from the lowest.
pub trait Places {
    ghost at: { Self → ℕ → ℕ };

    // whether byte k has one
    ghost has: { Self → ℕ → Type 0 };

    fn place(&self, k: usize) -> usize
        requires { has self.now k }
        ensures { result ≡ at self.now k };
}

// The number that stands at these places.
pub fn read_at<N: Number, P: Places + Drop>(b: &[u8], places: P) -> N
    requires { (k : ℕ) → k < N.BYTES → P.has places k × P.at places k < length b.now }
    ensures { N.value result ≡ num (P.at places) N.BYTES b.now }
{
    let mut n = 0;
    for k in (0..N::BYTES).rev() {
        n = 256 * n + u64::from(b[places.place(k)]);
    }
    N::narrow(n)
}

// The number v is written at these places.
pub fn write_at<N: Number, P: Places + Drop>(b: &mut [u8], places: P, v: N)
    requires { (k : ℕ) → k < N.BYTES → P.has places k × P.at places k < length b.old }
    ensures { b.new ≡ put (P.at places) N.BYTES b.old (N.value v) }
{
    let mut rest = v.wide();
    for k in 0..N::BYTES {
        b[places.place(k)] = (rest % 256) as u8;
        rest /= 256;
    }
}
