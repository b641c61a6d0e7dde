// A plain decimal at a place of a text: the number and the place after it, or none where no plain decimal up to 4,294,967,295 stands.
ghost use Rattle.std.specs.Prelude.{◌≡◌, ◌≤◌, length, drop};
ghost use Rattle.text.specs.Digits.{zero_off, digits_off};
ghost use Rattle.text.specs.Places.{placed, decimal_at, spaced_at};

// The digits from `at` on, after the value v.
fn digits_at(s: &[u8], at: usize, v: u32) -> Option<(u32, usize)>
    requires { at ≤ length s.now }
    ensures { result ≡ placed (length s.now) (digits_off v (drop at s.now)) }
{
    let mut v = v;
    for i in at..s.len() {
        let c = s[i];
        if !c.is_ascii_digit() {
            return Some((v, i));
        }
        v = v.checked_mul(10)?.checked_add(u32::from(c - b'0'))?;
    }
    Some((v, s.len()))
}

// After the digit 0.
fn zero_at(s: &[u8], at: usize) -> Option<(u32, usize)>
    requires { at ≤ length s.now }
    ensures { result ≡ placed (length s.now) (zero_off (drop at s.now)) }
{
    match s.get(at) {
        Some(c) if c.is_ascii_digit() => None,
        _ => Some((0, at)),
    }
}

// A plain decimal without leading zeros at a place of the text.
pub fn decimal_at(s: &[u8], at: usize) -> Option<(u32, usize)>
    requires { at ≤ length s.now }
    ensures { result ≡ decimal_at s.now at }
{
    let c = *s.get(at)?;
    if !c.is_ascii_digit() {
        return None;
    }
    if c == 48 {
        return zero_at(s, at + 1);
    }
    digits_at(s, at + 1, u32::from(c - b'0'))
}

// One space at the place, and a plain decimal after it.
pub fn spaced_at(s: &[u8], at: usize) -> Option<(u32, usize)>
    requires { at ≤ length s.now }
    ensures { result ≡ spaced_at s.now at }
{
    if *s.get(at)? != b' ' {
        return None;
    }
    decimal_at(s, at + 1)
}
