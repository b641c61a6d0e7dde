// Numbers and bytes taken from the front of any bytes: past the last one 0 is read, so that no reading fails. Each function answers what it took, and the
// bytes behind it.
ghost use Rattle.std.specs.Prelude.{◌≡◌, ℕ, ◌≤◌, length, take, drop, slice_index};
ghost use Rattle.std.specs.List.{All};
ghost use Rattle.image.specs.Parts.{as_number, span, numbers_in};

// The byte at a place.
pub fn byte_at(image: &[u8], i: usize) -> u8
    ensures { result ≡ slice_index image.now i }
{
    image.get(i).copied().unwrap_or(0)
}

// So many bytes, or those that are there.
pub fn take_bytes(image: &[u8], n: usize) -> (&[u8], &[u8])
    ensures { (result.0.now ≡ take n image.now) × (result.1.now ≡ drop n image.now) }
{
    image.split_at(n.min(image.len()))
}

// The number that some bytes are, the highest first.
fn number_of(bytes: &[u8]) -> u64
    requires { length bytes.now ≤ 8 }
    ensures { result ≡ as_number (length bytes.now) bytes.now }
{
    let mut number = 0;
    for byte in bytes {
        number = 256 * number + u64::from(*byte);
    }
    number
}

// The number that so many bytes are, some of which are not there. Byte by byte: a copy would be a call, for which the numbers of an unpark leave their registers.
fn number_beyond(image: &[u8], width: usize) -> u64
    requires { width ≤ 8 }
    ensures { result ≡ as_number width image.now }
{
    let mut number = 0;
    for i in 0..width {
        number = 256 * number + u64::from(byte_at(image, i));
    }
    number
}

// The number that so many bytes are. (Bytes that are there are read where they stand, which an unpark is faster by.)
pub fn take_number(image: &[u8], width: usize) -> (u64, &[u8])
    requires { width ≤ 8 }
    ensures { (result.0 ≡ as_number width image.now) × (result.1.now ≡ drop width image.now) }
{
    if let Some((here, behind)) = image.split_at_checked(width) {
        return (number_of(here), behind);
    }
    (number_beyond(image, width), &image[image.len()..])
}

// The numbers of parts of these widths, of any number of them; answers the bytes behind them alone.
pub fn take_parts<'a>(image: &'a [u8], widths: &[usize], numbers: &mut [u64]) -> &'a [u8]
    requires { (length widths.now ≡ length numbers.old) × ((i : ℕ) → slice_index widths.now i ≤ 8) }
    ensures { (numbers.new ≡ numbers_in widths.now image.now) × (result.now ≡ drop (span widths.now) image.now) }
{
    let mut left = image;
    for i in 0..widths.len() {
        let (number, behind) = take_number(left, widths[i]);
        numbers[i] = number;
        left = behind;
    }
    left
}

// The same as an array, for a caller that takes it apart.
pub fn take_numbers<const N: usize>(image: &[u8], widths: [usize; N]) -> ([u64; N], &[u8])
    requires { All (λ w. w ≤ 8) widths }
    ensures { (result.0 ≡ numbers_in widths.entry image.now) × (result.1.now ≡ drop (span widths.entry) image.now) }
{
    let mut numbers = [0; N];
    let left = take_parts(image, &widths, &mut numbers);
    (numbers, left)
}
