// Lines of text, and the bytes that hexadecimal digits write.
ghost use Rattle.std.specs.Prelude.{◌≡◌, ◌+◌, ◌≤◌, ◌<◌, length, take, drop};
ghost use Rattle.std.proofs.Math.Seq.{slice};
ghost use Rattle.test_vector_lines.specs.Lines.{line_length, digit_of, decoded_size, written};

// The first n bytes, or all.
pub fn front(bytes: &[u8], n: usize) -> &[u8]
    ensures { result.now ≡ take n bytes.now }
{
    if bytes.len() < n {
        return bytes;
    }
    &bytes[0..n]
}

// The bytes behind the first n, or none.
pub fn rest(bytes: &[u8], n: usize) -> &[u8]
    ensures { result.now ≡ drop n bytes.now }
{
    if bytes.len() < n {
        return &bytes[0..0];
    }
    &bytes[n..]
}

// The place of the next line's end, at or behind `from`.
pub fn line_end(text: &[u8], from: usize) -> usize
    requires { from < length text.now }
    ensures { (result ≡ from + line_length (drop from text.now)) × (from ≤ result) × (result ≤ length text.now) }
{
    for at in from..text.len() {
        if text[at] == b'\n' {
            return at;
        }
    }
    text.len()
}

// A digit's value; 16 for any other byte.
fn digit(b: u8) -> u8
    ensures { (result ≡ digit_of b) × (result ≤ 16) }
{
    if b < b'0' {
        return 16;
    }
    if b <= b'9' {
        return b - b'0';
    }
    if b < b'a' {
        return 16;
    }
    if b <= b'f' {
        return b - b'a' + 10;
    }
    16
}

// The bytes that the digits from `from` to `to` write: how many, and 0 where they write none or more than `bytes` holds.
// What `bytes` holds behind them is free.
pub fn decode(text: &[u8], from: usize, to: usize, bytes: &mut [u8]) -> usize
    requires { (from ≤ to) × (to ≤ length text.now) }
    ensures size { result ≡ decoded_size (slice from to text.now) (length bytes.old) }
    ensures content { take result bytes.new ≡ take result (written (slice from to text.now)) }
{
    let size = (to - from) / 2;
    for n in 0..size {
        if bytes.len() <= n {
            return 0;
        }
        let at = from + 2 * n;
        let high = digit(text[at]);
        let low = digit(text[at + 1]);
        if 15 < high {
            return 0;
        }
        if 15 < low {
            return 0;
        }
        bytes[n] = high * 16 + low;
    }
    size
}
