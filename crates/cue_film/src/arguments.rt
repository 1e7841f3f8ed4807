// What the program's arguments say.

// A number in decimal digits that fits 32 bits.
pub fn read_track(digits: &[u8]) -> Option<u32> {
    if digits.is_empty() {
        return None;
    }
    let mut value: u32 = 0;
    for digit in digits {
        if !digit.is_ascii_digit() {
            return None;
        }
        value = value.checked_mul(10)?.checked_add((*digit - b'0') as u32)?;
    }
    Some(value)
}
