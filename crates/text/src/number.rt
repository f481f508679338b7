// Numbers that digits write.
ghost use Rattle.std.specs.Prelude.{◌≡◌, ◌^◌, ◌≤◌, true, MatchOption};
ghost use Rattle.tasks.specs.Bytes.{every, digit};
ghost use Rattle.text.specs.Values.{number_of};

// The number that digits write; none where a byte is no digit, or the number does not fit.
pub fn number(digits: &[u8]) -> Option<u32>
    ensures { MatchOption result (every digit digits.now ≡ true → 2 ^ 32 ≤ number_of digits.now) (λ n. (every digit digits.now ≡ true) × (n ≡ number_of digits.now)) }
{
    let mut value: u32 = 0;
    for digit in digits {
        if !digit.is_ascii_digit() {
            return None;
        }
        value = value
            .checked_mul(10)?
            .checked_add(u32::from(*digit - b'0'))?;
    }
    Some(value)
}
