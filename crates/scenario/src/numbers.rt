// A number of 64 bits, digit by digit: decimal, or hexadecimal behind an x that follows zeros alone.

ghost use Rattle.std.specs.Prelude.{◌≤◌};

// What has been read of a number.
#[derive(Clone, Copy)]
pub(crate) enum Number {
    Decimal(u64),
    Hexadecimal(u64),
}

// The number with one digit more, a small letter above 9, if that is of 64 bits.
fn with_digit(n: u64, radix: u32, byte: u8) -> Option<u64>
    requires lower_bound { 2 ≤ radix }
    requires upper_bound { radix ≤ 36 }
{
    if byte.is_ascii_uppercase() {
        return None;
    }
    let digit = char::from(byte).to_digit(radix)?;
    n.checked_mul(u64::from(radix))?
        .checked_add(u64::from(digit))
}

impl Number {
    // The number that begins with the byte, if one does.
    pub(crate) fn begun(byte: u8) -> Option<Number> {
        with_digit(0, 10, byte).map(Number::Decimal)
    }

    // The number with one byte more, if it can have that.
    pub(crate) fn with(self, byte: u8) -> Option<Number> {
        match self {
            Number::Decimal(0) if byte == b'x' => Some(Number::Hexadecimal(0)),
            Number::Decimal(n) => with_digit(n, 10, byte).map(Number::Decimal),
            Number::Hexadecimal(n) => with_digit(n, 16, byte).map(Number::Hexadecimal),
        }
    }

    pub(crate) fn value(self) -> u64 {
        match self {
            Number::Decimal(n) | Number::Hexadecimal(n) => n,
        }
    }
}
