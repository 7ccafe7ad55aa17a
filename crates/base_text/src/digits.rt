//! Digits of base 8 and 16.

ghost use Rattle.std.specs.Prelude.{◌≡◌, ◌<◌, ◌%◌, ◌*◌, length, slice_index};
ghost use Rattle.hex.specs.Hex.{encode_lower, lower_digits};
ghost use Rattle.base_text.specs.Digits.{digit_character, high_octal, low_octal};

/// Returns the last octal digit of a number, as a character.
pub fn octal_digit(n: u32) -> u8
    ensures { result ≡ digit_character (n % 8) }
{
    b'0' + (n % 8) as u8
}

/// Returns the six last octal digits of a number.
pub fn low_octal(n: u32) -> [u8; 6]
    ensures { result ≡ low_octal n }
{
    [
        octal_digit(n / 0o100000),
        octal_digit(n / 0o10000),
        octal_digit(n / 0o1000),
        octal_digit(n / 0o100),
        octal_digit(n / 0o10),
        octal_digit(n),
    ]
}

/// Returns the five octal digits of a number before the six last ones.
pub fn high_octal(n: u32) -> [u8; 5]
    ensures { result ≡ high_octal n }
{
    [
        octal_digit(n / 0o10000000000),
        octal_digit(n / 0o1000000000),
        octal_digit(n / 0o100000000),
        octal_digit(n / 0o10000000),
        octal_digit(n / 0o1000000),
    ]
}

/// Returns the character of a digit of base 16, in lower case.
pub fn hex_digit(n: u8) -> u8
    requires { n < 16 }
    ensures { result ≡ slice_index lower_digits n }
{
    if n < 10 { b'0' + n } else { b'a' + (n - 10) }
}

/// Writes two digits of base 16 for each byte. Arithmetic takes fewer instructions here than a table.
fn fill_hex(bytes: &[u8], digits: &mut [u8])
    requires { length digits.old ≡ 2 * length bytes.now }
    ensures { digits.new ≡ encode_lower bytes.now }
{
    'pairs: for i in 0..bytes.len() {
        let byte = bytes[i];
        digits[2 * i] = hex_digit(byte >> 4);
        digits[2 * i + 1] = hex_digit(byte & 0x0f);
    }
}

pub fn hex_forty(bytes: &[u8; 20]) -> [u8; 40]
    ensures { result ≡ encode_lower bytes.now }
{
    let mut digits = [0; 40];
    fill_hex(bytes, &mut digits);
    digits
}

pub fn hex_sixty_four(bytes: &[u8; 32]) -> [u8; 64]
    ensures { result ≡ encode_lower bytes.now }
{
    let mut digits = [0; 64];
    fill_hex(bytes, &mut digits);
    digits
}
