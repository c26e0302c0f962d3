// Hexadecimal digits, and fields of them in a buffer.
ghost use Rattle.std.specs.Prelude.{◌≡◌, true, ◌+◌, ◌<◌, ◌≤◌, length};
ghost use Rattle.answer.specs.Words.{bits_of};
ghost use Rattle.line_frame.specs.Hex.{is_hex, value_of, letter_of, hex_of};
ghost use Rattle.line_fields.specs.Put.{Wrote};

// Whether the byte is a lower-case hexadecimal digit.
pub fn is_hex(b: u8) -> bool
    ensures { result ≡ is_hex b }
{
    ((48 <= b) & (b <= 57)) | ((97 <= b) & (b <= 102))
}

// What the digit is worth.
pub fn value(b: u8) -> u8
    requires { is_hex b ≡ true }
    ensures { (result ≡ value_of b) × (result < 16) }
{
    if b <= 57 {
        return b - 48;
    }
    b - 87
}

// The digit that is worth d.
pub fn letter(d: u8) -> u8
    requires { d < 16 }
    ensures { result ≡ letter_of d }
{
    if d < 10 {
        return d + 48;
    }
    d + 87
}

// Writes the low n digits of v from the place at on. Answers the place after them.
pub fn spell(out: &mut [u8], at: usize, v: usize, n: usize) -> usize
    requires { at + n ≤ length out.old }
    ensures { Wrote (hex_of n v) at out.old result out.new }
{
    let mut rest = v;
    for left in (0..n).rev() {
        out[at + left] = letter((rest % 16) as u8);
        rest /= 16;
    }
    at + n
}

// The number as 32 bits, negatives in two's complement.
pub fn bits(x: i32) -> u32
    ensures { result ≡ bits_of x }
{
    x.cast_unsigned()
}

// Writes the low n digits of x, a negative in two's complement.
pub fn spell_signed(out: &mut [u8], at: usize, x: i32, n: usize) -> usize
    requires { at + n ≤ length out.old }
    ensures { Wrote (hex_of n (bits_of x)) at out.old result out.new }
{
    spell(out, at, bits(x) as usize, n)
}
