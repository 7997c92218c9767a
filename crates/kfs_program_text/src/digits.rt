//! Bytes in hexadecimal.
ghost use Rattle.std.specs.Prelude.{◌≡◌, ◌≤◌, ◌<◌, ◌+◌, ◌*◌, ◌%◌, ℕ, length, slice_index, slice_set, Ok, IsErr, IsTrue, IsFalse};
ghost use Rattle.hex.specs.Hex.{decode_pairs, hex_digit_value, pair_value};
ghost use Rattle.kfs_program_text.specs.Digits.{scaled};

/// What `HIGH` and `LOW` have for a byte that is no digit.
const X: u16 = 256;

/// For each byte, 16 times its value as a digit, in either case.
#[rattlefmt::skip]
static HIGH: [u16; 256] = [
    X,   X,   X,   X,   X,   X,   X,   X,   X,   X,   X,   X,   X,   X,   X,   X,
    X,   X,   X,   X,   X,   X,   X,   X,   X,   X,   X,   X,   X,   X,   X,   X,
    X,   X,   X,   X,   X,   X,   X,   X,   X,   X,   X,   X,   X,   X,   X,   X,
    0,   16,  32,  48,  64,  80,  96,  112, 128, 144, X,   X,   X,   X,   X,   X,
    X,   160, 176, 192, 208, 224, 240, X,   X,   X,   X,   X,   X,   X,   X,   X,
    X,   X,   X,   X,   X,   X,   X,   X,   X,   X,   X,   X,   X,   X,   X,   X,
    X,   160, 176, 192, 208, 224, 240, X,   X,   X,   X,   X,   X,   X,   X,   X,
    X,   X,   X,   X,   X,   X,   X,   X,   X,   X,   X,   X,   X,   X,   X,   X,
    X,   X,   X,   X,   X,   X,   X,   X,   X,   X,   X,   X,   X,   X,   X,   X,
    X,   X,   X,   X,   X,   X,   X,   X,   X,   X,   X,   X,   X,   X,   X,   X,
    X,   X,   X,   X,   X,   X,   X,   X,   X,   X,   X,   X,   X,   X,   X,   X,
    X,   X,   X,   X,   X,   X,   X,   X,   X,   X,   X,   X,   X,   X,   X,   X,
    X,   X,   X,   X,   X,   X,   X,   X,   X,   X,   X,   X,   X,   X,   X,   X,
    X,   X,   X,   X,   X,   X,   X,   X,   X,   X,   X,   X,   X,   X,   X,   X,
    X,   X,   X,   X,   X,   X,   X,   X,   X,   X,   X,   X,   X,   X,   X,   X,
    X,   X,   X,   X,   X,   X,   X,   X,   X,   X,   X,   X,   X,   X,   X,   X,
];

/// For each byte, its value as a digit, in either case.
#[rattlefmt::skip]
static LOW: [u16; 256] = [
    X,  X,  X,  X,  X,  X,  X,  X,  X,  X,  X,  X,  X,  X,  X,  X,
    X,  X,  X,  X,  X,  X,  X,  X,  X,  X,  X,  X,  X,  X,  X,  X,
    X,  X,  X,  X,  X,  X,  X,  X,  X,  X,  X,  X,  X,  X,  X,  X,
    0,  1,  2,  3,  4,  5,  6,  7,  8,  9,  X,  X,  X,  X,  X,  X,
    X,  10, 11, 12, 13, 14, 15, X,  X,  X,  X,  X,  X,  X,  X,  X,
    X,  X,  X,  X,  X,  X,  X,  X,  X,  X,  X,  X,  X,  X,  X,  X,
    X,  10, 11, 12, 13, 14, 15, X,  X,  X,  X,  X,  X,  X,  X,  X,
    X,  X,  X,  X,  X,  X,  X,  X,  X,  X,  X,  X,  X,  X,  X,  X,
    X,  X,  X,  X,  X,  X,  X,  X,  X,  X,  X,  X,  X,  X,  X,  X,
    X,  X,  X,  X,  X,  X,  X,  X,  X,  X,  X,  X,  X,  X,  X,  X,
    X,  X,  X,  X,  X,  X,  X,  X,  X,  X,  X,  X,  X,  X,  X,  X,
    X,  X,  X,  X,  X,  X,  X,  X,  X,  X,  X,  X,  X,  X,  X,  X,
    X,  X,  X,  X,  X,  X,  X,  X,  X,  X,  X,  X,  X,  X,  X,  X,
    X,  X,  X,  X,  X,  X,  X,  X,  X,  X,  X,  X,  X,  X,  X,  X,
    X,  X,  X,  X,  X,  X,  X,  X,  X,  X,  X,  X,  X,  X,  X,  X,
    X,  X,  X,  X,  X,  X,  X,  X,  X,  X,  X,  X,  X,  X,  X,  X,
];

/// The byte of two digits; 256 or more where one of them isn't a digit.
fn pair(high: u8, low: u8) -> u16
    ensures most { result ≤ 512 }
    ensures byte { result < 256 → (i : ℕ) → pair_value high low i ≡ Ok result }
    ensures none { 256 ≤ result → (i : ℕ) → IsErr (pair_value high low i) }
{
    high_value(high) + low_value(low)
}

fn high_value(digit: u8) -> u16
    ensures { result ≡ scaled 16 (hex_digit_value digit) }
{
    HIGH[digit as usize]
}

fn low_value(digit: u8) -> u16
    ensures { result ≡ scaled 1 (hex_digit_value digit) }
{
    LOW[digit as usize]
}

/// How many pairs are read in one turn of a loop, so that the loop's own steps are shared.
const AT_ONCE: usize = 8;

/// Puts the byte of the pair with this index into the slice, and answers the pair's byte as `pair` does.
/// What is put for a pair that isn't of digits doesn't matter.
fn put_byte(digits: &[u8], out: &mut [u8], index: usize) -> u16
    requires pairs { length digits.now ≡ 2 * length out.old }
    requires index { index < length out.old }
    ensures byte { result < 256 → (i : ℕ) → pair_value (slice_index digits.now (2 * index)) (slice_index digits.now (2 * index + 1)) i ≡ Ok result }
    ensures none { 256 ≤ result → (i : ℕ) → IsErr (pair_value (slice_index digits.now (2 * index)) (slice_index digits.now (2 * index + 1)) i) }
    ensures out { out.new ≡ slice_set out.old index (result % 256) }
{
    let byte = pair(digits[2 * index], digits[2 * index + 1]);
    out[index] = (byte % 256) as u8;
    byte
}

/// Puts the bytes that the digits stand for into the slice. Answers whether all are digits; where not,
/// what the slice holds doesn't matter. Condition: there are two digits for each byte.
///
/// A pair that isn't of digits ends nothing: so no pair waits for the test of the one before.
pub(crate) fn decode_into(digits: &[u8], out: &mut [u8]) -> bool
    requires { length digits.now ≡ 2 * length out.old }
    ensures yes { IsTrue result → decode_pairs 0 digits.now ≡ Ok out.new }
    ensures no { IsFalse result → IsErr (decode_pairs 0 digits.now) }
{
    let mut all = 0;
    let mut done = 0;
    'turns: while out.len() - done >= AT_ONCE {
        'turn: for place in 0..AT_ONCE {
            let byte = put_byte(digits, out, done + place);
            all |= byte;
        }
        done += AT_ONCE;
    }
    'rest: for index in done..out.len() {
        let byte = put_byte(digits, out, index);
        all |= byte;
    }
    all < 256
}
