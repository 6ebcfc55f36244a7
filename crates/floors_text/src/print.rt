// Writing: each function puts one piece of text into the output at a place, and answers the place
// after it: place and output stay apart, since a struct of both would hold the loan. What would stand past the output's end is left out, so that a place may lie there: the
// answer of `floors` counts such bytes too. Nor is it `write!` that writes: that it succeeds is promised
// of no writer, and `floors` answers the whole text.
ghost use Rattle.std.specs.Prelude.{◌≡◌, ◌∷◌, [], ◌++◌, ◌+◌, ◌≤◌, ◌<◌, ◌^◌, length};
ghost use Rattle.floors_text.specs.Print.{glyph_of, hex_of, decimal_of, frame_line, refusal_line, Put};

use arithmetic::pattern::to_bits;

fn put(output: &mut [u8], at: usize, byte: u8) -> usize
    requires { at < 2 ^ 32 }
    ensures { Put output.old at (byte ∷ []) output.new result }
{
    if at < output.len() {
        output[at] = byte;
    }
    at + 1
}

fn put_word(output: &mut [u8], at: usize, word: &[u8]) -> usize
    requires { at + length word.now ≤ 2 ^ 32 }
    ensures { Put output.old at word.now output.new result }
{
    let mut next = at;
    for byte in word {
        next = put(output, next, *byte);
    }
    next
}

fn glyph(digit: u64) -> u8
    requires { digit < 16 }
    ensures { result ≡ glyph_of digit }
{
    if digit < 10 {
        48 + digit as u8
    } else {
        87 + digit as u8
    }
}

// The last `digits` digits of n in base 16.
fn put_hex(output: &mut [u8], at: usize, n: u64, digits: usize) -> usize
    requires { at + digits ≤ 2 ^ 32 }
    ensures { Put output.old at (hex_of digits n) output.new result }
{
    if digits == 0 {
        return at;
    }
    let next = put_hex(output, at, n / 16, digits - 1);
    put(output, next, glyph(n % 16))
}

fn put_decimal(output: &mut [u8], at: usize, n: u64) -> usize
    requires { at + length (decimal_of n) ≤ 2 ^ 32 }
    ensures { Put output.old at (decimal_of n) output.new result }
{
    if n < 10 {
        return put(output, at, glyph(n));
    }
    let next = put_decimal(output, at, n / 10);
    put(output, next, glyph(n % 10))
}

// A word and the number that goes with it.
fn put_count(output: &mut [u8], at: usize, word: &[u8], n: u64) -> usize
    requires { at + length word.now + length (decimal_of n) ≤ 2 ^ 32 }
    ensures { Put output.old at (word.now ++ decimal_of n) output.new result }
{
    let next = put_word(output, at, word);
    put_decimal(output, next, n)
}

// The line of a frame.
pub fn put_frame(
    output: &mut [u8],
    at: usize,
    frame: u64,
    floor: f64,
    dropped: usize,
    kept: usize,
) -> usize
    requires { at + length (frame_line frame floor dropped kept) ≤ 2 ^ 32 }
    ensures { Put output.old at (frame_line frame floor dropped kept) output.new result }
{
    let bits = to_bits(floor);
    let a = put_count(output, at, b"frame=", frame);
    let b = put_word(output, a, b" floor=");
    let c = put_hex(output, b, bits, 16);
    let d = put_count(output, c, b" dropped=", dropped as u64);
    let e = put_count(output, d, b" kept=", kept as u64);
    put_word(output, e, b"\n")
}

// The refusal of a line, by its number from 1; 0 stands for the whole input.
pub fn put_refusal(output: &mut [u8], at: usize, line: usize) -> usize
    requires { at + length (refusal_line line) ≤ 2 ^ 32 }
    ensures { Put output.old at (refusal_line line) output.new result }
{
    let next = put_count(output, at, b"refused=25 line=", line as u64);
    put_word(output, next, b"\n")
}
