// Reading: where a line ends, and the two forms of a line.
ghost use Rattle.std.specs.Prelude.{◌≡◌, ◌≤◌, length};
ghost use Rattle.floors_text.specs.Lines.{lines_of, first_of, digit_in, number_from, shaped, look_of, gain_of};

// How long a text's first line is, with its newline; a line without one goes to the text's end.
pub fn line_length(text: &[u8]) -> usize
    ensures { result ≡ length (first_of (lines_of text.now)) }
{
    match text.iter().position(|byte| *byte == b'\n') {
        Some(i) => i + 1,
        None => text.len(),
    }
}

// The digit of a base of at most 16 that a byte stands for.
fn digit(byte: u8, base: u64) -> Option<u64>
    requires { base ≤ 16 }
    ensures { result ≡ digit_in base byte }
{
    let d = match byte {
        b'0'..=b'9' => byte - b'0',
        b'a'..=b'f' => byte - b'a' + 10,
        _ => return None,
    };
    let d = u64::from(d);
    if d < base { Some(d) } else { None }
}

// The number that digits of a base spell.
fn number(digits: &[u8], base: u64) -> Option<u64>
    requires { (length digits.now ≤ 16) × (base ≤ 16) }
    ensures { result ≡ number_from base 0 digits.now }
{
    let mut value = 0;
    for byte in digits {
        value = value * base + digit(*byte, base)?;
    }
    Some(value)
}

// Whether a line is a word of five letters, low to high bytes more, and the newline.
#[tactic(auto, using(crate::proofs::Cuts::starts_is))]
fn has_shape(line: &[u8], word: &[u8], low: usize, high: usize) -> bool
    requires { (low ≤ 16) × (high ≤ 16) }
    ensures { result ≡ shaped word.now low high line.now }
{
    line.starts_with(word)
        && low + 6 <= line.len()
        && line.len() <= high + 6
        && line[line.len() - 1] == b'\n'
}

// The look of a first line.
#[tactic(auto, using(crate::proofs::Forms::cut_is), unfolding(crate::specs::Lines::look_of))]
pub fn look_of(line: &[u8]) -> Option<u64>
    ensures { result ≡ look_of line.now }
{
    if !has_shape(line, b"look=", 2, 4) || line[5] == b'0' {
        return None;
    }
    let look = number(&line[5..line.len() - 1], 10)?;
    if (11..=4096).contains(&look) {
        Some(look)
    } else {
        None
    }
}

// The bits of a gain line.
#[tactic(auto, using(crate::proofs::Forms::cut_is), unfolding(crate::specs::Lines::gain_of))]
pub fn gain_of(line: &[u8]) -> Option<u64>
    ensures { result ≡ gain_of line.now }
{
    if !has_shape(line, b"gain=", 16, 16) {
        return None;
    }
    number(&line[5..line.len() - 1], 16)
}
