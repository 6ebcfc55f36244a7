// The program `floors` of document 01 as a function from the input's bytes to the output's.
#![tactic(auto)]

ghost use Rattle.std.specs.Prelude.{◌≡◌, ◌+◌, ◌≤◌, ◌^◌, length};
ghost use Rattle.arithmetic.specs.Number.{bits};
ghost use Rattle.keeper.specs.Keeper.{Ready, keeping_at, stepped_of};
ghost use Rattle.floors_text.specs.Lines.{lines_of};
ghost use Rattle.floors_text.specs.Print.{Put};
ghost use Rattle.floors_text.specs.Text.{opened, frame_text, gain_text, gains_left, written_at, floors_of};

mod lines;
mod print;

use crate::lines::{gain_of, line_length, look_of};
use crate::print::{put_frame, put_refusal};
use arithmetic::pattern::from_bits;
use keeper::FloorKeeper;

// The most bytes of input.
const MOST_INPUT: usize = 60000;

// One gain step, and its line. The answer is the place after the line.
fn step_line(
    keeper: &mut FloorKeeper,
    marks: &mut [u64],
    minima: &mut [f64],
    pattern: u64,
    output: &mut [u8],
    at: usize,
) -> usize
    requires ready { Ready (keeping_at keeper.old marks.old minima.old) }
    requires room { at + length (frame_text (keeping_at keeper.old marks.old minima.old) (bits pattern)) ≤ 2 ^ 32 }
    ensures keeping_after { keeping_at keeper.new marks.new minima.new
        ≡ (stepped_of (keeping_at keeper.old marks.old minima.old) (bits pattern)).keeping }
    ensures put { Put output.old at
        (frame_text (keeping_at keeper.old marks.old minima.old) (bits pattern)) output.new result }
{
    let frame = keeper.frame;
    let gain = from_bits(pattern);
    let step = keeper.step_in_order(marks, minima, gain);
    put_frame(output, at, frame, step.floor, step.dropped, step.kept)
}

// The lines of a text, each a gain for the keeper at a look, and the texts that they give. The stores
// are the keeper's: they are left as the last gain before a malformed line leaves them.
fn gain_lines(
    text: &[u8],
    look: usize,
    marks: &mut [u64],
    minima: &mut [f64],
    output: &mut [u8],
) -> usize
    requires taken { (length text.now ≤ 60000) × (11 ≤ look) × (look ≤ 4096) }
    requires stores_long { (length marks.old ≡ look + 1) × (length minima.old ≡ look + 1) }
    ensures put { Put output.old 0 (gain_text (opened look) 2 (lines_of text.now)) output.new result }
    ensures marks_after { marks.new ≡ (gains_left (opened look) (lines_of text.now)).marks }
    ensures minima_after { minima.new ≡ (gains_left (opened look) (lines_of text.now)).minima }
{
    let mut keeper = FloorKeeper::setup(look, marks, minima).unwrap();
    let mut rest = text;
    let mut number = 2;
    let mut next = 0;
    while !rest.is_empty() {
        let (line, later) = rest.split_at(line_length(rest));
        let Some(pattern) = gain_of(line) else {
            return put_refusal(output, next, number);
        };
        next = step_line(&mut keeper, marks, minima, pattern, output, next);
        rest = later;
        number += 1;
    }
    next
}

// A store for a keeper at the longest look.
fn store<T: Copy>(value: T) -> [T; 4097]
    ensures { 4097 ≡ length result }
{
    [value; 4097]
}

// The lines after the first, with stores for the keeper.
fn gains(text: &[u8], look: usize, output: &mut [u8]) -> usize
    requires { (length text.now ≤ 60000) × (11 ≤ look) × (look ≤ 4096) }
    ensures { Put output.old 0 (gain_text (opened look) 2 (lines_of text.now)) output.new result }
{
    let mut marks = store(0);
    let mut minima = store(0.0);
    let cap = look + 1;
    gain_lines(text, look, &mut marks[..cap], &mut minima[..cap], output)
}

// The whole work: the text of an input, put into the output from its start. The answer is the
// text's length; what has no room in the output is left out. 160,000 bytes are room for every text.
pub fn floors(input: &[u8], output: &mut [u8]) -> usize
    ensures { written_at result output.new ≡ floors_of input.now output.old }
{
    if input.len() > MOST_INPUT {
        return put_refusal(output, 0, 0);
    }
    let (line, rest) = input.split_at(line_length(input));
    match look_of(line) {
        None => put_refusal(output, 0, 1),
        Some(look) => gains(rest, look as usize, output),
    }
}
