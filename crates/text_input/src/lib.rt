// The input line of `codelist`: kind,d,rounds,p,M and a line's end.
#![tactic(auto)]

mod fields;

ghost use Rattle.std.specs.Prelude.{◌≡◌, ◌≤◌, length};
ghost use Rattle.text_input.specs.Line.{ReadsLine, LongInputsAlike};

use fields::{decimal_sound, decimal_value, digits_at, hex_sound, hex_value};

// The five numbers; p by its bits.
#[derive(Clone, Copy)]
pub struct CodeLine {
    pub kind: u32,
    pub d: u32,
    pub rounds: u32,
    pub bits: u64,
    pub max: u32,
}

// No well-formed line is longer: four fields of 9 digits, one of 16, four commas and the line's end.
const LONGEST: usize = 57;

// A line that is not too long.
fn read_short(text: &[u8]) -> Option<CodeLine>
    requires { length text.now ≤ 57 }
    ensures { ReadsLine text.now result }
{
    let n1 = digits_at(text, 0);
    let sound1 = decimal_sound(text, 0, n1, b',');
    let at2 = n1 + 1;
    let n2 = digits_at(text, at2);
    let sound2 = decimal_sound(text, at2, n2, b',');
    let at3 = at2 + (n2 + 1);
    let n3 = digits_at(text, at3);
    let sound3 = decimal_sound(text, at3, n3, b',');
    let at4 = at3 + (n3 + 1);
    let sound4 = hex_sound(text, at4);
    let at5 = at4 + 17;
    let n5 = digits_at(text, at5);
    let sound5 = decimal_sound(text, at5, n5, b'\n');
    let ends = text.len() == at5 + (n5 + 1);
    let first = sound1 & (sound2 & sound3);
    let last = sound4 & (sound5 & ends);
    if !(first & last) {
        return None;
    }
    Some(CodeLine {
        kind: decimal_value(text, 0, n1),
        d: decimal_value(text, at2, n2),
        rounds: decimal_value(text, at3, n3),
        bits: hex_value(text, at4),
        max: decimal_value(text, at5, n5),
    })
}

// Reads a line; none where it is not well formed, which question 1 refuses.
pub fn read_line(text: &[u8]) -> Option<CodeLine>
    ensures { ReadsLine text.now result }
{
    if LONGEST < text.len() {
        return None;
    }
    read_short(text)
}

// A part of a long input is refused as the whole is: a program need not read more than 58 bytes.
pub fn long_inputs_alike()
    ensures { LongInputsAlike }
{}
