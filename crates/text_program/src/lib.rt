// The program `codelist`, as one call that several programs make.
// Every byte of standard output goes through `print`, whose caller has to show that it lends the whole text for the input and nothing else. No contract can say
// what a call of std's reads or writes, so this is left to the reader and to the runs of the programs: that `text_reading::read_input` reads standard input to the buffer,
// that `run` makes its one call, that `read_and_answer` hands on exactly the bytes read, and that `print` and `report` write. Of an input longer than the
// buffer a part is read, which is refused as the whole would be (`text_input::long_inputs_alike`).
#![tactic(auto)]

ghost use Rattle.std.specs.Prelude.{◌≡◌, ◌≤◌, length, take};
ghost use Rattle.text_answer.specs.Answer.{answer_text, text_room};

use text_answer::codelist;
use text_reading::read_input;

// How many bytes a text has, and whether all of them were written.
#[derive(Clone, Copy)]
struct Printed {
    bytes: usize,
    whole: bool,
}

// Writes the text for an input to standard output.
fn print(rt: &impl Print, input: &[u8], text: &[u8]) -> Printed
    requires { text.now ≡ answer_text input.now }
    ensures { result.bytes ≡ length (answer_text input.now) }
{
    let whole = rt.write_all(text).is_ok();
    Printed {
        bytes: text.len(),
        whole,
    }
}

// Writes the first n bytes of a text column.
fn show(rt: &impl Print, input: &[u8], text: &[u8], n: u32) -> Printed
    requires { (n ≤ length text.now) × (take n text.now ≡ answer_text input.now) }
    ensures { result.bytes ≡ length (answer_text input.now) }
{
    let m = n as usize;
    let bytes = &text[..m];
    print(rt, input, bytes)
}

// Answers an input.
fn answer(rt: &impl Print, input: &[u8], text: &mut [u8]) -> Printed
    requires { text_room ≤ length text.old }
    ensures { result.bytes ≡ length (answer_text input.now) }
{
    let listed = codelist(input, text);
    match listed {
        Ok(n) => show(rt, input, text, n),
        Err(_) => Printed {
            bytes: 0,
            whole: false,
        },
    }
}

// One line on standard error.
fn report(rt: &impl Eprint, line: &str) {
    let _ = rt.eprintln(line);
}

// Answers an input, and says so where its text was not written whole.
fn answer_input(rt: &(impl Print + Eprint), input: &[u8], text: &mut [u8])
    requires { text_room ≤ length text.old }
{
    let printed = answer(rt, input, text);
    if !printed.whole {
        report(rt, "codelist: the output could not be written");
    }
}

// Answers what stands on standard input. An input that could not be read has no answer.
fn read_and_answer(rt: &(impl Input + Print + Eprint), buffer: &mut [u8], text: &mut [u8])
    requires { text_room ≤ length text.old }
{
    let read = read_input(rt, buffer);
    match read {
        Ok(n) => answer_input(rt, &buffer[..n], text),
        Err(_) => report(rt, "codelist: the input could not be read"),
    }
}

// Reads standard input, and writes its text to standard output.
pub fn run(rt: &(impl Input + Print + Eprint)) {
    let mut buffer = [0u8; 4096];
    let mut text = [0u8; 320000];
    read_and_answer(rt, &mut buffer, &mut text);
}
