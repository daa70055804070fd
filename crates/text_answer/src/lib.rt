// What `codelist` prints for an input.
#![tactic(auto)]

ghost use Rattle.std.specs.Prelude.{◌≤◌, length};
ghost use Rattle.text_numbers.specs.Steps.{Put};
ghost use Rattle.text_answer.specs.Answer.{text_of, CodeListed};
ghost use Rattle.text_answer.specs.Claims.{EveryTextFits};

use columns::of_bits;
use columns::refusal::{Refusal, require};
use text_input::{CodeLine, read_line};
use text_listing::{CodeArguments, write_code};
use text_numbers::lines::write_refusal;

// The places that a text column needs.
pub const TEXT_ROOM: usize = 320_000;

// The text for an input line.
fn write_answer(line: Option<CodeLine>, text: &mut [u8]) -> usize
    requires { length (text_of line) ≤ length text.old }
    ensures { Put text.old 0 (text_of line) text.new result }
{
    match line {
        None => write_refusal(text, 1),
        Some(l) => write_code(
            CodeArguments {
                kind: l.kind,
                d: l.d,
                rounds: l.rounds,
                probability: of_bits(l.bits),
                max: l.max,
            },
            text,
        ),
    }
}

// Writes what `codelist` prints for an input of any length and content.
pub fn codelist(input: &[u8], text: &mut [u8]) -> Result<u32, Refusal>
    ensures { CodeListed input.now text.old text.new result }
{
    require(TEXT_ROOM <= text.len(), Refusal::ShortColumn)?;
    Ok(write_answer(read_line(input), text) as u32)
}

// Every input has a text that fits the text column.
pub fn every_text_fits()
    ensures { EveryTextFits }
{}
