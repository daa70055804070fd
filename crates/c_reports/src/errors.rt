// Answers as structs of numbers.
ghost use Rattle.c_reports.specs.Errors.{ReportsTranslated};

use columns::refusal::Refusal;

#[repr(C)]
#[derive(Clone, Copy)]
pub struct LongCount {
    pub number: u32,
    pub count: usize,
}

// How many numbers were translated.
pub fn translated_report(answer: Result<usize, Refusal>) -> LongCount
    ensures { ReportsTranslated answer result }
{
    match answer {
        Ok(count) => LongCount { number: 0, count },
        Err(refusal) => LongCount {
            number: u32::from(refusal),
            count: 0,
        },
    }
}
