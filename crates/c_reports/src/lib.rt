// Answers as numbers and structs of numbers, for C.
#![tactic(auto)]

pub mod engine;
pub mod errors;

ghost use Rattle.c_reports.specs.Reports.{ReportsNumber, ReportsCount, ReportsLengths};

use columns::refusal::Refusal;
use columns_answers::SyndromeLengths;

// A question's number, 0 where the call was accepted, and a count, 0 where it was refused. C has no Result: each report has the number beside the values.
#[repr(C)]
#[derive(Clone, Copy)]
pub struct OneCount {
    pub number: u32,
    pub count: u32,
}

// The same with two counts.
#[repr(C)]
#[derive(Clone, Copy)]
pub struct TwoCounts {
    pub number: u32,
    pub first: u32,
    pub second: u32,
}

// The question's number, 0 where the call was accepted.
pub fn number_of(answer: Result<(), Refusal>) -> u32
    ensures { ReportsNumber answer result }
{
    match answer {
        Ok(()) => 0,
        Err(refusal) => u32::from(refusal),
    }
}

// A count.
pub fn count_report(answer: Result<u32, Refusal>) -> OneCount
    ensures { ReportsCount answer result }
{
    match answer {
        Ok(count) => OneCount { number: 0, count },
        Err(refusal) => OneCount {
            number: u32::from(refusal),
            count: 0,
        },
    }
}

// How many defects and erasures there are.
pub fn lengths_report(answer: Result<SyndromeLengths, Refusal>) -> TwoCounts
    ensures { ReportsLengths answer result }
{
    match answer {
        Ok(lengths) => TwoCounts {
            number: 0,
            first: lengths.defects,
            second: lengths.erasures,
        },
        Err(refusal) => TwoCounts {
            number: u32::from(refusal),
            first: 0,
            second: 0,
        },
    }
}
