//! Compares what calls return with what is expected of them, case by case.
//!
//! Standard input has the names of sections, a line each. The file `NAME.cases` has the cases of a section: some words,
//! and cases, each of which begins with `== `. A case is a title, given lines, a line `--` and the expected lines, as
//! the module of its section says; or one line, `TITLE => EXPECTED`. Of a case whose actual text isn't the expected
//! one, the program prints both; of each section, how many cases are as expected. It fails if one isn't.
#![tactic(auto)]

mod ask;
mod case;
mod sections;
mod shown;

use anyhow::Context;
use case::Case;
use sections::actual;
use shown::shown_actual;
use std::alloc::AllocError;
use std::process::ExitCode;
use std::rt::Files;
use std::{fs, io};

// Whether the actual text of a case is the expected one. If not, both are added to a report.
fn is_expected(report: &mut String, case: Case<'_>, actual: &str) -> Result<bool, AllocError> {
    let Case {
        title,
        given,
        expected,
    } = case;
    if actual == expected {
        return Ok(true);
    }
    write!(
        report,
        "MISMATCH: {title}\n{given}expected:\n{expected}\nactual:\n{actual}\n"
    )?;
    Ok(false)
}

// Compares a case, which is read first.
fn compare<R: Files + AllocGlobal>(
    rt: &R,
    report: &mut String,
    section: &str,
    text: &str,
) -> Result<bool, AllocError> {
    let case = Case::of(text);
    let actual = shown_actual(rt.alloc(), actual(rt, section, case))?;
    is_expected(report, case, actual.as_str())
}

// Counts the cases of a section whose actual text is the expected one, and all.
fn count<R: Files + AllocGlobal>(
    rt: &R,
    report: &mut String,
    section: &str,
    cases: &str,
) -> Result<(u64, u64), AllocError> {
    let (mut as_expected, mut all) = (0u64, 0u64);
    for text in cases.split("== ").skip(1) {
        all = all.saturating_add(1);
        if compare(rt, report, section, text)? {
            as_expected = as_expected.saturating_add(1);
        }
    }
    Ok((as_expected, all))
}

// The text of the file of a section.
fn read<R: Files + AllocGlobal>(rt: &R, section: &str) -> anyhow::Result<String> {
    let name = format!(in rt.alloc(); "{section}.cases")?;
    fs::read_to_string(rt, name.as_str()).context(format_args!("{section}.cases"))
}

// Compares the cases of a section, prints the mismatches and the counts, and returns whether all are as expected.
fn run_section<R: Print + Files + AllocGlobal>(
    rt: &R,
    section: &str,
    cases: &str,
) -> io::Result<bool> {
    let mut report = String::new(rt.alloc());
    let (as_expected, all) = count(rt, &mut report, section, cases)?;
    println!(rt; "{report}{section}: {as_expected} of {all} cases as expected")?;
    Ok(as_expected == all)
}

// The same of each section that is named. Prints how many lines end in a carriage return too: an editor that strips
// them would leave the cases as expected.
fn run<R: Print + Files + AllocGlobal>(rt: &R, sections: &str) -> anyhow::Result<bool> {
    let (mut all_expected, mut returns) = (true, 0u64);
    for section in sections.lines() {
        let cases = read(rt, section)?;
        returns = returns.saturating_add(cases.matches("\r\n").count() as u64);
        all_expected = run_section(rt, section, cases.as_str())? && all_expected;
    }
    println!(rt; "{returns} lines end in a carriage return")?;
    Ok(all_expected)
}

fn read_and_run<R: Input + Print + Files + AllocGlobal>(rt: &R) -> anyhow::Result<bool> {
    let sections = io::read_to_string(rt.alloc(), rt.reader())?;
    run(rt, sections.as_str())
}

fn main(rt: HostRuntime) -> ExitCode {
    match read_and_run(&rt) {
        Ok(true) => ExitCode::SUCCESS,
        Ok(false) => ExitCode::FAILURE,
        Err(error) => {
            let _ = eprintln!(rt; "{error:#}");
            ExitCode::FAILURE
        }
    }
}
