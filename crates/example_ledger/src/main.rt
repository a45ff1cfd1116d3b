//! A ledger of names and amounts: reads it as CSV with a header, sorts it by the amount, the largest first, and prints
//! it as CSV with the total in a last row. What is wrong with a record is named on standard error, and the status is 2
//! then.
#![tactic(auto)]

use anyhow::{Result, bail};
use grid::{Grid, GridLineIter};
use grid_csv::{from_csv_with_header, to_csv_with_header};
use grid_lines::sort_rows_by_key;
use std::alloc::Global;
use std::cmp::Reverse;
use std::io;
use std::process::ExitCode;

// The amount in a row, or 0 where there is none.
fn amount(mut row: GridLineIter<'_, String>) -> i64 {
    match row.nth(1) {
        Some(cell) => cell.as_str().parse::<i64>().unwrap_or(0),
        None => 0,
    }
}

// Adds a row with the sum of the amounts.
fn add_total(alloc: Global, ledger: &mut Grid<String>) -> Result<()> {
    let total = ledger.iter_rows().map(amount).fold(0, i64::saturating_add);
    let name = String::from_str(alloc, "total")?;
    let row = vec![in alloc; name, format!(in alloc; "{total}")?]?;
    if ledger.fits_row(row.len()) {
        ledger.push_row(row)?;
    }
    Ok(())
}

// The CSV of the ledger, sorted and with its total.
fn sorted(alloc: Global, text: &str) -> Result<String> {
    let (header, mut ledger) = from_csv_with_header(alloc, text.as_bytes(), |field| {
        Ok(Some(String::from_str(alloc, field)?))
    })?;
    if header.len() != 2 {
        bail!("record 1 has {} fields, not 2", header.len());
    }
    sort_rows_by_key(&mut ledger, |row| Reverse(amount(row)))?;
    add_total(alloc, &mut ledger)?;
    let text = to_csv_with_header(alloc, &header, &ledger, |cell, text| {
        text.push_str(cell.as_str())
    })?;
    Ok(text)
}

fn run<R: Input + Print + AllocGlobal>(rt: &R) -> Result<()> {
    let text = io::read_to_string(rt.alloc(), rt.reader())?;
    print!(rt; "{}", sorted(rt.alloc(), text.as_str())?)?;
    Ok(())
}

fn main(rt: HostRuntime) -> ExitCode {
    match run(&rt) {
        Ok(()) => ExitCode::from(0),
        Err(error) => {
            let _ = eprintln!(rt; "{error}");
            ExitCode::from(2)
        }
    }
}
