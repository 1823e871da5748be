//! Runs the rows of the table that it reads from its input, and writes each that differs.
//!
//! The table says itself how its rows are read.
#![tactic(auto)]

mod automata;
mod case;
mod finding;
mod form;
mod plain;
mod replaced;
mod report;
mod row;
mod searched;
mod streamed;
mod task;
mod text;

use crate::report::{Differences, Stop, Totals, write_row};
use crate::row::{Row, row_of};
use crate::searched::bytes::Bytewise;
use crate::searched::chars::Charwise;
use crate::task::run;
use std::alloc::Global;
use std::io::{self, BufRead, BufReader};

/// Runs a row over each automaton that it names.
fn run_row(alloc: Global, row: &Row<'_>) -> Result<Differences, Stop> {
    let mut differences = Differences::none();
    if row.has_bytes() {
        run::<Bytewise>(alloc, row, &mut differences)?;
    }
    if row.has_chars() {
        run::<Charwise>(alloc, row, &mut differences)?;
    }
    Ok(differences)
}

/// Reads and runs a line. Returns what differs.
fn run_line(alloc: Global, line: &str) -> Result<Differences, Stop> {
    match row_of(alloc, line) {
        Ok(row) => run_row(alloc, &row),
        Err(stop) => Err(stop),
    }
}

/// Runs a line, writes it if it differs, and counts it.
fn take_line(rt: &(impl Print + AllocGlobal), line: &str, totals: &mut Totals) -> io::Result<()> {
    let outcome = run_line(rt.alloc(), line);
    let said = match outcome {
        Ok(differences) => differences.listed(rt.alloc())?,
        Err(Stop::Unreadable) => String::from_str(rt.alloc(), "unreadable")?,
        Err(Stop::Refused) => String::from_str(rt.alloc(), "refused")?,
        Err(Stop::Memory) => return Err(io::Error::from(io::ErrorKind::OutOfMemory)),
    };
    let differs = !said.is_empty();
    totals.count(differs);
    if differs {
        write_row(rt, &said, line)?;
    }
    Ok(())
}

fn main(rt: HostRuntime) -> io::Result<()> {
    let mut totals = Totals {
        rows: 0,
        differing: 0,
    };
    for line in BufReader::new(rt.alloc(), rt.reader())?.lines(rt.alloc()) {
        let line = line?;
        if !line.is_empty() && !line.starts_with('#') {
            take_line(&rt, &line, &mut totals)?;
        }
    }
    let Totals { rows, differing } = totals;
    println!(rt; "{rows} rows, {differing} differ")
}
