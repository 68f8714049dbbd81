//! Makes the calls of columns of words and compares each answer with that of plain lists. Prints how
//! many cases and reads there were, and ends with an error at the first difference.
#![tactic(auto)]

mod appending;
mod known;
mod lengths;
mod limits;
mod parts;
mod plain;
mod readers;
mod rows;
mod sharing;
mod subject;
mod tally;
mod walks;
mod writes;

use anyhow::{Context, Result};
use std::alloc::Global;
use subject::{Case, LAYOUTS, NULLS, ROWS, Subject};
use tally::Tally;

/// Calls that are made on each column.
enum Calls {
    Readers,
    Makers,
    Copies,
    Parts,
    Rows,
    Appending,
    Reductions,
    Writes,
    Walks,
}

/// What is compared together.
enum Group {
    /// Calls on a column of each kind.
    Each(Calls),
    Known,
    Limits,
    Shared,
    InPlace,
}

/// Each group, and what is printed before its counts.
const GROUPS: [(&str, Group); 13] = [
    ("read", Group::Each(Calls::Readers)),
    ("make", Group::Each(Calls::Makers)),
    ("copy", Group::Each(Calls::Copies)),
    ("slice, split, shift", Group::Each(Calls::Parts)),
    ("take, turn, drop nulls, repeat", Group::Each(Calls::Rows)),
    ("append, extend", Group::Each(Calls::Appending)),
    ("reduce", Group::Each(Calls::Reductions)),
    ("write", Group::Each(Calls::Writes)),
    ("walk", Group::Each(Calls::Walks)),
    ("known values", Group::Known),
    ("too many rows", Group::Limits),
    ("shared at once", Group::Shared),
    ("written in place", Group::InPlace),
];

impl Group {
    fn check(&self, alloc: Global, tally: &mut Tally) -> Result<()> {
        match self {
            Group::Each(calls) => calls.check_each(alloc, tally),
            Group::Known => known::check_known(alloc, tally),
            Group::Limits => limits::check_limits(alloc, tally),
            Group::Shared => sharing::check_parts(alloc, tally),
            Group::InPlace => sharing::check_writes(alloc, tally),
        }
    }
}

impl Calls {
    /// Makes the calls on a column of each kind.
    fn check_each(&self, alloc: Global, tally: &mut Tally) -> Result<()> {
        for rows in ROWS {
            for (form, layout) in LAYOUTS {
                for (validity, nulls) in NULLS {
                    let case = Case {
                        rows,
                        layout,
                        nulls,
                    };
                    self.check_case(alloc, &Subject::new(alloc, &case)?, tally)?;
                    tally
                        .end()
                        .context(format_args!("{rows} rows, {form}, {validity}"))?;
                }
            }
        }
        Ok(())
    }

    fn check_case(&self, alloc: Global, subject: &Subject, tally: &mut Tally) -> Result<()> {
        match self {
            Calls::Readers => readers::check_readers(subject, tally),
            Calls::Makers => readers::check_makers(alloc, subject, tally)?,
            Calls::Copies => readers::check_copies(alloc, subject, tally)?,
            Calls::Parts => parts::check_parts(alloc, subject, tally)?,
            Calls::Rows => rows::check_rows(alloc, subject, tally)?,
            Calls::Appending => appending::check_appending(alloc, subject, tally)?,
            Calls::Reductions => {
                let totals = plain::totals_of(subject.slots.as_slice());
                tally.expect_totals(&subject.column, &totals);
            }
            Calls::Writes => writes::check_writes(alloc, subject, tally)?,
            Calls::Walks => walks::check_walks(alloc, subject, tally)?,
        }
        Ok(())
    }
}

fn main(rt: HostRuntime) -> Result<()> {
    for (title, group) in &GROUPS {
        let mut tally = Tally::new();
        group.check(rt.alloc(), &mut tally).context(*title)?;
        tally.end().context(*title)?;
        println!(rt; "{title}: {} cases, {} reads", tally.cases, tally.reads)?;
    }
    Ok(())
}
