//! What the program says.
use crate::reasons::{Reason, why};
use crate::story::{Column, Columns, Step};
use sheets::{COLUMNS, ColumnSheet, Fence, LIMIT, Refusal, Sheet};
use std::{fmt, io};

// How the order of the steps once mattered, line by line.
const OPENING: [&str; 4] = [
    "Two clerks copied product names from ledger cards, and tabs that they typed still",
    "stand in the names, escaped by a backslash. One customer ran suppliers, join, count",
    "and only then unescape: the escaped names matched no supplier, the join dropped those",
    "products without a word, and the buyers' report went out without them.",
];

/// Tells of the story's runbook, and of sheets over it.
#[derive(Drop)]
pub struct Teller<'a, R> {
    rt: &'a R,
    runbook: &'a ColumnSheet,
}

impl<'a, R: Print> Teller<'a, R> {
    pub fn new(rt: &'a R, runbook: &'a ColumnSheet) -> Teller<'a, R> {
        Teller { rt, runbook }
    }

    /// What the runbook is about.
    pub fn opening(&self) -> io::Result<()> {
        // a write a line: where one fails, the lines before it are out
        for line in OPENING {
            println!(self.rt; "{line}")?;
        }
        Ok(())
    }

    /// Each step with what it reads and writes.
    pub fn steps(&self) -> io::Result<()> {
        println!(self.rt; "\nThe runbook has {} steps:", self.runbook.count())?;
        for step in Step::ALL {
            let number = step as usize;
            if let Some(footprint) = self.runbook.footprint(number) {
                let reads = Columns(footprint.reads);
                let writes = Columns(footprint.writes);
                println!(self.rt; "  {number} {step}: reads {reads}; writes {writes}")?;
            }
        }
        Ok(())
    }

    /// Each pair of steps on a sheet over the runbook: whether it clashes, and by which rule.
    pub fn clashes<S: Sheet>(&self, whose: &str, sheet: &S) -> io::Result<()> {
        println!(self.rt; "\nPairs of steps {whose}; the order of two that clash can matter:")?;
        let mut pairs: usize = 0;
        let mut clashing: usize = 0;
        for (i, &first) in Step::ALL.iter().enumerate() {
            for &second in &Step::ALL[i + 1..] {
                let reason = why(self.runbook, sheet, first as usize, second as usize);
                self.pair(first, second, reason)?;
                pairs = pairs.saturating_add(1);
                if reason.is_some() {
                    clashing = clashing.saturating_add(1);
                }
            }
        }
        println!(self.rt; "  {clashing} of {pairs} clash")
    }

    // One pair with its reason.
    fn pair(&self, first: Step, second: Step, reason: Option<Reason>) -> io::Result<()> {
        let i = first as usize;
        let j = second as usize;
        print!(self.rt; "  {i} {first}, {j} {second}: ")?;
        match reason {
            Some(reason) => println!(self.rt; "{reason}"),
            None => println!(self.rt; "free"),
        }
    }

    /// Fences a pair, and says so.
    pub fn fence<S: Sheet>(
        &self,
        fence: &mut Fence<S>,
        first: Step,
        second: Step,
    ) -> io::Result<()> {
        match fence.fence(first as usize, second as usize) {
            Ok(()) => println!(self.rt;
                "\nA fence put over it lets {first} and {second} clash too."
            ),
            Err(refusal) => {
                println!(self.rt; "\nThe fence of {first} and {second} was refused: {refusal}.")
            }
        }
    }

    /// Calls that are refused, with their numbers.
    pub fn refusals(&self) -> io::Result<()> {
        println!(self.rt;
            "\nCalls that are refused, each with its number; a refused call changes nothing:"
        )?;
        let mut sheet = ColumnSheet::new();
        self.tried(
            "read a column before any step",
            sheet.read(Column::Names as usize),
        )?;
        for _ in 0..LIMIT {
            let _ = sheet.add_step();
        }
        self.tried(format_args!("add a step after {LIMIT}"), sheet.add_step())?;
        self.tried(format_args!("write column {COLUMNS}"), sheet.write(COLUMNS))?;
        let mut fenced = Fence::new(*self.runbook);
        let join = Step::Join as usize;
        self.tried("fence join from itself", fenced.fence(join, join))?;
        let count = self.runbook.count();
        self.tried(
            format_args!("fence join from step {count}"),
            fenced.fence(join, count),
        )
    }

    // One call with its answer.
    fn tried(&self, call: impl fmt::Display + Drop, answer: Result<(), Refusal>) -> io::Result<()> {
        match answer {
            Ok(()) => println!(self.rt; "  {call}: accepted"),
            Err(refusal) => println!(self.rt; "  {call}: {refusal}"),
        }
    }
}
