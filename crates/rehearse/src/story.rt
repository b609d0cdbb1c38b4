//! The story's runbook: its steps, its columns, and what they are called.
ghost use Rattle.std.specs.Prelude.{◌≡◌, IsOkAnd};
ghost use Rattle.rehearse.specs.Story.{story, ring, clashing_pairs};
ghost use Rattle.sheets.specs.Columns.{footprints, column_graph};

use bits::Mask;
use sheets::{ColumnSheet, Refusal};
use std::fmt;

/// The steps, by their numbers on the sheet.
#[derive(Clone, Copy, Debug, Eq, PartialEq)]
pub enum Step {
    /// rewrites the product names
    Unescape = 0,
    /// loads the supplier list
    Suppliers = 1,
    /// keeps the products whose name a supplier has
    Join = 2,
    /// tells the buyers how many those are
    Count = 3,
}

impl Step {
    /// The steps, each at its number.
    pub const ALL: [Step; 4] = [Step::Unescape, Step::Suppliers, Step::Join, Step::Count];
}

impl fmt::Display for Step {
    fn fmt<W: fmt::Write>(&self, f: &mut fmt::Formatter<W>) -> fmt::Result {
        f.write_str(match self {
            Step::Unescape => "unescape",
            Step::Suppliers => "suppliers",
            Step::Join => "join",
            Step::Count => "count",
        })
    }
}

/// The columns, by their numbers.
#[derive(Clone, Copy, Debug, Eq, PartialEq)]
pub enum Column {
    Names = 0,
    SupplierList = 1,
    Joined = 2,
    BuyersCount = 3,
}

impl Column {
    /// The columns, each at its number.
    pub const ALL: [Column; 4] = [
        Column::Names,
        Column::SupplierList,
        Column::Joined,
        Column::BuyersCount,
    ];
}

impl fmt::Display for Column {
    fn fmt<W: fmt::Write>(&self, f: &mut fmt::Formatter<W>) -> fmt::Result {
        f.write_str(match self {
            Column::Names => "product names",
            Column::SupplierList => "supplier list",
            Column::Joined => "joined products",
            Column::BuyersCount => "buyers' count",
        })
    }
}

/// A set of columns, shown by their names with commas between them.
#[derive(Clone, Copy, Debug)]
pub struct Columns(pub Mask);

impl fmt::Display for Columns {
    fn fmt<W: fmt::Write>(&self, f: &mut fmt::Formatter<W>) -> fmt::Result {
        let Columns(columns) = *self;
        if columns.is_empty() {
            return f.write_str("nothing");
        }
        for number in columns {
            if columns.lowest() != Some(number) {
                f.write_str(", ")?;
            }
            // a set has room for numbers that no column of the story has
            match Column::ALL.get(number) {
                Some(column) => write!(f, "{column}")?,
                None => f.write_str("no column")?,
            }
        }
        Ok(())
    }
}

/// The four steps with what each reads and writes.
pub fn runbook() -> ColumnSheet
    ensures steps { footprints result ≡ story }
    ensures clashes { clashing_pairs (column_graph (footprints result)) ≡ ring }
{
    built().unwrap()
}

// The runbook, call by call: none is refused.
fn built() -> Result<ColumnSheet, Refusal>
    ensures { IsOkAnd result (λ sheet. footprints sheet ≡ story) }
{
    let mut sheet = ColumnSheet::new();
    // unescape
    sheet.add_step()?;
    sheet.read(Column::Names as usize)?;
    sheet.write(Column::Names as usize)?;
    // suppliers
    sheet.add_step()?;
    sheet.write(Column::SupplierList as usize)?;
    // join
    sheet.add_step()?;
    sheet.read(Column::Names as usize)?;
    sheet.read(Column::SupplierList as usize)?;
    sheet.write(Column::Joined as usize)?;
    // count
    sheet.add_step()?;
    sheet.read(Column::Names as usize)?;
    sheet.read(Column::SupplierList as usize)?;
    sheet.write(Column::BuyersCount as usize)?;
    Ok(sheet)
}
