//! The calls at their edges.
use crate::columns::ColumnSheet;
use crate::fences::Fence;
use crate::footprints::Footprint;
use crate::interface::{Sheet, neighbours};
use crate::limits::LIMIT;
use crate::pairs::Pairs;
use crate::refusals::Refusal;
use bits::Mask;
use std::alloc::AllocError;

// The number by which a call was refused; none where it was accepted.
fn refused(answer: Result<(), Refusal>) -> Option<u8> {
    answer.err().map(|refusal| refusal.number())
}

// A footprint by its two sets.
fn touching(reads: u32, writes: u32) -> Footprint {
    Footprint {
        reads: Mask::from(reads),
        writes: Mask::from(writes),
    }
}

// How many pairs of steps clash, on any sheet.
fn clashing_pairs<S: Sheet>(sheet: &S) -> usize {
    let mut pairs: usize = 0;
    for j in 0..sheet.count() {
        for i in 0..j {
            if sheet.clash(i, j) {
                pairs = pairs.saturating_add(1);
            }
        }
    }
    pairs
}

// A sheet with a number of steps that touch nothing.
fn free_steps(count: usize) -> ColumnSheet {
    let mut sheet = ColumnSheet::new();
    for _ in 0..count {
        let _ = sheet.add_step();
    }
    sheet
}

#[test]
fn steps_up_to_the_limit(rt: HostRuntime) {
    let mut sheet = ColumnSheet::new();
    assert_eq!(rt; sheet.count(), 0);
    for k in 0..LIMIT {
        assert_eq!(rt; refused(sheet.add_step()), None);
        assert_eq!(rt; sheet.count(), k + 1);
    }
    assert_eq!(rt; refused(sheet.add_step()), Some(7));
    assert_eq!(rt; sheet.count(), LIMIT);
    assert_eq!(rt; refused(sheet.write(3)), None);
    assert_eq!(rt; sheet.footprint(LIMIT - 1), Some(touching(0, 1 << 3)));
    assert_eq!(rt; sheet.footprint(LIMIT), None);
}

#[test]
fn columns_up_to_the_last(rt: HostRuntime) {
    let mut sheet = ColumnSheet::new();
    assert_eq!(rt; refused(sheet.read(0)), Some(5), "before any step");
    assert_eq!(rt; refused(sheet.write(32)), Some(5), "5 comes before 8");
    assert_eq!(rt; sheet.footprint(0), None);
    assert_eq!(rt; refused(sheet.add_step()), None);
    assert_eq!(rt; refused(sheet.read(32)), Some(8));
    assert_eq!(rt; refused(sheet.write(32)), Some(8));
    assert_eq!(rt; refused(sheet.write(usize::MAX)), Some(8));
    assert_eq!(rt; sheet.footprint(0), Some(Footprint::blank()));
    assert_eq!(rt; refused(sheet.read(31)), None);
    assert_eq!(rt; refused(sheet.read(31)), None);
    assert_eq!(rt; refused(sheet.write(0)), None);
    assert_eq!(rt; sheet.footprint(0), Some(touching(1 << 31, 1)));
}

#[test]
fn clashes_by_columns(rt: HostRuntime) {
    // 0 writes column 7, 1 reads it, 2 reads it, 3 writes it
    let mut sheet = ColumnSheet::new();
    assert_eq!(rt; refused(sheet.add_step()), None);
    assert_eq!(rt; refused(sheet.write(7)), None);
    assert_eq!(rt; refused(sheet.add_step()), None);
    assert_eq!(rt; refused(sheet.read(7)), None);
    assert_eq!(rt; refused(sheet.add_step()), None);
    assert_eq!(rt; refused(sheet.read(7)), None);
    assert_eq!(rt; refused(sheet.add_step()), None);
    assert_eq!(rt; refused(sheet.write(7)), None);
    assert!(rt;
        sheet.clash(0, 1) && sheet.clash(1, 0),
        "a write and a read"
    );
    assert!(rt; sheet.clash(0, 3), "two writes");
    assert!(rt; !sheet.clash(1, 2), "two reads");
    assert!(rt; !sheet.clash(0, 0), "a step with itself");
    assert!(rt;
        !sheet.clash(0, 4) && !sheet.clash(usize::MAX, 0),
        "past the count"
    );
    assert_eq!(rt; neighbours(&sheet, 3), Mask::from(0b0111));
    assert_eq!(rt; neighbours(&sheet, 2), Mask::from(0b0001));
    assert_eq!(rt; neighbours(&sheet, 4), Mask::from(0), "no step");
    assert_eq!(rt; clashing_pairs(&sheet), 5);
}

#[test]
fn pairs_of_a_sheet(rt: HostRuntime) {
    let mut fence = Fence::new(free_steps(4));
    assert_eq!(rt; refused(fence.fence(3, 1)), None);
    assert_eq!(rt; refused(fence.fence(0, 3)), None);
    let pairs = Pairs::of(&fence);
    assert!(rt; pairs.contains(1, 3) && pairs.contains(3, 1));
    assert!(rt; !pairs.contains(0, 1) && !pairs.contains(3, 3));
    assert_eq!(rt; pairs.below(3), Mask::from(0b0011));
    assert_eq!(rt; pairs.below(16), Mask::EMPTY, "no step");
    let mut lower = pairs.below(3).into_iter();
    assert_eq!(rt; lower.next(), Some(0));
    assert_eq!(rt; lower.next(), Some(1));
    assert_eq!(rt; lower.next(), None);
}

#[test]
fn fences_over_fences(rt: HostRuntime) {
    let mut low = Fence::new(free_steps(3));
    assert_eq!(rt; refused(low.fence(5, 5)), Some(9), "9 comes before 10");
    assert_eq!(rt; refused(low.fence(0, 3)), Some(10));
    assert_eq!(rt; refused(low.fence(3, 0)), Some(10));
    assert_eq!(rt; clashing_pairs(&low), 0);
    assert_eq!(rt; refused(low.fence(2, 0)), None);
    assert_eq!(rt; refused(low.fence(0, 2)), None, "a pair fenced twice");
    assert!(rt; low.clash(0, 2) && low.clash(2, 0));
    assert_eq!(rt; neighbours(&low, 2), Mask::from(0b001));
    assert_eq!(rt; clashing_pairs(&low), 1);
    let mut high = Fence::new(low);
    assert_eq!(rt; refused(high.fence(0, 1)), None);
    assert_eq!(rt; high.count(), 3);
    assert!(rt; high.clash(0, 1) && high.clash(0, 2) && !high.clash(1, 2));
    assert_eq!(rt; neighbours(&high, 1), Mask::from(0b001));
    assert_eq!(rt; clashing_pairs(&high), 2);
    assert_eq!(rt;
        clashing_pairs(high.below()),
        1,
        "the fence below has its own pair alone"
    );
    assert_eq!(rt;
        clashing_pairs(&high.into_below().into_below()),
        0,
        "the sheet below has none"
    );
}

#[test]
fn refusals_are_numbered(rt: HostRuntime) {
    let in_order = [
        Refusal::LongText,
        Refusal::StrayByte,
        Refusal::LongWord,
        Refusal::BadLine,
        Refusal::NoStep,
        Refusal::RepeatedName,
        Refusal::TooManySteps,
        Refusal::BadColumn,
        Refusal::SelfFence,
        Refusal::OutOfRange,
        Refusal::NoneLeft,
        Refusal::NotStanding,
        Refusal::ShortBuffer,
        Refusal::UnsoundBookmark,
        Refusal::ForeignBookmark,
        Refusal::NotEachOnce,
        Refusal::WrongWidth,
        Refusal::OpposedMarks,
    ];
    for (before, refusal) in in_order.iter().enumerate() {
        assert_eq!(rt; usize::from(refusal.number()), before + 1);
    }
}

#[test]
fn refusals_are_shown_by_number(rt: HostRuntime) -> Result<(), AllocError> {
    let shown = format!(in rt.alloc(); "{}", Refusal::UnsoundBookmark)?;
    assert!(rt; shown.as_str() == "14");
    Ok(())
}
