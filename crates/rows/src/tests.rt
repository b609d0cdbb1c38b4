//! The worked orders through the code, rows that hold no orientation, and what three classic mistakes do.
use crate::directions::Directions;
use crate::graph::Conflicts;
use crate::levels::Level;
use bits::Mask;
use sheets::{ColumnSheet, Fence, LIMIT, Sheet};
use std::alloc::{AllocError, Global};
use std::process::Abort;
use std::test::Fail;

// the ring: four steps in which 0 and 1 each clash with 2 and 3
const RING: [(usize, usize); 4] = [(0, 2), (1, 2), (0, 3), (1, 3)];

// every orientation of a test's graph is met before so many moves
const MOST: usize = 200;

// The lowest orientation of some steps, with the pairs of them that clash asked of a fence.
fn graph(count: usize, pairs: &[(usize, usize)]) -> Directions {
    let mut sheet = ColumnSheet::new();
    for _ in 0..count {
        let _ = sheet.add_step();
    }
    let mut fence = Fence::new(sheet);
    for (i, j) in pairs {
        let _ = fence.fence(*i, *j);
    }
    Directions::lowest(Conflicts::of(&fence))
}

// The search for the successor, over levels that are made in some way; `pass` tells what is left of the steps with 1 when
// a place with 1 is passed.
fn search<F: Fn(&Directions, usize) -> Level, P: Fn(Mask, usize) -> Mask>(
    directions: &mut Directions,
    level_of: F,
    pass: P,
) -> Option<usize>
    requires level { F.IsAlwaysCallable level_of }
    requires pass { P.IsAlwaysCallable pass }
{
    // over the steps by number, as the search that is right
    for step in (0..directions.conflicts.count().min(LIMIT)).rev() {
        let level = level_of(directions, step);
        let mut ones = directions.row(step);
        for place in level.placed().iter().rev() {
            let neighbour = usize::from(*place);
            if !ones.contains(neighbour) {
                directions.rows[step] = level.closed(ones.with(neighbour));
                return Some(step);
            }
            ones = pass(ones, neighbour);
        }
        directions.rows[step] = Mask::EMPTY;
    }
    None
}

// A mistake: W is made from direct arrows, not from ancestors.
fn w_from_arrows(directions: &mut Directions) -> Option<usize> {
    let level_of = |at: &Directions, step: usize| Level {
        ancestors: at.ancestors(step),
        ..Level::over(at.conflicts.neighbours(step), at.arrows(step))
    };
    search(directions, level_of, Mask::without)
}

// A mistake: the closure follows direct arrows, not ancestors.
fn closure_by_arrows(directions: &mut Directions) -> Option<usize> {
    let level_of = |at: &Directions, step: usize| Level {
        ancestors: at.arrows(step),
        ..Level::of(at, step)
    };
    search(directions, level_of, Mask::without)
}

// A mistake: places after the raised one keep their value.
fn later_places_kept(directions: &mut Directions) -> Option<usize> {
    search(directions, |at, step| Level::of(at, step), |ones, _| ones)
}

// What came of a walk from the lowest orientation on.
#[derive(Drop)]
struct Course {
    // the orders, a digit a step, with a space after each
    orders: String,
    // the steps told, with a space after each
    told: String,
    // how many orders there were
    count: usize,
    // how many rows closed a circle
    circles: usize,
}

// Adds the order of the rows, a digit a step and then a space.
fn spell(text: &mut String, directions: &Directions) -> Result<(), AllocError> {
    let mut bytes = [0; LIMIT];
    let count = directions.order(&mut bytes);
    for byte in bytes.iter().take(count) {
        text.push(char::from(b'0'.saturating_add(*byte)))?;
    }
    text.push(' ')
}

// Walks by moves of some kind, which tell the step that changed, until none is found.
fn walk<F: Fn(&mut Directions) -> Option<usize>>(
    heap: Global,
    mut directions: Directions,
    advance: F,
) -> Result<Course, AllocError>
    requires { F.IsAlwaysCallable advance }
{
    let mut course = Course {
        orders: String::new(heap),
        told: String::new(heap),
        count: 0,
        circles: 0,
    };
    for _ in 0..MOST {
        spell(&mut course.orders, &directions)?;
        course.count = course.count.saturating_add(1);
        if !directions.is_acyclic() {
            course.circles = course.circles.saturating_add(1);
        }
        match advance(&mut directions) {
            Some(step) => {
                let text = format!(in heap; "{step} ")?;
                course.told.push_str(text.as_str())?;
            }
            None => return Ok(course),
        }
    }
    Ok(course)
}

// The orders and the steps told are those given.
fn goes(
    rt: &impl Abort,
    heap: Global,
    directions: Directions,
    orders: &str,
    told: &str,
) -> Result<(), Fail> {
    let walked = walk(heap, directions, |d| d.successor())?;
    assert!(rt; walked.orders.as_str() == orders);
    assert!(rt; walked.told.as_str() == told);
    assert_eq!(rt; walked.circles, 0);
    Ok(())
}

#[test]
fn worked_orders(rt: HostRuntime) -> Result<(), Fail> {
    let heap = rt.alloc();
    goes(&rt, heap, graph(0, &[]), " ", "")?;
    goes(&rt, heap, graph(1, &[]), "0 ", "")?;
    goes(&rt, heap, graph(2, &[]), "01 ", "")?;
    goes(&rt, heap, graph(2, &[(0, 1)]), "01 10 ", "1 ")?;
    goes(
        &rt,
        heap,
        graph(3, &[(0, 1), (0, 2), (1, 2)]),
        "012 021 201 102 120 210 ",
        "2 2 1 2 2 ",
    )?;
    goes(
        &rt,
        heap,
        graph(4, &RING),
        "0123 0312 1302 3012 0213 0231 3021 1203 1230 3120 2013 2031 2130 2301 ",
        "3 3 3 2 3 3 2 3 3 2 3 3 3 ",
    )
}

#[test]
fn w_from_arrows_loses_an_order(rt: HostRuntime) -> Result<(), Fail> {
    let lost = walk(rt.alloc(), graph(4, &RING), w_from_arrows)?;
    assert_eq!(rt; lost.count, 13);
    assert!(rt;
        lost.orders.as_str() == "0123 0312 1302 3012 0213 0231 3021 1203 3120 2013 2031 2130 2301 "
    );
    Ok(())
}

#[test]
fn closure_by_arrows_lets_circles_through(rt: HostRuntime) -> Result<(), Fail> {
    let circles = walk(rt.alloc(), graph(4, &RING), closure_by_arrows)?;
    assert_eq!(rt; circles.count, 16);
    assert_eq!(rt; circles.circles, 2);
    Ok(())
}

#[test]
fn later_places_kept_skip_assignments(rt: HostRuntime) -> Result<(), Fail> {
    let ring = graph(4, &RING);
    // step 2 has 0 at step 0 and 1 at step 1, and step 3 is at its highest
    let mut mistaken = ring;
    mistaken.rows[2] = Mask::from(2);
    mistaken.rows[3] = Mask::from(3);
    let mut right = mistaken;
    assert_eq!(rt; right.successor(), Some(2));
    assert_eq!(rt; right.rows[2], Mask::from(1));
    assert_eq!(rt; later_places_kept(&mut mistaken), Some(2));
    assert_eq!(rt; mistaken.rows[2], Mask::from(3));
    let kept = walk(rt.alloc(), ring, later_places_kept)?;
    assert_eq!(rt; kept.count, 9);
    Ok(())
}

#[test]
fn strange_rows_are_taken(rt: HostRuntime) {
    let ring = graph(4, &RING);
    // bits that speak of no neighbour count for nothing, and the rows past the count stay
    let mut full = ring;
    full.rows = [Mask::from(!0); LIMIT];
    assert_eq!(rt; full.successor(), None);
    assert_eq!(rt; full.rows[3], Mask::EMPTY);
    assert_eq!(rt; full.rows[4], Mask::from(!0));
    // 0 before 2 before 1 before 3 before 0
    let mut circle = ring;
    circle.rows[2] = Mask::from(2);
    circle.rows[3] = Mask::from(1);
    assert!(rt; !circle.is_acyclic());
    assert!(rt; !circle.holds_orientation());
    // no circle, and something beside neighbours
    let mut stray = ring;
    stray.rows[0] = Mask::from(8);
    assert!(rt; stray.is_acyclic());
    assert!(rt; !stray.holds_orientation());
    assert!(rt; ring.holds_orientation());
    let mut bytes = [9; LIMIT];
    assert_eq!(rt; circle.order(&mut bytes), 0);
    assert_eq!(rt; bytes[0], 9);
    // a buffer with less room gets as much of the order as it holds
    let mut short = [9; 3];
    assert_eq!(rt; ring.order(&mut short[..2]), 2);
    assert_eq!(rt; short[1], 1);
    assert_eq!(rt; short[2], 9);
}
