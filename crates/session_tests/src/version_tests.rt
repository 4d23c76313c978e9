//! Two seats of one publisher.
ghost use Rattle.std.specs.Prelude.{◌≡◌, ◌+◌, Some};
ghost use Rattle.std.specs.Arc.{arc_value};

use grid_exact::NoMemory;
use std::alloc::Global;
use std::marker::Brand;
use std::process::Abort;
use std::sync::{Arc, Wait};
use std::test::*;
use std::thread::{Threads, join};
use tree_versions::{Naming, Publisher, Seat, Unnamed, Version};

/// A sum, to which each entry adds itself.
#[derive(Drop)]
pub struct Total {
    pub sum: u64,
}

impl Version<u64> for Total {
    ghost follows = { λ old entry new. new.sum ≡ old.sum + entry };
}

// What a seat shows: the number that its entries are counted from, the number of its version, and the sum.
#[derive(Clone, Copy, PartialEq, Eq, Debug)]
struct Shown {
    base: u64,
    number: u64,
    sum: u64,
}

// Before a publication both seats show the first value; then both show the published one, also that which was told of nothing.
#[test]
fn a_seat_shows_what_it_was_told(rt: HostRuntime) -> Result<(), Fail> {
    let alloc = rt.alloc();
    let first = Arc::new(alloc, Total { sum: 5 }).ok().ok_or("memory")?;
    publish_once::<Brand, _>(&rt, alloc, Unnamed::new(), first)
}

fn show<J: Naming<Total> + Send + Sync>(seat: &mut Seat<u64, Total, J>) -> Option<Shown> {
    match seat.current() {
        Ok(shown) => Some(Shown {
            base: seat.base(),
            number: shown.number,
            sum: shown.value.sum,
        }),
        Err(NoMemory) => None,
    }
}

fn publish_once<J: Naming<Total> + Send + Sync, R: Threads + Wait + Abort + Sync>(
    rt: &R,
    alloc: Global,
    opening: Unnamed<u64>,
    first: Arc<Total>,
) -> Result<(), Fail>
    requires book { opening ≡ J.book }
    requires first { J.first ≡ Some (arc_value first) }
    requires base { J.base ≡ 7 }
    requires five { (arc_value first).sum ≡ 5 }
{
    let next = Arc::new(alloc, Total { sum: 9 }).ok().ok_or("memory")?;
    let (mut publisher, mut seats) = Publisher::<u64, Total, J>::open(
        rt, alloc, opening, first, 2, 7,
    ).ok()
        .ok_or("open")?;
    let offered = publisher.offer(4, next);
    let one = seats.pop();
    let two = seats.pop();
    let none = seats.pop();
    let mut before = None;
    let mut noted = None;
    let mut after = None;
    if let (Some(mut one), Some(mut two)) = (one, two) {
        before = Some((show(&mut one), show(&mut two)));
        if let Ok(note) = publisher.publish(rt) {
            noted = Some(note.number());
            two.learn(note);
        }
        let (a, b) = join(rt, move || show(&mut one), move || show(&mut two));
        after = Some((a, b));
    }
    let told = publisher.tell().number();
    let last = publisher.last_number();
    publisher.end(rt);
    let first = Shown {
        base: 7,
        number: 0,
        sum: 5,
    };
    let second = Shown {
        base: 7,
        number: 1,
        sum: 9,
    };
    assert!(rt; offered.is_ok());
    assert!(rt; none.is_none());
    assert_eq!(rt; before, Some((Some(first), Some(first))));
    assert_eq!(rt; noted, Some(1));
    assert_eq!(rt; after, Some((Some(second), Some(second))));
    assert_eq!(rt; told, 1);
    assert_eq!(rt; last, 8);
    Ok(())
}
