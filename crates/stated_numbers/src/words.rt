//! Numbers of the commands' words, of workers and seats, and of the generator's draws.

ghost use Rattle.std.specs.Prelude.{◌≡◌, ℕ, pos};
ghost use Rattle.desk_generator.specs.Draws.{approach, drawn, kind_of};
ghost use Rattle.desk_generator.specs.declared.drawing.TheConstants.{ARMS, ELEVATIONS, HEIGHTS, LEAST_ARM, LEAST_HEIGHT};
ghost use Rattle.desk_generator.specs.declared.draws.TheConstants.{COORDINATES, FARTHEST, INCREMENT, LOW_PART, MULTIPLIER};

use command_words::{MOST_TURNS, MOST_WORKERS, SEED_LIMIT};
use desk_generator::{COUNT_LIMIT, MOST_AIRPORTS};
use link_gates::TURN_LIMIT;
use tree_versions::MOST_SEATS;

/// A lemma, never run: at most 16 workers, 1,000,000 links a worker, and a seed below 2^63.
pub fn command_numbers()
    ensures workers { MOST_WORKERS ≡ 16 }
    ensures turns { MOST_TURNS ≡ 1_000_000 }
    ensures links { TURN_LIMIT ≡ 1_000_000 }
    ensures seed { SEED_LIMIT ≡ 9_223_372_036_854_775_807 }
{}

/// A lemma, never run: a publisher has at most 16 seats.
pub fn most_seats()
    ensures { MOST_SEATS ≡ 16 }
{}

/// A lemma, never run: how many cases and airports the generator makes at most, its source's rule (modulo 2^64), and what it draws from; lengths in tenths
/// of a foot.
pub fn draw_numbers()
    ensures cases { COUNT_LIMIT ≡ 20_000 }
    ensures airports { MOST_AIRPORTS ≡ 200 }
    ensures multiplier { MULTIPLIER ≡ 6_364_136_223_846_793_005 }
    ensures increment { INCREMENT ≡ 1_442_695_040_888_963_407 }
    ensures low_part { LOW_PART ≡ 8_589_934_592 }
    ensures coordinates { COORDINATES ≡ 1_000_001 }
    ensures farthest { FARTHEST ≡ pos 500_000 }
    ensures elevations { ELEVATIONS ≡ 5_000 }
    ensures least_arm { LEAST_ARM ≡ pos 20_000 }
    ensures arms { ARMS ≡ 20_000 }
    ensures least_height { LEAST_HEIGHT ≡ pos 1 }
    ensures heights { HEIGHTS ≡ 6_000 }
    ensures approaches { (s : ℕ) → approach s ≡ kind_of (drawn 4 s) }
{}
