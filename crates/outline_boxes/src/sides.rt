//! The sides of a box.

ghost use Rattle.std.specs.Prelude.{◌≡◌, ◌⊎◌, ◌+◌, ◌*◌, ◌^◌, ◌≤◌, ◌+ℤ◌, ◌-ℤ◌, ◌≤ℤ◌, neg_ℤ, unsigned_abs};

/// The negative of a component of a vector.
pub(crate) fn opposite(way: i64) -> i64
    requires size { unsigned_abs way ≤ 2 ^ 27 }
    ensures value { result ≡ neg_ℤ way }
{
    -way
}

/// The lower of a line's two end coordinates.
pub(crate) fn lower(from: i64, way: i64) -> i64
    requires from { unsigned_abs from ≤ 2 ^ 25 }
    requires way { unsigned_abs way ≤ 2 ^ 19 }
    ensures start { result ≤ℤ from }
    ensures end { result ≤ℤ (from +ℤ way) }
    ensures one { (result ≡ from) ⊎ (result ≡ from +ℤ way) }
    ensures size { unsigned_abs result ≤ 2 ^ 25 + 2 ^ 19 }
{
    if way < 0 { from + way } else { from }
}

/// The higher of a line's two end coordinates.
pub(crate) fn higher(from: i64, way: i64) -> i64
    requires from { unsigned_abs from ≤ 2 ^ 25 }
    requires way { unsigned_abs way ≤ 2 ^ 19 }
    ensures start { from ≤ℤ result }
    ensures end { (from +ℤ way) ≤ℤ result }
    ensures one { (result ≡ from) ⊎ (result ≡ from +ℤ way) }
    ensures size { unsigned_abs result ≤ 2 ^ 25 + 2 ^ 19 }
{
    if way < 0 { from } else { from + way }
}

/// The coordinate minus the reach.
pub(crate) fn short_of(from: i64, reach: i64) -> i64
    requires from { unsigned_abs from ≤ 2 ^ 25 + 2 ^ 19 }
    requires reach { unsigned_abs reach ≤ 2 ^ 21 }
    ensures value { from -ℤ result ≡ reach }
    ensures size { unsigned_abs result ≤ 2 ^ 26 }
{
    from - reach
}

/// The coordinate plus the reach.
pub(crate) fn past(from: i64, reach: i64) -> i64
    requires from { unsigned_abs from ≤ 2 ^ 25 + 2 ^ 19 }
    requires reach { unsigned_abs reach ≤ 2 ^ 21 }
    ensures value { result -ℤ from ≡ reach }
    ensures size { unsigned_abs result ≤ 2 ^ 26 }
{
    from + reach
}
