// The first place whose number is no less than another, found by a look at the last one and then by halving.
ghost use Rattle.std.specs.Prelude.{◌≡◌, ◌+◌, ◌*◌, ◌≤◌, length};
ghost use Rattle.index.specs.Halving.{halved};
ghost use Rattle.index.specs.Table.{place_length, places_in};

use crate::{PLACE, PLACES_LIMIT};
use lists::number_at;

// How many places a slice of n bytes has.
pub fn places(n: usize) -> usize
    ensures { result ≡ places_in n }
{
    (n / PLACE).min(PLACES_LIMIT)
}

// Kept: `partition_point` promises nothing on a made-up table, whose numbers may fall, and `halved` is one answer for every table.
// Of the first n places, by the number that stands at `field` in each.
// Kept: `field` is a place in the bytes, as `halved` is promised for every one up to 4.
pub fn halve(table: &[u8], field: usize, v: usize, n: usize) -> usize
    requires { (place_length * n ≤ length table.now) × (field ≤ 4) }
    ensures is { result ≡ halved table.now field v n }
    ensures low { result ≤ n }
{
    if n == 0 {
        return 0;
    }
    let last = number_at(table, PLACE * (n - 1) + field) as usize;
    if last < v {
        return n;
    }
    let mut low: usize = 0;
    let mut left = n;
    while 0 < left {
        let half = left / 2;
        let at = low + half;
        let number = number_at(table, PLACE * at + field) as usize;
        if number < v {
            low = at + 1;
            left = left - half - 1;
        } else {
            left = half;
        }
    }
    low
}
