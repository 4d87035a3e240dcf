// What is asked of the unit: a plan first, as a value, with what it will touch, and then carrying it out.
ghost use Rattle.std.specs.Prelude.{◌≡◌, ◌+◌, ◌*◌, ◌≤◌, ◌<◌, ◌%◌, length};
ghost use Rattle.std.proofs.lemmas.List.Edits.{sets};
ghost use Rattle.index.specs.Table.{place_length, places_row};
ghost use Rattle.unit.specs.Touching.{host_touched, laid_places, moved_place, object_places, touched_by};
ghost use Rattle.unit.specs.Steps.{cut_for, objects_after, store_wrong, too_small};

use commands::Plan;
use index::{Cut, cut_at, places, put_places};
use lists::scatter;
use motions::{Laid, Moved, ObjectKind, laid_blocks, moved_bytes};
use touched::Touched;

// "Host store: 0 to 65,535 bytes."
pub const HOST_LIMIT: usize = 65535;

// Where a Read's bytes go, of its buffer.
#[tactic(auto, unfolding(crate::specs::Touching::moved_place, tape::specs::Bytes::moved_to))]
fn moved_place(m: Moved) -> usize
    requires { m.pointer < 18446744073709486080 }
    ensures { result ≡ moved_place m }
{
    if m.reverse {
        m.pointer + usize::from(m.count).saturating_sub(m.length)
    } else {
        m.pointer
    }
}

#[tactic(auto, unfolding(crate::specs::Touching::object_places))]
fn object_places(o: ObjectKind) -> u32
    ensures is { result ≡ object_places o }
    ensures low { result ≤ 1 }
{
    match o {
        ObjectKind::Nothing => 0,
        ObjectKind::Mark | ObjectKind::Gap | ObjectKind::Record => 1,
    }
}

// How many places of the table are filled: one for each object that is laid.
#[tactic(auto, unfolding(crate::specs::Touching::laid_places))]
pub fn laid_places(l: Laid) -> u32
    ensures is { result ≡ laid_places l }
    ensures low { result ≤ 2 }
{
    object_places(l.object) + u32::from(l.gap_first)
}

// Where what is laid cuts a table of n places; what lays nothing cuts nothing, and is spared the search.
#[tactic(auto, unfolding(crate::specs::Steps::cut_for))]
pub fn cut_for(l: Laid, table: &[u8], n: usize, reel: &[u8]) -> Cut
    requires { place_length * n ≤ length table.now }
    ensures { result ≡ cut_for l table.now n reel.now }
{
    if laid_places(l) == 0 {
        return Cut::default();
    }
    cut_at(table, n, reel, l.at)
}

// How many places are used after it.
#[tactic(auto, unfolding(crate::specs::Steps::objects_after))]
pub fn objects_after(l: Laid, c: Cut, n: usize) -> usize
    requires { c.place ≤ 4294967295 }
    ensures { result ≡ objects_after l c n }
{
    let f = laid_places(l);
    if f == 0 {
        return n;
    }
    c.place + f as usize
}

// Refusal 11: has a table of so many bytes fewer places than n, or than n2?
#[tactic(auto, unfolding(crate::specs::Steps::too_small))]
pub fn too_small(table: usize, n: usize, n2: usize) -> bool
    ensures { result ≡ too_small table n n2 }
{
    let have = places(table);
    (have < n) | (have < n2)
}

// The places of what is laid, in a table that is cut at c.
pub fn fill_places(table: &mut [u8], l: Laid, c: Cut)
    requires { (place_length * (c.place + laid_places l) ≤ length table.old) × (l.at + 2 ≤ 4294967295) }
    ensures { table.new ≡ sets table.old (place_length * c.place) (places_row l.at c.marks (laid_places l)) }
{
    put_places(table, c, l.at, laid_places(l) as usize);
}

// What carrying out a plan will change, where it fills the table's places from place m on.
#[tactic(auto, unfolding(crate::specs::Touching::touched_by))]
pub fn touched_by(p: Plan, m: usize) -> Touched
    requires { p.moved.pointer < 18446744073709486080 }
    ensures { result ≡ touched_by p m }
{
    let d = p.moved;
    let l = p.laid;
    let (message_at, message_length) = if p.sends {
        (p.unit.characteristics.address as usize, signals::MESSAGE)
    } else {
        (0, 0)
    };
    Touched {
        data_at: moved_place(d),
        data_length: moved_bytes(d),
        swb: d.swb,
        message_at,
        message_length,
        reel_at: l.at,
        reel_blocks: laid_blocks(l),
        place_at: m,
        places: laid_places(l),
    }
}

// Refusal 5: too long, or past the end of memory. A difference and no sum: the place may be made up.
#[tactic(auto, unfolding(crate::specs::Steps::store_wrong))]
pub fn store_wrong(memory: usize, place: usize, n: usize) -> bool
    ensures { result ≡ store_wrong memory place n }
{
    if (HOST_LIMIT < n) | (memory < n) {
        return true;
    }
    memory - n < place
}

// What a host store of n bytes at a place will change.
#[tactic(auto, unfolding(crate::specs::Touching::host_touched))]
pub fn host_touched(place: usize, n: usize) -> Touched
    ensures { result ≡ host_touched place n }
{
    Touched {
        data_at: place,
        data_length: n,
        ..Touched::default()
    }
}

// The host's bytes are stored.
pub fn put_host(mem: &mut [u8], place: usize, bytes: &[u8])
    requires { (place + length bytes.now ≤ length mem.old) × (length mem.old % 2 ≡ 0) }
    ensures { mem.new ≡ sets mem.old place bytes.now }
{
    scatter(bytes, mem, place, false);
}
