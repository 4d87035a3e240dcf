// Storing a plan: the reel's blocks, then the data, and the message over it.
ghost use Rattle.std.specs.Prelude.{◌≡◌, ◌+◌, ◌*◌, ◌≤◌, ◌%◌, length};
ghost use Rattle.std.proofs.lemmas.List.Edits.{sets};
ghost use Rattle.tape.specs.Numbers.{block_bytes};
ghost use Rattle.tape.specs.Objects.{images_of};
ghost use Rattle.motions.specs.Parts.{object_blocks};
ghost use Rattle.storing.specs.Stored.{Storable, StoredPlan, LaidFits, MovedFits, laid_object, laid_on, moved_on};

use commands::Plan;
use motions::{Laid, Moved, ObjectKind};

fn lay_object(reel: &mut [u8], at: usize, l: Laid, mem: &[u8])
    requires { (block_bytes * (at + object_blocks l.object l.length) ≤ length reel.old) × (l.pointer + l.length ≤ length mem.now) × (length mem.now % 2 ≡ 0) }
    ensures { reel.new ≡ sets reel.old (block_bytes * at) (images_of (laid_object mem.now l l.object)) }
{
    let o = l.object;
    match o {
        ObjectKind::Nothing => {}
        ObjectKind::Mark => reel::lay_mark(reel, at),
        ObjectKind::Gap => reel::lay_gap(reel, at),
        ObjectKind::Record => reel::lay_record(reel, at, mem, l.pointer, l.length as usize, l.swb),
    }
}

pub fn lay(reel: &mut [u8], l: Laid, mem: &[u8])
    requires { LaidFits l (length mem.now) (length reel.old) }
    ensures { reel.new ≡ laid_on reel.old mem.now l }
{
    if l.gap_first {
        reel::lay_gap(reel, l.at);
        lay_object(reel, l.at + 1, l, mem);
    } else {
        lay_object(reel, l.at, l, mem);
    }
}

#[tactic(auto, unfolding(crate::specs::Stored::moved_on))]
pub fn move_data(reel: &[u8], m: Moved, mem: &mut [u8])
    requires { MovedFits m (length mem.old) (length reel.now) }
    ensures { mem.new ≡ moved_on reel.now m mem.old }
{
    reel::read_record(
        reel,
        m.first,
        m.length,
        m.reverse,
        mem,
        m.pointer,
        m.count as usize,
        m.swb,
    );
}

pub fn store(p: Plan, mem: &mut [u8], reel: &mut [u8])
    requires { Storable p (length mem.old) (length reel.old) }
    ensures { StoredPlan p mem.old reel.old mem.new reel.new }
{
    let l = p.laid;
    let m = p.moved;
    lay(reel, l, mem);
    move_data(reel, m, mem);
    if p.sends {
        let a = p.unit.characteristics.address as usize;
        let words = p.message;
        signals::put_message(mem, a, words);
    }
}
