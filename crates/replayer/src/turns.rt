// One line of the script carried out.
#![tactic(auto, unfolding(crate::specs::Turns::turn_on, crate::specs::Turns::memory_on, crate::specs::Turns::reel_on, crate::specs::Turns::table_on, crate::specs::Turns::JournalOn, crate::specs::Keeps::call_turn, crate::specs::Keeps::memory_kept, crate::specs::Keeps::reel_kept, crate::specs::Keeps::table_kept))]

ghost use Rattle.std.specs.Prelude.{◌≡◌, ◌≤◌, length};
ghost use Rattle.std.proofs.lemmas.List.Edits.{sets};
ghost use Rattle.replayer.specs.Hands.{hand_on, hand_told};
ghost use Rattle.replayer.specs.Keeps.{JournalHanded, JournalKept, call_turn, kept_as, memory_kept, reel_kept, table_kept};
ghost use Rattle.replayer.specs.Turns.{JournalOn, memory_on, reel_on, table_on, turn_on};

use crate::asks::call;
use crate::buffers::Buffers;
use desk::{Desk, Said, Turn, arrange, build, handed, tabled, trim};
use lines::{Call, Does};
use results::Told;
use script::Fault;

// The session that a call left is kept.
fn kept(d: Desk, t: Told) -> Turn
    ensures { result ≡ kept_as d t }
{
    let session = t.session;
    let said = Said::Result(t);
    Turn {
        desk: Desk { session, ..d },
        said,
    }
}

// The call over what it is handed.
// Kept: four slices, here and in asks.rt. Over a struct of slices that are lent to write, a function that hands it on whole, or cuts two of them in one call, is not proved.
fn hand(
    d: Desk,
    c: Call,
    bytes: &[u8],
    mem: &mut [u8],
    reel: &mut [u8],
    table: &mut [u8],
    jrnl: &mut [u8],
) -> Told
    ensures told { result ≡ hand_told d c bytes.now mem.old reel.old table.old jrnl.old }
    ensures memory { mem.new ≡ sets mem.old 0 (hand_on d c bytes.now mem.old reel.old table.old jrnl.old).world.core.memory }
    ensures reel { reel.new ≡ sets reel.old 0 (hand_on d c bytes.now mem.old reel.old table.old jrnl.old).world.core.reel }
    ensures table { table.new ≡ sets table.old 0 (hand_on d c bytes.now mem.old reel.old table.old jrnl.old).world.core.table }
    ensures journal { JournalHanded d c bytes.now mem.old reel.old table.old jrnl.old jrnl.new }
{
    let h = handed(d);
    let m = h.memory.min(mem.len());
    let r = h.reel.min(reel.len());
    let t = h.table.min(table.len());
    let j = h.journal.min(jrnl.len());
    call(
        d.session,
        c,
        bytes,
        &mut mem[..m],
        &mut reel[..r],
        &mut table[..t],
        &mut jrnl[..j],
    )
}

impl Buffers {
    // What the call left beyond the sizes is thrown away.
    fn make_call(&mut self, d: Desk, c: Call, bytes: &[u8]) -> Result<Turn, Fault>
        ensures turn { result ≡ call_turn d c bytes.now self.old.memory self.old.reel self.old.table self.old.journal }
        ensures memory { self.new.memory ≡ memory_kept d c bytes.now self.old.memory self.old.reel self.old.table self.old.journal }
        ensures reel { self.new.reel ≡ reel_kept d c bytes.now self.old.memory self.old.reel self.old.table self.old.journal }
        ensures table { self.new.table ≡ table_kept d c bytes.now self.old.memory self.old.reel self.old.table self.old.journal }
        ensures journal { JournalKept d c bytes.now self.old.memory self.old.reel self.old.table self.old.journal self.new.journal }
    {
        let t = hand(
            d,
            c,
            bytes,
            &mut self.memory,
            &mut self.reel,
            &mut self.table,
            &mut self.journal,
        );
        trim(
            d.sizes,
            handed(d),
            &mut self.memory,
            &mut self.reel,
            &mut self.table,
            &mut self.journal,
        );
        Ok(kept(d, t))
    }

    // What the line does, with data's first n bytes; or why it can't be taken, and all stays.
    // Kept: a line that builds asks for the length of all of data (`built_answer`), so the count goes beside it.
    pub fn carry_out(
        &mut self,
        d: Desk,
        does: Result<Does, Fault>,
        data: &[u8],
        n: usize,
    ) -> Result<Turn, Fault>
        requires { n ≤ length «data».now }
        ensures turn { result ≡ turn_on d does «data».now n self.old.memory self.old.reel self.old.table self.old.journal }
        ensures memory { self.new.memory ≡ memory_on d does «data».now n self.old.memory self.old.reel self.old.table self.old.journal }
        ensures reel { self.new.reel ≡ reel_on d does «data».now n self.old.memory self.old.reel self.old.table self.old.journal }
        ensures table { self.new.table ≡ table_on d does «data».now n self.old.memory self.old.reel self.old.table self.old.journal }
        ensures journal { JournalOn d does «data».now n self.old.memory self.old.reel self.old.table self.old.journal self.new.journal }
    {
        let bytes = &data[..n];
        match does? {
            Does::Nothing => Ok(Turn {
                desk: d,
                said: Said::Nothing,
            }),
            Does::Arranges(a) => arrange(
                d,
                a,
                &mut self.memory,
                &mut self.reel,
                &mut self.table,
                &mut self.journal,
            ),
            Does::Builds(b) => build(d, b, data, n, &mut self.memory, &mut self.reel),
            Does::Tables(t) => tabled(d, t, bytes, &mut self.table),
            Does::Calls(c) => self.make_call(d, c, bytes),
        }
    }
}
