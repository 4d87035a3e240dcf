// Register writes and operator acts: each hands back the next state.
ghost use Rattle.std.specs.Prelude.{◌≡◌, ◌<◌};
ghost use Rattle.state.specs.Changes.{initial_registers, initialized, mounted_as, operated, pointer_of, switched_line, switched_lock, tsdb_written};

use crate::{Attention, Characteristics, Lengths, Panel, Registers, Tape, Unit};

#[derive(Clone, Copy)]
pub enum Act {
    OnLine,
    OffLine,
    Lock,
    Unlock,
}

fn pointer_of(word: u16) -> usize
    ensures { result ≡ pointer_of word }
{
    let w = word as usize;
    w / 4 * 4 + 65536 * (w % 4)
}

fn initial_registers() -> Registers
    ensures { result ≡ initial_registers }
{
    Registers {
        nba: true,
        ssr: true,
        ..Registers::default()
    }
}

// A mounted unit: position 0 and the rest as an initialize leaves it.
#[tactic(auto, unfolding(crate::specs::Changes::mounted_as))]
pub fn mounted(end: usize, online: bool, locked: bool, lengths: Lengths) -> Unit
    ensures { result ≡ mounted_as end online locked lengths }
{
    let tape = Tape { position: 0, end };
    let registers = initial_registers();
    let panel = Panel {
        online,
        locked,
        vck: true,
    };
    Unit {
        tape,
        registers,
        panel,
        attention: Attention::default(),
        characteristics: Characteristics::default(),
        lengths,
    }
}

impl Unit {
    // A TSDB write: with SSR clear it sets RMR and nothing else.
    #[tactic(auto, unfolding(crate::specs::Changes::tsdb_written))]
    pub fn write_tsdb(mut self, word: u16) -> Unit
        ensures { result ≡ tsdb_written self word }
    {
        if !self.registers.ssr {
            self.registers.rmr = true;
            return self;
        }
        self.registers = Registers {
            pointer: pointer_of(word),
            class: 0,
            rmr: false,
            nxm: false,
            nba: self.registers.nba,
            ssr: false,
        };
        self
    }

    // A TSSR write initializes. Off line the tape stays where it is.
    #[tactic(auto, unfolding(crate::specs::Changes::initialized))]
    pub fn initialize(mut self) -> Unit
        ensures { result ≡ initialized self }
    {
        self.registers = initial_registers();
        self.panel.vck = true;
        self.attention = Attention::default();
        self.characteristics = Characteristics::default();
        if self.panel.online {
            self.tape.position = 0;
        }
        self
    }

    // Going on or off line makes an attention pending if EAI is set; going on line sets VCK.
    #[tactic(auto, unfolding(crate::specs::Changes::switched_line))]
    fn switch_line(mut self, online: bool) -> Unit
        ensures { result ≡ switched_line self online }
    {
        self.panel.online = online;
        self.panel.vck |= online;
        self.attention.pending |= self.characteristics.eai;
        self
    }

    #[tactic(auto, unfolding(crate::specs::Changes::switched_lock))]
    fn lock(mut self, on: bool) -> Unit
        ensures { result ≡ switched_lock self on }
    {
        self.panel.locked = on;
        self
    }

    // An act that finds its switch already so raises and sets nothing.
    #[tactic(auto, unfolding(crate::specs::Changes::operated))]
    pub fn operate(self, act: Act) -> Unit
        ensures { result ≡ operated self act }
    {
        match act {
            Act::OnLine => if self.panel.online {
                self
            } else {
                self.switch_line(true)
            },
            Act::OffLine => if self.panel.online {
                self.switch_line(false)
            } else {
                self
            },
            Act::Lock => self.lock(true),
            Act::Unlock => self.lock(false),
        }
    }
}
