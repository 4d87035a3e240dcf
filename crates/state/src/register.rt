// TSBA and TSSR as they read.
ghost use Rattle.std.specs.Prelude.{◌≡◌};
ghost use Rattle.state.specs.Readings.{sc_of, tsba_of, tssr_of};

use crate::Unit;
use signals::flag;

// TSSR's bits, by their numbers in the paper; the class takes bits 3:1.
const SC: u16 = 0x8000; // 15

const RMR: u16 = 0x1000; // 12

const NXM: u16 = 0x0800; // 11

const NBA: u16 = 0x0400; // 10

const A17: u16 = 0x0200; // 9

const A16: u16 = 0x0100; // 8

const SSR: u16 = 0x0080; // 7

const OFL: u16 = 0x0040; // 6

const CLASS: u16 = 0x0002; // 1

// The pointer's two bits above the 16 that TSBA shows.
const BIT_17: usize = 0x20000;

const BIT_16: usize = 0x10000;

impl Unit {
    // The low 16 bits of the pointer last accepted.
    pub fn tsba(self) -> u16
        ensures { result ≡ tsba_of self }
    {
        (self.registers.pointer % BIT_16) as u16
    }

    // SC is set if the class isn't 0 or RMR or NXM is set.
    fn sc(self) -> bool
        ensures { result ≡ sc_of self }
    {
        (self.registers.class != 0) | self.registers.rmr | self.registers.nxm
    }

    #[tactic(auto, unfolding(crate::specs::Readings::tssr_of))]
    pub fn tssr(self) -> u16
        ensures { result ≡ tssr_of self }
    {
        let g = self.registers;
        let a17 = g.pointer / BIT_17 % 2 == 1;
        let a16 = g.pointer / BIT_16 % 2 == 1;
        let class = (g.class % 8) as u16;
        flag(self.sc(), SC)
            + flag(g.rmr, RMR)
            + flag(g.nxm, NXM)
            + flag(g.nba, NBA)
            + flag(a17, A17)
            + flag(a16, A16)
            + flag(g.ssr, SSR)
            + flag(!self.panel.online, OFL)
            + CLASS * class
    }
}
