// The words that a line may start with.
#![tactic(auto, unfolding(crate::specs::Starts::verbs, crate::specs::Starts::start_words, crate::specs::Starts::start_of, crate::specs::Starts::most_words))]

ghost use Rattle.std.specs.Prelude.{◌≡◌};
ghost use Rattle.lines.specs.Starts.{most_words, start_of};

use crate::words::named;
use script::Fault;

// What a line may start with, in the order of its words.
#[derive(Clone, Copy)]
pub enum Verb {
    Case,
    Sizes,
    Lens,
    Set,
    Poke,
    Word,
    PokeReel,
    FixSum,
    Record,
    Made,
    Mark,
    Gap,
    Mount,
    Tsdb,
    Tssr,
    Reg,
    Op,
    Host,
    HostMade,
    Advance,
    Back,
    Rules,
    Index,
    PokeTable,
}

// An enum has no list of its variants.
const VERBS: [Verb; 24] = [
    Verb::Case,
    Verb::Sizes,
    Verb::Lens,
    Verb::Set,
    Verb::Poke,
    Verb::Word,
    Verb::PokeReel,
    Verb::FixSum,
    Verb::Record,
    Verb::Made,
    Verb::Mark,
    Verb::Gap,
    Verb::Mount,
    Verb::Tsdb,
    Verb::Tssr,
    Verb::Reg,
    Verb::Op,
    Verb::Host,
    Verb::HostMade,
    Verb::Advance,
    Verb::Back,
    Verb::Rules,
    Verb::Index,
    Verb::PokeTable,
];

impl Verb {
    // How many words a line may have that starts with this one.
    pub fn most_words(self) -> usize
        ensures { result ≡ most_words self }
    {
        match self {
            Verb::Mark | Verb::Gap | Verb::Advance | Verb::Back => 1,
            Verb::FixSum | Verb::Record | Verb::Tsdb | Verb::Tssr => 2,
            Verb::Reg | Verb::Op | Verb::Index => 2,
            Verb::Set | Verb::Poke | Verb::Word | Verb::PokeReel => 3,
            Verb::Made | Verb::Host | Verb::PokeTable => 3,
            Verb::Sizes | Verb::Mount | Verb::HostMade => 4,
            Verb::Lens => 5,
            Verb::Rules => 15,
            Verb::Case => 4096,
        }
    }

    pub fn of(text: &[u8]) -> Result<Verb, Fault>
        ensures { result ≡ start_of text.now }
    {
        named(
            b"case sizes lens set poke word pokereel fixsum R RN M G mount tsdb tssr reg op host hostn adv back rules index poketable",
            &VERBS,
            text,
            0,
        )
    }
}
