// The look-ahead word: four fields in 32 bits, and the word with another departure.
#![tactic(auto)]

ghost use Rattle.std.specs.Prelude.{◌≡◌};
ghost use Rattle.model.specs.Word as model;
ghost use Rattle.word.specs.Reading.{fields_of, joined_of};

// The fields of a word, of 6, 6, 10 and 10 bits.
#[derive(Clone, Copy, Debug, PartialEq, Eq)]
pub struct Fields {
    pub destination: u8,
    pub flow: u8,
    pub quantum: u16,
    pub departure: u16,
}

pub fn split(word: u32) -> Fields
    ensures { fields_of result ≡ model.split word }
{
    Fields {
        destination: (word / 67108864 % 64) as u8,
        flow: (word / 1048576 % 64) as u8,
        quantum: (word / 1024 % 1024) as u16,
        departure: (word % 1024) as u16,
    }
}

// The word that fields join to, if each fits its width.
#[tactic(auto, using(std::proofs::lemmas::Bool::Decides::nat_tests), unfolding(crate::specs::Reading::joined_of, model::specs::Word::fits))]
pub fn join(f: Fields) -> Option<u32>
    ensures { result ≡ joined_of (fields_of f) }
{
    if f.destination >= 64 || f.flow >= 64 || f.quantum >= 1024 || f.departure >= 1024 {
        return None;
    }
    let high = u32::from(f.destination) * 67108864 + u32::from(f.flow) * 1048576;
    Some(high + u32::from(f.quantum) * 1024 + u32::from(f.departure))
}

// The same word but for its departure, a position of a window.
pub fn depart(word: u32, position: u8) -> u32
    ensures { result ≡ model.depart word position }
{
    word / 1024 * 1024 + u32::from(position)
}
