// A word: its kind and its payload.
ghost use Rattle.std.specs.Prelude.{◌≡◌};
ghost use Rattle.words.specs.Word.{kind, payload};

use answers::word::PAYLOAD_BOUND;

// Returns the top four bits.
pub fn kind_of(word: u32) -> u32
    ensures { result ≡ kind word }
{
    word / PAYLOAD_BOUND
}

// Returns the other 28 bits.
pub fn payload_of(word: u32) -> u32
    ensures { result ≡ payload word }
{
    word % PAYLOAD_BOUND
}
