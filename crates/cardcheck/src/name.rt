// Names of files, as they are said.
ghost use Rattle.std.specs.Prelude.{◌≡◌, map};
ghost use Rattle.cardcheck.specs.Name.{masked_byte};

// Returns a byte of a name as it is said: `?` for one that would end or change the line.
fn mask_byte(byte: u8) -> u8
    ensures { result ≡ masked_byte byte }
{
    if byte.is_ascii_control() { b'?' } else { byte }
}

// Makes a name one that can be said in a line.
pub fn mask(name: &mut [u8])
    ensures { name.new ≡ map masked_byte name.old }
{
    for byte in name {
        *byte = mask_byte(*byte);
    }
}
