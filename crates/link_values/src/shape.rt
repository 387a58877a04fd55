// The shape of the system in a file.
ghost use Rattle.std.specs.Prelude.{◌≡◌};
ghost use Rattle.words.specs.Limits.{office};
ghost use Rattle.answers.specs.Packed.{packed};
ghost use Rattle.link_values.specs.Files.{file_shape};

use answers::head::pack_head;
use answers::packed::pack_counted;
use reader::file::read_system_file;

// Reads the modulus, the rows, the columns and the number of right sides of the system in a file.
pub fn shape_of_file(system: &[u8]) -> u64
    ensures { result ≡ packed (file_shape office system.now) }
{
    match read_system_file(system) {
        Ok(head) => pack_head(head),
        Err(refusal) => pack_counted(Err(refusal)),
    }
}
