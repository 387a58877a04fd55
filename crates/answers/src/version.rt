// The version of the library, as the file VERSION has it.
ghost use Rattle.std.specs.Prelude.{◌≡◌};
ghost use Rattle.answers.specs.Version.{version};

const MAJOR: u64 = 0;

const MINOR: u64 = 11;

const PATCH: u64 = 1;

// Returns the version as one number.
pub fn library_version() -> u64
    ensures { result ≡ version }
{
    10000 * MAJOR + 100 * MINOR + PATCH
}
