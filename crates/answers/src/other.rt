// A number that no row of the table has.
ghost use Rattle.answers.specs.Unlisted.{Unlisted};

#[derive(Clone, Copy, Debug, PartialEq, Eq)]
pub struct OtherNumber {
    pub number: u8,
    pub ghost unlisted: { Unlisted number },
}
