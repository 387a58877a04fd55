// Text that grows in lent bytes. It is no `fmt::Write`: the clauses of `write!` allow an error where there is room, and no report
// can fail.
ghost use Rattle.std.specs.Prelude.{◌++◌, ◌≡◌, map};
ghost use Rattle.report_text.specs.Decimal.{decimal};
ghost use Rattle.report_text.specs.Text.{spaced, all_spaced};
ghost use Rattle.report_text.specs.Grown.{Room, Grown};

// The most digits of a number.
const DIGITS: usize = 20;

// A text, which stands in the first `length` of the bytes.
#[derive(Drop)]
pub struct Text<'a> {
    bytes: &'a mut [u8],
    pub length: usize,
}

impl<'a> Text<'a> {
    // Begins a text over the bytes.
    pub fn new(bytes: &'a mut [u8]) -> Text<'a>
        ensures same { result.bytes.ghost_name ≡ bytes.entry.ghost_name }
        ensures bytes { result.bytes.now ≡ bytes.old }
        ensures none { result.length ≡ 0 }
    {
        Text { bytes, length: 0 }
    }

    // Appends the bytes of `text`.
    pub fn append(&mut self, text: &[u8])
        requires { Room text.now self.old }
        ensures { Grown text.now self.old self.new }
    {
        let end = self.length + text.len();
        self.bytes[self.length..end].copy_from_slice(text);
        self.length = end;
    }

    // Appends the number n in decimal.
    fn append_decimal(&mut self, n: u64)
        requires { Room (decimal n) self.old }
        ensures { Grown (decimal n) self.old self.new }
    {
        let mut digits = [0u8; DIGITS];
        let count = io::decimal(n, &mut digits);
        self.append(&digits[..count]);
    }

    // Appends the number n as a part of a line, behind a space.
    fn append_number(&mut self, n: u64)
        requires { Room (spaced (decimal n)) self.old }
        ensures { Grown (spaced (decimal n)) self.old self.new }
    {
        self.append(b" ");
        self.append_decimal(n);
    }

    // Appends a label, and the number n behind it.
    pub fn append_labelled(&mut self, label: &[u8], n: u64)
        requires { Room (label.now ++ spaced (decimal n)) self.old }
        ensures { Grown (label.now ++ spaced (decimal n)) self.old self.new }
    {
        self.append(label);
        self.append_number(n);
    }

    // Appends the numbers in their order, each behind a space.
    pub fn append_numbers(&mut self, numbers: &[u64])
        requires { Room (all_spaced (map decimal numbers.now)) self.old }
        ensures { Grown (all_spaced (map decimal numbers.now)) self.old self.new }
    {
        for &n in numbers {
            self.append_number(n);
        }
    }
}
