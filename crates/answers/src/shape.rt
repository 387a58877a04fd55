// What readers find: what the head of a system says, the shape of one line, the form of a certificate.

// What a certificate must know of its system: p, and the numbers of rows and columns.
#[derive(Clone, Copy, Debug, PartialEq, Eq)]
pub struct Shape {
    pub modulus: u16,
    pub rows: u8,
    pub columns: u8,
}

// What the head of a system says: its shape, and the number of its right sides.
#[derive(Clone, Copy, Debug, PartialEq, Eq)]
pub struct Head {
    pub shape: Shape,
    pub sides: u8,
}

// The two forms of certificates.
#[derive(Clone, Copy, Debug, PartialEq, Eq)]
pub enum Form {
    // d, N, w and Z.
    Solution,
    // q.
    Absence,
}
