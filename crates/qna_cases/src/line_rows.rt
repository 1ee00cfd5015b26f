//! Rows of the cutting of a stream into lines.

/// One line that comes in pieces, and what is read of it.
pub struct LineCase {
    /// The pieces in which its bytes come, the line feed among them.
    pub pieces: &'static [&'static [u8]],
    /// The line's bytes.
    pub text: &'static [u8],
    /// Its fields.
    pub fields: &'static [&'static [u8]],
}

/// The same line in several pieces and in one.
pub fn lines() -> &'static [LineCase] {
    &LINES
}

static LINES: [LineCase; 2] = [
    LineCase {
        pieces: &[b"ind,FO", b"OD,20", b"21Q1,5\r", b"\n"],
        text: b"ind,FOOD,2021Q1,5",
        fields: &[b"ind", b"FOOD", b"2021Q1", b"5"],
    },
    LineCase {
        pieces: &[b"ind,FOOD,2021Q1,5\r\n"],
        text: b"ind,FOOD,2021Q1,5",
        fields: &[b"ind", b"FOOD", b"2021Q1", b"5"],
    },
];
