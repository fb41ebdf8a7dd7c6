//! The lines of the places of a text.

// How far a text is counted: a place, and its line.
#[derive(Drop)]
pub(crate) struct LineCount<'a> {
    bytes: &'a [u8],
    place: usize,
    line: u64,
}

impl<'a> LineCount<'a> {
    // The start of a text, in line 1.
    pub(crate) fn of(bytes: &'a [u8]) -> LineCount<'a> {
        LineCount {
            bytes,
            place: 0,
            line: 1,
        }
    }

    // The line of a place that isn't before the last one.
    pub(crate) fn line_at(&mut self, place: usize) -> u64 {
        if self.place < place && place <= self.bytes.len() {
            self.line = self
                .line
                .saturating_add(count_newlines(&self.bytes[self.place..place]));
            self.place = place;
        }
        self.line
    }
}

// How many newlines bytes have.
fn count_newlines(bytes: &[u8]) -> u64 {
    let mut count: u64 = 0;
    for byte in bytes {
        if *byte == b'\n' {
            count = count.saturating_add(1);
        }
    }
    count
}

// The line of a place of a text, from 1 on.
pub(crate) fn line_of(bytes: &[u8], place: usize) -> u64 {
    let mut lines = LineCount::of(bytes);
    lines.line_at(place)
}
