//! The text of an element with a number in the place of each `{}`, written into a buffer.

ghost use Rattle.std.specs.Prelude.{◌≡◌, ◌≤◌, ◌+◌, ◌-◌, ◌^◌, List, ℕ, ◌++◌, drop, length, min, take};
ghost use Rattle.plural_message.specs.Messages.{IsFilling, IsWrittenTo};

// Writes the text, filled by the number's, at the front of the buffer, if it fits there. Returns
// how many bytes it has.
pub(crate) fn fill_into(text: &str, number: &str, out: &mut [u8]) -> usize
    ensures { (filled : List ℕ) × IsFilling number.now text.now filled × IsWrittenTo out.old out.new result filled }
{
    let length = filled_length(text, number);
    if length <= out.len() {
        write_filled(text, number, out);
    }
    length
}

// How many bytes the filled text has: `usize::MAX` if it has more.
fn filled_length(text: &str, number: &str) -> usize
    ensures { (filled : List ℕ) × IsFilling number.now text.now filled × (result ≡ min (length filled) (2 ^ 64 - 1)) }
{
    let mut told = 0usize;
    for piece in text.split_inclusive('}') {
        match piece.strip_suffix("{}") {
            Some(before) => {
                told = told.saturating_add(before.len());
                told = told.saturating_add(number.len());
            }
            None => told = told.saturating_add(piece.len()),
        }
    }
    told
}

// Writes the filled text at the front of a buffer that has room for it.
fn write_filled(text: &str, number: &str, out: &mut [u8])
    requires { (filled : List ℕ) → IsFilling number.now text.now filled → length filled ≤ length out.old }
    ensures { (filled : List ℕ) × IsFilling number.now text.now filled × (out.new ≡ filled ++ drop (length filled) out.old) }
{
    let mut at = 0usize;
    for piece in text.split_inclusive('}') {
        match piece.strip_suffix("{}") {
            Some(before) => {
                at = write_at(before, at, out);
                at = write_at(number, at, out);
            }
            None => at = write_at(piece, at, out),
        }
    }
}

// Writes a text at a place of the buffer, and returns the place behind it.
fn write_at(text: &str, at: usize, out: &mut [u8]) -> usize
    requires { at + length text.now ≤ length out.old }
    ensures place { result ≡ at + length text.now }
    ensures front { take result out.new ≡ take at out.old ++ text.now }
    ensures behind { drop result out.new ≡ drop result out.old }
{
    let end = at + text.len();
    out[at..end].copy_from_slice(text.as_bytes());
    end
}
