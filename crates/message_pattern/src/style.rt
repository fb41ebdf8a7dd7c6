//! Where the style of a simple format ends.

ghost use Rattle.std.specs.Prelude.{◌≡◌, ◌<◌, ◌+◌, ◌≤◌, IfNone, IfSome, None, Some, length, false};
ghost use Rattle.message_pattern.specs.PatternStyles.{behind_style, style_step};

// How many braces are open behind a byte, and whether what follows is quoted; none for the brace
// that ends the style.
fn style_step(braces: usize, quoted: bool, byte: u8) -> Option<(usize, bool)>
    requires { braces < 18446744073709551615 }
    ensures { result ≡ style_step braces quoted byte }
{
    if quoted {
        return Some((braces, byte != b'\''));
    }
    match byte {
        b'\'' => Some((braces, true)),
        b'{' => Some((braces + 1, false)),
        b'}' if braces == 0 => None,
        b'}' => Some((braces - 1, false)),
        _ => Some((braces, false)),
    }
}

// What follows the brace that ends the style in front of the text.
pub(crate) fn behind_style(text: &[u8]) -> Option<&[u8]>
    ensures none { IfNone result (behind_style 0 false text.now ≡ None) }
    ensures some { IfSome result (λ rest. (behind_style 0 false text.now ≡ Some rest.now) × (length rest.now < length text.now)) }
{
    let mut braces = 0;
    let mut quoted = false;
    let mut rest = text;
    while let [byte, after @ ..] = rest {
        let Some((opened, quotes)) = style_step(braces, quoted, *byte) else {
            return Some(after);
        };
        braces = opened;
        quoted = quotes;
        rest = after;
    }
    None
}
