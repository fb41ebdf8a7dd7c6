//! The order of parts.

ghost use Rattle.std.specs.Prelude.{◌≡◌, ◌≤◌, length, true};
ghost use Rattle.std.specs.List.{list_all};
ghost use Rattle.message_pattern.specs.PatternParts.{part_view, piece_view};
ghost use Rattle.packed_part.specs.PartOrder.{before_all, depth_behind, ends_branch, first_misplaced, is_begin, is_selector, may_follow};
ghost use Rattle.packed_part.specs.PackedParts.{is_packable};

use crate::source::PartSource;
use message_pattern::{Part, Piece};

// Whether a piece begins an argument that chooses.
fn is_begin(piece: Piece<'_>) -> bool
    ensures { result ≡ is_begin (piece_view piece.entry) }
{
    match piece {
        Piece::Begin(_, _, _) => true,
        _ => false,
    }
}

// Whether a piece is a selector.
pub(crate) fn is_selector(piece: Piece<'_>) -> bool
    ensures { result ≡ is_selector (piece_view piece.entry) }
{
    match piece {
        Piece::Branch(_) => true,
        _ => false,
    }
}

// Whether a piece ends a branch that stands before it.
fn ends_branch(piece: Piece<'_>) -> bool
    ensures { result ≡ ends_branch (piece_view piece.entry) }
{
    match piece {
        Piece::Branch(_) | Piece::End => true,
        _ => false,
    }
}

// How many branches what follows a part is in, if it doesn't end one.
fn depth_behind(part: Part<'_>) -> usize
    requires { part.depth ≤ 255 }
    ensures depth { result ≡ depth_behind (part_view part.entry) }
    ensures few { result ≤ 256 }
{
    if is_begin(part.piece) || is_selector(part.piece) {
        part.depth + 1
    } else {
        part.depth
    }
}

// Whether a part may stand behind another one.
fn may_follow(before: Part<'_>, part: Part<'_>) -> bool
    requires before { before.depth ≤ 255 }
    requires part { part.depth ≤ 255 }
    ensures { result ≡ may_follow (part_view before.entry) (part_view part.entry) }
{
    let depth = depth_behind(before);
    if ends_branch(part.piece) {
        part.depth + 1 == depth
    } else {
        !is_begin(before.piece) && part.depth == depth
    }
}

/// Returns the place of the first part that may not follow the one before it, and the number of the
/// parts if they end in an argument.
pub fn first_misplaced<'p, P: PartSource<'p>>(parts: P) -> Option<usize>
    requires few { length (P.parts parts) ≤ 65535 }
    requires packable { list_all is_packable (P.parts parts) ≡ true }
    ensures { result ≡ first_misplaced 0 before_all (P.parts parts) }
{
    let mut left = parts;
    let mut place: usize = 0;
    let mut before = Part {
        depth: 0,
        piece: Piece::Text(b""),
    };
    while let Some(part) = left.next_part() {
        if !may_follow(before, part) {
            return Some(place);
        }
        before = part;
        place += 1;
    }
    if depth_behind(before) == 0 {
        None
    } else {
        Some(place)
    }
}
