//! A law of notes.

ghost use Rattle.rule_notes.specs.RuleNotes.{HaveOneListOfNotes};

use plural_reference::laws::reading::texts_are_read;

/// Five texts have at most one list of notes.
pub fn one_list_of_notes()
    ensures { HaveOneListOfNotes }
{
    texts_are_read();
}
