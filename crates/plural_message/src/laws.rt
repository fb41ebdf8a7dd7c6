//! What is true of all messages.

ghost use Rattle.plural_message.specs.Messages.{OneFilling};

/// A number's text gives exactly one filling of an element's text.
pub fn one_filling()
    ensures { OneFilling }
{}
