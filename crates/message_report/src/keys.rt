//! The keys of a message that name no form.

ghost use Rattle.std.specs.Prelude.{◌≡◌, [], IfOk, IsTrue, OnOk};
ghost use Rattle.message_report.specs.FoundInMessages.{messages_together};
ghost use Rattle.message_report.specs.Inner.ToldKeys.{count_at, told_unless_form, told_key};
ghost use Rattle.message_report.specs.MessagePlaces.{message_place_view};
ghost use Rattle.message_report.specs.MessagesReport.{found_of_keys, other_keys};
ghost use Rattle.serde_json.specs.View.{members_view};

use crate::cause::Cause;
use crate::form::is_form_name;
use crate::found::Found;
use crate::place::{MessagePlace, Place};
use plural_documents::{MOST_TOLD, sum};
use serde_json::{Map, Value};
use std::alloc::AllocError;

// Adds what is found in the keys that name no form: the first ones have a finding each, and the
// others one.
pub(crate) fn add_keys<'a>(
    place: MessagePlace<'a>,
    members: &'a Map<String, Value>,
    found: &mut Found<'a>,
) -> Result<(), AllocError>
    ensures { OnOk result (found.new
        ≡ messages_together found.old (found_of_keys (message_place_view place.entry) (other_keys (members_view members.now.entries)))) }
{
    let mut count = 0;
    for (key, _) in members.iter() {
        count = add_key(place, key.as_str(), count, found)?;
    }
    found.add_rest(Place::Message(place), count)
}

// Adds what is found in a key, and returns how many keys name no form so far.
fn add_key<'a>(
    place: MessagePlace<'a>,
    key: &'a str,
    before: u64,
    found: &mut Found<'a>,
) -> Result<u64, AllocError>
    ensures found { OnOk result (found.new ≡ messages_together found.old (told_unless_form (message_place_view place.entry) before key.now)) }
    ensures count { IfOk result (λ count. count ≡ count_at before key.now) }
{
    if is_form_name(key) {
        return Ok(before);
    }
    tell(place, key, before, found)?;
    sum(before, 1)
}

// Adds the fault of a key, with its finding if at most nine come before it.
fn tell<'a>(
    place: MessagePlace<'a>,
    key: &'a str,
    before: u64,
    found: &mut Found<'a>,
) -> Result<(), AllocError>
    ensures { OnOk result (found.new ≡ messages_together found.old (told_key (message_place_view place.entry) before key.now)) }
{
    if before >= MOST_TOLD {
        return found.count_fault();
    }
    found.add_fault(Place::OtherKey(place, key), Cause::NotAForm)
}
