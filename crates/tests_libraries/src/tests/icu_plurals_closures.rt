//! Elements by category: which values closures are called with, how often, and what an error
//! leaves; clones.

use crate::tests::assertion::holds;
use icu_plurals::PluralElements;
use std::alloc::AllocError;
use std::test::Fail;

// The values that a closure was called with, and the call, from 1 on, that it refuses.
#[derive(Debug, Drop)]
struct Seen {
    values: [u32; 8],
    calls: usize,
    refused: usize,
}

impl Seen {
    fn refusing(refused: usize) -> Seen {
        Seen {
            values: [0; 8],
            calls: 0,
            refused,
        }
    }

    fn see(&mut self, value: u32) {
        if let Some(place) = self.values.get_mut(self.calls) {
            *place = value;
        }
        self.calls = self.calls.saturating_add(1);
    }

    // What the last call returns.
    fn answer(&self) -> Result<(), usize> {
        if self.calls == self.refused {
            Err(self.refused)
        } else {
            Ok(())
        }
    }

    // The value, raised unless its call is refused.
    fn raised(&mut self, value: u32) -> u32 {
        self.see(value);
        if self.calls == self.refused {
            value
        } else {
            value.saturating_add(100)
        }
    }
}

// A value at each key.
fn eight() -> PluralElements<u32> {
    PluralElements::new(10)
        .with_zero_value(Some(11))
        .with_one_value(Some(12))
        .with_two_value(Some(13))
        .with_few_value(Some(14))
        .with_many_value(Some(15))
        .with_explicit_zero_value(Some(16))
        .with_explicit_one_value(Some(17))
}

// What each reader returns, 0 if an explicit value is absent.
fn values(elements: &PluralElements<u32>) -> [u32; 8] {
    [
        *elements.other(),
        *elements.zero(),
        *elements.one(),
        *elements.two(),
        *elements.few(),
        *elements.many(),
        elements.explicit_zero().copied().unwrap_or(0),
        elements.explicit_one().copied().unwrap_or(0),
    ]
}

#[test]
fn closures_are_called_in_one_order(rt: HostRuntime) {
    let order = [10, 11, 12, 13, 14, 15, 16, 17];
    let mut elements = eight();
    holds!(rt; values(&elements) == order);
    let mut seen = Seen::refusing(0);
    elements.for_each(|value| seen.see(*value));
    holds!(rt; (seen.calls, seen.values) == (8, order));
    let mut seen = Seen::refusing(0);
    elements.as_ref().for_each(|value| seen.see(**value));
    holds!(rt; (seen.calls, seen.values) == (8, order));
    let mut seen = Seen::refusing(0);
    elements.for_each_mut(|value| {
        seen.see(*value);
        *value = value.saturating_add(100);
    });
    holds!(rt; (seen.calls, seen.values) == (8, order));
    let mut seen = Seen::refusing(0);
    let halves = elements.map(|value| {
        seen.see(value);
        value / 2
    });
    holds!(rt; (seen.calls, seen.values) == (8, [110, 111, 112, 113, 114, 115, 116, 117]));
    holds!(rt; values(&halves) == [55, 55, 56, 56, 57, 57, 58, 58]);
}

#[test]
fn absent_values_are_skipped(rt: HostRuntime) {
    let elements = PluralElements::new(11u8).with_one_value(Some(15));
    let doubled = elements.map(|value| u32::from(value) * 2);
    holds!(rt; values(&doubled) == [22, 22, 30, 22, 22, 22, 0, 0]);
    let mut seen = Seen::refusing(0);
    doubled.for_each(|value| seen.see(*value));
    holds!(rt; (seen.calls, seen.values) == (2, [22, 30, 0, 0, 0, 0, 0, 0]));
}

#[test]
fn an_error_ends_the_calls(rt: HostRuntime) {
    let order = [10, 11, 12, 13, 14, 15, 16, 17];
    for refused in 1..=8usize {
        let mut seen = Seen::refusing(refused);
        let answer = eight().try_map(|value| {
            seen.see(value);
            seen.answer()?;
            Ok::<u32, usize>(value)
        });
        holds!(rt; answer == Err(refused), at refused);
        holds!(rt; seen.calls == refused);
        holds!(rt; seen.values.get(..refused) == order.get(..refused), at refused);

        let mut seen = Seen::refusing(refused);
        let answer = eight().try_for_each(|value| {
            seen.see(*value);
            seen.answer()
        });
        holds!(rt; answer == Err(refused), at refused);
        holds!(rt; seen.calls == refused);
        holds!(rt; seen.values.get(..refused) == order.get(..refused), at refused);
    }
}

#[test]
fn what_was_changed_before_an_error_stays(rt: HostRuntime) {
    for refused in 1..=8usize {
        let mut elements = eight();
        let mut seen = Seen::refusing(refused);
        let answer = elements.try_for_each_mut(|value| {
            *value = seen.raised(*value);
            seen.answer()
        });
        holds!(rt; answer == Err(refused), at refused);
        holds!(rt; seen.calls == refused);
        let mut want = [10, 11, 12, 13, 14, 15, 16, 17];
        for value in want.iter_mut().take(refused - 1) {
            *value += 100;
        }
        holds!(rt; values(&elements) == want, at refused);
    }
}

#[test]
fn calls_without_an_error_answer_ok(rt: HostRuntime) {
    let mut elements = eight();
    holds!(rt; elements.try_for_each(|_| Ok::<(), ()>(())) == Ok(()));
    let answer = elements.try_for_each_mut(|value| {
        *value = value.saturating_add(1);
        Ok::<(), ()>(())
    });
    holds!(rt; answer == Ok(()));
    holds!(rt; values(&elements) == [11, 12, 13, 14, 15, 16, 17, 18]);
    let answer = elements.try_map(|value| Ok::<u32, ()>(value / 2));
    holds!(rt; answer.map(|halves| values(&halves)) == Ok([5, 6, 6, 7, 7, 8, 8, 9]));
}

#[test]
fn without_an_error_each_value_is_passed_once(rt: HostRuntime) {
    let mut elements = eight();
    let mut seen = Seen::refusing(0);
    let answer = elements.try_for_each(|value| {
        seen.see(*value);
        seen.answer()
    });
    holds!(rt; (answer, seen.calls) == (Ok(()), 8));
    let mut seen = Seen::refusing(0);
    let answer = elements.try_for_each_mut(|value| {
        seen.see(*value);
        seen.answer()
    });
    holds!(rt; (answer, seen.calls) == (Ok(()), 8));
    let mut seen = Seen::refusing(0);
    let answer = elements.try_map(|value| {
        seen.see(value);
        seen.answer()
    });
    holds!(rt; answer.is_ok());
    holds!(rt; seen.calls == 8);
}

// A value that counts how often it was cloned.
#[derive(Debug, Drop, PartialEq)]
struct Copied {
    times: u32,
}

impl Clone for Copied {
    fn clone(&self) -> Result<Copied, AllocError> {
        Ok(Copied {
            times: self.times.saturating_add(1),
        })
    }
}

#[test]
fn each_value_is_cloned_once(rt: HostRuntime) -> Result<(), Fail> {
    let source = PluralElements::new(Copied { times: 0 }).with_few_value(Some(Copied { times: 5 }));
    let clone = source.try_clone()?;
    holds!(rt; clone.other().times == 1);
    holds!(rt; clone.few().times == 6);
    Ok(())
}
