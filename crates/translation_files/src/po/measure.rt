//! By what the messages of a catalog are checked.

use crate::po::indices::Indices;
use crate::po::laid::{FormIndex, Laid};

// A form of more numbers than so many has to have each argument.
const MANY: u64 = 2;

// The forms of a catalog: their indices, and these laid beside the categories.
#[derive(Clone, Copy)]
pub(crate) struct Forms<'a> {
    pub(crate) indices: &'a Indices,
    pub(crate) laid: &'a Laid,
}

impl Forms<'_> {
    // Whether the rules tell if the form of an index has the number: a category of several numbers has
    // this index.
    pub(crate) fn tell_number(self, index: u64) -> bool {
        for it in self.laid.forms.iter() {
            if it.index == index && it.has_several {
                return true;
            }
        }
        false
    }
}

// How many numbers have a form.
#[derive(Clone, Copy, PartialEq, Eq)]
pub(crate) enum Extent {
    // One at most.
    One,
    // Several, of which the rules say whether they need the number.
    Few,
    Many,
}

// By what messages are checked.
#[derive(Clone, Copy)]
pub(crate) enum Measure<'a> {
    // By the rules: they go into the document.
    Rules(Forms<'a>),
    // By the indices of the catalog alone.
    Indices(&'a Indices),
    // By the indices of the numbers that the message is shown for.
    Range(&'a Indices),
    // By nothing, since the indices aren't known: their arguments are compared.
    Nothing,
}

impl<'a> Measure<'a> {
    // The indices of the catalog, as far as they are known.
    pub(crate) fn indices(self) -> Option<&'a Indices> {
        match self {
            Measure::Rules(forms) => Some(forms.indices),
            Measure::Indices(indices) | Measure::Range(indices) => Some(indices),
            Measure::Nothing => None,
        }
    }

    // The forms by the rules.
    pub(crate) fn forms(self) -> &'a [FormIndex] {
        match self {
            Measure::Rules(forms) => forms.laid.forms.as_slice(),
            _ => &[],
        }
    }

    // Whether the rules are known: then the number is checked apart from the other arguments.
    pub(crate) fn has_rules(self) -> bool {
        match self {
            Measure::Rules(_) | Measure::Range(_) => true,
            _ => false,
        }
    }

    // Whether what is found in the document tells if the form of an index has the number.
    pub(crate) fn tells_number(self, index: u64) -> bool {
        match self {
            Measure::Rules(forms) => forms.tell_number(index),
            _ => false,
        }
    }

    // How many numbers have an index. If the indices aren't known, the first form is taken as that of
    // 1.
    pub(crate) fn extent(self, index: usize) -> Extent {
        let Some(indices) = self.indices() else {
            return if index > 0 { Extent::Many } else { Extent::One };
        };
        let times = indices.times_of(index as u64);
        if times > MANY {
            Extent::Many
        } else if times > 1 {
            Extent::Few
        } else {
            Extent::One
        }
    }
}
