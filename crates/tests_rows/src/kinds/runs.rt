//! Results of many calls in one text.

use row_calls::call::Call;
use std::fmt::Write;

/// The results of a call for 0, 1, 2 and so on bytes. Equal neighbours are one run.
#[derive(Drop)]
pub struct Runs {
    runs: Vec<Run>,
    count: usize,
}

// Equal results, from one number of bytes to another.
#[derive(Drop)]
struct Run {
    first: usize,
    last: usize,
    text: String,
}

impl Runs {
    /// Returns no results.
    pub fn new(call: &Call) -> Runs {
        Runs {
            runs: Vec::new(call.alloc),
            count: 0,
        }
    }

    /// Takes what was printed as the next result.
    pub fn take(&mut self, call: &mut Call) {
        let text = call.take_printed();
        let place = self.count;
        self.count = place.saturating_add(1);
        if let Some(run) = self.runs.last_mut() {
            if run.text.as_str() == text.as_str() {
                run.last = place;
                return;
            }
        }
        let (first, last) = (place, place);
        call.add_item(&mut self.runs, Run { first, last, text });
    }

    /// Prints the runs, each after its numbers of bytes: `0: rules, 1-3: error List(Header)`.
    pub fn print(&self, call: &mut Call) {
        for run in &self.runs {
            call.separate(", ");
            call.print_value(&run.first);
            if run.first != run.last {
                let _ = write!(call, "-{}", run.last);
            }
            call.print(": ");
            call.print(run.text.as_str());
        }
    }
}
