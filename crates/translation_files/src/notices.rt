//! What is told of a file, as it is gathered.

ghost use Rattle.std.specs.Prelude.{◌≡◌, [], ◌∷◌, ◌++◌, All, OnErr, OnOk};
ghost use Rattle.translation_files.specs.NoticeSeverities.{IsGraded};

use crate::notice::FileNotice;
use crate::pushed::push;
use std::alloc::{AllocError, Global};

// Notices that are as grave as their codes.
#[derive(Drop)]
pub(crate) struct Notices {
    items: Vec<FileNotice>,
    ghost graded: { All IsGraded items.items },
}

impl Notices {
    // None yet.
    pub(crate) fn new(alloc: Global) -> Notices {
        Notices {
            items: Vec::new(alloc),
        }
    }

    // Appends a notice.
    pub(crate) fn push(&mut self, notice: FileNotice) -> Result<(), AllocError>
        requires { IsGraded notice }
    {
        push(&mut self.items, notice)
    }

    // The notices.
    pub(crate) fn into_items(self) -> Vec<FileNotice>
        ensures { All IsGraded result.items }
    {
        self.items
    }
}
