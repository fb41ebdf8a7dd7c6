//! The jobs.

use crate::awkward::awkward_round;
use crate::digest::Digest;
use crate::documents::Documents;
use crate::load::load_round;
use crate::messages::messages_round;
use crate::numbers::numbers_round;
use crate::random::Source;
use crate::rules::rules_round;
use crate::translations::translations_round;
use anyhow::Result;
use std::alloc::Global;

// A job that a user waits for.
#[derive(Clone, Copy)]
pub(crate) enum Job {
    // Rules are loaded: for one number, for a list of forms, and of all locales with their tables.
    Load,
    // Numbers by the line, and in a loop.
    Numbers,
    // Patterns and packed messages are read, and said with many arguments.
    Messages,
    // Translations are checked.
    Translations,
    // Documents of rules are checked.
    Rules,
    // Documents that cost the most are checked.
    Awkward,
}

impl Job {
    pub(crate) const ALL: [Job; 6] = [
        Job::Load,
        Job::Numbers,
        Job::Messages,
        Job::Translations,
        Job::Rules,
        Job::Awkward,
    ];

    pub(crate) fn name(self) -> &'static str {
        match self {
            Job::Load => "load",
            Job::Numbers => "numbers",
            Job::Messages => "messages",
            Job::Translations => "translations",
            Job::Rules => "rules",
            Job::Awkward => "awkward",
        }
    }

    // How many rounds it has if no number is given.
    pub(crate) fn rounds(self) -> u64 {
        match self {
            Job::Load => 240,
            Job::Numbers => 24,
            Job::Messages => 150,
            Job::Translations => 24,
            Job::Rules => 24,
            Job::Awkward => 6,
        }
    }

    pub(crate) fn round(
        self,
        alloc: Global,
        source: &mut Source,
        documents: &Documents,
        digest: &mut Digest,
    ) -> Result<()> {
        match self {
            Job::Load => load_round(alloc, source, documents, digest),
            Job::Numbers => numbers_round(alloc, source, documents, digest),
            Job::Messages => messages_round(alloc, source, documents, digest),
            Job::Translations => translations_round(alloc, source, documents, digest),
            Job::Rules => rules_round(alloc, source, documents, digest),
            Job::Awkward => awkward_round(alloc, source, digest),
        }
    }
}
