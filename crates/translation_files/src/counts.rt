//! What became of the messages of a file.

ghost use Rattle.std.specs.Prelude.{◌≡◌, ◌+◌, ◌^◌, ◌≤◌, OnOk, OnErr};

use std::alloc::AllocError;

/// What became of a message.
#[derive(Clone, Copy, Debug, PartialEq, Eq)]
pub enum Fate {
    /// All of it is checked.
    Checked,
    /// It is checked, and a notice tells what of it isn't, or isn't by the rules.
    Noted,
    /// It isn't checked, and a notice tells why.
    LeftOut,
}

/// What became of the messages of a file. The counts add up to the messages that were read.
#[derive(Clone, Copy, Debug)]
pub struct FileCounts {
    /// All messages.
    pub read: u64,
    /// Those that are checked.
    pub checked: u64,
    /// Those of which a note tells what isn't checked.
    pub noted: u64,
    /// Those that are left out.
    pub left_out: u64,
    pub ghost adds_up: { read ≡ checked + (noted + left_out) },
}

impl FileCounts {
    ghost use Rattle.translation_files.specs.MessageFates.{checked_of, noted_of, left_out_of};

    /// Returns the counts of no message.
    pub fn none() -> FileCounts
        ensures { result.read ≡ 0 }
    {
        FileCounts {
            read: 0,
            checked: 0,
            noted: 0,
            left_out: 0,
        }
    }

    /// Counts so many messages of a fate. It allocates nothing: a count of 2^64 or more is reported as
    /// out of memory.
    pub fn add(&mut self, fate: Fate, count: u64) -> Result<(), AllocError>
        ensures read { OnOk result (self.new.read ≡ self.old.read + count) }
        ensures checked { OnOk result (self.new.checked ≡ self.old.checked + checked_of fate count) }
        ensures noted { OnOk result (self.new.noted ≡ self.old.noted + noted_of fate count) }
        ensures left_out { OnOk result (self.new.left_out ≡ self.old.left_out + left_out_of fate count) }
        ensures full { OnErr result (2 ^ 64 ≤ self.old.read + count) }
        ensures err { OnErr result (self.new ≡ self.old) }
    {
        let Some(read) = self.read.checked_add(count) else {
            return Err(AllocError);
        };
        *self = self.grown(read, fate, count);
        Ok(())
    }

    // The counts of so many more messages of a fate, which are so many in all.
    fn grown(&self, read: u64, fate: Fate, count: u64) -> FileCounts
        requires { read ≡ self.now.read + count }
        ensures read { result.read ≡ read }
        ensures checked { result.checked ≡ self.now.checked + checked_of fate count }
        ensures noted { result.noted ≡ self.now.noted + noted_of fate count }
        ensures left_out { result.left_out ≡ self.now.left_out + left_out_of fate count }
    {
        let FileCounts {
            checked,
            noted,
            left_out,
            ..
        } = *self;
        match fate {
            Fate::Checked => FileCounts {
                read,
                checked: checked + count,
                noted,
                left_out,
            },
            Fate::Noted => FileCounts {
                read,
                checked,
                noted: noted + count,
                left_out,
            },
            Fate::LeftOut => FileCounts {
                read,
                checked,
                noted,
                left_out: left_out + count,
            },
        }
    }
}
