//! Error texts.
ghost use Rattle.std.specs.Prelude.{◌≡◌};
ghost use Rattle.ick_job.specs.Notice.{notice_text};

/// A line that the program has itself, so that it takes no memory.
#[derive(Clone, Copy)]
pub enum Notice {
    ChoicesAndSeed,
    BadCursor,
    NoSuchRun,
    SourceTooLong,
    InputTooLong,
    ListingTooLong,
    TooManyStates,
    FileNotRead,
    ReadFailed,
    WriteFailed,
    OutOfMemory,
    WordsNotRead,
}

/// The lines of the notices, in their order, each with its line end.
static LINES: [&[u8]; 12] = [
    b"CHOICES AND SEED TOGETHER\n",
    b"BAD CURSOR\n",
    b"NO SUCH RUN\n",
    b"SOURCE TOO LONG\n",
    b"INPUT TOO LONG\n",
    b"LISTING TOO LONG\n",
    b"TOO MANY STATES\n",
    b"FILE NOT READ\n",
    b"READ FAILED\n",
    b"WRITE FAILED\n",
    b"OUT OF MEMORY\n",
    b"WORDS NOT READ\n",
];

impl Notice {
    /// Returns the line, with its line end.
    pub fn text(self) -> &'static [u8]
        ensures { result.now ≡ notice_text self }
    {
        LINES[self as usize]
    }
}

/// The error text of an answer.
#[derive(Drop)]
pub enum Message {
    Nothing,
    Notice(Notice),
    Text(Vec<u8>),
}
