//! Why a row has no whole answer.

/// A call that can be refused memory, and after which a row can't go on.
#[derive(Clone, Copy)]
pub enum Call {
    Target,
    ReadSource,
    Compile,
    FromText,
    NewCopied,
    NewTrailed,
    NewLive,
    StepOfLive,
    RunOfLive,
    RunWith,
    RunSeeded,
    RunStream,
    After,
    Next,
    WriteRuns,
    Serve,
}

impl Call {
    /// Returns the call's name. `Target` is the room of a text that something is appended to.
    pub fn name(self) -> &'static str {
        match self {
            Call::Target => "a target",
            Call::ReadSource => "read_source",
            Call::Compile => "compile",
            Call::FromText => "from_text",
            Call::NewCopied => "Copied::new",
            Call::NewTrailed => "Trailed::new",
            Call::NewLive => "Live::new",
            Call::StepOfLive => "step of Live",
            Call::RunOfLive => "run of Live",
            Call::RunWith => "run_with",
            Call::RunSeeded => "run_seeded",
            Call::RunStream => "run_stream",
            Call::After => "after",
            Call::Next => "next",
            Call::WriteRuns => "write_runs",
            Call::Serve => "serve",
        }
    }
}

/// Why a row has no whole answer.
#[derive(Clone, Copy)]
pub enum Failure {
    /// This call was refused memory, and all holds that must hold after that.
    Refused(Call),
    /// Something does not hold that must hold.
    Wrong(Wrong),
}

/// What does not hold.
#[derive(Clone, Copy)]
pub enum Wrong {
    NoNumber,
    NoSuchCall,
    OtherRefusal,
    ChangedByRefusal,
    RefusedTwice,
    NotFailed,
}

impl Wrong {
    /// Returns what does not hold, in words.
    pub fn text(self) -> &'static str {
        match self {
            Wrong::NoNumber => "a field that is no number",
            Wrong::NoSuchCall => "no such call",
            Wrong::OtherRefusal => "a refusal for another reason",
            Wrong::ChangedByRefusal => "a change by a refused call",
            Wrong::RefusedTwice => "a call that is refused twice",
            Wrong::NotFailed => "a machine or an explorer that has not failed for good",
        }
    }
}
