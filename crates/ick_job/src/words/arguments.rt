//! The arguments of the commands, each with its help.

use crate::words::argument::{Argument, Form};
use clap::builder::ValueParser;

/// FILE, which names the source.
pub const FILE: Argument<'static> = Argument {
    name: "file",
    form: Form::Place("FILE"),
    help: "The source; standard input if none is given",
};

/// The option `-b`, which changes nothing.
pub const BUG: Argument<'static> = Argument {
    name: "bug",
    form: Form::Letter('b'),
    help: "Changes nothing: there is no random compiler bug to switch off",
};

/// The option for the choices of a run.
pub const CHOICES: Argument<'static> = Argument {
    name: "choices",
    form: Form::Text("C"),
    help: "The choices of the run, as in a listing: --choices=- for none",
};

/// The option for the run after which a listing begins.
pub const FROM: Argument<'static> = Argument {
    name: "from",
    form: Form::Text("C"),
    help: "The run to go on after, by its choices: --from=- for none",
};

/// The option for the seed that draws the choices of a run.
pub const SEED: Argument<'static> = Argument {
    name: "seed",
    form: Form::Number(ValueParser::Unsigned(0, 18_446_744_073_709_551_615)),
    help: "Draws the choices of the run by this seed",
};

/// The option for the limit on the steps of a run.
pub const LIMIT: Argument<'static> = Argument {
    name: "limit",
    form: Form::Number(ValueParser::Signed(0, 4_294_967_295)),
    help: "The steps after which a run is cut short",
};

/// The option for how many runs a listing shows.
pub const COUNT: Argument<'static> = Argument {
    name: "count",
    form: Form::Number(ValueParser::Signed(1, 1_000_000)),
    help: "How many runs are shown at most, from 1 to 1000000; 1000 if none is given",
};

/// The option for the file that has the input.
pub const INPUT: Argument<'static> = Argument {
    name: "input",
    form: Form::Text("FILE"),
    help: "The file with the input of the run; the input is empty if none is given",
};

/// The option by which a line is printed for each step.
pub const TRACE: Argument<'static> = Argument {
    name: "trace",
    form: Form::Flag,
    help: "Prints a line for each step and what it changed, and reads no commands",
};

/// The option for the number of states that are kept at a time.
pub const MOST: Argument<'static> = Argument {
    name: "most",
    form: Form::Number(ValueParser::Signed(1, 4_294_967_295)),
    help: "How many states are kept at a time; 1000000 if none is given",
};

/// The option for the bytes that the states may take.
pub const MEMORY: Argument<'static> = Argument {
    name: "memory",
    form: Form::Number(ValueParser::Unsigned(1, 18_446_744_073_709_551_615)),
    help: "How many bytes the states may take if no limit is given; 2000000000 if none is given",
};

/// The option by which weights are exact.
pub const EXACT: Argument<'static> = Argument {
    name: "exact",
    form: Form::Flag,
    help: "Prints all digits of each weight",
};

/// The option by which only the numbers of outcomes and of runs are printed.
pub const TOTAL: Argument<'static> = Argument {
    name: "total",
    form: Form::Flag,
    help: "Prints only how many outcomes and how many runs there are",
};

/// The option by which outcomes are told apart by their ends alone.
pub const ENDS: Argument<'static> = Argument {
    name: "ends",
    form: Form::Flag,
    help: "Tells outcomes apart by their ends alone, and leaves out what runs write",
};

/// The option by which states and where they lead are printed.
pub const STATES: Argument<'static> = Argument {
    name: "states",
    form: Form::Flag,
    help: "Prints the states in which choices are asked, and where the choices lead",
};

/// The option for the listing whose choices are explained.
pub const ASKED: Argument<'static> = Argument {
    name: "asked",
    form: Form::Text("LISTING"),
    help: "Prints which statements asked in each run of LISTING, a file that `ick runs` wrote, \
           and no outcomes",
};

/// The option by which the tree of each statement is printed.
pub const TREE: Argument<'static> = Argument {
    name: "tree",
    form: Form::Flag,
    help: "Prints the tree of each statement",
};

/// The option by which the operations of each statement are printed.
pub const OPERATIONS: Argument<'static> = Argument {
    name: "operations",
    form: Form::Flag,
    help: "Prints the operations of each statement, and how deep the stack is behind each",
};

/// The option by which the places of the parts of each statement are printed.
pub const PARTS: Argument<'static> = Argument {
    name: "parts",
    form: Form::Flag,
    help: "Prints the places of the parts of each statement, and where reading stops",
};

/// The option by which the steps of lowering are printed.
pub const RULES: Argument<'static> = Argument {
    name: "rules",
    form: Form::Flag,
    help: "Prints the steps of lowering with their rules, and what is dropped",
};

/// The option by which the instructions of each statement are printed.
pub const INSTRUCTIONS: Argument<'static> = Argument {
    name: "instructions",
    form: Form::Flag,
    help: "Prints the instructions of each statement, and the operations that they come of",
};

/// The option by which the traces that begin with each statement are printed.
pub const TRACES: Argument<'static> = Argument {
    name: "traces",
    form: Form::Flag,
    help: "Prints the trace that begins with each statement",
};

/// The option for the only statement that is shown.
pub const STATEMENT: Argument<'static> = Argument {
    name: "statement",
    form: Form::Number(ValueParser::Signed(1, 4_294_967_295)),
    help: "Shows this statement alone",
};
