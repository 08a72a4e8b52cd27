//! The text that help prints below the usage and the arguments.

/// The text of `ick-step --help`.
pub const STEP: &str =
    "Reads commands from standard input, one a line, and prints the answer to each. The command
`help` lists the commands. With --trace it reads no commands, and prints a line for each step:
STEP STATEMENT LINE:COLUMN TEXT. The lines below that begin with two blanks say what the step
changed. STEP counts the steps before this one. The run is cut short after 1000000 steps if no
limit is given.

Exit status:
  0   the session is over; with --trace, the program gave up
  1   with --trace, a fault of the run
  2   the source is refused
  3   with --trace, the run was cut short, or wants a choice
  4   a file, a stream or memory failed, or the input is too long
  64  wrong arguments

Example:
  ick-step --trace examples/hello.i";
