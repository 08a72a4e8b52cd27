//! The texts that the help of each command prints below its usage and its arguments.

/// The text of `ick --help`.
pub const ICK: &str = "Without a command, ick runs the program on standard input, as `ick run` does.

Exit status:
  0   all went well
  1   a fault of the run
  2   the source is refused
  3   the run was cut short, or wants a choice
  4   a file, a stream or memory failed, or the input is too long
  64  wrong arguments

Example:
  ick run examples/numerals.i";

/// The text of `ick check --help`.
pub const CHECK: &str = "Prints `n STATEMENTS, p POLITE`, or says why the source is refused.

Exit status:
  0   the source compiles
  2   it is refused
  4   a file, a stream or memory failed
  64  wrong arguments

Example:
  ick check examples/bodies.i";

/// The text of `ick list --help`.
pub const LIST: &str = "Prints a line for each statement: its number, its label, DO or PLEASE,
NOT if it is abstained from at the start, its chance, its kind and its text.

Exit status:
  0   the source compiles
  2   it is refused
  4   a file, a stream or memory failed
  64  wrong arguments

Example:
  ick list examples/bodies.i";

/// The text of `ick run --help`.
pub const RUN: &str =
    "Prints what the program reads out. With FILE its input is standard input. Without FILE the
input is empty. A run that asks for more choices than it is given stops there. With neither
--choices nor --seed it is given none. It is cut short after 1000000 steps if no limit is
given.

Exit status:
  0   the program gave up
  1   a fault of the run
  2   the source is refused
  3   the run was cut short, or wants a choice
  4   a file, a stream or memory failed
  64  wrong arguments

Example:
  ick run examples/numerals.i";

/// The text of `ick runs --help`.
pub const RUNS: &str =
    "Prints a line for each run that the program can make, in the order of their choices:
the choices, the end and the output. The last line is MORE if there are further runs, and
else DONE. With --from the listing goes on after the run with these choices. With FILE
the input is standard input. Each run is cut short after 10000 steps if no limit is
given.

Exit status:
  0   the runs were listed
  2   the source is refused
  4   a file, a stream or memory failed, or the input is too long
  64  wrong arguments

Example:
  ick runs examples/choice.i";
