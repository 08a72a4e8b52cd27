//! The text that help prints below the usage and the arguments.

/// The text of `ick-stages --help`.
pub const STAGES: &str =
    "Prints for each statement its line as in `ick list`, with its line and column behind its
number, then the lines of its stages, and last DONE. Without one of --tree, --operations,
--parts, --rules, --instructions and --traces the lines of all stages are printed. If the source
is refused, the stages are trees and parts, and REFUSED is printed with the number of the fault
and that of the statement. --parts prints every fault before it.

Exit status:
  0   the stages were shown
  2   the source is refused
  4   a file, a stream or memory failed
  64  wrong arguments, or there is no such statement

Example:
  ick-stages --statement 2 examples/choice.i";
