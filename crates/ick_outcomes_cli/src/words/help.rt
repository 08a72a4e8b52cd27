//! The text that help prints below the usage and the arguments.

/// The text of `ick-outcomes --help`.
pub const OUTCOMES: &str =
    "Prints a line for each outcome of the program: the number of its runs, their weight, the
choices of the first of them, the end and the output. Then comes DONE. An outcome is an
output together with an end. With FILE the input is standard input, and without it the
input is empty.

Without --limit all states are searched, so runs may have any length. Infinitely many runs
are a *, and the line NEVER has the weight of the runs that never end. --memory bounds the
bytes of the states, and excludes --limit.

With --ends outcomes are told apart by their ends alone, and lines have no output.

The weight of a run is its probability if each choice were drawn by itself with the
chance of its statement. Nothing is claimed of the choices that a seed draws.

With --asked a line for each run of LISTING says which statement asked for each choice,
and its chance: STATEMENT:CHANCE STATEMENT:CHANCE .. for the first 10000 choices. The runs
are cut short after 10000 steps if no limit is given.

With --states a line for each state in which a choice is asked, and two for its choices:
  state STATE STATEMENT:CHANCE OUTPUT
  edge FROM CHOICE TO CHANCE STEPS
A line `end STATE WEIGHT END OUTPUT` is a state in which runs end, and a line `never ..` one
from which no run ends. States that are equal come once. The run begins in state 0.

Exit status:
  0   the outcomes were listed
  2   the source is refused
  4   a file, a stream or memory failed, the input is too long, or there are too many states
  64  wrong arguments, or a line of LISTING isn't of this program and input

Example:
  ick-outcomes examples/choice.i";
