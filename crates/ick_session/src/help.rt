//! The answer to the command `help`.

ghost use Rattle.std.specs.Prelude.{◌≡◌};
ghost use Rattle.ick_session.specs.Help.{help_text};

/// Returns the list of all commands.
pub fn help() -> &'static [u8]
    ensures { result.now ≡ help_text }
{
    b"step [N]      makes N steps, or 1
back [N]      takes N steps back, or 1
next          makes a step, and if it is a NEXT, all steps until it comes back
out           makes steps until the newest return address was removed
until N       makes steps until statement N is met next
run [N]       makes steps until a choice, the end or the limit, or N steps
break N       stops each command that makes steps in front of statement N
break (LABEL) does the same for the statement with this label
delete [N]    takes the breakpoint of statement N away, or all
choose 0|1    passes over the statement that asks, or does it
print NAME..  shows variables and arrays, such as .1 or ,2
eval EXPR     shows the value of an expression, such as .1 ~ #3, or its fault
stack         shows the NEXT stack
state         shows the whole state
list          shows the statements around the one that is met next
watch NAME    makes steps until one changes the name
why NAME      goes back to the step that last changed the name
output        shows what the run has printed
cursor        shows the choices so far, as `ick run --choices` takes them
help          shows this list
quit          ends the session
Each command may be cut short: s is step, b is back, br is break, sta is stack, wh is why.
A long run can't be stopped from here: use run N, or the program ick-tui, where any key stops it.
A step prints STEPS STATEMENT LINE:COLUMN TEXT: the steps so far, and the statement met next.
"
}
