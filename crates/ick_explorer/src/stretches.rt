//! Keeps the stretches of a list of choices that grows and shrinks at its end.

ghost use Rattle.std.specs.Prelude.{◌≡◌, ◌+◌, ◌<◌, ◌≤◌, ◌∷◌, ◌++◌, [], Bool, List, OnOk};
ghost use Rattle.std.specs.Prelude.{length, take, vec_len, vec_capacity};
ghost use Rattle.ick_explorer.specs.ChoiceTexts.{stretches};
ghost use Rattle.ick_explorer.specs.Choices.{seen_stretches};

use ick_bits::NoMemory;

/// Describes a stretch of equal choices.
#[derive(Clone, Copy)]
pub(crate) struct Stretch {
    pub(crate) choice: bool,
    pub(crate) size: usize,
}

/// Adds the choices from `from` on to the stretches of the choices before them. If this call runs
/// out of memory, it may have added some of them.
pub(crate) fn group(kept: &mut Vec<Stretch>, choices: &[bool], from: usize) -> Result<(), NoMemory>
    requires within { from ≤ length choices.now }
    requires before { seen_stretches kept.old.items ≡ stretches (take from choices.now) }
    ensures { OnOk result (seen_stretches kept.new.items ≡ stretches choices.now) }
{
    let mut at = from;
    while at < choices.len() {
        let choice = choices[at];
        let count = kept.len();
        if count > 0 && kept[count - 1].choice == choice {
            kept[count - 1].size += 1;
        } else {
            let Ok(()) = kept.push(Stretch { choice, size: 1 }) else {
                return Err(NoMemory);
            };
        }
        at += 1;
    }
    Ok(())
}

/// Takes the last choice off the stretches of a list, which must not be empty.
pub(crate) fn shorten(kept: &mut Vec<Stretch>)
    requires { 0 < length kept.old.items }
    ensures { (c : List Bool) (b : Bool) →
        seen_stretches kept.old.items ≡ stretches (c ++ b ∷ []) →
        seen_stretches kept.new.items ≡ stretches c }
{
    let last = kept.take_last();
    if last.size > 1 {
        kept.push_reserved(Stretch {
            choice: last.choice,
            size: last.size - 1,
        });
    }
}
