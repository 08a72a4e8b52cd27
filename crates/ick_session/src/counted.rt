//! How many choices a session has answered.

ghost use Rattle.std.specs.Prelude.{◌≡◌, length};
ghost use Rattle.ick_step.specs.History.{choices_in};

/// Returns how many of the answers are choices.
pub fn count_choices(answers: &[Option<bool>]) -> usize
    ensures { result ≡ length (choices_in answers.now) }
{
    let mut count = 0;
    for at in 0..answers.len() {
        let answer = answers[at];
        if answer.is_some() {
            count += 1;
        }
    }
    count
}
