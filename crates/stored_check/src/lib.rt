// Checking stored bytes: acceptance with the four counts, or 50 with its offset.
#![tactic(auto)]

ghost use Rattle.std.specs.Prelude.{◌≡◌, ◌≤◌, length};
ghost use Rattle.rules.specs.Answers.{answer};
ghost use Rattle.rules.specs.Stored as rule;
ghost use Rattle.object_answer.specs.Meant.{meant};

use base_capacities::LABELS;
use base_refusals::BAD_FIELD;
use object_answer::Answer;
use stored_walk::Walked;

// The fields one after another, with room to note where the labels' fields stand.
fn check_fields(bytes: &[u8], places: &mut [usize]) -> Answer
    requires { 1024 ≤ length places.old }
    ensures { meant result ≡ answer (rule.check bytes.now) }
{
    let mut w = stored_walk::begin();
    // A loop: each turn passes fields, and the bytes say where they end.
    loop {
        match stored_walk::step(bytes, places, w) {
            Walked::On(next) => {
                w = stored_run::label_run(bytes, places, next);
            }
            Walked::Ended(c) => {
                return object_answer::acceptance(c);
            }
            Walked::Broken(at) => {
                return object_answer::refusal(BAD_FIELD, at, at, 0, 0);
            }
        }
    }
}

// Whether the bytes are the stored form of an object.
pub fn check(bytes: &[u8]) -> Answer
    ensures { meant result ≡ answer (rule.check bytes.now) }
{
    let mut places = [0usize; LABELS];
    check_fields(bytes, &mut places)
}
