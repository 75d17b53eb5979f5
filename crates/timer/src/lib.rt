// The discoverable timer of a controller, counted down in place.
#![tactic(auto)]

ghost use Rattle.std.specs.Prelude.{◌≡◌};
ghost use Rattle.model.specs.Hub as Hub;

use model::Timer;

// Counts the lent timer down by the step.
fn count_down(t: &mut Timer, step: u32)
    ensures { t.new ≡ Hub.countdown step t.old }
{
    *t = rules::countdown(*t, step);
}

// The timer after the step: a timer of its own, counted down in place.
pub fn counted_down(t: Timer, step: u32) -> Timer
    ensures { result ≡ Hub.countdown step t }
{
    let mut left = t;
    count_down(&mut left, step);
    left
}
