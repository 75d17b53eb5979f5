// A packet over 1,160 octets, of which no more is known than its code, its index, how many octets its parameters have and the first four of them: it
// is refused, whatever the others are.
ghost use Rattle.std.specs.Prelude.{◌≡◌, true, ◌++◌, ◌-◌, ◌≤◌, ◌<◌, length, replicate};
ghost use Rattle.model.specs.Lengths as Lengths;
ghost use Rattle.model.specs.State.{controller_at};
ghost use Rattle.model.specs.Reasons.{status_of};
ghost use Rattle.model.specs.Commands.{rule};
ghost use Rattle.model.specs.Layout.{decode};
ghost use Rattle.model.specs.Meanings.{state_ok};
ghost use Rattle.model.specs.Long.{list_fits, long_reason};
ghost use Rattle.replies.specs.Answers.{Gives};
ghost use Rattle.outcomes.specs.Outcomes.{any_command};

use crate::command::Command;
use model::{Answer, codes, statuses};

// Whether it is a list of keys whose parameters, n octets, are as many as its count says.
fn list_fits(code: u64, n: usize, first: &[u8]) -> bool
    requires { length first.now ≡ 4 }
    ensures { result ≡ list_fits code n first.now }
{
    match code {
        codes::LOAD_LINK_KEYS => n == 3 + 25 * octets::u16_at(first, 1) as usize,
        codes::LOAD_LONG_TERM_KEYS => n == 2 + 36 * octets::u16_at(first, 0) as usize,
        codes::LOAD_IDENTITY_KEYS => n == 2 + 23 * octets::u16_at(first, 0) as usize,
        _ => false,
    }
}

// The status of the refusal.
fn status(state: &[u8], index: u64, code: u64, fits: bool) -> u8
    requires { (state_ok state.now ≡ true) × (length state.now ≡ Lengths.state) }
    ensures { result ≡ status_of (long_reason index fits (controller_at (decode state.now).plain index) (rule code)) }
{
    match Command::try_from(code) {
        Ok(Command::ToHub(_)) => {
            if index == 0xFFFF {
                statuses::INVALID_PARAMETERS
            } else {
                statuses::INVALID_INDEX
            }
        }
        Ok(Command::ToController(_)) => {
            if !layout::present(state, index) {
                return statuses::INVALID_INDEX;
            }
            if fits {
                statuses::NO_RESOURCES
            } else {
                statuses::INVALID_PARAMETERS
            }
        }
        Err(_) => statuses::UNKNOWN_COMMAND,
    }
}

// The refusal: what the command comes to with these four octets and any others behind them, here zeros.
pub fn refuse(
    state: &[u8],
    index: u64,
    code: u64,
    n: usize,
    first: &[u8],
    reply: &mut [u8],
) -> Answer
    requires { (state_ok state.now ≡ true) × (length state.now ≡ Lengths.state) × (1154 < n) × (length first.now ≡ 4)
        × (Lengths.reply_buffer ≤ length reply.old) }
    ensures { Gives (any_command state.now index code (first.now ++ replicate (n - 4) 0)) result reply.old reply.new
        state.now }
{
    let fits = list_fits(code, n, first);
    let s = status(state, index, code, fits);
    replies::refuse(reply, index, code, s)
}
