ghost use Rattle.std.specs.Prelude.{◌≡◌, ◌<◌, ◌^◌};
ghost use Rattle.no_profile.specs.Gains.{call_cost, gain_of, kept_cost, moved_cost};
ghost use Rattle.no_profile.specs.Ranges.{IsInRange};

use crate::profile::{Line, Rates};

/// What a call costs that moves.
fn call_cost(line: &Line, rates: &Rates) -> u128
    requires { IsInRange line.now }
    ensures value { result ≡ call_cost line.now rates.now }
    ensures small { result < 2 ^ 66 }
{
    2 * line.pages as u128 * 4096 * rates.byte as u128 + rates.call as u128
}

/// What the steps cost on the device.
fn kept_cost(line: &Line, rates: &Rates) -> u128
    requires { IsInRange line.now }
    ensures value { result ≡ kept_cost line.now rates.now }
    ensures small { result < 2 ^ 100 }
{
    line.steps as u128 * rates.device as u128
}

/// What the steps cost on the server, and the calls.
fn moved_cost(line: &Line, rates: &Rates) -> u128
    requires { IsInRange line.now }
    ensures value { result ≡ moved_cost line.now rates.now }
    ensures small { result < 2 ^ 100 }
{
    line.steps as u128 * rates.server as u128 + line.calls as u128 * call_cost(line, rates)
}

/// What it gains to move a function's calls to a server, less than 0 where it loses:
/// `steps * (device - server) - calls * (2 * pages * 4096 * byte + call)`.
pub fn gain(line: &Line, rates: &Rates) -> i128
    requires { IsInRange line.now }
    ensures { result ≡ gain_of line.now rates.now }
{
    kept_cost(line, rates) as i128 - moved_cost(line, rates) as i128
}
