// The clock, "a 32-bit count of milliseconds that wraps": deadlines by wrapping add, the due test by wrapping subtract.
#![tactic(auto)]

ghost use Rattle.std.specs.Prelude.{◌≡◌, ◌+◌, ◌≤◌};
ghost use Rattle.record.specs.Reading.{peer_in};
ghost use Rattle.rules.specs.Book.{delay, deadline, due, t0_due, expired};
ghost use Rattle.rules.specs.Given.{Paced};

use record::Record;
use rules::Clock;

// Half of the clock's range.
const HALF: u32 = 2147483648;

// A day, after which a link ends.
const LIFETIME: u32 = 86400000;

// "A deadline is due when (reading − deadline) modulo 2^32 is below 2^31."
pub fn is_due(time: u32, at: u32) -> bool
    ensures { result ≡ due time at }
{
    let gone = std::num::wrapping_sub_u32(time, at);
    gone < HALF
}

// "40 × 2^Sync is worked out": the clock's first period, doubled Sync times.
fn delay_of(clock: Clock, sync: u8) -> u32
    requires { Paced clock × (sync ≤ clock.limit + 1) }
    ensures { result ≡ delay clock sync }
{
    let period = clock.period as u32;
    let doublings = sync;
    period << doublings
}

fn after(time: u32, wait: u32) -> u32
    ensures { result ≡ deadline time wait }
{
    std::num::wrapping_add_u32(time, wait)
}

// The deadline that "Set t0" sets.
pub fn t0_at(clock: Clock, sync: u8) -> u32
    requires { Paced clock × (sync ≤ clock.limit + 1) }
    ensures { result ≡ deadline clock.time (delay clock sync) }
{
    after(clock.time, delay_of(clock, sync))
}

// "t1 = now + 86,400,000".
pub fn t1_at(time: u32) -> u32
    ensures { result ≡ deadline time 86400000 }
{
    after(time, LIFETIME)
}

// t0 counts only with a run.
pub fn t0_due(peer: &Record, time: u32) -> bool
    ensures { result ≡ t0_due (peer_in peer.now) time }
{
    let state = peer.state();
    let at = peer.t0();
    let due = is_due(time, at);
    (state != 0) & due
}

// Whether a record has a deadline that is due.
pub fn is_expired(peer: &Record, time: u32) -> bool
    ensures { result ≡ expired (peer_in peer.now) time }
{
    let early = t0_due(peer, time);
    let finished = peer.finished();
    let at = peer.t1();
    let late = is_due(time, at);
    early | ((finished != 0) & late)
}
