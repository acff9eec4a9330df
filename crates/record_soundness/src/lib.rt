// The form of a record, tested where its octets lie.
#![tactic(auto)]

ghost use Rattle.std.specs.Prelude.{◌≡◌, ◌&&◌, ◌+◌, ◌≤◌, length, drop};
ghost use Rattle.octets.specs.Octets.{part, all_zero};
ghost use Rattle.groups.specs.Groups.{width, listed};
ghost use Rattle.record.specs.Layout.{run_size, link_size, record_size, decode_run, decode_link, decode_peer};
ghost use Rattle.soundness.specs.Soundness.{rejected_ok, token_ok, committed_ok, confirmed_ok, run_ok, finished_ok, link_ok, in_use_ok, peer_ok};

use record::{
    ADDRESS, FINISHED, GROUP, LINK_GROUP, LINK_OWN, LINK_SYNC, NARROW_LINK, NARROW_RECORD,
    NARROW_RUN, NARROW_WIDTH, REJECTED, RUN, RUN_OWN, SC, SPARE, STATE, SUPERSEDED, SYNC, TOKEN,
    TOKLEN, USED, WIDE_LINK, WIDE_RECORD, WIDE_RUN, WIDE_WIDTH,
};

// Of the m octets from at, those past the first n are zero.
fn zero_tail(s: &[u8], at: usize, n: usize, m: usize) -> bool
    requires { at + m ≤ length s.now }
    ensures { result ≡ all_zero (drop n (part s.now at m)) }
{
    if n == 0 {
        return octets::zero_part(s, at, m);
    }
    groups::zero_past(s, at, m, n)
}

// Every octet is zero. Where the length is one of the two that the forms have, the compiler knows how many octets it looks at.
fn zero_all(s: &[u8], narrow: usize, wide: usize) -> bool
    ensures { result ≡ all_zero s.now }
{
    let n = s.len();
    if n == narrow {
        return octets::zero_part(s, 0, narrow);
    }
    if n == wide {
        return octets::zero_part(s, 0, wide);
    }
    groups::zero_past(s, 0, n, 0)
}

// In each of the tests that follow the commits come first, and what is read from a field stands behind them: it need not be kept over the calls.

// The run's group is a listed one, the rejected groups are, and the run's own is not among them: one search in the list.
fn rejected_ok(s: &[u8], w: usize, groups: &[u16]) -> bool
    requires { length s.now ≡ run_size w }
    ensures { result ≡ (listed groups.now (decode_run w s.now).group && rejected_ok groups.now (decode_run w s.now)) }
{
    let rejected = octets::get8(s, REJECTED);
    let group = octets::get16(s, GROUP);
    match groups::place_of(groups, group) {
        Some(i) => {
            let own = groups::is_marked(rejected, i);
            let past = groups::marks_from(rejected, groups.len());
            (past == 0) & !own
        }
        None => false,
    }
}

fn token_ok(s: &[u8], w: usize) -> bool
    requires { (length s.now ≡ run_size w) × (w ≤ width) }
    ensures { result ≡ token_ok (decode_run w s.now) }
{
    let n = octets::get16(s, TOKLEN);
    let at = record::run_token_at(w);
    let rest = zero_tail(s, at, n as usize, TOKEN);
    (n <= TOKEN as u16) & rest
}

fn committed_ok(s: &[u8], w: usize, groups: &[u16], high: u8) -> bool
    requires { (length s.now ≡ run_size w) × ((w ≤ width) × ((1 ≤ length groups.now) × (length groups.now ≤ 8))) }
    ensures { result ≡ committed_ok groups.now high (decode_run w s.now) }
{
    let group = octets::get16(s, GROUP);
    let n = groups::commit_length(group);
    let at = record::run_peer_at(w);
    let end = record::run_token_at(w);
    let own = groups::zero_past(s, RUN_OWN, w, n);
    let peer = zero_all(&s[at..end], NARROW_WIDTH, WIDE_WIDTH);
    let token = token_ok(s, w);
    let rejected = rejected_ok(s, w, groups);
    let sync = octets::get8(s, SYNC);
    let sc = octets::get16(s, SC);
    (sync <= high) & (rejected & ((sc == 0) & (token & (own & peer))))
}

fn confirmed_ok(s: &[u8], w: usize, groups: &[u16], high: u8) -> bool
    requires { (length s.now ≡ run_size w) × (w ≤ width) }
    ensures { result ≡ confirmed_ok groups.now high (decode_run w s.now) }
{
    let group = octets::get16(s, GROUP);
    let n = groups::commit_length(group);
    let at = record::run_peer_at(w);
    let own = groups::zero_past(s, RUN_OWN, w, n);
    let peer = groups::zero_past(s, at, w, n);
    let token = token_ok(s, w);
    let listed = groups::is_listed(groups, group);
    let sync = octets::get8(s, SYNC);
    let rejected = octets::get8(s, REJECTED);
    let sc = octets::get16(s, SC);
    (sync <= high)
        & ((rejected == 0) & ((sc == sync as u16 + 1) & (listed & (token & (own & peer)))))
}

// The run in its own octets: no run is one zero test over all of them.
pub fn run_ok(s: &[u8], w: usize, groups: &[u16], high: u8) -> bool
    requires { (length s.now ≡ run_size w) × ((w ≤ width) × ((1 ≤ length groups.now) × (length groups.now ≤ 8))) }
    ensures { result ≡ run_ok groups.now high (decode_run w s.now) }
{
    let state = octets::get8(s, STATE);
    if state == 0 {
        return zero_all(s, NARROW_RUN, WIDE_RUN);
    }
    if state == 1 {
        return committed_ok(s, w, groups, high);
    }
    if state == 2 {
        return confirmed_ok(s, w, groups, high);
    }
    false
}

fn finished_ok(s: &[u8], w: usize, groups: &[u16], high: u8) -> bool
    requires { (length s.now ≡ link_size w) × (w ≤ width) }
    ensures { result ≡ finished_ok groups.now high (decode_link w s.now) }
{
    let group = octets::get16(s, LINK_GROUP);
    let n = groups::commit_length(group);
    let at = record::link_peer_at(w);
    let own = groups::zero_past(s, LINK_OWN, w, n);
    let peer = groups::zero_past(s, at, w, n);
    let listed = groups::is_listed(groups, group);
    let finished = octets::get8(s, FINISHED);
    let superseded = octets::get8(s, SUPERSEDED);
    let sync = octets::get8(s, LINK_SYNC);
    let spare = octets::get8(s, SPARE);
    (finished == 1)
        & ((superseded <= 1) & ((sync <= high) & ((spare == 0) & (listed & (own & peer)))))
}

// The link in its own octets: no link is one zero test over all of them.
pub fn link_ok(s: &[u8], w: usize, groups: &[u16], high: u8) -> bool
    requires { (length s.now ≡ link_size w) × (w ≤ width) }
    ensures { result ≡ link_ok groups.now high (decode_link w s.now) }
{
    let finished = octets::get8(s, FINISHED);
    if finished == 0 {
        return zero_all(s, NARROW_LINK, WIDE_LINK);
    }
    finished_ok(s, w, groups, high)
}

fn in_use_ok(s: &[u8], w: usize, own: [u8; 6], groups: &[u16], high: u8) -> bool
    requires { (length s.now ≡ record_size w) × ((w ≤ width) × ((1 ≤ length groups.now) × (length groups.now ≤ 8))) }
    ensures { result ≡ in_use_ok own groups.now high (decode_peer w s.now) }
{
    let at = record::link_at(w);
    let end = record::record_size(w);
    let run = run_ok(&s[RUN..at], w, groups, high);
    let link = link_ok(&s[at..end], w, groups, high);
    let used = octets::get8(s, USED);
    let address = octets::take(s, ADDRESS);
    let state = octets::get8(s, RUN + STATE);
    let finished = octets::get8(s, at + FINISHED);
    let usable = soundness::is_usable(own, address);
    (used == 1) & (usable & (run & (link & ((state != 0) | (finished != 0)))))
}

// The record in its own octets: a free slot is one zero test over all of them.
pub fn peer_ok(s: &[u8], w: usize, own: [u8; 6], groups: &[u16], high: u8) -> bool
    requires { (length s.now ≡ record_size w) × ((w ≤ width) × ((1 ≤ length groups.now) × (length groups.now ≤ 8))) }
    ensures { result ≡ peer_ok own groups.now high (decode_peer w s.now) }
{
    let used = octets::get8(s, USED);
    if used == 0 {
        return zero_all(s, NARROW_RECORD, WIDE_RECORD);
    }
    in_use_ok(s, w, own, groups, high)
}
