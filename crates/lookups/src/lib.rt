// The lookups: what a host asks of a table that stays as it is: how long until the next deadline, where a record lies, and how many good links.
#![tactic(auto)]

ghost use Rattle.std.specs.Prelude.{◌≡◌};
ghost use Rattle.record.specs.Reading.{peer_in};
ghost use Rattle.table.specs.Table.{decode_table, slot, Reaches, Reached};
ghost use Rattle.lookups.specs.Lookups.{time_left, left_if, peer_left, least_below, asks_deadline, asks_offset, asks_good};

use causes::Refusal;
use record::{HEADER, Record};
use table::Entrance;

// All ones: there is no deadline.
const NO_DEADLINE: u32 = 4294967295;

// ---- the next deadline

// The time left until a deadline, 0 if it is due.
fn time_left(time: u32, at: u32) -> u32
    ensures { result ≡ time_left time at }
{
    let due = deadlines::is_due(time, at);
    let ahead = std::num::wrapping_sub_u32(at, time);
    if due {
        return 0;
    }
    ahead
}

// All ones for a deadline that does not count.
fn left_if(counts: bool, time: u32, at: u32) -> u32
    ensures { result ≡ left_if counts time at }
{
    if !counts {
        return NO_DEADLINE;
    }
    time_left(time, at)
}

// The time left until the earlier deadline of a record: t0 counts only with a run, t1 only with a link.
fn peer_left(peer: &Record, time: u32) -> u32
    ensures { result ≡ peer_left (peer_in peer.now) time }
{
    let state = peer.state();
    let t0 = peer.t0();
    let finished = peer.finished();
    let t1 = peer.t1();
    let run = left_if(state != 0, time, t0);
    let link = left_if(finished != 0, time, t1);
    run.min(link)
}

fn left_at(t: &[u8], w: usize, k: usize, time: u32) -> u32
    requires { Reached t.now w k }
    ensures { result ≡ peer_left (slot (decode_table t.now) k) time }
{
    let a = record::record_at(w, k);
    let e = a + record::record_size(w);
    let peer = Record {
        octets: &t[a..e],
        width: w,
    };
    peer_left(&peer, time)
}

// The least time left in the slots below n: one pass over the records.
fn left_below(t: &[u8], w: usize, n: usize, time: u32) -> u32
    requires { Reaches t.now w n }
    ensures { result ≡ least_below (λ k. peer_left (slot (decode_table t.now) k) time) n }
{
    let mut least = NO_DEADLINE;
    for k in 0..n {
        least = least.min(left_at(t, w, k, time));
    }
    least
}

// How long until the earliest deadline of the table. Cause 2.
pub fn next_deadline(t: &[u8], time: u32) -> Result<u32, Refusal>
    ensures { result ≡ asks_deadline t.now time }
{
    let header = table::check(t)?;
    let n = header.geometry.slots as usize;
    let w = record::width_of(header);
    let left = left_below(t, w, n, time);
    Ok(left)
}

// ---- where a record lies

// Where the record of an address lies, 0 if it has none. Causes 2, 3.
pub fn find(t: &[u8], address: [u8; 6]) -> Result<u32, Refusal>
    ensures { result ≡ asks_offset t.now address }
{
    let Entrance { header, slot } = table::enter(t, address)?;
    let Some(k) = slot else {
        return Ok(0);
    };
    let w = record::width_of(header);
    let at = record::record_at(w, k);
    Ok(at as u32)
}

// ---- how many good links

// The number of good links, from the octets of a header alone. Cause 2.
pub fn good_links(header: &[u8]) -> Result<u32, Refusal>
    ensures { result ≡ asks_good header.now }
{
    if header.len() != HEADER {
        return Err(Refusal::Unsound);
    }
    let h = table::header_of(header);
    if !good_links::is_possible(h) {
        return Err(Refusal::Unsound);
    }
    Ok(h.counts.good as u32)
}
