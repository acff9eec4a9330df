// What the acts of the rule book share, in a record's own octets: the scope's own words "Repeat", "Give up" and "Form", how a run becomes a link, and
// how a link ends. "Drop" changes nothing there.
// The octets that an act writes, `s`, and the width `w` stay two parameters: a struct that held the `&mut` would ask each function here for a clause more, that
// the field is still the reference that came in. What only reads makes a `Record` of them.
#![tactic(auto)]

ghost use Rattle.std.specs.Prelude.{◌≡◌, ◌+◌, ◌≤◌, length};
ghost use Rattle.groups.specs.Groups.{width, stored, Storable};
ghost use Rattle.record.specs.Layout.{decode_run, decode_link, decode_peer, run_size, link_size, record_size};
ghost use Rattle.rules.specs.Parts.{with_sync, with_sc, with_own, finished_as};
ghost use Rattle.rules.specs.Book.{commit_frame, token_request_frame, group_refusal_frame, confirm_frame, deadline, set_t0, sending, abandoning, retransmitting, supersede, formed_run, forming, accepting, ending_link};
ghost use Rattle.rules.specs.Said.{saying_frames, saying_event, saying_refused, Does};
ghost use Rattle.rules.specs.Given.{Paced};

use record::{
    ADDRESS, FINISHED, GROUP, LINK_GROUP, LINK_OWN, LINK_SYNC, RC, REJECTED, RUN, RUN_OWN, Record,
    SC, SPARE, STATE, SUPERSEDED, SYNC, T0, T1, USED,
};
use rules::{Clock, Event, Frame, Frames, Said};

pub fn commit_frame(group: u16) -> Frame
    ensures { result ≡ commit_frame group }
{
    Frame {
        sequence: 1,
        status: 0,
        group,
        counter: 0,
    }
}

pub fn token_request_frame(group: u16) -> Frame
    ensures { result ≡ token_request_frame group }
{
    Frame {
        sequence: 1,
        status: 76,
        group,
        counter: 0,
    }
}

pub fn group_refusal_frame(group: u16) -> Frame
    ensures { result ≡ group_refusal_frame group }
{
    Frame {
        sequence: 1,
        status: 77,
        group,
        counter: 0,
    }
}

pub fn confirm_frame(counter: u16) -> Frame
    ensures { result ≡ confirm_frame counter }
{
    Frame {
        sequence: 2,
        status: 0,
        group: 0,
        counter,
    }
}

// ---- in the run's octets

// Another own commit.
pub fn store_own(r: &mut [u8], w: usize, own: &[u8])
    requires { (length r.old ≡ run_size w) × ((w ≤ width) × (length own.now ≡ w)) }
    ensures { decode_run w r.new ≡ with_own (decode_run w r.old) (stored own.now) }
{
    octets::copy_in(r, RUN_OWN, own);
}

// Another Sync and Sc, and t0 set.
fn count_run(r: &mut [u8], w: usize, sync: u8, sc: u16, clock: Clock)
    requires { Paced clock × ((length r.old ≡ run_size w) × (sync ≤ clock.limit + 1)) }
    ensures { decode_run w r.new ≡ set_t0 clock (with_sync (with_sc (decode_run w r.old) sc) sync) }
{
    let at = deadlines::t0_at(clock, sync);
    octets::put8(r, SYNC, sync);
    octets::put16(r, SC, sc);
    octets::put32(r, T0, at);
}

// The run of "Form": its own commit and its token stay.
fn form_run(r: &mut [u8], w: usize, group: u16, theirs: &[u8], clock: Clock)
    requires { Paced clock × ((length r.old ≡ run_size w) × ((w ≤ width) × ((length theirs.now ≤ width) × Storable w (stored theirs.now)))) }
    ensures { decode_run w r.new ≡ formed_run clock (decode_run w r.old) group (decode_run w r.old).own (stored theirs.now) }
{
    let at = deadlines::t0_at(clock, 0);
    let peer = record::run_peer_at(w);
    octets::put8(r, STATE, 2);
    octets::put8(r, SYNC, 0);
    octets::put8(r, REJECTED, 0);
    octets::put16(r, SC, 1);
    octets::put16(r, GROUP, group);
    octets::put32(r, T0, at);
    groups::put_stored(r, peer, w, theirs);
}

// ---- in the link's octets

// A finished link's mark becomes 1.
fn supersede_link(l: &mut [u8], w: usize)
    requires { length l.old ≡ link_size w }
    ensures { decode_link w l.new ≡ supersede (decode_link w l.old) }
{
    let finished = octets::get8(l, FINISHED);
    if finished == 0 {
        return;
    }
    octets::put8(l, SUPERSEDED, 1);
}

// The numbers of a link that a run becomes; its commits stay.
fn finish_link(l: &mut [u8], w: usize, sync: u8, group: u16, counter: u16, time: u32)
    requires { length l.old ≡ link_size w }
    ensures { decode_link w l.new ≡ finished_as (decode_link w l.old) sync group counter (deadline time 86400000) }
{
    let t1 = deadlines::t1_at(time);
    octets::put8(l, FINISHED, 1);
    octets::put8(l, SUPERSEDED, 0);
    octets::put8(l, LINK_SYNC, sync);
    octets::put8(l, SPARE, 0);
    octets::put16(l, LINK_GROUP, group);
    octets::put16(l, RC, counter);
    octets::put32(l, T1, t1);
}

// ---- in the record's octets

// Frames, no event and no fresh commit.
pub fn say_frames(frames: Frames) -> Said
    ensures { result ≡ saying_frames frames }
{
    Said {
        event: Event::None,
        frames,
        afresh: 0,
        refused: false,
    }
}

// An event and nothing else.
fn say_event(event: Event) -> Said
    ensures { result ≡ saying_event event }
{
    Said {
        event,
        frames: Frames::None,
        afresh: 0,
        refused: false,
    }
}

// "no slot, refuse".
pub fn say_refused() -> Said
    ensures { result ≡ saying_refused }
{
    Said {
        event: Event::None,
        frames: Frames::None,
        afresh: 0,
        refused: true,
    }
}

// Frames are sent for a run with another Sync and Sc, and t0 is set.
pub fn send_counted(s: &mut [u8], w: usize, sync: u8, sc: u16, frames: Frames, clock: Clock) -> Said
    requires { Paced clock × ((length s.old ≡ record_size w) × ((w ≤ width) × (sync ≤ clock.limit + 1))) }
    ensures { Does w result s.new (sending clock (decode_peer w s.old) (with_sync (with_sc (decode_peer w s.old).run sc) sync) frames 0) }
{
    let at = record::link_at(w);
    count_run(&mut s[RUN..at], w, sync, sc, clock);
    say_frames(frames)
}

// "Give up". A record with no link is freed.
pub fn abandon(s: &mut [u8], w: usize) -> Said
    requires { (length s.old ≡ record_size w) × (w ≤ width) }
    ensures { Does w result s.new (abandoning (decode_peer w s.old)) }
{
    let peer = Record {
        octets: s,
        width: w,
    };
    let finished = peer.finished();
    if finished == 0 {
        record::clear(s);
        return say_event(Event::Abandoned);
    }
    let at = record::link_at(w);
    record::clear(&mut s[RUN..at]);
    say_event(Event::Abandoned)
}

// "Repeat", with the Sc that the run then has.
pub fn retransmit(s: &mut [u8], w: usize, sc: u16, frames: Frames, clock: Clock) -> Said
    requires { Paced clock × ((length s.old ≡ record_size w) × (w ≤ width)) }
    ensures { Does w result s.new (retransmitting clock (decode_peer w s.old) (with_sc (decode_peer w s.old).run sc) frames) }
{
    let limit = clock.limit;
    let peer = Record {
        octets: s,
        width: w,
    };
    let sync = peer.sync();
    if sync > limit {
        return abandon(s, w);
    }
    send_counted(s, w, sync + 1, sc, frames, clock)
}

// "Form", with the own commit that the run has.
pub fn form_pair(
    s: &mut [u8],
    w: usize,
    address: [u8; 6],
    group: u16,
    theirs: &[u8],
    frames: Frames,
    afresh: u16,
    clock: Clock,
) -> Said
    requires { Paced clock × ((length s.old ≡ record_size w) × ((w ≤ width) × ((length theirs.now ≤ width) × Storable w (stored theirs.now)))) }
    ensures { Does w result s.new (forming clock (decode_peer w s.old) address group (decode_peer w s.old).run.own (stored theirs.now) frames afresh) }
{
    let at = record::link_at(w);
    let end = record::record_size(w);
    form_run(&mut s[RUN..at], w, group, theirs, clock);
    supersede_link(&mut s[at..end], w);
    octets::put8(s, USED, 1);
    octets::put_array(s, ADDRESS, address);
    Said {
        event: Event::None,
        frames,
        afresh,
        refused: false,
    }
}

// The run becomes the link: its two commits, which lie side by side, go over in one copy.
pub fn accept(s: &mut [u8], w: usize, counter: u16, time: u32) -> Said
    requires { (length s.old ≡ record_size w) × (w ≤ width) }
    ensures { Does w result s.new (accepting (decode_peer w s.old) counter time) }
{
    let at = record::link_at(w);
    let end = record::record_size(w);
    let peer = Record {
        octets: s,
        width: w,
    };
    let sync = peer.sync();
    let group = peer.group();
    octets::copy_within(s, RUN + RUN_OWN, at + LINK_OWN, w + w);
    finish_link(&mut s[at..end], w, sync, group, counter, time);
    record::clear(&mut s[RUN..at]);
    say_event(Event::Accepted)
}

// The link ends; a run stays. A record with no run is freed.
pub fn end_link(s: &mut [u8], w: usize) -> Said
    requires { (length s.old ≡ record_size w) × (w ≤ width) }
    ensures { Does w result s.new (ending_link (decode_peer w s.old)) }
{
    let peer = Record {
        octets: s,
        width: w,
    };
    let state = peer.state();
    if state == 0 {
        record::clear(s);
        return say_event(Event::Ended);
    }
    let at = record::link_at(w);
    let end = record::record_size(w);
    record::clear(&mut s[at..end]);
    say_event(Event::Ended)
}
