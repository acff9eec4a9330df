// The acts of the rule book by their names, in a record's own octets: what only one act does, and `perform`, which does the one that is named.
// The octets that an act writes, `s`, stand beside the width `w`, or beside what the call gives, which has the width: a struct that held the `&mut` would ask
// each function here for a clause more, that the field is still the reference that came in. What only reads makes a `Record` of them.
#![tactic(auto)]

ghost use Rattle.std.specs.Prelude.{◌≡◌, ◌+◌, ◌≤◌, ◌<◌, length, get_or};
ghost use Rattle.groups.specs.Groups.{width, stored, fresh_at, fresh_for};
ghost use Rattle.groups.specs.Stocked.{commits_in};
ghost use Rattle.record.specs.Layout.{decode_run, decode_link, decode_peer, run_size, link_size, record_size};
ghost use Rattle.rules.specs.declared.Frames.TheVariants.{One};
ghost use Rattle.rules.specs.Parts.{with_token, switched, heard_again, with_link};
ghost use Rattle.rules.specs.Book.{commit_frame, token_request_frame, group_refusal_frame, set_t0, sending, answering, started_run, starting, switching, answering_commit, confirming_commit, replying_token, repeating_commit, repeating_refusal, confirming_again, resending_both, hearing_last, hearing_again};
ghost use Rattle.rules.specs.Book.{perform as performed};
ghost use Rattle.rules.specs.Said.{saying_frames, Does};
ghost use Rattle.message.specs.Received.{message_in, terms_in, call_in};
ghost use Rattle.rules.specs.Given.{Paced, Whole, Able};

use groups::Stock;
use message::Heard;
use record::{
    ADDRESS, GROUP, LINK_SYNC, RC, REJECTED, RUN, RUN_OWN, Record, STATE, SYNC, T0, TOKLEN, USED,
};
use rules::{Act, Clock, Event, Frames, Said};

// ---- Begin

// The run of "Start", in its octets.
fn start_run(r: &mut [u8], w: usize, group: u16, own: &[u8], clock: Clock)
    requires { Paced clock × ((length r.old ≡ run_size w) × ((w ≤ width) × (length own.now ≡ w))) }
    ensures { decode_run w r.new ≡ set_t0 clock (started_run group (stored own.now)) }
{
    let at = deadlines::t0_at(clock, 0);
    record::clear(r);
    octets::put8(r, STATE, 1);
    octets::put16(r, GROUP, group);
    octets::put32(r, T0, at);
    octets::copy_in(r, RUN_OWN, own);
}

fn start(s: &mut [u8], w: usize, address: [u8; 6], group: u16, own: &[u8], clock: Clock) -> Said
    requires { Paced clock × ((length s.old ≡ record_size w) × ((w ≤ width) × (length own.now ≡ w))) }
    ensures { Does w result s.new (starting clock (decode_peer w s.old) address group (stored own.now)) }
{
    let at = record::link_at(w);
    start_run(&mut s[RUN..at], w, group, own, clock);
    octets::put8(s, USED, 1);
    octets::put_array(s, ADDRESS, address);
    let commit = acts::commit_frame(group);
    Said {
        event: Event::None,
        frames: Frames::One(commit),
        afresh: group,
        refused: false,
    }
}

// "Committed, first group, fresh commit, Sync 0, no token, send Commit, set t0."
pub fn begin(s: &mut [u8], address: [u8; 6], stock: &Stock, clock: Clock) -> Said
    requires { Paced clock × (length s.old ≡ record_size stock.now.width) }
    ensures { let k = stock.now in Does k.width result s.new (starting clock (decode_peer k.width s.old) address (get_or k.groups.now 0 0) (fresh_at (commits_in k) 0)) }
{
    let groups = stock.groups;
    let group = groups[0];
    let own = stock.fresh_at(0);
    start(s, stock.width, address, group, own, clock)
}

// ---- RefuseGroup, AskToken, NoSlot

// "send 77 with it".
fn refuse_group(group: u16) -> Said
    ensures { result ≡ saying_frames (One (group_refusal_frame group)) }
{
    let refusal = acts::group_refusal_frame(group);
    acts::say_frames(Frames::One(refusal))
}

// "send 76 with group and expected token".
fn ask_token(group: u16) -> Said
    ensures { result ≡ saying_frames (One (token_request_frame group)) }
{
    let request = acts::token_request_frame(group);
    acts::say_frames(Frames::One(request))
}

// ---- AnswerCommit, ConfirmCommit

// "fresh commit, Form, send Commit and Confirm".
fn answer_commit(s: &mut [u8], heard: &Heard) -> Said
    requires { Whole heard.now.given.clock heard.now.stock.width s.old }
    ensures { let d = heard.now in let k = d.stock in
        Does k.width result s.new (answering_commit d.given.clock (decode_peer k.width s.old) d.given.address (message_in d) (fresh_for k.groups.now (commits_in k) d.view.group)) }
{
    let w = heard.stock.width;
    let address = heard.given.address;
    let clock = heard.given.clock;
    let group = heard.view.group;
    let at = record::link_at(w);
    let own = heard.stock.fresh_for(group);
    let theirs = heard.commit();
    let commit = acts::commit_frame(group);
    let confirm = acts::confirm_frame(1);
    acts::store_own(&mut s[RUN..at], w, own);
    acts::form_pair(
        s,
        w,
        address,
        group,
        theirs,
        Frames::Two(commit, confirm),
        group,
        clock,
    )
}

// "Form, send Confirm".
fn confirm_commit(s: &mut [u8], heard: &Heard) -> Said
    requires { Whole heard.now.given.clock heard.now.stock.width s.old }
    ensures { let d = heard.now in let w = d.stock.width in Does w result s.new (confirming_commit d.given.clock (decode_peer w s.old) d.given.address (message_in d)) }
{
    let w = heard.stock.width;
    let address = heard.given.address;
    let clock = heard.given.clock;
    let group = heard.view.group;
    let theirs = heard.commit();
    let confirm = acts::confirm_frame(1);
    acts::form_pair(s, w, address, group, theirs, Frames::One(confirm), 0, clock)
}

// ---- SwitchGroup

// The run of a change of group, in its octets.
fn switch_run(r: &mut [u8], w: usize, rejected: u8, group: u16, own: &[u8], clock: Clock)
    requires { Paced clock × ((length r.old ≡ run_size w) × ((length own.now ≡ w) × ((decode_run w r.old).sync ≤ clock.limit + 1))) }
    ensures { decode_run w r.new ≡ set_t0 clock (switched (decode_run w r.old) rejected group (stored own.now)) }
{
    let sync = octets::get8(r, SYNC);
    let at = deadlines::t0_at(clock, sync);
    octets::put8(r, REJECTED, rejected);
    octets::put16(r, GROUP, group);
    octets::put32(r, T0, at);
    octets::copy_in(r, RUN_OWN, own);
}

fn switch_to(s: &mut [u8], w: usize, rejected: u8, group: u16, own: &[u8], clock: Clock) -> Said
    requires { Whole clock w s.old × (length own.now ≡ w) }
    ensures { Does w result s.new (sending clock (decode_peer w s.old) (switched (decode_peer w s.old).run rejected group (stored own.now)) (One (commit_frame group)) group) }
{
    let at = record::link_at(w);
    switch_run(&mut s[RUN..at], w, rejected, group, own, clock);
    let commit = acts::commit_frame(group);
    Said {
        event: Event::None,
        frames: Frames::One(commit),
        afresh: group,
        refused: false,
    }
}

// "mark it rejected and take the first group in its own list that is not marked as rejected, with a fresh commit; none, give up."
fn switch_group(s: &mut [u8], stock: &Stock, clock: Clock) -> Said
    requires { Whole clock stock.now.width s.old }
    ensures { let k = stock.now in Does k.width result s.new (switching clock (decode_peer k.width s.old) k.groups.now (commits_in k)) }
{
    let w = stock.width;
    let groups = stock.groups;
    let peer = Record {
        octets: s,
        width: w,
    };
    let ours = peer.group();
    let before = peer.rejected();
    let i = groups::index_of(groups, ours);
    let rejected = groups::marked_with(before, i);
    match groups::first_left(groups, rejected) {
        Some((k, group)) => {
            let own = stock.fresh_at(k);
            switch_to(s, w, rejected, group, own, clock)
        }
        None => acts::abandon(s, w),
    }
}

// ---- RepeatCommit, RepeatRefusal, ConfirmAgain, ResendBoth

// "Repeat the Commit".
pub fn repeat_commit(s: &mut [u8], w: usize, clock: Clock) -> Said
    requires { Paced clock × ((length s.old ≡ record_size w) × (w ≤ width)) }
    ensures { Does w result s.new (repeating_commit clock (decode_peer w s.old)) }
{
    let peer = Record {
        octets: s,
        width: w,
    };
    let group = peer.group();
    let sc = peer.sc();
    let commit = acts::commit_frame(group);
    acts::retransmit(s, w, sc, Frames::One(commit), clock)
}

// "Repeat sending 77".
fn repeat_refusal(s: &mut [u8], w: usize, group: u16, clock: Clock) -> Said
    requires { Paced clock × ((length s.old ≡ record_size w) × (w ≤ width)) }
    ensures { Does w result s.new (repeating_refusal clock (decode_peer w s.old) group) }
{
    let peer = Record {
        octets: s,
        width: w,
    };
    let sc = peer.sc();
    let refusal = acts::group_refusal_frame(group);
    acts::retransmit(s, w, sc, Frames::One(refusal), clock)
}

// "Repeat with Sc + 1 and a new Confirm".
pub fn confirm_again(s: &mut [u8], w: usize, clock: Clock) -> Said
    requires { Whole clock w s.old }
    ensures { Does w result s.new (confirming_again clock (decode_peer w s.old)) }
{
    let peer = Record {
        octets: s,
        width: w,
    };
    let sc = peer.sc() + 1;
    let confirm = acts::confirm_frame(sc);
    acts::retransmit(s, w, sc, Frames::One(confirm), clock)
}

// "Sync + 1, Sc + 1, send Commit and Confirm, set t0".
fn resend_both(s: &mut [u8], w: usize, clock: Clock) -> Said
    requires { Whole clock w s.old × ((decode_peer w s.old).run.sync ≤ clock.limit) }
    ensures { Does w result s.new (resending_both clock (decode_peer w s.old)) }
{
    let peer = Record {
        octets: s,
        width: w,
    };
    let group = peer.group();
    let sync = peer.sync() + 1;
    let sc = peer.sc() + 1;
    let commit = acts::commit_frame(group);
    let confirm = acts::confirm_frame(sc);
    acts::send_counted(s, w, sync, sc, Frames::Two(commit, confirm), clock)
}

// ---- ReplyToken

// The run with another token, in its octets.
fn store_token(r: &mut [u8], w: usize, toklen: u16, token: [u8; 256])
    requires { (length r.old ≡ run_size w) × (w ≤ width) }
    ensures { decode_run w r.new ≡ with_token (decode_run w r.old) toklen token }
{
    let at = record::run_token_at(w);
    octets::put16(r, TOKLEN, toklen);
    octets::put_array(r, at, token);
}

// "store the token, send Commit with it", a Repeat: where that gives up, the run is cleared, and the token with it.
fn reply_token(s: &mut [u8], heard: &Heard) -> Said
    requires { Whole heard.now.given.clock heard.now.stock.width s.old }
    ensures { let d = heard.now in let w = d.stock.width in Does w result s.new (replying_token d.given.clock (decode_peer w s.old) (message_in d)) }
{
    let w = heard.stock.width;
    let clock = heard.given.clock;
    let toklen = heard.view.toklen;
    let token = heard.token();
    let at = record::link_at(w);
    store_token(&mut s[RUN..at], w, toklen, token);
    repeat_commit(s, w, clock)
}

// ---- HearAgain, HearLast

// The link with another Rc and Sync, in its octets.
fn hear_link(l: &mut [u8], w: usize, rc: u16, sync: u8)
    requires { length l.old ≡ link_size w }
    ensures { decode_link w l.new ≡ heard_again (decode_link w l.old) rc sync }
{
    octets::put8(l, LINK_SYNC, sync);
    octets::put16(l, RC, rc);
}

// Rc is the counter; the link's Sync and the frames are what is given.
fn hear(s: &mut [u8], w: usize, rc: u16, sync: u8, frames: Frames) -> Said
    requires { (length s.old ≡ record_size w) × (w ≤ width) }
    ensures { Does w result s.new (answering (with_link (decode_peer w s.old) (heard_again (decode_peer w s.old).link rc sync)) frames) }
{
    let at = record::link_at(w);
    let end = record::record_size(w);
    hear_link(&mut s[at..end], w, rc, sync);
    acts::say_frames(frames)
}

// "Rc is the counter", which is 65,535.
fn hear_last(s: &mut [u8], w: usize, counter: u16) -> Said
    requires { (length s.old ≡ record_size w) × (w ≤ width) }
    ensures { Does w result s.new (hearing_last (decode_peer w s.old) counter) }
{
    let peer = Record {
        octets: s,
        width: w,
    };
    let sync = peer.link_sync();
    hear(s, w, counter, sync, Frames::None)
}

// "Rc is the counter, Sync + 1 and a Confirm with counter 65,535".
fn hear_again(s: &mut [u8], w: usize, counter: u16) -> Said
    requires { (length s.old ≡ record_size w) × ((w ≤ width) × ((decode_peer w s.old).link.sync < 255)) }
    ensures { Does w result s.new (hearing_again (decode_peer w s.old) counter) }
{
    let peer = Record {
        octets: s,
        width: w,
    };
    let sync = peer.link_sync() + 1;
    let confirm = acts::confirm_frame(65535);
    hear(s, w, counter, sync, Frames::One(confirm))
}

// ---- each act by its name

pub fn perform(s: &mut [u8], heard: &Heard, act: Act) -> Said
    requires { let d = heard.now in let w = d.stock.width in Whole d.given.clock w s.old × Able d.given.clock act (decode_peer w s.old) }
    ensures { let d = heard.now in let w = d.stock.width in Does w result s.new (performed (terms_in d) (call_in d) (decode_peer w s.old) (message_in d) act) }
{
    let w = heard.stock.width;
    let address = heard.given.address;
    let clock = heard.given.clock;
    let group = heard.view.group;
    let counter = heard.view.counter;
    match act {
        Act::Drop => acts::say_frames(Frames::None),
        Act::RefuseGroup => refuse_group(group),
        Act::AskToken => ask_token(group),
        Act::NoSlot => acts::say_refused(),
        Act::AnswerCommit => answer_commit(s, heard),
        Act::ConfirmCommit => confirm_commit(s, heard),
        Act::ReplyToken => reply_token(s, heard),
        Act::SwitchGroup => switch_group(s, &heard.stock, clock),
        Act::RepeatCommit => repeat_commit(s, w, clock),
        Act::RepeatRefusal => repeat_refusal(s, w, group, clock),
        Act::ResendBoth => resend_both(s, w, clock),
        Act::ConfirmAgain => confirm_again(s, w, clock),
        Act::GiveUp => acts::abandon(s, w),
        Act::Accept => acts::accept(s, w, counter, clock.time),
        Act::HearAgain => hear_again(s, w, counter),
        Act::HearLast => hear_last(s, w, counter),
        Act::EndLink => acts::end_link(s, w),
        Act::Begin => begin(s, address, &heard.stock, clock),
    }
}
