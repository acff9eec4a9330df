// The ladders of the rule book: what a frame calls for. Only reads, and nothing is compared before it is asked.
#![tactic(auto)]

ghost use Rattle.std.specs.Prelude.{◌≡◌, ◌&&◌, not, ◌≤◌, eqb, take, if◌then◌else◌};
ghost use Rattle.octets.specs.Octets.{part, same};
ghost use Rattle.groups.specs.Groups.{scalar_length, stored, fresh_for};
ghost use Rattle.groups.specs.Stocked.{commits_in};
ghost use Rattle.record.specs.Reading.{peer_in};
ghost use Rattle.rules.specs.declared.Act.TheVariants.{Drop};
ghost use Rattle.rules.specs.Book.{linked_with, commit_idle, commit_committed, commit_confirmed, confirm_committed, confirm_confirmed, confirm_linked, commit_act, confirm_act, frame_act};
ghost use Rattle.message.specs.Received.{message_in, terms_in, call_in};

use message::Heard;
use record::Record;
use rules::Act;

// The scalar of a group is that of the link's peer.
fn same_scalar(peer: &Record, commit: &[u8], group: u16) -> bool
    requires { 66 ≤ peer.now.width }
    ensures { result ≡ same (part (stored commit.now) 0 (scalar_length group)) (part (peer_in peer.now).link.peer 0 (scalar_length group)) }
{
    let n = groups::scalar_length(group);
    let theirs = peer.link_peer();
    groups::same_front(commit, theirs, n)
}

// "finished link with that group and peer scalar"
fn is_linked(peer: &Record, heard: &Heard) -> bool
    requires { peer.now.width ≡ heard.now.stock.width }
    ensures { result ≡ linked_with (peer_in peer.now).link (message_in heard.now) }
{
    let finished = peer.finished();
    if finished == 0 {
        return false;
    }
    let our_group = peer.link_group();
    let group = heard.view.group;
    if our_group != group {
        return false;
    }
    let commit = heard.commit();
    same_scalar(peer, commit, group)
}

// "wrong token", Open being at or above the threshold
fn is_wrong(heard: &Heard) -> bool
    ensures { let d = heard.now in result ≡ (d.given.crowded && not (same (take d.view.toklen (message_in d).token) d.given.expected)) }
{
    let crowded = heard.given.crowded;
    if !crowded {
        return false;
    }
    let expected = heard.given.expected;
    let token = heard.token();
    let n = heard.view.toklen as usize;
    let same = octets::is_same(&token[..n], &expected[..]);
    !same
}

// "equal to our stock's"
fn equals_fresh(heard: &Heard) -> bool
    ensures { let d = heard.now in result ≡ same (message_in d).commit (fresh_for d.stock.groups.now (commits_in d.stock) d.view.group) }
{
    let commit = heard.commit();
    let own = heard.stock.fresh_for(heard.view.group);
    groups::same_front(commit, own, heard.stock.width)
}

// "equal to our commit"
fn equals_own(peer: &Record, heard: &Heard) -> bool
    requires { peer.now.width ≡ heard.now.stock.width }
    ensures { result ≡ same (message_in heard.now).commit (peer_in peer.now).run.own }
{
    let commit = heard.commit();
    let own = peer.own();
    groups::same_front(commit, own, peer.width)
}

// "Commit, no run, in this order"
pub fn commit_idle(peer: &Record, heard: &Heard) -> Act
    requires { peer.now.width ≡ heard.now.stock.width }
    ensures { result ≡ commit_idle (terms_in heard.now) (call_in heard.now) (peer_in peer.now) (message_in heard.now) }
{
    let status = heard.view.status;
    let listed = heard.view.listed;
    let toklen = heard.view.toklen;
    let crowded = heard.given.crowded;
    let full = heard.given.full;
    let verified = heard.given.verified;
    if status != 0 {
        return Act::Drop;
    }
    if !listed {
        return Act::RefuseGroup;
    }
    if is_linked(peer, heard) {
        return Act::Drop;
    }
    let lacks = crowded & (toklen == 0);
    if lacks {
        return Act::AskToken;
    }
    if is_wrong(heard) {
        return Act::Drop;
    }
    if equals_fresh(heard) {
        return Act::Drop;
    }
    if !verified {
        return Act::Drop;
    }
    if full {
        return Act::NoSlot;
    }
    Act::AnswerCommit
}

// "our group, …; other group, drop"
fn for_ours(group: u16, ours: u16, act: Act) -> Act
    ensures { result ≡ (if eqb group ours then act else Drop) }
{
    if group == ours {
        return act;
    }
    Act::Drop
}

// "Commit in Committed"
pub fn commit_committed(peer: &Record, heard: &Heard) -> Act
    requires { peer.now.width ≡ heard.now.stock.width }
    ensures { result ≡ commit_committed (terms_in heard.now) (call_in heard.now) (peer_in peer.now) (message_in heard.now) }
{
    let status = heard.view.status;
    let group = heard.view.group;
    let listed = heard.view.listed;
    let verified = heard.given.verified;
    let own = heard.given.own;
    let address = heard.given.address;
    let our_group = peer.group();
    if status == 76 {
        return for_ours(group, our_group, Act::ReplyToken);
    }
    if status == 77 {
        return for_ours(group, our_group, Act::SwitchGroup);
    }
    if status != 0 {
        return Act::Drop;
    }
    if !listed {
        return Act::RepeatRefusal;
    }
    if group != our_group {
        if octets::is_higher(own, address) {
            return Act::RepeatCommit;
        }
        if !verified {
            return Act::Drop;
        }
        if equals_fresh(heard) {
            return Act::Drop;
        }
        return Act::AnswerCommit;
    }
    if equals_own(peer, heard) {
        return Act::Drop;
    }
    if !verified {
        return Act::Drop;
    }
    Act::ConfirmCommit
}

// "Confirmed. Commit"
pub fn commit_confirmed(peer: &Record, heard: &Heard) -> Act
    ensures { result ≡ commit_confirmed (call_in heard.now) (peer_in peer.now) (message_in heard.now) }
{
    let status = heard.view.status;
    let group = heard.view.group;
    let clock = heard.given.clock;
    let limit = clock.limit;
    if status != 0 {
        return Act::Drop;
    }
    let sync = peer.sync();
    if sync > limit {
        return Act::GiveUp;
    }
    let our_group = peer.group();
    if group != our_group {
        return Act::Drop;
    }
    Act::ResendBoth
}

// "Confirm in Committed"
pub fn confirm_committed(heard: &Heard) -> Act
    ensures { result ≡ confirm_committed (message_in heard.now) }
{
    let status = heard.view.status;
    if status != 0 {
        return Act::Drop;
    }
    Act::RepeatCommit
}

// "Confirmed. Confirm"
pub fn confirm_confirmed(heard: &Heard) -> Act
    ensures { result ≡ confirm_confirmed (call_in heard.now) (message_in heard.now) }
{
    let status = heard.view.status;
    let verified = heard.given.verified;
    if status != 0 {
        return Act::Drop;
    }
    if !verified {
        return Act::Drop;
    }
    Act::Accept
}

// "Link, no run, Confirm"
pub fn confirm_linked(peer: &Record, heard: &Heard) -> Act
    ensures { result ≡ confirm_linked (call_in heard.now) (peer_in peer.now) (message_in heard.now) }
{
    let status = heard.view.status;
    let counter = heard.view.counter;
    let verified = heard.given.verified;
    let clock = heard.given.clock;
    let limit = clock.limit;
    if status != 0 {
        return Act::Drop;
    }
    let sync = peer.link_sync();
    if sync > limit {
        return Act::EndLink;
    }
    let rc = peer.rc();
    if counter <= rc {
        return Act::Drop;
    }
    if !verified {
        return Act::Drop;
    }
    if counter == 65535 {
        return Act::HearLast;
    }
    Act::HearAgain
}

// A Commit: "a run takes all frames while it lasts"
pub fn commit(peer: &Record, heard: &Heard) -> Act
    requires { peer.now.width ≡ heard.now.stock.width }
    ensures { result ≡ commit_act (terms_in heard.now) (call_in heard.now) (peer_in peer.now) (message_in heard.now) }
{
    let state = peer.state();
    if state == 1 {
        return commit_committed(peer, heard);
    }
    if state == 2 {
        return commit_confirmed(peer, heard);
    }
    commit_idle(peer, heard)
}

// A Confirm: "a run takes all frames while it lasts. Confirm with neither: drop."
pub fn confirm(peer: &Record, heard: &Heard) -> Act
    ensures { result ≡ confirm_act (call_in heard.now) (peer_in peer.now) (message_in heard.now) }
{
    let state = peer.state();
    if state == 1 {
        return confirm_committed(heard);
    }
    if state == 2 {
        return confirm_confirmed(heard);
    }
    let finished = peer.finished();
    if finished != 0 {
        return confirm_linked(peer, heard);
    }
    Act::Drop
}

// What a frame calls for
pub fn frame(peer: &Record, heard: &Heard) -> Act
    requires { peer.now.width ≡ heard.now.stock.width }
    ensures { result ≡ frame_act (terms_in heard.now) (call_in heard.now) (peer_in peer.now) (message_in heard.now) }
{
    let sequence = heard.view.sequence;
    if sequence == 1 {
        return commit(peer, heard);
    }
    confirm(peer, heard)
}
