// The writer: a frame from its parts, or from a peer's record, into a lent buffer.
#![tactic(auto)]

ghost use Rattle.std.specs.Prelude.{◌≡◌};
ghost use Rattle.frame.specs.Writing.{Writes};
ghost use Rattle.record.specs.Reading.{peer_in};
ghost use Rattle.writer.specs.Writer.{LeavesOut, writes_parts, record_commit, record_confirm, record_body, Bounded, writes_record};

use causes::Refusal;
use record::Record;
use table::Entrance;

// Write a frame from its parts. Causes 2, 7, 11.
pub fn write_parts(
    t: &[u8],
    sequence: u16,
    status: u16,
    group: u16,
    counter: u16,
    token: &[u8],
    rest: &[u8],
    out: &mut [u8],
) -> Result<usize, Refusal>
    ensures { LeavesOut result out.new (writes_parts t.now sequence status group counter token.now rest.now out.old) }
{
    let header = table::check(t)?;
    frame::write_parts(
        header.settings.listed(),
        sequence,
        status,
        group,
        counter,
        token,
        rest,
        out,
    )
}

// The run's Commit.
fn write_run_commit(groups: &[u16], peer: &Record, out: &mut [u8]) -> Result<usize, Refusal>
    requires { Bounded (peer_in peer.now) peer.now.width }
    ensures { Writes (record_commit groups.now (peer_in peer.now)) out.old out.new result }
{
    let state = peer.state();
    if state == 0 {
        return Err(Refusal::Body);
    }
    let group = peer.group();
    let token = peer.token();
    let m = peer.toklen() as usize;
    let own = peer.own();
    let l = groups::commit_length(group);
    frame::write_commit(groups, group, &token[..m], &own[..l], out)
}

// The Confirm: Sc of a run in Confirmed, 65,535 of a link with no run.
fn write_record_confirm(peer: &Record, value: &[u8], out: &mut [u8]) -> Result<usize, Refusal>
    ensures { Writes (record_confirm (peer_in peer.now) value.now) out.old out.new result }
{
    let state = peer.state();
    if state == 2 {
        let sc = peer.sc();
        return frame::write_confirm(sc, value, out);
    }
    if state != 0 {
        return Err(Refusal::Body);
    }
    let finished = peer.finished();
    if finished != 0 {
        return frame::write_confirm(65535, value, out);
    }
    Err(Refusal::Body)
}

// Which of a record's frames is wanted.
fn write_peer(
    groups: &[u16],
    peer: &Record,
    sequence: u16,
    value: &[u8],
    out: &mut [u8],
) -> Result<usize, Refusal>
    requires { Bounded (peer_in peer.now) peer.now.width }
    ensures { Writes (record_body groups.now (peer_in peer.now) sequence value.now) out.old out.new result }
{
    if sequence == 1 {
        return write_run_commit(groups, peer, out);
    }
    if sequence == 2 {
        return write_record_confirm(peer, value, out);
    }
    Err(Refusal::Body)
}

// Write a frame of a record. Causes 2, 3, 7, 11.
pub fn write_record(
    t: &[u8],
    address: [u8; 6],
    sequence: u16,
    value: &[u8],
    out: &mut [u8],
) -> Result<usize, Refusal>
    ensures { LeavesOut result out.new (writes_record t.now address sequence value.now out.old) }
{
    let Entrance { header, slot } = table::enter(t, address)?;
    let Some(k) = slot else {
        return Err(Refusal::Body);
    };
    let w = record::width_of(header);
    let a = record::record_at(w, k);
    let e = a + record::record_size(w);
    let peer = Record {
        octets: &t[a..e],
        width: w,
    };
    write_peer(header.settings.listed(), &peer, sequence, value, out)
}
