// Authentication frame bodies: the reader, the parts of a body that was read, and the writers.
#![tactic(auto)]

ghost use Rattle.std.specs.Prelude.{◌≡◌, ◌+◌, ◌-◌, ◌≤◌, length, drop};
ghost use Rattle.octets.specs.Octets.{part, put, num};
ghost use Rattle.frame.specs.Frame.{read_body, read_commit, read_offer, read_listed, read_token_request, read_group_refusal, read_confirm, whole_elements, elements_of, token_of, commit_of, body, head, field_at, head_of};
ghost use Rattle.frame.specs.Writing.{Writes, Octets, draw_commit, draw_token_request, draw_group_refusal, draw_confirm, draw_commits, draw_confirms, parts_body};

use causes::Refusal;

// The algorithm, the sequences and the statuses that bodies carry.
const SAE: u16 = 3;

const COMMITS: u16 = 1;

const CONFIRMS: u16 = 2;

const SUCCESS: u16 = 0;

const TOKEN_REQUIRED: u16 = 76;

const GROUP_REFUSED: u16 = 77;

// The length of a body, the place after group or counter, the longest token, a Confirm's value and length, an element's identifier and length.
const SHORTEST: usize = 6;

const LONGEST: usize = 2304;

const HEAD: usize = 8;

const TOKEN: usize = 256;

const VALUE: usize = 32;

const CONFIRM: usize = 40;

const ELEMENT: usize = 2;

// What a body of one of the shapes is, with the numbers in it and the length of its token.
#[derive(Clone, Copy)]
pub enum Body {
    // Status 0 in a listed group: the token stands at 8, scalar and element after it.
    Commit { group: u16, token: usize },
    // Status 0 in any other group.
    Unsupported { group: u16 },
    // Status 76: the token stands at 8.
    TokenRequest { group: u16, token: usize },
    // Status 77.
    GroupRefusal { group: u16 },
    // Commit of another status.
    OtherCommit { status: u16 },
    // Status 0: the value stands at 8, and from 40 on what follows, nothing or whole elements.
    Confirm { counter: u16 },
    // Confirm of nonzero status.
    OtherConfirm { status: u16 },
}

// "A frame reader carries the received octets and the offset reached."
#[derive(Clone, Copy)]
pub struct Reader<'a> {
    pub frame: &'a [u8],
    pub at: usize,
}

// A field of two octets, and the offset reached behind it.
#[derive(Clone, Copy)]
pub struct Field {
    pub number: u16,
    pub reached: usize,
}

// The three numbers that every body starts with, and the offset reached behind them.
#[derive(Clone, Copy)]
pub struct Head {
    pub algorithm: u16,
    pub sequence: u16,
    pub status: u16,
    pub reached: usize,
}

// The n octets of a slice from an offset, as the caller's own.
fn part_of<'a>(s: &'a [u8], at: usize, n: usize) -> &'a [u8]
    requires { at + n ≤ length s.now }
    ensures { result.now ≡ part s.now at n }
{
    let end = at + n;
    &s[at..end]
}

// The reader of a frame at the offset reached.
fn reader_at<'a>(frame: &'a [u8], at: usize) -> Reader<'a>
    ensures { (result.frame ≡ frame.entry) × (result.at ≡ at) }
{
    Reader { frame, at }
}

// The field of two octets at the offset reached.
fn take16<'a>(r: Reader<'a>) -> u16
    requires { r.at + 2 ≤ length r.frame.now }
    ensures { result ≡ num (part r.entry.frame.now r.entry.at 2) }
{
    octets::get16(r.frame, r.at)
}

// The reader n octets further on.
fn moved<'a>(r: Reader<'a>, n: usize) -> Reader<'a>
    requires { r.at + n ≤ length r.frame.now }
    ensures { (result.frame ≡ r.entry.frame) × (result.at ≡ r.entry.at + n) }
{
    let at = r.at + n;
    Reader { frame: r.frame, at }
}

// The part of n octets at the offset reached.
fn taken<'a>(r: Reader<'a>, n: usize) -> &'a [u8]
    requires { r.at + n ≤ length r.frame.now }
    ensures { result.now ≡ part r.entry.frame.now r.entry.at n }
{
    part_of(r.frame, r.at, n)
}

// A field is read, and the reader moves on behind it.
fn field_at(frame: &[u8], at: usize) -> Field
    requires { at + 2 ≤ length frame.now }
    ensures { result ≡ field_at frame.now at }
{
    let r = reader_at(frame, at);
    let n = take16(r);
    let q = moved(r, 2);
    Field {
        number: n,
        reached: q.at,
    }
}

// The part of n octets from the offset reached.
fn part_at(frame: &[u8], at: usize, n: usize) -> &[u8]
    requires { at + n ≤ length frame.now }
    ensures { result.now ≡ part frame.now at n }
{
    taken(reader_at(frame, at), n)
}

// Algorithm, sequence and status, one after another.
fn head_of(frame: &[u8]) -> Head
    requires { 6 ≤ length frame.now }
    ensures { result ≡ head_of frame.now }
{
    let algorithm = field_at(frame, 0);
    let sequence = field_at(frame, algorithm.reached);
    let status = field_at(frame, sequence.reached);
    Head {
        algorithm: algorithm.number,
        sequence: sequence.number,
        status: status.number,
        reached: status.reached,
    }
}

// "The token is what the length leaves over", 0 to 256 octets; it begins at the offset reached behind the group.
fn read_listed(group: u16, frame: &[u8], at: usize) -> Option<Body>
    requires { at ≡ 8 }
    ensures { result ≡ read_listed group frame.now }
{
    let least = at + groups::commit_length(group);
    let n = frame.len();
    if n < least {
        return None;
    }
    let token = n - least;
    if TOKEN < token {
        return None;
    }
    Some(Body::Commit { group, token })
}

// "Supported means listed in the table"; a status 0 Commit in any other group needs 8 octets or more. The group stands at the offset reached.
fn read_offer(groups: &[u16], frame: &[u8], at: usize) -> Option<Body>
    requires { at ≡ 6 }
    ensures { result ≡ read_offer groups.now frame.now }
{
    if frame.len() < HEAD {
        return None;
    }
    let f = field_at(frame, at);
    let group = f.number;
    if groups::is_listed(groups, group) {
        return read_listed(group, frame, f.reached);
    }
    Some(Body::Unsupported { group })
}

// "Status 76: group, token of 1 to 256." The group stands at the offset reached, the token behind it.
fn read_token_request(frame: &[u8], at: usize) -> Option<Body>
    requires { at ≡ 6 }
    ensures { result ≡ read_token_request frame.now }
{
    let n = frame.len();
    if n < HEAD + 1 {
        return None;
    }
    if HEAD + TOKEN < n {
        return None;
    }
    let f = field_at(frame, at);
    let group = f.number;
    let token = n - f.reached;
    Some(Body::TokenRequest { group, token })
}

// "Status 77: group only, total 8." The group stands at the offset reached.
fn read_group_refusal(frame: &[u8], at: usize) -> Option<Body>
    requires { at ≡ 6 }
    ensures { result ≡ read_group_refusal frame.now }
{
    if frame.len() != HEAD {
        return None;
    }
    let f = field_at(frame, at);
    let group = f.number;
    Some(Body::GroupRefusal { group })
}

// A Commit by its status, from the offset reached behind it; of any other status the rest is not looked at.
fn read_commit(groups: &[u16], frame: &[u8], head: Head) -> Option<Body>
    requires { head ≡ head_of frame.now }
    ensures { result ≡ read_commit groups.now frame.now }
{
    let status = head.status;
    let at = head.reached;
    if status == SUCCESS {
        return read_offer(groups, frame, at);
    }
    if status == TOKEN_REQUIRED {
        return read_token_request(frame, at);
    }
    if status == GROUP_REFUSED {
        return read_group_refusal(frame, at);
    }
    Some(Body::OtherCommit { status })
}

// From the offset reached to the frame's end stand whole elements and nothing else: identifier, length, contents, one element a step.
fn is_whole(frame: &[u8], at: usize) -> bool
    requires { at ≤ length frame.now }
    ensures { result ≡ whole_elements (drop at frame.now) }
{
    let mut reached = at;
    while reached < frame.len() {
        let left = frame.len() - reached;
        if left < ELEMENT {
            return false;
        }
        let size = octets::get8(frame, reached + 1) as usize;
        if left - ELEMENT < size {
            return false;
        }
        reached = reached + ELEMENT + size;
    }
    true
}

// "Confirm, status 0: counter (2), value (32), total 40", then whole elements; of nonzero status the rest is not looked at.
fn read_confirm(frame: &[u8], head: Head) -> Option<Body>
    requires { head ≡ head_of frame.now }
    ensures { result ≡ read_confirm frame.now }
{
    let status = head.status;
    if status != SUCCESS {
        return Some(Body::OtherConfirm { status });
    }
    if frame.len() < CONFIRM {
        return None;
    }
    let f = field_at(frame, head.reached);
    let counter = f.number;
    let whole = is_whole(frame, f.reached + VALUE);
    if !whole {
        return None;
    }
    Some(Body::Confirm { counter })
}

// The reader: a body by its length, algorithm and sequence.
pub fn read(groups: &[u16], frame: &[u8]) -> Option<Body>
    ensures { result ≡ read_body groups.now frame.now }
{
    if frame.len() < SHORTEST {
        return None;
    }
    if LONGEST < frame.len() {
        return None;
    }
    let head = head_of(frame);
    let algorithm = head.algorithm;
    let sequence = head.sequence;
    if algorithm != SAE {
        return None;
    }
    if sequence == COMMITS {
        return read_commit(groups, frame, head);
    }
    if sequence == CONFIRMS {
        return read_confirm(frame, head);
    }
    None
}

// "The token is handed back as a part of the received frame": the caller's own octets, as many of the n from 8 as there are.
pub fn token_of(frame: &[u8], n: usize) -> &[u8]
    ensures { result.now ≡ token_of frame.now n }
{
    let all = frame.len();
    if all < HEAD {
        return &frame[all..all];
    }
    if all - HEAD < n {
        return &frame[HEAD..all];
    }
    part_at(frame, HEAD, n)
}

// "Hands the trailing part back": the caller's own octets from 40 on, as many as there are.
pub fn elements_of(frame: &[u8]) -> &[u8]
    ensures { result.now ≡ elements_of frame.now }
{
    let all = frame.len();
    if all < CONFIRM {
        return &frame[all..all];
    }
    part_at(frame, CONFIRM, all - CONFIRM)
}

// A Commit's scalar and element: the caller's own octets, as many of them as there are.
pub fn commit_of(frame: &[u8], group: u16, token: usize) -> &[u8]
    ensures { result.now ≡ commit_of frame.now group token }
{
    let n = groups::commit_length(group);
    let all = frame.len();
    if all < HEAD {
        return &frame[all..all];
    }
    if all - HEAD < token {
        return &frame[all..all];
    }
    let at = HEAD + token;
    if all - at < n {
        return &frame[at..all];
    }
    part_at(frame, at, n)
}

// Algorithm, sequence, status, and group or counter, at the start of the buffer.
fn put_head(sequence: u16, status: u16, third: u16, out: &mut [u8])
    requires { 8 ≤ length out.old }
    ensures { out.new ≡ put out.old 0 (head sequence status third) }
{
    octets::put16(out, 0, SAE);
    octets::put16(out, 2, sequence);
    octets::put16(out, 4, status);
    octets::put16(out, 6, third);
}

// A body into the lent buffer, if it is not longer than that; octets past it stay.
fn write_body(
    sequence: u16,
    status: u16,
    third: u16,
    token: &[u8],
    rest: &[u8],
    out: &mut [u8],
) -> Result<usize, Refusal>
    ensures { Writes (Octets (body sequence status third token.now rest.now)) out.old out.new result }
{
    let all = out.len();
    if all < HEAD {
        return Err(Refusal::Short);
    }
    if all - HEAD < token.len() {
        return Err(Refusal::Short);
    }
    let at = HEAD + token.len();
    if all - at < rest.len() {
        return Err(Refusal::Short);
    }
    put_head(sequence, status, third, out);
    octets::copy_in(out, HEAD, token);
    octets::copy_in(out, at, rest);
    Ok(at + rest.len())
}

// A status 0 Commit in a listed group; commit is scalar then element.
pub fn write_commit(
    groups: &[u16],
    group: u16,
    token: &[u8],
    commit: &[u8],
    out: &mut [u8],
) -> Result<usize, Refusal>
    ensures { Writes (draw_commit groups.now group token.now commit.now) out.old out.new result }
{
    let listed = groups::is_listed(groups, group);
    if !listed {
        return Err(Refusal::Body);
    }
    if TOKEN < token.len() {
        return Err(Refusal::Body);
    }
    let n = groups::commit_length(group);
    if commit.len() != n {
        return Err(Refusal::Body);
    }
    write_body(COMMITS, SUCCESS, group, token, commit, out)
}

// A 76: the group and the token that is asked for.
pub fn write_token_request(group: u16, token: &[u8], out: &mut [u8]) -> Result<usize, Refusal>
    ensures { Writes (draw_token_request group token.now) out.old out.new result }
{
    if token.len() == 0 {
        return Err(Refusal::Body);
    }
    if TOKEN < token.len() {
        return Err(Refusal::Body);
    }
    write_body(COMMITS, TOKEN_REQUIRED, group, token, b"", out)
}

// A 77: the group that is refused.
pub fn write_group_refusal(group: u16, out: &mut [u8]) -> Result<usize, Refusal>
    ensures { Writes (draw_group_refusal group) out.old out.new result }
{
    write_body(COMMITS, GROUP_REFUSED, group, b"", b"", out)
}

// A status 0 Confirm: the counter and the value.
pub fn write_confirm(counter: u16, value: &[u8], out: &mut [u8]) -> Result<usize, Refusal>
    ensures { Writes (draw_confirm counter value.now) out.old out.new result }
{
    if value.len() != VALUE {
        return Err(Refusal::Body);
    }
    write_body(CONFIRMS, SUCCESS, counter, b"", value, out)
}

// A Commit's parts by its status.
fn write_commits(
    groups: &[u16],
    status: u16,
    group: u16,
    token: &[u8],
    rest: &[u8],
    out: &mut [u8],
) -> Result<usize, Refusal>
    ensures { Writes (draw_commits groups.now status group token.now rest.now) out.old out.new result }
{
    if status == SUCCESS {
        return write_commit(groups, group, token, rest, out);
    }
    if status == TOKEN_REQUIRED {
        if rest.len() != 0 {
            return Err(Refusal::Body);
        }
        return write_token_request(group, token, out);
    }
    if status != GROUP_REFUSED {
        return Err(Refusal::Body);
    }
    if token.len() != 0 {
        return Err(Refusal::Body);
    }
    if rest.len() != 0 {
        return Err(Refusal::Body);
    }
    write_group_refusal(group, out)
}

// A Confirm's parts: it has no group and no token.
fn write_confirms(
    status: u16,
    group: u16,
    counter: u16,
    token: &[u8],
    rest: &[u8],
    out: &mut [u8],
) -> Result<usize, Refusal>
    ensures { Writes (draw_confirms status group counter token.now rest.now) out.old out.new result }
{
    if status != SUCCESS {
        return Err(Refusal::Body);
    }
    if group != 0 {
        return Err(Refusal::Body);
    }
    if token.len() != 0 {
        return Err(Refusal::Body);
    }
    write_confirm(counter, rest, out)
}

// The writer from a frame's parts; a part that the shape has none of is 0 or empty.
pub fn write_parts(
    groups: &[u16],
    sequence: u16,
    status: u16,
    group: u16,
    counter: u16,
    token: &[u8],
    rest: &[u8],
    out: &mut [u8],
) -> Result<usize, Refusal>
    ensures { Writes (parts_body groups.now sequence status group counter token.now rest.now) out.old out.new result }
{
    if sequence == COMMITS {
        if counter != 0 {
            return Err(Refusal::Body);
        }
        return write_commits(groups, status, group, token, rest, out);
    }
    if sequence == CONFIRMS {
        return write_confirms(status, group, counter, token, rest, out);
    }
    Err(Refusal::Body)
}
