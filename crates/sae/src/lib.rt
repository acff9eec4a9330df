// The C interface, as a library; firmware links the exports of crate sae_c. Thin over engine, table, good_links, writer, lookups, moves, message and frame. Every function returns 0 or
// the number of a refusal, and on a refusal leaves every lent octet, the answer and the number asked for too.
#![tactic(auto)]

ghost use Rattle.std.specs.Prelude.{◌≡◌, ◌≤◌, length};
ghost use Rattle.record.specs.SettingsOctets.{settings_of, reserved_zero};
ghost use Rattle.initial.specs.Initial.{made};
ghost use Rattle.answers.specs.Answers.{Leaves, returned, telling, told, told_if_due, none_due};
ghost use Rattle.calls.specs.Calls.{initializes_from, initiates, kills, receives, expires};
ghost use Rattle.writer.specs.Writer.{writes_parts, writes_record};
ghost use Rattle.lookups.specs.Lookups.{asked_returned, asks_deadline, asks_offset, asks_good};
ghost use Rattle.moves.specs.Moves.{moves, settled};
ghost use Rattle.moves.specs.declared.Direction.TheVariants.{Forward, Back};
ghost use Rattle.sae.specs.Interface.{frame_octets, framed_octets, frames_octets, answer_octets, answer_left, Returns, has_token, has_value, handed_at, handed_length, rest_at, parts_octets, reading, Reads, wrote_number, written_left, Counted, Writes, asked_left, Asks, Fills, MovesTo};

use answers::Answer;
use causes::Refusal;
use message::View;
use moves::Direction;
use record::Settings;
use rules::{Frame, Frames};

// The eight octets of a frame.
fn frame_octets(f: Frame) -> [u8; 8]
    ensures { result ≡ frame_octets f }
{
    let mut a = [0u8; 8];
    octets::put16(&mut a[..], 0, f.sequence);
    octets::put16(&mut a[..], 2, f.status);
    octets::put16(&mut a[..], 4, f.group);
    octets::put16(&mut a[..], 6, f.counter);
    a
}

// A number of frames, a zero, and two frames.
fn framed(n: u8, first: [u8; 8], second: [u8; 8]) -> [u8; 18]
    ensures { result ≡ framed_octets n first second }
{
    let mut a = [0u8; 18];
    octets::put8(&mut a[..], 0, n);
    octets::copy_in(&mut a[..], 2, &first[..]);
    octets::copy_in(&mut a[..], 10, &second[..]);
    a
}

// The number of frames, a zero, and the frames.
fn frames_octets(f: Frames) -> [u8; 18]
    ensures { result ≡ frames_octets f }
{
    let none = [0u8; 8];
    match f {
        Frames::None => [0u8; 18],
        Frames::One(a) => {
            let first = frame_octets(a);
            framed(1, first, none)
        }
        Frames::Two(a, b) => {
            let first = frame_octets(a);
            let second = frame_octets(b);
            framed(2, first, second)
        }
    }
}

// The octets of an answer: no octet says that none was due.
fn answer_octets(a: Answer) -> [u8; 28]
    ensures { result ≡ answer_octets (telling a) }
{
    let sends = a.frames;
    let address = a.address;
    let event = u8::from(a.event);
    let frames = frames_octets(sends);
    let mut x = [0u8; 28];
    octets::put8(&mut x[..], 1, event);
    octets::put16(&mut x[..], 2, a.afresh);
    octets::copy_in(&mut x[..], 4, &address[..]);
    octets::copy_in(&mut x[..], 10, &frames[..]);
    x
}

// None was due: the octet that says so, and zeros.
fn none_due_octets() -> [u8; 28]
    ensures { result ≡ answer_octets none_due }
{
    let mut x = [0u8; 28];
    octets::put8(&mut x[..], 0, 1);
    x
}

// The number to return, and the answer written unless the call was refused.
fn reply(r: Result<Answer, Refusal>, answer: &mut [u8; 28]) -> u32
    ensures { (result ≡ returned (told r).outcome) × (answer.new ≡ answer_left (told r) answer.old) }
{
    match r {
        Ok(a) => {
            *answer = answer_octets(a);
            0
        }
        Err(c) => u32::from(c),
    }
}

// The same of the clock, which may find none due.
fn reply_if_due(r: Result<Option<Answer>, Refusal>, answer: &mut [u8; 28]) -> u32
    ensures { (result ≡ returned (told_if_due r).outcome) × (answer.new ≡ answer_left (told_if_due r) answer.old) }
{
    match r {
        Ok(Some(a)) => {
            *answer = answer_octets(a);
            0
        }
        Ok(None) => {
            *answer = none_due_octets();
            0
        }
        Err(c) => u32::from(c),
    }
}

// The number to return of a call that answers nothing else.
fn number_of(r: Result<(), Refusal>) -> u32
    ensures { result ≡ returned (settled r) }
{
    match r {
        Ok(()) => 0,
        Err(c) => u32::from(c),
    }
}

// Where the settings' fields lie in their 16 octets, and what is zero in them: one octet behind the count, and the last three.
const COUNT_AT: usize = 0;

const FIRST_RESERVED_AT: usize = 1;

const FIRST_GROUP_AT: usize = 2;

const SECOND_GROUP_AT: usize = 4;

const THIRD_GROUP_AT: usize = 6;

const THRESHOLD_AT: usize = 8;

const PERIOD_AT: usize = 10;

const LIMIT_AT: usize = 12;

const LAST_RESERVED_AT: usize = 13;

// The settings that 16 octets say.
fn settings_of(s: [u8; 16]) -> Settings
    ensures { result ≡ settings_of s }
{
    let count = octets::get8(&s[..], COUNT_AT);
    let first = octets::get16(&s[..], FIRST_GROUP_AT);
    let second = octets::get16(&s[..], SECOND_GROUP_AT);
    let third = octets::get16(&s[..], THIRD_GROUP_AT);
    let threshold = octets::get16(&s[..], THRESHOLD_AT);
    let period = octets::get16(&s[..], PERIOD_AT);
    let limit = octets::get8(&s[..], LIMIT_AT);
    Settings {
        count,
        groups: [first, second, third],
        threshold,
        period,
        limit,
    }
}

// The octets of the settings that later uses may take are zero.
fn reserved_zero(s: [u8; 16]) -> bool
    ensures { result ≡ reserved_zero s }
{
    let a = octets::zero_part(&s[..], FIRST_RESERVED_AT, 1);
    let b = octets::zero_part(&s[..], LAST_RESERVED_AT, 3);
    a & b
}

// Set up from the octets of the settings; cause 1.
fn initialize_from(t: &mut [u8], own: [u8; 6], s: [u8; 16]) -> Result<Answer, Refusal>
    ensures { Leaves (told result) t.new (initializes_from made t.old own s) }
{
    if !reserved_zero(s) {
        return Err(Refusal::Settings);
    }
    let settings = settings_of(s);
    engine::initialize(t, own, settings)
}

// Set up.
pub fn sae_initialize(
    t: &mut [u8],
    own: &[u8; 6],
    settings: &[u8; 16],
    answer: &mut [u8; 28],
) -> u32
    ensures { Returns result t.new answer.new answer.old (initializes_from made t.old own.now settings.now) }
{
    let a = initialize_from(t, *own, *settings);
    reply(a, answer)
}

// Start.
pub fn sae_initiate(
    t: &mut [u8],
    address: &[u8; 6],
    time: u32,
    fresh: &[u8],
    answer: &mut [u8; 28],
) -> u32
    ensures { Returns result t.new answer.new answer.old (initiates t.old address.now time fresh.now) }
{
    let a = engine::initiate(t, *address, time, fresh);
    reply(a, answer)
}

// Kill.
pub fn sae_kill(t: &mut [u8], address: &[u8; 6], answer: &mut [u8; 28]) -> u32
    ensures { Returns result t.new answer.new answer.old (kills t.old address.now) }
{
    let a = engine::kill(t, *address);
    reply(a, answer)
}

// Frame received.
pub fn sae_receive(
    t: &mut [u8],
    address: &[u8; 6],
    time: u32,
    body: &[u8],
    fresh: &[u8],
    expected: &[u8],
    verified: u8,
    answer: &mut [u8; 28],
) -> u32
    ensures { Returns result t.new answer.new answer.old (receives t.old address.now time body.now fresh.now expected.now verified) }
{
    let a = engine::receive(t, *address, time, body, fresh, expected, verified);
    reply(a, answer)
}

// Clock.
pub fn sae_expire(t: &mut [u8], time: u32, answer: &mut [u8; 28]) -> u32
    ensures { Returns result t.new answer.new answer.old (expires t.old time) }
{
    let a = engine::expire(t, time);
    reply_if_due(a, answer)
}

// The number to return, and the length written unless the writer refused.
fn wrote_reply(w: Result<usize, Refusal>, written: &mut u32) -> u32
    requires { Counted w }
    ensures { (result ≡ wrote_number w) × (written.new ≡ written_left w written.old) }
{
    match w {
        Ok(n) => {
            *written = n as u32;
            0
        }
        Err(c) => u32::from(c),
    }
}

// Write a frame from its parts.
pub fn sae_write_parts(
    t: &[u8],
    sequence: u16,
    status: u16,
    group: u16,
    counter: u16,
    token: &[u8],
    rest: &[u8],
    out: &mut [u8],
    written: &mut u32,
) -> u32
    ensures { Writes result out.new written.new written.old (writes_parts t.now sequence status group counter token.now rest.now out.old) }
{
    let w = writer::write_parts(t, sequence, status, group, counter, token, rest, out);
    wrote_reply(w, written)
}

// Write a frame of a record.
pub fn sae_write_record(
    t: &[u8],
    address: &[u8; 6],
    sequence: u16,
    value: &[u8],
    out: &mut [u8],
    written: &mut u32,
) -> u32
    ensures { Writes result out.new written.new written.old (writes_record t.now address.now sequence value.now out.old) }
{
    let w = writer::write_record(t, *address, sequence, value, out);
    wrote_reply(w, written)
}

// A supported Commit and a 76 have a token.
fn has_token(v: View) -> bool
    ensures { result ≡ has_token v }
{
    (v.sequence == 1) & (v.listed | (v.status == 76))
}

// A status 0 Confirm has a value.
fn has_value(v: View) -> bool
    ensures { result ≡ has_value v }
{
    (v.sequence == 2) & (v.status == 0)
}

// Where the part that is handed back stands: the token, or what follows a status 0 Confirm; or 0.
fn handed_at(v: View) -> u32
    ensures { result ≡ handed_at v }
{
    if has_token(v) {
        return 8;
    }
    if has_value(v) {
        return 40;
    }
    0
}

// How long that part is.
fn handed_length(v: View, body: &[u8]) -> u32
    requires { length body.now ≤ 2304 }
    ensures { result ≡ handed_length v body.now }
{
    if has_value(v) {
        let elements = frame::elements_of(body);
        return elements.len() as u32;
    }
    v.toklen as u32
}

// Where the scalar or the value stands, or 0.
fn rest_at(v: View) -> u32
    ensures { result ≡ rest_at v }
{
    let listed = v.listed;
    if listed {
        return 8 + v.toklen as u32;
    }
    if has_value(v) {
        return 8;
    }
    0
}

// The octets of a frame's parts.
fn parts_octets(v: View, body: &[u8]) -> [u8; 20]
    requires { length body.now ≤ 2304 }
    ensures { result ≡ parts_octets v body.now }
{
    let at = handed_at(v);
    let length = handed_length(v, body);
    let rest = rest_at(v);
    let mut x = [0u8; 20];
    octets::put16(&mut x[..], 0, v.sequence);
    octets::put16(&mut x[..], 2, v.status);
    octets::put16(&mut x[..], 4, v.group);
    octets::put16(&mut x[..], 6, v.counter);
    octets::put32(&mut x[..], 8, at);
    octets::put32(&mut x[..], 12, length);
    octets::put32(&mut x[..], 16, rest);
    x
}

// The octets of the parts of a body that is read. Causes 2 and 7.
fn read(t: &[u8], body: &[u8]) -> Result<[u8; 20], Refusal>
    ensures { result ≡ reading t.now body.now }
{
    let header = table::check(t)?;
    let Some(v) = message::read(header.settings.listed(), body) else {
        return Err(Refusal::Body);
    };
    Ok(parts_octets(v, body))
}

// Read a frame's parts.
pub fn sae_read(t: &[u8], body: &[u8], parts: &mut [u8; 20]) -> u32
    ensures { Reads result parts.new parts.old t.now body.now }
{
    match read(t, body) {
        Ok(x) => {
            *parts = x;
            0
        }
        Err(c) => u32::from(c),
    }
}

// The number to return, and the number asked for unless the lookup was refused.
fn asked_reply(a: Result<u32, Refusal>, number: &mut u32) -> u32
    ensures { (result ≡ asked_returned a) × (number.new ≡ asked_left a number.old) }
{
    match a {
        Ok(n) => {
            *number = n;
            0
        }
        Err(cause) => u32::from(cause),
    }
}

// How long until the next deadline.
pub fn sae_next_deadline(t: &[u8], time: u32, milliseconds: &mut u32) -> u32
    ensures { Asks result milliseconds.new milliseconds.old (asks_deadline t.now time) }
{
    let a = lookups::next_deadline(t, time);
    asked_reply(a, milliseconds)
}

// Where the record of an address lies.
pub fn sae_find(t: &[u8], address: &[u8; 6], offset: &mut u32) -> u32
    ensures { Asks result offset.new offset.old (asks_offset t.now address.now) }
{
    let a = lookups::find(t, *address);
    asked_reply(a, offset)
}

// How many good links, from the 32 octets of a header alone.
pub fn sae_good_links(header: &[u8], good: &mut u32) -> u32
    ensures { Asks result good.new good.old (asks_good header.now) }
{
    let a = lookups::good_links(header);
    asked_reply(a, good)
}

// Fill the number of good links into a table otherwise sound.
pub fn sae_fill(t: &mut [u8]) -> u32
    ensures { Fills result t.new t.old }
{
    number_of(good_links::fill_good(t))
}

// Move a table of the form with records of 864 octets to that of 1,080, into a target lent beside it.
pub fn sae_widen(source: &[u8], target: &mut [u8]) -> u32
    ensures { MovesTo result target.new (moves Forward source.now target.old) }
{
    number_of(moves::move_table(Direction::Forward, source, target))
}

// And back.
pub fn sae_narrow(source: &[u8], target: &mut [u8]) -> u32
    ensures { MovesTo result target.new (moves Back source.now target.old) }
{
    number_of(moves::move_table(Direction::Back, source, target))
}
