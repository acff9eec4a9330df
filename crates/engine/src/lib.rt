// The calls: set up, start, kill, frame received and clock. Each takes lent slices of any content and length. The table's header and the
// view of a frame's body are handed on: no function loads or reads them again.
#![tactic(auto)]

ghost use Rattle.std.specs.Prelude.{◌≡◌, [], length, true};
ghost use Rattle.octets.specs.Scan.{first_below};
ghost use Rattle.groups.specs.Stocked.{commits_in};
ghost use Rattle.record.specs.Layout.{groups_of, no_peer};
ghost use Rattle.soundness.specs.Soundness.{header_ok};
ghost use Rattle.table.specs.Table.{decode_table, slot, look_by, Reaches, Reached, Sized};
ghost use Rattle.rules.specs.Book.{expired, on_start, on_frame, on_clock};
ghost use Rattle.rules.specs.Given.{terms, call, Paced};
ghost use Rattle.message.specs.Received.{message_in, terms_in, call_in};
ghost use Rattle.answers.specs.Answers.{Leaves, finishes, telling, told, told_if_due};
ghost use Rattle.initial.specs.Initial.{made};
ghost use Rattle.calls.specs.Calls.{terms_of, crowded, clock_of, initializes, admit_start, start_step, initiates, kill_step, kills, receives, due_slot, clock_step, expires};
ghost use Rattle.engine.specs.InSlot.{Held, Stocks, Lists, given_by, slotless, Clocked, Brought, AdmitsFrame, DoesAt, answers_outside};

use answers::Answer;
use causes::Refusal;
use groups::Stock;
use message::{Heard, View};
use record::{Header, Record, Settings, WIDE_RECORD};
use rules::{Clock, Frames, Given, Said};

// The octets of the largest record.
const MOST: usize = WIDE_RECORD;

// Set up (also clears). Cause 1.
pub fn initialize(t: &mut [u8], own: [u8; 6], settings: Settings) -> Result<Answer, Refusal>
    ensures { Leaves (told result) t.new (initializes made t.old own settings) }
{
    initial::write_initial(t, own, settings)?;
    Ok(answers::say_nothing(own))
}

// ---- what the header and a call give a rule

// "Open at or above the threshold".
fn is_crowded(h: Header) -> bool
    ensures { result ≡ crowded h }
{
    h.settings.threshold <= h.counts.opened
}

// The clock's reading, with the table's first period and Sync limit.
fn clock_of(h: Header, time: u32) -> Clock
    ensures { result ≡ clock_of h time }
{
    let period = record::period_of(h.settings.period);
    let limit = record::limit_of(h.settings.limit);
    Clock {
        time,
        period,
        limit,
    }
}

// The peer has a slot.
fn given_of(h: Header, address: [u8; 6], time: u32, expected: [u8; 32], verified: bool) -> Given
    ensures { result ≡ given_by h address time expected verified }
{
    let own = h.own;
    let crowded = is_crowded(h);
    let clock = clock_of(h, time);
    Given {
        own,
        crowded,
        full: false,
        address,
        clock,
        expected,
        verified,
    }
}

// It has none.
fn without_slot(g: Given) -> Given
    ensures { result ≡ slotless g }
{
    Given { full: true, ..g }
}

// The stock that a call brings, for the header's groups.
fn stock_of<'a>(h: &'a Header, fresh: &'a [u8]) -> Stock<'a>
    requires { Stocks h.now fresh.now }
    ensures { (result.fresh.now ≡ fresh.now) × Lists result h.now }
{
    let width = record::width_of(*h);
    let groups = h.settings.listed();
    Stock {
        groups,
        fresh,
        width,
    }
}

// ---- Start

// The state of the run that a call is about; 0 where the address has no record.
fn state_of(t: &[u8], h: Header, f: Option<usize>) -> u8
    requires { Held t.now h f }
    ensures { result ≡ (look_by (decode_table t.now) f).run.state }
{
    let w = record::width_of(h);
    match f {
        Some(k) => table::state_at(t, w, k),
        None => 0,
    }
}

// Causes 4 and 8; a start that they do not refuse goes on with the slot.
fn admit_start(
    t: &[u8],
    h: Header,
    f: Option<usize>,
    fresh: &[u8],
) -> Result<Option<usize>, Refusal>
    requires { Held t.now h f }
    ensures { result ≡ admit_start (decode_table t.now) f fresh.now }
{
    let w = record::width_of(h);
    if !groups::fresh_ok(h.settings.listed(), fresh, w) {
        return Err(Refusal::Fresh);
    }
    let state = state_of(t, h, f);
    if state != 0 {
        return Err(Refusal::Running);
    }
    Ok(f)
}

// The rule for a start, in a slot. The clauses speak of the table's header, h.
fn start_at(t: &mut [u8], k: usize, h: Header, g: Given, stock: &Stock) -> Said
    requires { Held t.old h (Some k) × (Lists stock.now h × Clocked g.clock h) }
    ensures { let s = stock.now in DoesAt result t.new t.old k (on_start (terms g s.groups.now) (call g (commits_in s)) (slot (decode_table t.old) k)) }
{
    let w = stock.width;
    let a = record::record_at(w, k);
    let e = a + record::record_size(w);
    machine::on_start(&mut t[a..e], g, stock)
}

// A start that causes 2, 3, 4 and 8 do not refuse. Cause 9.
fn start(
    t: &mut [u8],
    h: Header,
    f: Option<usize>,
    address: [u8; 6],
    time: u32,
    fresh: &[u8],
) -> Result<Answer, Refusal>
    requires { Held t.old h f × Stocks h fresh.now }
    ensures { Leaves (told result) t.new (finishes t.old f (start_step (decode_table t.old) f address time fresh.now) address) }
{
    let n = h.geometry.slots as usize;
    let w = record::width_of(h);
    let Some(k) = answers::seat_of(t, w, n, f) else {
        return Err(Refusal::Full);
    };
    let was = table::standing_of(t, w, k);
    let none = [0u8; 32];
    let g = given_of(h, address, time, none, false);
    let stock = stock_of(&h, fresh);
    let said = start_at(t, k, h, g, &stock);
    Ok(answers::finish_at(t, k, h, was, said, address))
}

// Start. Causes 2, 3, 4, 8, 9.
pub fn initiate(t: &mut [u8], address: [u8; 6], time: u32, fresh: &[u8]) -> Result<Answer, Refusal>
    ensures { Leaves (told result) t.new (initiates t.old address time fresh.now) }
{
    let entrance = table::enter(t, address)?;
    let h = entrance.header;
    let f = admit_start(t, h, entrance.slot, fresh)?;
    start(t, h, f, address, time, fresh)
}

// ---- Kill

// A record is freed, in its slot.
fn kill_at(t: &mut [u8], k: usize, h: Header) -> Said
    requires { Held t.old h (Some k) }
    ensures { DoesAt result t.new t.old k kill_step }
{
    let w = record::width_of(h);
    let a = record::record_at(w, k);
    let e = a + record::record_size(w);
    record::clear(&mut t[a..e]);
    acts::say_frames(Frames::None)
}

// A kill that no cause refuses.
fn free(t: &mut [u8], k: usize, h: Header, address: [u8; 6]) -> Answer
    requires { Held t.old h (Some k) }
    ensures { Leaves (telling result) t.new (finishes t.old (Some k) kill_step address) }
{
    let w = record::width_of(h);
    let was = table::standing_of(t, w, k);
    let said = kill_at(t, k, h);
    answers::finish_at(t, k, h, was, said, address)
}

// Kill (frees the record). Causes 2, 3, 10.
pub fn kill(t: &mut [u8], address: [u8; 6]) -> Result<Answer, Refusal>
    ensures { Leaves (told result) t.new (kills t.old address) }
{
    let entrance = table::enter(t, address)?;
    let Some(k) = entrance.slot else {
        return Err(Refusal::NoRecord);
    };
    Ok(free(t, k, entrance.header, address))
}

// ---- Frame received

// Causes 4, 5, 6, 7; of a frame that they do not refuse, the view of its body.
fn admit_frame(
    h: Header,
    body: &[u8],
    fresh: &[u8],
    expected: &[u8],
    verdict: u8,
) -> Result<View, Refusal>
    requires { (header_ok h ≡ true) × (length h.settings.groups ≡ 3) }
    ensures { AdmitsFrame result h body.now fresh.now expected.now verdict }
{
    let w = record::width_of(h);
    if !groups::fresh_ok(h.settings.listed(), fresh, w) {
        return Err(Refusal::Fresh);
    }
    if expected.len() != 32 {
        return Err(Refusal::Token);
    }
    if verdict > 1 {
        return Err(Refusal::Verdict);
    }
    message::read(h.settings.listed(), body).ok_or(Refusal::Body)
}

// The rule for a frame, in a slot. The clauses speak of the table's header, h.
fn frame_at(t: &mut [u8], k: usize, h: Header, heard: &Heard) -> Said
    requires { Held t.old h (Some k) × (Lists heard.now.stock h × Clocked heard.now.given.clock h) }
    ensures { let d = heard.now in DoesAt result t.new t.old k (on_frame (terms_in d) (call_in d) (slot (decode_table t.old) k) (message_in d)) }
{
    let w = heard.stock.width;
    let a = record::record_at(w, k);
    let e = a + record::record_size(w);
    machine::on_frame(&mut t[a..e], heard)
}

// No slot is free for a new peer: the rule works on a free record outside the table.
fn hear_outside(heard: &Heard) -> Result<Answer, Refusal>
    requires { Paced heard.now.given.clock }
    ensures { let d = heard.now in told result ≡ answers_outside (on_frame (terms_in d) (call_in d) no_peer (message_in d)) d.given.address }
{
    let address = heard.given.address;
    let w = heard.stock.width;
    let size = record::record_size(w);
    let mut s = [0u8; MOST];
    let said = machine::on_frame(&mut s[..size], heard);
    if said.refused {
        return Err(Refusal::Full);
    }
    Ok(answers::say(said, address))
}

// A frame that causes 2 to 7 do not refuse. Cause 9.
fn hear(t: &mut [u8], h: Header, f: Option<usize>, heard: &Heard) -> Result<Answer, Refusal>
    requires { Held t.old h f × (Lists heard.now.stock h × Brought heard.now.given h) }
    ensures { let d = heard.now in let T = decode_table t.old in
        Leaves (told result) t.new (finishes t.old f (on_frame (terms_of T f) (call_in d) (look_by T f) (message_in d)) d.given.address) }
{
    let n = h.geometry.slots as usize;
    let w = heard.stock.width;
    let Some(k) = answers::seat_of(t, w, n, f) else {
        let slotless = without_slot(heard.given);
        let outside = Heard {
            given: slotless,
            view: heard.view,
            body: heard.body,
            stock: heard.stock,
        };
        return hear_outside(&outside);
    };
    let was = table::standing_of(t, w, k);
    let said = frame_at(t, k, h, heard);
    let address = heard.given.address;
    Ok(answers::finish_at(t, k, h, was, said, address))
}

// Frame received. Causes 2, 3, 4, 5, 6, 7, 9.
pub fn receive(
    t: &mut [u8],
    address: [u8; 6],
    time: u32,
    body: &[u8],
    fresh: &[u8],
    expected: &[u8],
    verdict: u8,
) -> Result<Answer, Refusal>
    ensures { Leaves (told result) t.new (receives t.old address time body.now fresh.now expected.now verdict) }
{
    let entrance = table::enter(t, address)?;
    let h = entrance.header;
    let view = admit_frame(h, body, fresh, expected, verdict)?;
    let token = octets::take(expected, 0);
    let given = given_of(h, address, time, token, verdict == 1);
    let stock = stock_of(&h, fresh);
    let heard = Heard {
        given,
        view,
        body,
        stock,
    };
    hear(t, h, entrance.slot, &heard)
}

// ---- Clock

fn is_expired_at(t: &[u8], w: usize, k: usize, time: u32) -> bool
    requires { Reached t.now w k }
    ensures { result ≡ expired (slot (decode_table t.now) k) time }
{
    let a = record::record_at(w, k);
    let e = a + record::record_size(w);
    let peer = Record {
        octets: &t[a..e],
        width: w,
    };
    deadlines::is_expired(&peer, time)
}

fn due_below(t: &[u8], w: usize, n: usize, time: u32) -> Option<usize>
    requires { Reaches t.now w n }
    ensures { result ≡ first_below (λ k. expired (slot (decode_table t.now) k) time) n }
{
    for k in 0..n {
        if is_expired_at(t, w, k, time) {
            return Some(k);
        }
    }
    None
}

// The due record with the lowest slot number.
fn due_slot(t: &[u8], w: usize, n: usize, time: u32) -> Option<usize>
    requires { Sized t.now w n }
    ensures { result ≡ due_slot (decode_table t.now) time }
{
    due_below(t, w, n, time)
}

// The rule for a due record, in its slot.
fn expire_at(t: &mut [u8], k: usize, h: Header, g: Given) -> Said
    requires { Held t.old h (Some k) × Clocked g.clock h }
    ensures { DoesAt result t.new t.old k (on_clock (terms g (groups_of h)) (call g []) (slot (decode_table t.old) k)) }
{
    let w = record::width_of(h);
    let a = record::record_at(w, k);
    let e = a + record::record_size(w);
    machine::on_clock(&mut t[a..e], w, g, h.settings.listed())
}

// The due record is served.
fn serve(t: &mut [u8], k: usize, h: Header, time: u32) -> Answer
    requires { Held t.old h (Some k) }
    ensures { Leaves (telling result) t.new (finishes t.old (Some k) (clock_step (decode_table t.old) k time) (slot (decode_table t.old) k).address) }
{
    let w = record::width_of(h);
    let address = table::address_at(t, w, k);
    let was = table::standing_of(t, w, k);
    let none = [0u8; 32];
    let g = given_of(h, address, time, none, false);
    let said = expire_at(t, k, h, g);
    answers::finish_at(t, k, h, was, said, address)
}

// Clock. Cause 2; nothing is answered where no record is due.
pub fn expire(t: &mut [u8], time: u32) -> Result<Option<Answer>, Refusal>
    ensures { Leaves (told_if_due result) t.new (expires t.old time) }
{
    let h = table::check(t)?;
    let n = h.geometry.slots as usize;
    let w = record::width_of(h);
    let Some(k) = due_slot(t, w, n, time) else {
        return Ok(None);
    };
    Ok(Some(serve(t, k, h, time)))
}
