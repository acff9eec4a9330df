// The lent table: its form, its searches, and the counts after a record changed.
#![tactic(auto)]

ghost use Rattle.std.specs.Prelude.{◌≡◌, true, ◌&&◌, ℕ, ◌+◌, ◌≤◌, ◌<◌, eqb, length, get_or};
ghost use Rattle.octets.specs.Octets.{num};
ghost use Rattle.octets.specs.Scan.{all_below, count_below, first_below, last_below, bit};
ghost use Rattle.soundness.specs.Soundness.{peer_ok};
ghost use Rattle.table.specs.Table.{decode_table, encode_table, slots, slot, in_use, is_open, is_good, finds, free_slot, used_count, counts_of, slots_ok, alone, addresses_ok, counts_ok, sound, checked, entering, recounted, key, new_key, standing_of, Changed, Whole, Headed, Reaches, Reached, Sized};

use causes::Refusal;
use record::{ADDRESS, Counts, FINISHED, HEADER, Header, RUN, STATE, USED};

// A table of at most so many slots is small.
const FEW: usize = 8;

// What every call about an address begins with, in a sound table: its header, and the slot of the address's record, if it has one.
#[derive(Clone, Copy)]
pub struct Entrance {
    pub header: Header,
    pub slot: Option<usize>,
}

// ---- one slot

pub fn used_at(t: &[u8], w: usize, k: usize) -> u8
    requires { Reached t.now w k }
    ensures { result ≡ (slot (decode_table t.now) k).used }
{
    let a = record::record_at(w, k);
    octets::get8(t, a + USED)
}

pub fn state_at(t: &[u8], w: usize, k: usize) -> u8
    requires { Reached t.now w k }
    ensures { result ≡ (slot (decode_table t.now) k).run.state }
{
    let a = record::record_at(w, k);
    octets::get8(t, a + (RUN + STATE))
}

pub fn address_at(t: &[u8], w: usize, k: usize) -> [u8; 6]
    requires { Reached t.now w k }
    ensures { result ≡ (slot (decode_table t.now) k).address }
{
    let a = record::record_at(w, k);
    octets::take(t, a + ADDRESS)
}

// The address of a slot's record, as one number.
fn number_at(t: &[u8], w: usize, k: usize) -> u64
    requires { Reached t.now w k }
    ensures { (result ≡ num (slot (decode_table t.now) k).address) × (result < 281474976710656) }
{
    let a = record::record_at(w, k);
    octets::get48(t, a + ADDRESS)
}

fn is_used(t: &[u8], w: usize, k: usize) -> bool
    requires { Reached t.now w k }
    ensures { result ≡ in_use (slot (decode_table t.now) k) }
{
    used_at(t, w, k) == 1
}

pub fn is_open(t: &[u8], w: usize, k: usize) -> bool
    requires { Reached t.now w k }
    ensures { result ≡ is_open (slot (decode_table t.now) k) }
{
    let state = state_at(t, w, k);
    (state == 1) | (state == 2)
}

// Finished, with a clear mark: the two octets read as one number.
fn is_good(t: &[u8], w: usize, k: usize) -> bool
    requires { Reached t.now w k }
    ensures { result ≡ is_good (slot (decode_table t.now) k) }
{
    let a = record::record_at(w, k);
    let l = record::link_at(w);
    octets::get16(t, a + (l + FINISHED)) == 1
}

fn has(t: &[u8], w: usize, k: usize, x: u64) -> bool
    requires { Reached t.now w k }
    ensures { result ≡ (in_use (slot (decode_table t.now) k) && eqb (num (slot (decode_table t.now) k).address) x) }
{
    let used = is_used(t, w, k);
    let number = number_at(t, w, k);
    used & (number == x)
}

// ---- searches and counts below a slot

// The first slot below n in use with the address of the number x.
fn find_below(t: &[u8], w: usize, n: usize, x: u64) -> Option<usize>
    requires { Reaches t.now w n }
    ensures { result ≡ first_below (λ k. in_use (slot (decode_table t.now) k) && eqb (num (slot (decode_table t.now) k).address) x) n }
{
    for k in 0..n {
        if has(t, w, k, x) {
            return Some(k);
        }
    }
    None
}

// The last free slot below n.
fn free_below(t: &[u8], w: usize, n: usize) -> Option<usize>
    requires { Reaches t.now w n }
    ensures { result ≡ last_below (λ k. eqb (slot (decode_table t.now) k).used 0) n }
{
    for k in (0..n).rev() {
        if used_at(t, w, k) == 0 {
            return Some(k);
        }
    }
    None
}

// The counts over the slots below n. A loop and no chain: the three are counted in one pass.
pub fn counts_below(t: &[u8], w: usize, n: usize) -> Counts
    requires { Reaches t.now w n × (n ≤ 64) }
    ensures { (result.used ≡ count_below (λ k. in_use (slot (decode_table t.now) k)) n) × ((result.opened ≡ count_below (λ k. is_open (slot (decode_table t.now) k)) n) × (result.good ≡ count_below (λ k. is_good (slot (decode_table t.now) k)) n)) }
{
    let mut used: usize = 0;
    let mut opened: usize = 0;
    let mut good: usize = 0;
    for k in 0..n {
        used += octets::one_if(is_used(t, w, k));
        opened += octets::one_if(is_open(t, w, k));
        good += octets::one_if(is_good(t, w, k));
    }
    Counts {
        used: used as u16,
        opened: opened as u16,
        good: good as u16,
    }
}

// ---- the form of the table

fn slot_ok(t: &[u8], w: usize, k: usize, own: [u8; 6], groups: &[u16], high: u8) -> bool
    requires { Reached t.now w k × ((1 ≤ length groups.now) × (length groups.now ≤ 8)) }
    ensures { result ≡ peer_ok own groups.now high (slot (decode_table t.now) k) }
{
    let a = record::record_at(w, k);
    let e = a + record::record_size(w);
    record_soundness::peer_ok(&t[a..e], w, own, groups, high)
}

// Every slot below n has its form: one pass over the records.
fn slots_ok(t: &[u8], w: usize, n: usize, own: [u8; 6], groups: &[u16], high: u8) -> bool
    requires { Reaches t.now w n × ((1 ≤ length groups.now) × (length groups.now ≤ 8)) }
    ensures { result ≡ all_below (λ k. peer_ok own groups.now high (slot (decode_table t.now) k)) n }
{
    (0..n).all(|k| slot_ok(t, w, k, own, groups, high))
}

// One above the number of a slot's address, 0 where it is free.
fn key_at(t: &[u8], w: usize, k: usize) -> u64
    requires { Reached t.now w k }
    ensures { result ≡ key (slot (decode_table t.now) k) }
{
    let number = number_at(t, w, k);
    if is_used(t, w, k) {
        return number + 1;
    }
    0
}

// The keys of the first n slots, side by side; what is lent may have room for more.
fn fill_keys(t: &[u8], w: usize, n: usize, keys: &mut [u64])
    requires { Reaches t.now w n × (n ≤ length keys.old) }
    ensures { (k : ℕ) → k < n → get_or keys.new k 0 ≡ key (slot (decode_table t.now) k) }
{
    for k in 0..n {
        keys[k] = key_at(t, w, k);
    }
}

// No key before is the same. A loop and no `contains`: all are compared, with no early way out. A free slot's key is compared with none.
fn is_new(keys: &[u64], k: usize) -> bool
    requires { k < length keys.now }
    ensures { result ≡ new_key keys.now k }
{
    let x = keys[k];
    if x == 0 {
        return true;
    }
    let mut any = false;
    for key in &keys[..k] {
        any |= *key == x;
    }
    !any
}

fn all_new(keys: &[u64], n: usize) -> bool
    requires { n ≤ length keys.now }
    ensures { result ≡ all_below (new_key keys.now) n }
{
    (0..n).all(|k| is_new(keys, k))
}

// The addresses of the slots in use differ; their keys are laid out in what is lent.
fn differ_in(t: &[u8], w: usize, n: usize, keys: &mut [u64]) -> bool
    requires { Reaches t.now w n × (n ≤ length keys.old) }
    ensures { result ≡ all_below (alone (decode_table t.now)) n }
{
    fill_keys(t, w, n, keys);
    all_new(keys, n)
}

// The same, if `used` is the number of slots in use: fewer than two have no address twice. No more room is taken for keys than a small table needs.
fn addresses_ok(t: &[u8], w: usize, n: usize, used: u16) -> bool
    requires { Reaches t.now w n × ((n ≤ 64) × (n ≡ slots (decode_table t.now))) }
    ensures { used ≡ used_count (decode_table t.now) → result ≡ addresses_ok (decode_table t.now) }
{
    if used < 2 {
        return true;
    }
    if n <= FEW {
        let mut few = [0u64; FEW];
        return differ_in(t, w, n, &mut few[..]);
    }
    let mut keys = [0u64; 64];
    differ_in(t, w, n, &mut keys[..])
}

fn counts_ok(t: &[u8], w: usize, h: Header, n: usize) -> bool
    requires { Reaches t.now w n × ((n ≤ 64) × ((h ≡ (decode_table t.now).header) × (n ≡ slots (decode_table t.now)))) }
    ensures { result ≡ counts_ok (decode_table t.now) }
{
    let counts = counts_below(t, w, n);
    (h.counts.used == counts.used)
        & ((h.counts.opened == counts.opened) & (h.counts.good == counts.good))
}

// The slots, their addresses and the counts, under a header of the right form.
fn body_ok(t: &[u8], h: Header, n: usize) -> bool
    requires { Whole t.now h n }
    ensures { result ≡ (slots_ok (decode_table t.now) && (addresses_ok (decode_table t.now) && counts_ok (decode_table t.now))) }
{
    let own = h.own;
    let gs = h.settings.groups;
    let m = h.settings.count as usize;
    let high = record::limit_of(h.settings.limit) + 1;
    let w = record::width_of(h);
    let slots = slots_ok(t, w, n, own, &gs[..m], high);
    let addresses = addresses_ok(t, w, n, h.counts.used);
    let counts = counts_ok(t, w, h, n);
    slots & (addresses & counts)
}

pub fn header_of(t: &[u8]) -> Header
    requires { 32 ≤ length t.now }
    ensures { result ≡ (decode_table t.now).header }
{
    record::load_header(t)
}

// The whole form of a table under its header.
fn is_whole(t: &[u8], h: Header) -> bool
    requires { Headed t.now h }
    ensures { result ≡ sound t.now }
{
    if !soundness::header_ok(h) {
        return false;
    }
    let n = h.geometry.slots as usize;
    let w = record::width_of(h);
    if t.len() != record::record_at(w, n) {
        return false;
    }
    body_ok(t, h, n)
}

// The whole form of the table, for octets of any number and content.
pub fn is_sound(t: &[u8]) -> bool
    ensures { result ≡ sound t.now }
{
    if t.len() < HEADER {
        return false;
    }
    let h = header_of(t);
    is_whole(t, h)
}

// Cause 2, and else the header, to be handed on. It is loaded once the test is done: kept over the test, each of its fields would be stored and loaded
// again.
pub fn check(t: &[u8]) -> Result<Header, Refusal>
    ensures { result ≡ checked t.now }
{
    if !is_sound(t) {
        return Err(Refusal::Unsound);
    }
    Ok(header_of(t))
}

// ---- a sound table

// The slot of an address.
fn find(t: &[u8], w: usize, n: usize, a: [u8; 6]) -> Option<usize>
    requires { Sized t.now w n }
    ensures { result ≡ finds (decode_table t.now) a }
{
    let x = octets::packed(a);
    find_below(t, w, n, x)
}

// "A new peer takes the free slot nearest the end."
pub fn free_slot(t: &[u8], w: usize, n: usize) -> Option<usize>
    requires { Sized t.now w n }
    ensures { result ≡ free_slot (decode_table t.now) }
{
    free_below(t, w, n)
}

// Causes 2 and 3, then the record's slot.
pub fn enter(t: &[u8], a: [u8; 6]) -> Result<Entrance, Refusal>
    ensures { result ≡ entering t.now a }
{
    let header = check(t)?;
    let own = header.own;
    if !soundness::is_usable(own, a) {
        return Err(Refusal::Address);
    }
    let w = record::width_of(header);
    let slot = find(t, w, header.geometry.slots as usize, a);
    Ok(Entrance { header, slot })
}

// ---- a record changed where it lies

// What a record adds to the counts.
#[derive(Clone, Copy)]
pub struct Standing {
    pub used: bool,
    pub opened: bool,
    pub good: bool,
}

pub fn standing_of(t: &[u8], w: usize, k: usize) -> Standing
    requires { Reached t.now w k }
    ensures { result ≡ standing_of (slot (decode_table t.now) k) }
{
    let used = is_used(t, w, k);
    let opened = is_open(t, w, k);
    let good = is_good(t, w, k);
    Standing { used, opened, good }
}

// A count that loses one record's share and takes another's.
fn moved(n: u16, was: bool, is: bool) -> u16
    requires { (bit was ≤ n) × (n ≤ 64) }
    ensures { result + bit was ≡ n + bit is }
{
    let w = octets::one_if(was);
    let i = octets::one_if(is);
    (n as usize + i - w) as u16
}

// The counts with the record that a slot has now, where another one's share was counted before.
fn counts_after(t: &[u8], k: usize, h: Header, was: Standing) -> Counts
    requires { Changed t.now k h was }
    ensures { result ≡ counts_of (decode_table t.now) }
{
    let w = record::width_of(h);
    let used = moved(h.counts.used, was.used, is_used(t, w, k));
    let opened = moved(h.counts.opened, was.opened, is_open(t, w, k));
    let good = moved(h.counts.good, was.good, is_good(t, w, k));
    Counts { used, opened, good }
}

// The counts are made true once the record of a slot was changed where it lies.
pub fn recount(t: &mut [u8], k: usize, h: Header, was: Standing)
    requires { Changed t.old k h was }
    ensures { t.new ≡ encode_table (recounted (decode_table t.old)) }
{
    let n = counts_after(t, k, h, was);
    record::set_counts(t, n);
}
