// The table that set up makes.
#![tactic(auto)]

ghost use Rattle.std.specs.Prelude.{◌≡◌, ◌++◌, ◌-◌, ◌≤◌, length, replicate};
ghost use Rattle.causes.specs.declared.Refusal.TheVariants as why;
ghost use Rattle.causes.specs.Causes.{passes};
ghost use Rattle.record.specs.Layout.{encode_header};
ghost use Rattle.initial.specs.Initial.{made, slots_for, length_ok, initial_header, initial_ok, initial};

use causes::Refusal;
use record::{Counts, Geometry, HEADER, Header, Settings};

fn slots_for(n: usize) -> usize
    requires { 32 ≤ n }
    ensures { result ≡ slots_for made n }
{
    let form = record::wide();
    (n - HEADER) / form.size as usize
}

// Whether a length is that of 1 to 60 slots.
fn length_ok(n: usize) -> bool
    ensures { result ≡ length_ok made n }
{
    if n < HEADER {
        return false;
    }
    let form = record::wide();
    let k = slots_for(n);
    (1 <= k) & ((k <= form.slots as usize) & ((n - HEADER) % form.size as usize == 0))
}

fn initial_ok(s: Settings, own: [u8; 6], n: usize) -> bool
    ensures { result ≡ initial_ok made s own n }
{
    let form = record::wide();
    let settings = soundness::settings_ok(form, s);
    let owner = soundness::own_ok(own);
    let length = length_ok(n);
    settings & (owner & length)
}

fn initial_header(s: Settings, own: [u8; 6], n: u16) -> Header
    ensures { result ≡ initial_header made s own n }
{
    let form = record::wide();
    Header {
        geometry: Geometry {
            slots: n,
            size: form.size,
            first: HEADER as u16,
        },
        counts: Counts {
            used: 0,
            opened: 0,
            good: 0,
        },
        spare: 0,
        own,
        settings: s,
    }
}

// A header, and zeros for all the slots.
fn store_fresh(t: &mut [u8], h: Header)
    requires { 32 ≤ length t.old }
    ensures { t.new ≡ encode_header h ++ replicate (length t.old - 32) 0 }
{
    record::clear(&mut t[HEADER..]);
    record::store_header(&mut t[0..HEADER], h);
}

// The initial table goes into a lent buffer, or cause 1 holds and the buffer stays as it was.
pub fn write_initial(t: &mut [u8], own: [u8; 6], s: Settings) -> Result<(), Refusal>
    ensures { (result ≡ passes (initial_ok made s own (length t.old)) why.Settings) × (t.new ≡ initial made s own t.old) }
{
    let n = t.len();
    if !initial_ok(s, own, n) {
        return Err(Refusal::Settings);
    }
    let h = initial_header(s, own, slots_for(n) as u16);
    store_fresh(t, h);
    Ok(())
}
