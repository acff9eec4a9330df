// The form of a header, tested in place; the form of a record is tested in `record_soundness`.
#![tactic(auto)]

ghost use Rattle.std.specs.Prelude.{◌≡◌, ◌≤◌};
ghost use Rattle.record.specs.Layout.{form_of};
ghost use Rattle.soundness.specs.Soundness.{own_ok, usable, groups_ok, period_ok, limit_ok, settings_ok, geometry_ok, header_ok, bounds_ok};

use record::{Form, Geometry, HEADER, Header, Settings};

pub fn own_ok(own: [u8; 6]) -> bool
    ensures { result ≡ own_ok own }
{
    let individual = octets::is_individual(own);
    let zero = octets::zero_address(own);
    individual & !zero
}

// "A usable address is individual, not zero, not our own."
pub fn is_usable(own: [u8; 6], a: [u8; 6]) -> bool
    ensures { result ≡ usable own a }
{
    let individual = octets::is_individual(a);
    let zero = octets::zero_address(a);
    let same = octets::same_address(a, own);
    individual & (!zero & !same)
}

// One to three groups, no more than the form has places for, each one that it can store, each once, and no entry past the count.
pub fn groups_ok(form: Form, n: u8, gs: [u16; 3]) -> bool
    requires { form.groups ≤ 3 }
    ensures { result ≡ groups_ok form n gs }
{
    if form.groups < n {
        return false;
    }
    let w = form.width;
    let a = gs[0];
    let b = gs[1];
    let c = gs[2];
    let first = groups::is_listable(a, w);
    if n == 1 {
        return first & ((b == 0) & (c == 0));
    }
    let second = groups::is_listable(b, w);
    let both = (first & second) & (a != b);
    if n == 2 {
        return both & (c == 0);
    }
    if n == 3 {
        let third = groups::is_listable(c, w);
        return both & (third & ((a != c) & (b != c)));
    }
    false
}

// 0, or from the least period to the most.
fn period_ok(entry: u16) -> bool
    ensures { result ≡ period_ok entry }
{
    (entry == 0) | ((Settings::LEAST_PERIOD <= entry) & (entry <= Settings::MOST_PERIOD))
}

// 0, or from 1 to the most: one comparison.
fn limit_ok(entry: u8) -> bool
    ensures { result ≡ limit_ok entry }
{
    entry <= Settings::MOST_SYNC_LIMIT
}

pub fn settings_ok(form: Form, s: Settings) -> bool
    requires { form.groups ≤ 3 }
    ensures { result ≡ settings_ok form s }
{
    let gs = s.groups;
    let groups = groups_ok(form, s.count, gs);
    let period = period_ok(s.period);
    let limit = limit_ok(s.limit);
    groups & ((s.threshold <= 64) & (period & limit))
}

fn geometry_ok(form: Form, g: Geometry) -> bool
    requires { form ≡ form_of g.size }
    ensures { result ≡ geometry_ok g }
{
    (1 <= g.slots) & ((g.slots <= form.slots) & (g.first == HEADER as u16))
}

// The header, its counts and settings apart.
pub fn bounds_ok(form: Form, h: Header) -> bool
    requires { form ≡ form_of h.geometry.size }
    ensures { result ≡ bounds_ok h }
{
    let g = h.geometry;
    let own = h.own;
    let geometry = geometry_ok(form, g);
    let owner = own_ok(own);
    geometry & ((h.spare == 0) & owner)
}

// The header, its counts apart.
pub fn header_ok(h: Header) -> bool
    ensures { result ≡ header_ok h }
{
    let s = h.settings;
    let form = record::form_of(h.geometry.size);
    let bounds = bounds_ok(form, h);
    let settings = settings_ok(form, s);
    bounds & settings
}
