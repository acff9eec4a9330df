// How many good links: the count filled in, and which headers a sound table can have.
#![tactic(auto)]

ghost use Rattle.std.specs.Prelude.{◌≡◌};
ghost use Rattle.causes.specs.declared.Refusal.TheVariants as why;
ghost use Rattle.causes.specs.Causes.{passes};
ghost use Rattle.table.specs.Table.{sound};
ghost use Rattle.good_links.specs.GoodLinks.{header_possible, countable, filled, fills};

use causes::Refusal;
use record::{HEADER, Header};

// Whether some sound table has this header: its fields, and what the counts of so many slots can be. `header_ok` is not called: with a second caller the
// compiler would no longer put it into the test of a table, which every call makes.
pub fn is_possible(h: Header) -> bool
    ensures { result ≡ header_possible h }
{
    let n = h.geometry.slots;
    let used = h.counts.used;
    let s = h.settings;
    let form = record::form_of(h.geometry.size);
    let bounds = soundness::bounds_ok(form, h);
    let settings = soundness::settings_ok(form, s);
    (bounds & settings) & ((h.counts.opened <= used) & ((used <= n) & (h.counts.good <= used)))
}

// Whether the octets are as many as the header tells, of at most 64 slots.
fn is_countable(t: &[u8]) -> bool
    ensures { result ≡ countable t.now }
{
    if t.len() < HEADER {
        return false;
    }
    let h = table::header_of(t);
    let n = h.geometry.slots as usize;
    let w = record::width_of(h);
    (n <= 64) & (t.len() == record::record_at(w, n))
}

// The true count of good links goes into the header of a table otherwise sound, or cause 2 holds and every octet stays. The count that is there is not looked
// at; it is put back where the table is not sound with the true one.
pub fn fill_good(t: &mut [u8]) -> Result<(), Refusal>
    ensures { (result ≡ passes (sound (filled t.old)) why.Unsound) × (t.new ≡ fills t.old) }
{
    if !is_countable(t) {
        return Err(Refusal::Unsound);
    }
    let h = table::header_of(t);
    let w = record::width_of(h);
    let counts = table::counts_below(t, w, h.geometry.slots as usize);
    record::set_good(t, counts.good);
    if !table::is_sound(t) {
        record::set_good(t, h.counts.good);
        return Err(Refusal::Unsound);
    }
    Ok(())
}
