// The fresh commits that a call brings, one for each group of a list.
#![tactic(auto)]

ghost use Rattle.std.specs.Prelude.{◌≡◌, ◌*◌, ◌≤◌, ◌<◌, length};
ghost use Rattle.groups.specs.Groups.{width as most_width};

// A list of groups in order of preference, few enough for their marks, and a fresh commit for each, stored with `width` octets.
#[derive(Clone, Copy)]
pub struct Stock<'a> {
    pub groups: &'a [u16],
    pub fresh: &'a [u8],
    pub width: usize,
    ghost wide: { 1 ≤ width },
    ghost most: { width ≤ most_width },
    ghost some: { 1 ≤ length groups.now },
    ghost few: { length groups.now ≤ 8 },
    ghost each: { length fresh.now ≡ width * length groups.now },
}

impl<'a> Stock<'a> {
    ghost use Rattle.groups.specs.Groups.{stored, fresh_at, fresh_for};
    ghost use Rattle.groups.specs.Stocked.{commits_in};

    // The fresh commit of the i-th group, where it lies.
    pub fn fresh_at(&self, i: usize) -> &'a [u8]
        requires { i < length self.now.groups.now }
        ensures { (length result.now ≡ self.now.width) × (stored result.now ≡ fresh_at (commits_in self.now) i) }
    {
        crate::fresh_at(self.fresh, self.width, i)
    }

    // The fresh commit of a listed group.
    pub fn fresh_for(&self, group: u16) -> &'a [u8]
        ensures { (length result.now ≡ self.now.width) × (stored result.now ≡ fresh_for self.now.groups.now (commits_in self.now) group) }
    {
        crate::fresh_for(self.groups, self.fresh, self.width, group)
    }
}
