// One record's fields, read where its octets lie.
#![tactic(auto, using(crate::proofs::Windows::reads))]

ghost use Rattle.std.specs.Prelude.{◌≡◌, ◌≤◌, length};
ghost use Rattle.groups.specs.Groups.{width as most_width};
ghost use Rattle.record.specs.Layout.{record_size, decode_peer};

use crate::{
    FINISHED, GROUP, LINK_GROUP, LINK_SYNC, RC, REJECTED, RUN, RUN_OWN, SC, STATE, SYNC, T0, T1,
    TOKEN, TOKLEN, link_at, link_peer_at, run_token_at,
};

// The run's fields before its commit lie where they lie at any width, so these ask for less than a Record, which bounds its own.
pub fn state_of(s: &[u8], w: usize) -> u8
    requires { length s.now ≡ record_size w }
    ensures { result ≡ (decode_peer w s.now).run.state }
{
    octets::get8(s, RUN + STATE)
}

pub fn sync_of(s: &[u8], w: usize) -> u8
    requires { length s.now ≡ record_size w }
    ensures { result ≡ (decode_peer w s.now).run.sync }
{
    octets::get8(s, RUN + SYNC)
}

pub fn rejected_of(s: &[u8], w: usize) -> u8
    requires { length s.now ≡ record_size w }
    ensures { result ≡ (decode_peer w s.now).run.rejected }
{
    octets::get8(s, RUN + REJECTED)
}

pub fn sc_of(s: &[u8], w: usize) -> u16
    requires { length s.now ≡ record_size w }
    ensures { result ≡ (decode_peer w s.now).run.sc }
{
    octets::get16(s, RUN + SC)
}

pub fn group_of(s: &[u8], w: usize) -> u16
    requires { length s.now ≡ record_size w }
    ensures { result ≡ (decode_peer w s.now).run.group }
{
    octets::get16(s, RUN + GROUP)
}

pub fn toklen_of(s: &[u8], w: usize) -> u16
    requires { length s.now ≡ record_size w }
    ensures { result ≡ (decode_peer w s.now).run.toklen }
{
    octets::get16(s, RUN + TOKLEN)
}

pub fn t0_of(s: &[u8], w: usize) -> u32
    requires { length s.now ≡ record_size w }
    ensures { result ≡ (decode_peer w s.now).run.t0 }
{
    octets::get32(s, RUN + T0)
}

// One record's octets, and the width that its table stores a commit with.
#[derive(Clone, Copy)]
pub struct Record<'a> {
    pub octets: &'a [u8],
    pub width: usize,
    ghost most: { width ≤ most_width },
    ghost whole: { length octets.now ≡ record_size width },
}

impl<'a> Record<'a> {
    ghost use Rattle.groups.specs.Groups.{stored};
    ghost use Rattle.record.specs.Reading.{peer_in};

    // The run's state, Sync, rejected groups, Sc, group, token length and t0.
    pub fn state(&self) -> u8
        ensures { result ≡ (peer_in self.now).run.state }
    {
        state_of(self.octets, self.width)
    }

    pub fn sync(&self) -> u8
        ensures { result ≡ (peer_in self.now).run.sync }
    {
        sync_of(self.octets, self.width)
    }

    pub fn rejected(&self) -> u8
        ensures { result ≡ (peer_in self.now).run.rejected }
    {
        rejected_of(self.octets, self.width)
    }

    pub fn sc(&self) -> u16
        ensures { result ≡ (peer_in self.now).run.sc }
    {
        sc_of(self.octets, self.width)
    }

    pub fn group(&self) -> u16
        ensures { result ≡ (peer_in self.now).run.group }
    {
        group_of(self.octets, self.width)
    }

    pub fn toklen(&self) -> u16
        ensures { result ≡ (peer_in self.now).run.toklen }
    {
        toklen_of(self.octets, self.width)
    }

    pub fn t0(&self) -> u32
        ensures { result ≡ (peer_in self.now).run.t0 }
    {
        t0_of(self.octets, self.width)
    }

    // Its own commit and its token, where they lie.
    pub fn own(&self) -> &'a [u8]
        ensures { (length result.now ≡ self.now.width) × (stored result.now ≡ (peer_in self.now).run.own) }
    {
        let a = RUN + RUN_OWN;
        let e = a + self.width;
        &self.octets[a..e]
    }

    pub fn token(&self) -> &'a [u8]
        ensures { result.now ≡ (peer_in self.now).run.token }
    {
        let a = RUN + run_token_at(self.width);
        let e = a + TOKEN;
        &self.octets[a..e]
    }

    // The link's first octet, Sync, group, Rc and t1.
    pub fn finished(&self) -> u8
        ensures { result ≡ (peer_in self.now).link.finished }
    {
        octets::get8(self.octets, link_at(self.width) + FINISHED)
    }

    pub fn link_sync(&self) -> u8
        ensures { result ≡ (peer_in self.now).link.sync }
    {
        octets::get8(self.octets, link_at(self.width) + LINK_SYNC)
    }

    pub fn link_group(&self) -> u16
        ensures { result ≡ (peer_in self.now).link.group }
    {
        octets::get16(self.octets, link_at(self.width) + LINK_GROUP)
    }

    pub fn rc(&self) -> u16
        ensures { result ≡ (peer_in self.now).link.rc }
    {
        octets::get16(self.octets, link_at(self.width) + RC)
    }

    pub fn t1(&self) -> u32
        ensures { result ≡ (peer_in self.now).link.t1 }
    {
        octets::get32(self.octets, link_at(self.width) + T1)
    }

    // Its peer's commit, where it lies.
    pub fn link_peer(&self) -> &'a [u8]
        ensures { (length result.now ≡ self.now.width) × (stored result.now ≡ (peer_in self.now).link.peer) }
    {
        let a = link_at(self.width) + link_peer_at(self.width);
        let e = a + self.width;
        &self.octets[a..e]
    }
}
