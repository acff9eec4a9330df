// The rules: perform what the ladder says, in a record's own octets.
#![tactic(auto)]

ghost use Rattle.std.specs.Prelude.{[]};
ghost use Rattle.groups.specs.Stocked.{commits_in};
ghost use Rattle.record.specs.Layout.{decode_peer};
ghost use Rattle.message.specs.Received.{message_in, terms_in, call_in};
ghost use Rattle.rules.specs.Book.{on_frame, on_clock, on_start};
ghost use Rattle.rules.specs.Said.{Does};
ghost use Rattle.rules.specs.Given.{terms, call, Whole};

use groups::Stock;
use message::Heard;
use record::Record;
use rules::{Given, Said};

// A frame.
pub fn on_frame(s: &mut [u8], heard: &Heard) -> Said
    requires { Whole heard.now.given.clock heard.now.stock.width s.old }
    ensures { let d = heard.now in let w = d.stock.width in Does w result s.new (on_frame (terms_in d) (call_in d) (decode_peer w s.old) (message_in d)) }
{
    let peer = Record {
        octets: s,
        width: heard.stock.width,
    };
    let act = decide::frame(&peer, heard);
    perform::perform(s, heard, act)
}

// A deadline of the record is due: "t0 before t1". No frame is there to be decided on, so the ladder's two rungs stand here; and no stock comes with the clock,
// so the width and the groups, of which the clause speaks, stand alone.
pub fn on_clock(s: &mut [u8], w: usize, g: Given, groups: &[u16]) -> Said
    requires { Whole g.clock w s.old }
    ensures { Does w result s.new (on_clock (terms g groups.now) (call g []) (decode_peer w s.old)) }
{
    let clock = g.clock;
    let time = clock.time;
    let peer = Record {
        octets: s,
        width: w,
    };
    let first = deadlines::t0_due(&peer, time);
    if !first {
        return acts::end_link(s, w);
    }
    let state = peer.state();
    if state == 2 {
        return perform::confirm_again(s, w, clock);
    }
    perform::repeat_commit(s, w, clock)
}

// A start: the ladder's one rung, and the act.
pub fn on_start(s: &mut [u8], g: Given, stock: &Stock) -> Said
    requires { Whole g.clock stock.now.width s.old }
    ensures { let k = stock.now in Does k.width result s.new (on_start (terms g k.groups.now) (call g (commits_in k)) (decode_peer k.width s.old)) }
{
    let full = g.full;
    if full {
        return acts::say_refused();
    }
    let address = g.address;
    let clock = g.clock;
    perform::begin(s, address, stock, clock)
}
