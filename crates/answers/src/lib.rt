// What calls answer: the answer of a call that was not refused, where a record is worked on, and the end of every call.
#![tactic(auto)]

ghost use Rattle.std.specs.Prelude.{◌≡◌};
ghost use Rattle.table.specs.Table.{decode_table, encode_table, recounted, Changed, Sized};
ghost use Rattle.answers.specs.Answers.{answer_of, quiet_answer, seating};

use record::Header;
use rules::{Event, Frames, Said};
use table::Standing;

// What a call answers that was not refused: the event, the frames to send in order, the group of the stock's commit that was used or 0, and the address.
#[derive(Clone, Copy)]
pub struct Answer {
    pub event: Event,
    pub frames: Frames,
    pub afresh: u16,
    pub address: [u8; 6],
}

pub fn say(s: Said, address: [u8; 6]) -> Answer
    ensures { result ≡ answer_of s address }
{
    let event = s.event;
    let frames = s.frames;
    Answer {
        event,
        frames,
        afresh: s.afresh,
        address,
    }
}

pub fn say_nothing(address: [u8; 6]) -> Answer
    ensures { result ≡ quiet_answer address }
{
    Answer {
        event: Event::None,
        frames: Frames::None,
        afresh: 0,
        address,
    }
}

// The slot where a call's record is or would be: that of its address, or the free one nearest the end.
pub fn seat_of(t: &[u8], w: usize, n: usize, f: Option<usize>) -> Option<usize>
    requires { Sized t.now w n }
    ensures { result ≡ seating (decode_table t.now) f }
{
    f.or_else(|| table::free_slot(t, w, n))
}

// The end of a call that changed the record of a slot: the counts are made true.
pub fn finish_at(
    t: &mut [u8],
    k: usize,
    h: Header,
    was: Standing,
    s: Said,
    address: [u8; 6],
) -> Answer
    requires { Changed t.old k h was }
    ensures { (result ≡ answer_of s address) × (t.new ≡ encode_table (recounted (decode_table t.old))) }
{
    table::recount(t, k, h, was);
    say(s, address)
}
