// What the rules speak of, as types: what a call gives, the acts by name, and what is said. The rules themselves are definitions (specs/Book).
#![tactic(auto)]

// The clock's reading, and with it what a table says of times: the first period, and the Sync limit. That its longest delay fits 32 bits is asked where one is
// worked out, and is no ghost field here: the definitions make a clock of the entries of any header.
#[derive(Clone, Copy)]
pub struct Clock {
    pub time: u32,
    pub period: u16,
    pub limit: u8,
}

// What a call gives a rule beside the groups and the fresh commits. Of the table: our own address, whether Open is at or above the threshold, whether
// the peer has no record and no slot is free for one. Of the call: the peer's address, the clock, the expected token and the verdict.
#[derive(Clone, Copy)]
pub struct Given {
    pub own: [u8; 6],
    pub crowded: bool,
    pub full: bool,
    pub address: [u8; 6],
    pub clock: Clock,
    pub expected: [u8; 32],
    pub verified: bool,
}

// What a rule may do.
#[derive(Clone, Copy)]
pub enum Act {
    Drop,
    RefuseGroup,
    AskToken,
    NoSlot,
    AnswerCommit,
    ConfirmCommit,
    ReplyToken,
    SwitchGroup,
    RepeatCommit,
    RepeatRefusal,
    ResendBoth,
    ConfirmAgain,
    GiveUp,
    Accept,
    HearAgain,
    HearLast,
    EndLink,
    Begin,
}

// What the host is told of a step.
#[derive(Clone, Copy)]
pub enum Event {
    None,
    Accepted,
    Abandoned,
    Ended,
}

// The number of an event.
impl From<Event> for u8 {
    ghost use Rattle.std.specs.Prelude.{◌≡◌};
    ghost use Rattle.rules.specs.Book.{event_number};

    ghost from_gives = { λ e n. n ≡ event_number e };

    fn from(e: Event) -> u8 {
        match e {
            Event::None => 0,
            Event::Accepted => 1,
            Event::Abandoned => 2,
            Event::Ended => 3,
        }
    }
}

// A frame to send.
#[derive(Clone, Copy)]
pub struct Frame {
    pub sequence: u16,
    pub status: u16,
    pub group: u16,
    pub counter: u16,
}

// The frames to send, in order.
#[derive(Clone, Copy)]
pub enum Frames {
    None,
    One(Frame),
    Two(Frame, Frame),
}

// What an act says beside the record that it leaves: the event, the frames, the group of the commit used afresh or 0, and whether it is refused
// for want of a slot.
#[derive(Clone, Copy)]
pub struct Said {
    pub event: Event,
    pub frames: Frames,
    pub afresh: u16,
    pub refused: bool,
}
